// The writer: fields to the bytes of one power TLV, in room that the caller lends.
#![tactic(auto)]

ghost use Rattle.std.specs.Prelude.{◌≡◌, false};
ghost use Rattle.fields.specs.Fields.{bad_values};
ghost use Rattle.writer.specs.Write.{bad_codes, added_bytes, head_bytes, written_of, room_after};

use fields::{Added, Fields, Form, bad_values};
use sizes::refusals::Refusal;

// Refusal 3.
#[tactic(auto, unfolding(crate::specs::Write::bad_codes))]
fn bad_codes(form: Form) -> bool
    ensures { result ≡ bad_codes form }
{
    match form {
        Form::Short => false,
        Form::Long(added) => 3 < added.kind || 3 < added.source || 3 < added.priority,
    }
}

fn head_bytes(fields: Fields, body: u8) -> [u8; 9]
    ensures { result ≡ head_bytes fields body }
{
    let [high, low] = (512 * 127 + u16::from(body)).to_be_bytes();
    let [oui_1, oui_2, oui_3, subtype] = *b"\x00\x12\x0f\x02";
    [
        high,
        low,
        oui_1,
        oui_2,
        oui_3,
        subtype,
        fields.support,
        fields.pair,
        fields.class,
    ]
}

#[tactic(auto, using(crate::proofs::InRange::codes, crate::proofs::InRange::values))]
fn added_bytes(added: Added) -> [u8; 5]
    requires { (bad_codes (Form.Long added) ≡ false) × (bad_values (Form.Long added) ≡ false) }
    ensures { result ≡ added_bytes added }
{
    let octet = (64 * added.kind + 16 * added.source + added.priority) as u8;
    let [requested, requested_low] = (added.requested as u16).to_be_bytes();
    let [allocated, allocated_low] = (added.allocated as u16).to_be_bytes();
    [octet, requested, requested_low, allocated, allocated_low]
}

// Every refusal comes before the first byte is written.
#[tactic(auto, unfolding(crate::specs::Write::written_of, crate::specs::Write::room_after, crate::specs::Write::bytes_of))]
pub fn write(fields: Fields, room: &mut [u8]) -> Result<usize, Refusal>
    ensures { (result ≡ written_of fields room.old) × (room.new ≡ room_after fields room.old) }
{
    let form = fields.form;
    if bad_codes(form) {
        return Err(Refusal::Reserved);
    }
    if bad_values(form) {
        return Err(Refusal::BadValue);
    }
    match form {
        Form::Short => {
            if room.len() < 9 {
                return Err(Refusal::BadLength);
            }
            room[..9].copy_from_slice(&head_bytes(fields, 7));
            Ok(9)
        }
        Form::Long(added) => {
            if room.len() < 14 {
                return Err(Refusal::BadLength);
            }
            room[..9].copy_from_slice(&head_bytes(fields, 12));
            room[9..14].copy_from_slice(&added_bytes(added));
            Ok(14)
        }
    }
}
