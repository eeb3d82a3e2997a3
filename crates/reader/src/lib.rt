// The reader: bytes to the fields of one power TLV.
#![tactic(auto)]

ghost use Rattle.std.specs.Prelude.{◌≡◌, true, ◌<◌, length};
ghost use Rattle.reader.specs.Read.{exactly_one, added_in, form_in, read_of};

use fields::{Added, Fields, Form, bad_values};
use header::{is_power, length_at, word_at};
use sizes::refusals::Refusal;

#[tactic(auto, unfolding(crate::specs::Read::exactly_one, header::specs::Header::size_at))]
fn exactly_one(bytes: &[u8]) -> bool
    ensures { result ≡ exactly_one bytes.now }
{
    let length = length_at(bytes, 0);
    bytes.len() == 2 + length && is_power(bytes, 0) && matches!(length, 7 | 12)
}

#[tactic(auto, unfolding(crate::specs::Read::added_in, lists::specs::Bits::field))]
fn added_in(bytes: &[u8]) -> Added
    requires { 13 < length bytes.now }
    ensures { result ≡ added_in bytes.now }
{
    let octet = u64::from(bytes[9]);
    Added {
        kind: octet / 64 % 4,
        source: octet / 16 % 4,
        priority: octet % 4,
        requested: u64::from(word_at(bytes, 10)),
        allocated: u64::from(word_at(bytes, 12)),
    }
}

#[tactic(auto, using(crate::proofs::ExactlyOne::fourteen), unfolding(crate::specs::Read::form_in))]
fn form_in(bytes: &[u8]) -> Form
    requires { exactly_one bytes.now ≡ true }
    ensures { result ≡ form_in bytes.now }
{
    if length_at(bytes, 0) == 7 {
        Form::Short
    } else {
        Form::Long(added_in(bytes))
    }
}

// Nothing is asked of the bytes: whatever they are, they have an answer.
#[tactic(auto, using(crate::proofs::ExactlyOne::three), unfolding(crate::specs::Read::read_of, crate::specs::Read::fields_in, crate::specs::Read::cut, header::specs::Header::size_at))]
pub fn read(bytes: &[u8]) -> Result<Fields, Refusal>
    ensures { result ≡ read_of bytes.now }
{
    if bytes.len() < 2 || bytes.len() < 2 + length_at(bytes, 0) {
        return Err(Refusal::Cut);
    }
    if !exactly_one(bytes) {
        return Err(Refusal::NotOneTlv);
    }
    let form = form_in(bytes);
    if bad_values(form) {
        return Err(Refusal::BadValue);
    }
    Ok(Fields {
        support: bytes[6],
        pair: bytes[7],
        class: bytes[8],
        form,
    })
}
