// The calls on a PDU and on a power TLV, whose fields are nine numbers.
ghost use Rattle.std.specs.Prelude.{◌≡◌, false};
ghost use Rattle.numbers.specs.Numbers.{no_fields};
ghost use Rattle.search.specs.Search.{search_of};
ghost use Rattle.reader.specs.Read.{read_of};
ghost use Rattle.ipaqsuni.specs.Outcome.{number_of, leaves};
ghost use Rattle.ipaqsuni.specs.Tlv.{offset_found, size_found, numbers_of, Narrow, fields_given, write_call, room_written, size_written};

use crate::number_of;
use fields::{Fields, Form};
use numbers::{form_given, no_fields};
use sizes::refusals::Refusal;

pub fn ipaqsuni_find_power_tlv(pdu: &[u8], offset: &mut u64, length: &mut u64) -> u32
    ensures value { result ≡ number_of (search_of pdu.now) }
    ensures offset_after { offset.new ≡ leaves offset_found (search_of pdu.now) offset.old }
    ensures length_after { length.new ≡ leaves size_found (search_of pdu.now) length.old }
{
    let found = search::search(pdu);
    if let Ok(part) = found {
        *offset = part.start as u64;
        *length = part.size as u64;
    }
    number_of(found)
}

#[tactic(auto, unfolding(crate::specs::Tlv::numbers_of))]
fn numbers_of(fields: Fields) -> [u32; 9]
    requires { Narrow fields.form }
    ensures { result ≡ numbers_of fields }
{
    let support = u32::from(fields.support);
    let pair = u32::from(fields.pair);
    let class = u32::from(fields.class);
    match fields.form {
        Form::Short => [7, support, pair, class, 0, 0, 0, 0, 0],
        Form::Long(added) => [
            12,
            support,
            pair,
            class,
            added.kind as u32,
            added.source as u32,
            added.priority as u32,
            added.requested as u32,
            added.allocated as u32,
        ],
    }
}

#[tactic(auto, unfolding(reader::specs::Read::read_of, reader::specs::Read::form_in, reader::specs::Read::fields_in, reader::specs::Read::added_in, lists::specs::Bits::field, fields::specs::Fields::bad_values, fields::specs::Fields::too_high))]
pub fn ipaqsuni_read_power_tlv(tlv: &[u8], fields: &mut [u32; 9]) -> u32
    ensures value { result ≡ number_of (read_of tlv.now) }
    ensures fields_after { fields.new ≡ leaves numbers_of (read_of tlv.now) fields.old }
{
    let read = reader::read(tlv);
    if let Ok(taken) = read {
        *fields = numbers_of(taken);
    }
    number_of(read)
}

#[tactic(auto, unfolding(crate::specs::Tlv::fields_given, numbers::specs::Numbers::no_fields))]
fn fields_given(numbers: &[u32; 9]) -> Fields
    requires { no_fields numbers.now ≡ false }
    ensures { result ≡ fields_given numbers.now }
{
    Fields {
        support: numbers[1] as u8,
        pair: numbers[2] as u8,
        class: numbers[3] as u8,
        form: form_given(numbers),
    }
}

#[tactic(auto, unfolding(crate::specs::Tlv::write_call, writer::specs::Write::room_after))]
pub fn ipaqsuni_write_power_tlv(fields: &[u32; 9], room: &mut [u8], written: &mut u64) -> u32
    ensures value { result ≡ number_of (write_call fields.now room.old) }
    ensures room_after { room.new ≡ leaves room_written (write_call fields.now room.old) room.old }
    ensures written_after { written.new ≡ leaves size_written (write_call fields.now room.old) written.old }
{
    if no_fields(fields) {
        return u32::from(Refusal::Reserved.number());
    }
    let wrote = writer::write(fields_given(fields), room);
    if let Ok(size) = wrote {
        *written = size as u64;
    }
    number_of(wrote)
}
