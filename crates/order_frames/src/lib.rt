// "Order of checks": for the search, the reader and the writer the first number of document 01's list whose condition holds, and 0 if none
// does, worked out from the bytes and the fields, for the programs that judge the core. Nothing of it is borrowed from the core but the names
// of a TLV's fields. Kept numbers, and 0 for none: they are held against what C is answered (`first_number`).
#![tactic(auto)]

ghost use Rattle.std.specs.Prelude.{◌≡◌, ◌+◌, ◌<◌, ◌≤◌, ◌^◌, length};
ghost use Rattle.lists.specs.Bytes.{word_at};
ghost use Rattle.fields.specs.Fields.{too_high};
ghost use Rattle.header.specs.Header.{type_at, length_at, size_at, is_power};
ghost use Rattle.reader.specs.Read.{read_refusals};
ghost use Rattle.search.specs.Search.{search_refusals};
ghost use Rattle.writer.specs.Write.{write_refusals};
ghost use Rattle.interface.specs.Statement1C.{first_number};
ghost use Rattle.order_frames.specs.Walking.{counted_number};

use fields::{Fields, Form};

// Two bytes as a number, the high one first.
#[tactic(auto, unfolding(lists::specs::Bytes::word_at))]
fn word_at(bytes: &[u8], at: usize) -> u16
    requires { at + 1 < length bytes.now }
    ensures { result ≡ word_at bytes.now at }
{
    u16::from_be_bytes([bytes[at], bytes[at + 1]])
}

// "Type 127 (7 bits)": the upper seven bits of a header.
#[tactic(auto, unfolding(header::specs::Header::type_at, lists::specs::Bits::field))]
fn type_at(bytes: &[u8], at: usize) -> u16
    requires { at + 1 < length bytes.now }
    ensures { result ≡ type_at bytes.now at }
{
    word_at(bytes, at) / 512
}

// "length (9 bits)": its lower nine.
#[tactic(auto, unfolding(header::specs::Header::length_at, lists::specs::Bits::field))]
fn length_at(bytes: &[u8], at: usize) -> usize
    requires { at + 1 < length bytes.now }
    ensures { (result ≡ length_at bytes.now at) × (result < 2 ^ 9) }
{
    usize::from(word_at(bytes, at) % 512)
}

// "A TLV of type 127, length 4 or more, with that OUI and subtype is a power TLV."
#[tactic(auto, unfolding(header::specs::Header::is_power, header::specs::Header::fixed_at, header::specs::Header::stands_at, header::specs::Header::size_at))]
fn power_at(bytes: &[u8], at: usize) -> bool
    requires { at + size_at bytes.now at ≤ length bytes.now }
    ensures { result ≡ is_power bytes.now at }
{
    type_at(bytes, at) == 127
        && 4 <= length_at(bytes, at)
        && bytes[at + 2..].starts_with(&[0x00, 0x12, 0x0f, 0x02])
}

// Refusal 8, "more than one power TLV in the PDU", and 7, "no power TLV in the PDU".
#[tactic(auto, unfolding(crate::specs::Walking::counted_number))]
fn counted(powers: usize) -> u8
    ensures { result ≡ counted_number powers }
{
    match powers {
        0 => 7,
        1 => 0,
        _ => 8,
    }
}

// "PDU search: 1, 6, 8, 7."; "It ends at a type 0 header, whatever its length, or where the bytes end on a boundary."; "A lone last byte is
// cut (6)."
pub fn search_number(pdu: &[u8]) -> u8
    ensures { result ≡ first_number (search_refusals pdu.now) }
{
    if 1_500 < pdu.len() {
        return 1;
    }
    let mut powers = 0;
    let mut at = 0;
    // A while: each step is as long as its TLV.
    while at < pdu.len() {
        if pdu.len() - at < 2 {
            return 6;
        }
        if type_at(pdu, at) == 0 {
            break;
        }
        let size = 2 + length_at(pdu, at);
        if pdu.len() - at < size {
            return 6;
        }
        powers += usize::from(power_at(pdu, at));
        at += size;
    }
    counted(powers)
}

// Request [4] of document 02: "Reading and writing a TLV now give refusal 10 only above 999."
#[tactic(auto, unfolding(fields::specs::Fields::too_high))]
fn bad_value(value: u64) -> bool
    ensures { result ≡ too_high value }
{
    999 < value
}

// "Reading a TLV: 6, 9, 10."; "fewer than two bytes, or fewer than the header says, are 6; bytes left over are 9"; "of length 7 or 12".
#[tactic(auto, unfolding(reader::specs::Read::cut, reader::specs::Read::exactly_one, reader::specs::Read::form_in, reader::specs::Read::added_in, fields::specs::Fields::bad_values, header::specs::Header::size_at))]
pub fn read_number(bytes: &[u8]) -> u8
    ensures { result ≡ first_number (read_refusals bytes.now) }
{
    if bytes.len() < 2 {
        return 6;
    }
    let length = length_at(bytes, 0);
    if bytes.len() < 2 + length {
        return 6;
    }
    if bytes.len() != 2 + length || !power_at(bytes, 0) || !matches!(length, 7 | 12) {
        return 9;
    }
    if length == 12
        && (bad_value(u64::from(word_at(bytes, 10))) || bad_value(u64::from(word_at(bytes, 12))))
    {
        return 10;
    }
    0
}

// "Writing: 3, 10, 1."; a TLV of length 7 takes nine bytes, one of length 12 fourteen.
#[tactic(auto, unfolding(writer::specs::Write::bad_codes, writer::specs::Write::bytes_of, fields::specs::Fields::bad_values))]
pub fn write_number(fields: Fields, room: &[u8]) -> u8
    ensures { result ≡ first_number (write_refusals fields room.now) }
{
    match fields.form {
        Form::Short => if room.len() < 9 { 1 } else { 0 },
        Form::Long(added) => {
            if 3 < added.kind || 3 < added.source || 3 < added.priority {
                3
            } else if bad_value(added.requested) || bad_value(added.allocated) {
                10
            } else if room.len() < 14 {
                1
            } else {
                0
            }
        }
    }
}
