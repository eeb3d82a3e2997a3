// The second demand, of frames: "Whatever is written reads back as written; bytes that read, with 3:2 zero, are rewritten the same." and
// "Room past a written TLV keeps its bytes." The functions that ship write and read; whether document 01 refuses is worked out anew, by
// `order_frames`.
#![tactic(auto)]

ghost use Rattle.std.specs.Prelude.{◌≡◌, ◌≤◌, cond, length, drop};
ghost use Rattle.judge.specs.Alike.{alike};
ghost use Rattle.verdict.specs.declared.Verdict.TheVariants.{Held, NotAsked};
ghost use Rattle.writer.specs.Write.{room_after};
ghost use Rattle.second_frames.specs.Asks.{asks_write, zero_sent, asks_read};
ghost use Rattle.second_frames.specs.Right.{tlv_size, reads_as, written_right, rewritten_right};

use fields::{Fields, Form};
use judge::same;
use order_frames::{read_number, write_number};
use reader::read;
use verdict::Verdict;
use writer::write;

// "Length 7", "Length 12", and the two bytes of the header.
fn tlv_size(form: Form) -> usize
    ensures { result ≡ tlv_size form }
{
    match form {
        Form::Short => 9,
        Form::Long(_) => 14,
    }
}

// Every field is compared.
#[tactic(auto, unfolding(crate::specs::Right::reads_as, crate::specs::Same::same_fields, crate::specs::Same::same_form, crate::specs::Same::same_added))]
fn reads_as(tlv: &[u8], fields: Fields) -> bool
    ensures { result ≡ reads_as tlv.now fields }
{
    match read(tlv) {
        Ok(found) => found == fields,
        Err(_) => false,
    }
}

// "Room past a written TLV keeps its bytes."
#[tactic(auto, using(crate::proofs::Right::from_there_on))]
fn kept_past(size: usize, room: &[u8], before: &[u8]) -> bool
    requires { (size ≤ length room.now) × (size ≤ length before.now) }
    ensures { result ≡ alike (drop size before.now) (drop size room.now) }
{
    same(&before[size..], &room[size..])
}

// So many bytes were written: they are a TLV of these fields, and the room past it is as it was.
#[tactic(auto, unfolding(crate::specs::Right::written_right))]
fn written_right(fields: Fields, size: usize, room: &[u8], before: &[u8]) -> bool
    ensures { result ≡ written_right fields size room.now before.now }
{
    size == tlv_size(fields.form)
        && size <= room.len()
        && size <= before.len()
        && reads_as(&room[..size], fields)
        && kept_past(size, room, before)
}

// Any fields and any room. The room is handed in twice: what is lent to the core, and `before`, which holds the same and which the core
// never sees. It is asked wherever document 01 refuses nothing.
#[tactic(auto, using(judge::proofs::Alike::same_is_alike), unfolding(crate::specs::Asks::asks_write))]
pub fn second_write(fields: Fields, room: &mut [u8], before: &[u8]) -> Verdict
    ensures value { result ≡ cond (asks_write fields room.old before.now) Held NotAsked }
    ensures room_after { room.new ≡ cond (asks_write fields room.old before.now) (room_after fields room.old) room.old }
{
    if !same(before, room) || write_number(fields, room) != 0 {
        return Verdict::NotAsked;
    }
    match write(fields, room) {
        Ok(size) if written_right(fields, size, room, before) => Verdict::Held,
        _ => Verdict::Broken,
    }
}

// "3:2 sent as zero", in octet 9. "Length 7 ends there": such a TLV has none.
#[tactic(auto, unfolding(crate::specs::Asks::zero_sent, lists::specs::Bits::field))]
fn zero_sent(bytes: &[u8]) -> bool
    ensures { result ≡ zero_sent bytes.now }
{
    bytes.len() < 10 || bytes[9] / 4 % 4 == 0
}

// So many bytes were written: they are these, and the room past them is as it was.
#[tactic(auto, using(judge::proofs::Alike::same_is_alike), unfolding(crate::specs::Right::rewritten_right))]
fn rewritten_right(bytes: &[u8], size: usize, room: &[u8], before: &[u8]) -> bool
    ensures { result ≡ rewritten_right bytes.now size room.now before.now }
{
    size <= room.len()
        && size <= before.len()
        && same(bytes, &room[..size])
        && kept_past(size, room, before)
}

// Any bytes. It is asked of those that document 01 does not refuse, "with 3:2 zero".
#[tactic(auto, unfolding(crate::specs::Asks::asks_read))]
pub fn second_read(bytes: &[u8]) -> Verdict
    ensures { result ≡ cond (asks_read bytes.now) Held NotAsked }
{
    if read_number(bytes) != 0 || !zero_sent(bytes) {
        return Verdict::NotAsked;
    }
    // A room that is longer than a TLV, and that holds something else.
    let before = [0xa5u8; 16];
    let mut room = before;
    let Ok(fields) = read(bytes) else {
        return Verdict::Broken;
    };
    match write(fields, &mut room) {
        Ok(size) if rewritten_right(bytes, size, &room, &before) => Verdict::Held,
        _ => Verdict::Broken,
    }
}
