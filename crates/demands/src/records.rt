// What each record asks.
ghost use Rattle.std.specs.Prelude.{◌≡◌, true};
ghost use Rattle.demands.specs.Unbroken.{unbroken};

use crate::bytes::{byte_at, long_at, number_at, word_at};
use crate::lent::Cells;
use fields::{Added, Fields, Form};
use first::frames::{first_read, first_search, first_write};
use second_frames::{second_read, second_write};
use third::third_demand;
use verdict::Verdict;

// The third demand: ports and the two figures, four bytes each, as wide as the C functions take them; how long the block is, two bytes; the
// block; and the rest is the history.
#[tactic(auto, using(crate::proofs::Unbroken::either))]
fn third_in(body: &[u8]) -> Verdict
    ensures { unbroken result ≡ true }
{
    if body.len() < 14 {
        return Verdict::NotAsked;
    }
    let long = word_at(body, 12) as usize;
    if body.len() - 14 < long {
        return Verdict::NotAsked;
    }
    let (block, history) = body[14..].split_at(long);
    third_demand(
        history,
        long_at(body, 0),
        block,
        long_at(body, 4),
        long_at(body, 8),
    )
}

fn form_in(body: &[u8]) -> Form {
    if byte_at(body, 3) == 0 {
        return Form::Short;
    }
    Form::Long(Added {
        kind: number_at(body, 4),
        source: number_at(body, 12),
        priority: number_at(body, 20),
        requested: number_at(body, 28),
        allocated: number_at(body, 36),
    })
}

fn fields_in(body: &[u8]) -> Fields {
    Fields {
        support: byte_at(body, 0),
        pair: byte_at(body, 1),
        class: byte_at(body, 2),
        form: form_in(body),
    }
}

// The fields, 44 bytes: the three octets, 0 for the short form, five numbers of eight bytes. The room is what follows, up to 64 bytes. `v`
// asks the second demand, another letter the first.
#[tactic(auto, using(crate::proofs::Unbroken::either))]
fn write_in(kind: u8, body: &[u8]) -> Verdict
    ensures { unbroken result ≡ true }
{
    if body.len() < 44 {
        return Verdict::NotAsked;
    }
    let before = &body[44..];
    let mut bytes = [0; 64];
    if bytes.len() < before.len() {
        return Verdict::NotAsked;
    }
    let room = &mut bytes[..before.len()];
    room.copy_from_slice(before);
    if kind == b'v' {
        return second_write(fields_in(body), room, before);
    }
    first_write(fields_in(body), room, before)
}

#[tactic(auto, using(crate::proofs::Unbroken::either))]
fn read_in(body: &[u8]) -> Verdict
    ensures { unbroken result ≡ true }
{
    second_read(body)
}

// `l` lends other cells: nothing is asked.
pub fn judged(kind: u8, body: &[u8], cells: &mut Cells) -> Verdict
    ensures { unbroken result ≡ true }
{
    match kind {
        b'l' => {
            cells.load(body);
            Verdict::NotAsked
        }
        b'f' => first_search(body),
        b'r' => first_read(body),
        b'w' | b'v' => write_in(kind, body),
        b'b' => read_in(body),
        b'2' | b'k' => cells.second(kind, body),
        b'3' => third_in(body),
        _ => cells.first(kind, body),
    }
}
