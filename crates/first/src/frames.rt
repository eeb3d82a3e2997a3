// The calls on frames. The search and the reader have nothing lent that they could write, and are asked with whatever bytes there are. The
// writer is handed its room twice: what is lent to the core, and `before`, which holds the same and which the core never sees.
ghost use Rattle.std.specs.Prelude.{◌≡◌, cond};
ghost use Rattle.writer.specs.Write.{room_after};
ghost use Rattle.verdict.specs.declared.Verdict.TheVariants.{Held, NotAsked};
ghost use Rattle.judge.specs.Alike.{alike};

use fields::Fields;
use judge::{answered, refused, same};
use order_frames::{read_number, search_number, write_number};
use reader::read;
use search::search;
use verdict::Verdict;
use writer::write;

pub fn first_search(pdu: &[u8]) -> Verdict
    ensures { result ≡ Held }
{
    let search_due = search_number(pdu);
    match search(pdu) {
        Ok(_) => answered(search_due),
        Err(refusal) => refused(search_due, refusal.number(), true),
    }
}

pub fn first_read(bytes: &[u8]) -> Verdict
    ensures { result ≡ Held }
{
    let read_due = read_number(bytes);
    match read(bytes) {
        Ok(_) => answered(read_due),
        Err(refusal) => refused(read_due, refusal.number(), true),
    }
}

pub fn first_write(fields: Fields, room: &mut [u8], before: &[u8]) -> Verdict
    ensures value { result ≡ cond (alike before.now room.old) Held NotAsked }
    ensures room_after { room.new ≡ cond (alike before.now room.old) (room_after fields room.old) room.old }
{
    if !same(before, room) {
        return Verdict::NotAsked;
    }
    let write_due = write_number(fields, room);
    match write(fields, room) {
        Ok(_) => answered(write_due),
        Err(refusal) => refused(write_due, refusal.number(), same(before, room)),
    }
}
