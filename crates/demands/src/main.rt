// Asks the demands of records from standard input. It writes one letter for each record: `h` where the demand is held, `n` where it is not
// asked, `B` where it is broken; and a last line with how many there were of each. A record is a letter that says what is asked, how long
// its body is (4 bytes, big-endian), and the body.
#![tactic(auto)]

mod bytes;
mod lent;
mod records;

ghost use Rattle.std.specs.Prelude.{◌≡◌, true};
ghost use Rattle.demands.specs.Unbroken.{unbroken, fair};

use crate::bytes::long_at;
use crate::lent::Cells;
use crate::records::judged;
use verdict::Verdict;

// Records that are judged: every loop has to end, and no input comes near so many.
const BUDGET: u64 = 1_099_511_627_776;

// How many records came to each verdict.
#[derive(Drop)]
struct Counts {
    held: u64,
    not_asked: u64,
    broken: u64,
}

impl Counts {
    fn add(&mut self, verdict: Verdict) {
        match verdict {
            Verdict::Held => self.held = self.held.saturating_add(1),
            Verdict::NotAsked => self.not_asked = self.not_asked.saturating_add(1),
            Verdict::Broken => self.broken = self.broken.saturating_add(1),
        }
    }

    fn print(&self) {
        io::write_all(1, b"\nheld ");
        io::print_decimal(1, self.held);
        io::write_all(1, b" not asked ");
        io::print_decimal(1, self.not_asked);
        io::write_all(1, b" broken ");
        io::print_decimal(1, self.broken);
        io::write_all(1, b"\n");
    }
}

// `B` is never written: who calls this has to show so.
fn told(verdict: Verdict)
    requires { unbroken verdict ≡ true }
{
    let letter = match verdict {
        Verdict::Held => b"h",
        Verdict::NotAsked => b"n",
        Verdict::Broken => b"B",
    };
    io::write_all(1, letter);
}

// What a record came to. At the end of the input, or where a record is cut or too long for the room, there is none.
fn next(space: &mut [u8], cells: &mut Cells) -> Option<Verdict>
    ensures { fair result ≡ true }
{
    let mut head = [0; 5];
    if io::read_full(0, &mut head) < 5 {
        return None;
    }
    let size = long_at(&head, 1) as usize;
    if space.len() < size {
        return None;
    }
    let body: &mut [u8] = &mut space[..size];
    if io::read_full(0, body) < size {
        return None;
    }
    Some(judged(head[0], body, cells))
}

// Before the first record the held cells are 728, all 0.
fn main() {
    // A record's body: a history of some thousand calls.
    let mut space = [0; 131_072];
    let mut cells = Cells {
        room: [0; 1_024],
        many: 728,
    };
    let mut counts = Counts {
        held: 0,
        not_asked: 0,
        broken: 0,
    };
    for _ in 0..BUDGET {
        let Some(verdict) = next(&mut space, &mut cells) else {
            break;
        };
        told(verdict);
        counts.add(verdict);
    }
    counts.print();
}
