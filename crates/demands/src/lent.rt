// The cells that the program holds, and what is asked of them.
ghost use Rattle.std.specs.Prelude.{◌≡◌, true};
ghost use Rattle.demands.specs.Unbroken.{unbroken};

use crate::bytes::number_at;
use first::tables::{first_control, first_request, first_start, first_status, first_tick};
use second::second_tick;
use second_sharing::second_shares;
use verdict::Verdict;

// The first `many` cells of the room are held.
#[derive(Drop)]
pub struct Cells {
    pub room: [u16; 1_024],
    pub many: usize,
}

// A port and a number, eight bytes each. For the start the number is how many ports, for the tick its figure, and the block is the rest.
#[tactic(auto, using(crate::proofs::Unbroken::either))]
fn call(kind: u8, cells: &mut [u16], before: &[u16], body: &[u8]) -> Verdict
    ensures { unbroken result ≡ true }
{
    if body.len() < 16 {
        return Verdict::NotAsked;
    }
    let port = number_at(body, 0);
    let number = number_at(body, 8);
    match kind {
        b's' => first_start(cells, before, number),
        b'c' => first_control(cells, before, port, number),
        b'u' => first_status(cells, before, port),
        b'q' => first_request(cells, before, port, number),
        b't' => first_tick(cells, before, &body[16..], number),
        _ => Verdict::NotAsked,
    }
}

impl Cells {
    // The first demand of a call. As many of the cells are lent as the program holds.
    pub fn first(&mut self, kind: u8, body: &[u8]) -> Verdict
        ensures { unbroken result ≡ true }
    {
        let many = self.many;
        if self.room.len() < many {
            return Verdict::NotAsked;
        }
        let before = self.room;
        let room = &mut self.room[..];
        call(kind, &mut room[..many], &before[..many], body)
    }

    // The second demand. The body is a tick's, whose port is not looked at. It is asked of a table's cells alone, and these stay as they
    // are. `k` asks how the tick shares the supply, and `2` the rest.
    #[tactic(auto, using(crate::proofs::Unbroken::either))]
    pub fn second(&self, kind: u8, body: &[u8]) -> Verdict
        ensures { unbroken result ≡ true }
    {
        if self.many != 728 || body.len() < 16 {
            return Verdict::NotAsked;
        }
        let mut table = [0; 728];
        table.copy_from_slice(&self.room[..728]);
        let figure = number_at(body, 8);
        if kind == b'k' {
            return second_shares(table, &body[16..], figure);
        }
        second_tick(table, &body[16..], figure)
    }

    // Other cells are held: those that the body is, two bytes each; none where there are too many.
    pub fn load(&mut self, body: &[u8]) {
        let (pairs, _) = body.as_chunks();
        self.many = 0;
        if pairs.len() <= self.room.len() {
            for (cell, pair) in self.room.iter_mut().zip(pairs) {
                *cell = u16::from_be_bytes(*pair);
            }
            self.many = pairs.len();
        }
    }
}
