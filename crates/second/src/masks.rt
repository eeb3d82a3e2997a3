// What a tick answers, held against the table that it leaves: "a 64-bit mask for each alternative, bit p set exactly if port p is closed and
// its control word names that alternative, and a number of closed ports equal to the ones in the two masks".
ghost use Rattle.std.specs.Prelude.{◌≡◌, ◌<◌, ◌≤◌};
ghost use Rattle.lists.specs.Bits.{bit};
ghost use Rattle.lists.specs.Count.{count};
ghost use Rattle.second.specs.Answers.{named_cell, bits_right, apart, answer_right};

use crate::closed::is_closed;
use sizes::refusals::Refusal;
use table::form::Closed;

fn bit(mask: u64, p: u8) -> bool
    requires { p < 64 }
    ensures { result ≡ bit p mask }
{
    (mask >> p) % 2 == 1
}

// "3:2 pair control: 01 alternative A, 10 alternative B". The control words stand from cell 56 on.
fn named(cells: &[u16; 728], p: u8) -> u16
    ensures { result ≡ named_cell cells.now p }
{
    cells[56 + p as usize] / 4 % 4
}

// Each bit of the mask is set exactly if the port is closed and names this alternative.
fn bits_right(cells: &[u16; 728], mask: u64, alternative: u16) -> bool
    ensures { result ≡ bits_right cells.now mask alternative }
{
    (0..64).all(|p| bit(mask, p) == (is_closed(cells, p) & (named(cells, p) == alternative)))
}

// No port stands in both masks.
fn apart(a: u64, b: u64) -> bool
    ensures { result ≡ apart a b }
{
    (0..64).all(|p| !(bit(a, p) & bit(b, p)))
}

fn ones_in(mask: u64) -> u32
    ensures { (result ≡ count 64 (λ p. bit p mask)) × (result ≤ 64) }
{
    mask.count_ones()
}

pub fn answer_right(cells: &[u16; 728], answer: Result<Closed, Refusal>) -> bool
    ensures { result ≡ answer_right cells.now answer }
{
    match answer {
        Ok(closed) => apart(closed.a, closed.b)
            & bits_right(cells, closed.a, 1)
            & bits_right(cells, closed.b, 2)
            & (ones_in(closed.a) + ones_in(closed.b) == closed.number),
        Err(_) => false,
    }
}
