// The second demand, of the sharing of the supply in a tick: what is shed ranks after everything that is kept, what is kept fits, and the
// first that is shed did not. A kept port draws what it claimed; and kept or shed, it is in the state that document 01 sends it to. It is asked
// where no port had latch 12 before the tick: then the shed ports are exactly those that have it after, and no move is made a second time to tell
// them. What the ports' own moves come to is not judged.
#![tactic(auto)]

mod ranking;

ghost use Rattle.std.specs.Prelude.{◌≡◌, cond, ◌&&◌, ◌+◌, ◌%◌, ◌<◌, ◌^◌, eqb, get_or};
ghost use Rattle.interface.specs.Statement1C.{first_number, tick_list};
ghost use Rattle.verdict.specs.declared.Verdict.TheVariants.{Held, NotAsked};
ghost use Rattle.second_sharing.specs.Shared.{none_denied, first_shed, port_right, ports_right, kept_cells, shares_right};
ghost use Rattle.second.specs.Answers.{closed_cell};

use crate::ranking::{claim, entered, is_denied, left, place};
use order::ticking::tick_number;
use second::closed::is_closed;
use tick::tick;
use verdict::Verdict;

// No port below the count has latch 12.
fn none_denied(cells: &[u16; 728]) -> bool
    ensures { result ≡ none_denied cells.now }
{
    (0..48).all(|p| !is_denied(cells, p))
}

// The place of the first that is shed. It is 384, past all places, where none is.
fn first_shed(before: &[u16; 728], after: &[u16; 728]) -> usize
    ensures { (result ≡ first_shed before.now after.now 48) × (result % 64 < 48) }
{
    let mut first = 384;
    for p in 0..48 {
        if is_denied(after, p) {
            first = first.min(place(before, p));
        }
    }
    first
}

// A kept port ranks before all that is shed, and draws what it claimed. Kept or shed, it is where it should be, so that none is both.
fn port_right(before: &[u16; 728], after: &[u16; 728], first: usize, p: u8) -> bool
    requires { p < 48 }
    ensures { result ≡ port_right before.now after.now first p }
{
    let draws = after[104 + p as usize] as u64;
    let kept = (place(before, p) < first)
        & (draws == claim(before, after, p))
        & entered(before, after, p);
    let shed = left(before, after, p);
    (!is_closed(after, p) | kept) & (!is_denied(after, p) | shed)
}

fn ports_right(before: &[u16; 728], after: &[u16; 728], first: usize) -> bool
    ensures { result ≡ ports_right before.now after.now first }
{
    (0..48).all(|p| port_right(before, after, first, p))
}

fn drawn(cells: &[u16; 728], p: u8) -> u64
    ensures { (result ≡ cond (closed_cell cells.now p) (get_or cells.now (104 + p) 0) 0) × (result < 2 ^ 16) }
{
    if is_closed(cells, p) {
        cells[104 + p as usize] as u64
    } else {
        0
    }
}

fn kept_sum(cells: &[u16; 728]) -> u64
    ensures { (result ≡ kept_cells cells.now) × (result < 2 ^ 32) }
{
    let mut sum = 0;
    for p in 0..48 {
        sum += drawn(cells, p);
    }
    sum
}

// "claims are kept while the sum of demands is at most the supply. The first that doesn't fit and all after it are shed".
fn shares_right(before: &[u16; 728], after: &[u16; 728], figure: u64) -> bool
    ensures { result ≡ shares_right before.now after.now figure }
{
    let first = first_shed(before, after);
    let sum = kept_sum(after);
    let with_first = sum + claim(before, after, (first % 64) as u8);
    ports_right(before, after, first) & (sum <= figure) & ((first == 384) | (figure < with_first))
}

// Any cells and any bytes: it is asked wherever document 01 refuses nothing and no port has latch 12. The tick is made on a copy of the cells.
pub fn second_shares(before: [u16; 728], block: &[u8], figure: u64) -> Verdict
    ensures { result ≡ cond (eqb (first_number (tick_list before block.now figure)) 0 && none_denied before) Held NotAsked }
{
    if tick_number(&before, block, figure) != 0 {
        return Verdict::NotAsked;
    }
    if !none_denied(&before) {
        return Verdict::NotAsked;
    }
    let mut after = before;
    let _ = tick(&mut after, block, figure);
    if shares_right(&before, &after, figure) {
        Verdict::Held
    } else {
        Verdict::Broken
    }
}
