// The second demand, of a tick: what is said of it without the core being written a second time. Covered: "bit p set exactly if port p is
// closed and its control word names that alternative", so that no port stands in both masks; "a number of closed ports equal to the ones in
// the two masks"; "the figure is then stored"; "places at or past the port count .. never change"; and that no control word does. Not covered:
// "each port moves as the diagram rules of document 01 say", since a program could only repeat the core: there the definition is the statement,
// `Ticks` of the crate `statements`. "The rule by which the supply is shared" has a program of its own, in the crate `second_sharing`.
#![tactic(auto)]

pub mod closed;
mod kept;
mod masks;

ghost use Rattle.std.specs.Prelude.{◌≡◌, cond, eqb};
ghost use Rattle.interface.specs.Statement1C.{first_number, tick_list};
ghost use Rattle.verdict.specs.declared.Verdict.TheVariants.{Held, NotAsked};
ghost use Rattle.second.specs.Second.{tick_right};

use crate::kept::rest_kept;
use crate::masks::answer_right;
use order::ticking::tick_number;
use sizes::refusals::Refusal;
use table::form::Closed;
use tick::tick;
use verdict::Verdict;

// What was answered is right, "the figure is then stored", in cell 1, and the rest is as it was.
fn tick_right(
    before: &[u16; 728],
    after: &[u16; 728],
    answer: Result<Closed, Refusal>,
    figure: u64,
) -> bool
    ensures { result ≡ tick_right before.now after.now answer figure }
{
    let stored = after[1] as u64 == figure;
    answer_right(after, answer) & stored & rest_kept(before, after)
}

// Any cells and any bytes: it is asked wherever document 01 refuses nothing. The tick is made on a copy of the cells.
pub fn second_tick(before: [u16; 728], block: &[u8], figure: u64) -> Verdict
    ensures { result ≡ cond (eqb (first_number (tick_list before block.now figure)) 0) Held NotAsked }
{
    if tick_number(&before, block, figure) != 0 {
        return Verdict::NotAsked;
    }
    let mut after = before;
    let answer = tick(&mut after, block, figure);
    if tick_right(&before, &after, answer, figure) {
        Verdict::Held
    } else {
        Verdict::Broken
    }
}
