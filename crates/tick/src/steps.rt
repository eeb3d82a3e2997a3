// The whole step of the ports that the quick pass has marked.
ghost use Rattle.std.specs.Prelude.{◌≡◌, true, cond, ℕ, ◌+◌, ◌*◌, ◌/◌, ◌<◌, ◌≤◌, length, get_or};
ghost use Rattle.sizes.specs.Sizes.{most_ports, sample_bytes};
ghost use Rattle.lists.specs.Bits.{one};
ghost use Rattle.lists.specs.Every.{some_below};
ghost use Rattle.sample.specs.Sample.{sample_at};
ghost use Rattle.cells.specs.Cells.{written};
ghost use Rattle.cells.specs.Writes.{with_port_cells};
ghost use Rattle.claims.specs.Claimed.{is_set};
ghost use Rattle.passes.specs.Passes.{Portable, whole_move, marked_move, stepped_port, stepped_lane};

use crate::ports::{port_at, put_port};
use block::digest::digest_of;
use diagram::step;
use power::Power;
use sample::{Sample, sample_of};
use sizes::{CELLS, PORTS};

// The sample of a port that the block has.
fn sample(block: &[u8], port: usize) -> Sample
    requires { port < length block.now / sample_bytes }
    ensures { result ≡ sample_at block.now (sample_bytes * port) }
{
    match sample_of(block, port) {
        Some(sample) => sample,
        None => unreachable!(),
    }
}

// The port at a place takes its whole step if it is marked. Does it ask?
#[tactic(auto, unfolding(passes::specs::Passes::whole_move, passes::specs::Passes::marked_move))]
fn stepped(cells: &mut [u16; CELLS], block: &[u8], p: usize, mark: u16) -> bool
    requires { (p < most_ports) × (p < length block.now / sample_bytes) × (get_or cells.old (152 + p) 0 < 256) }
    ensures value { result ≡ (marked_move mark block.now cells.old p).asks }
    ensures cells_after { cells.new ≡ cond (is_set mark) (with_port_cells p (whole_move block.now cells.old p).port cells.old) cells.old }
{
    if mark == 0 {
        return false;
    }
    let moved = step(
        Power::FORCED,
        port_at(cells, p),
        digest_of(sample(block, p)),
    );
    put_port(cells, p, moved.port);
    moved.asks
}

// Eight ports from here on that have no mark.
fn clear_ahead(lane: &[u16; PORTS], p: usize, n: usize) -> bool
    requires { (p < n) × (n ≤ most_ports) }
    ensures { result ≡ true → (p + 8 ≤ n) × ((q : ℕ) → q < 8 → get_or lane.now (p + q) 0 ≡ 0) }
{
    if p % 8 != 0 {
        return false;
    }
    if n < p + 8 {
        return false;
    }
    (lane[p] == 0)
        & (lane[p + 1] == 0)
        & (lane[p + 2] == 0)
        & (lane[p + 3] == 0)
        & (lane[p + 4] == 0)
        & (lane[p + 5] == 0)
        & (lane[p + 6] == 0)
        & (lane[p + 7] == 0)
}

// The lane has the marks at first, and then a 1 for each port that asks to be closed. Does one?
pub fn steps(cells: &mut [u16; CELLS], n: usize, block: &[u8], lane: &mut [u16; PORTS]) -> bool
    requires { Portable n cells.old × (length block.now ≡ sample_bytes * n) }
    ensures value { result ≡ some_below n (λ p. (marked_move (get_or lane.old p 0) block.now cells.old p).asks) }
    ensures cells_after { cells.new ≡ written n (stepped_port lane.old block.now cells.old) cells.old }
    ensures lane_after { lane.new ≡ stepped_lane n block.now cells.old lane.old }
{
    let mut some = false;
    let mut p = 0;
    // Kept a while: a turn passes one port, or eight that have no mark.
    while p < n {
        if clear_ahead(lane, p, n) {
            p += 8;
        } else {
            let asks = stepped(cells, block, p, lane[p]);
            lane[p] = asks as u16;
            some |= asks;
            p += 1;
        }
    }
    some
}
