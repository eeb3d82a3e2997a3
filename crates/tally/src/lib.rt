// What the closed ports of lent cells draw, and the masks that name them.
#![tactic(auto)]

ghost use Rattle.std.specs.Prelude.{◌≡◌, ◌+◌, ◌*◌, ◌<◌, ◌≤◌, ◌^◌, get_or};
ghost use Rattle.sizes.specs.Sizes.{most_ports};
ghost use Rattle.port.specs.States.{closed};
ghost use Rattle.table.specs.Drawn.{draws};
ghost use Rattle.cells.specs.Cells.{port_of};
ghost use Rattle.cells.specs.Codes.{state_of};
ghost use Rattle.tally.specs.Tally.{drawn_on, drawn_in, side_in, side_lane, Sided, weighed, named, closed_in, sides_in};

use sizes::{CELLS, PORTS};
use table::form::Closed;

const NONE: Closed = Closed {
    a: 0,
    b: 0,
    number: 0,
};

// Of the numbers, with no branch: a compiler asks eight ports at once.
fn is_shut(state: u16) -> bool
    ensures { result ≡ closed (state_of state) }
{
    (state == 5) | (state == 6) | (state == 8)
}

// A product: of an `if` here a compiler makes a branch in the loop, and takes one port at a time.
#[tactic(auto, unfolding(table::specs::Drawn::draws, cells::specs::Cells::port_of))]
fn draws_at(cells: &[u16; CELLS], p: usize) -> u32
    requires { p < most_ports }
    ensures { (result ≡ draws (port_of cells.now p)) × (result < 2 ^ 16) }
{
    is_shut(cells[8 + p]) as u32 * cells[104 + p] as u32
}

fn sum_drawn(cells: &[u16; CELLS], n: usize) -> u32
    requires { n ≤ most_ports }
    ensures { (result ≡ drawn_on n cells.now) × (result ≤ n * 65535) }
{
    let mut sum = 0u32;
    for p in 0..n {
        sum += draws_at(cells, p);
    }
    sum
}

// The demands of the closed ports among the first n.
#[tactic(auto, unfolding(crate::specs::Tally::tallied, crate::specs::Tally::drawn_in))]
pub fn drawn(cells: &[u16], n: usize) -> u32
    ensures { result ≡ drawn_in n cells.now }
{
    let Some(cells) = cells.as_array() else {
        return 0;
    };
    if PORTS < n {
        return 0;
    }
    sum_drawn(cells, n)
}

// A closed port counts 1 on alternative A, and 256 on B.
fn side_of(state: u16, control: u16) -> u16
    ensures { result ≡ side_in (state_of state) control }
{
    let shut = is_shut(state);
    let pair = control / 4 % 4;
    (shut & (pair == 1)) as u16 + 256 * (shut & (pair == 2)) as u16
}

// The side of every port into the lane, and none past them.
fn sides(cells: &[u16; CELLS], n: usize, lane: &mut [u16; PORTS])
    requires { n ≤ most_ports }
    ensures { lane.new ≡ side_lane n cells.now }
{
    *lane = [0; PORTS];
    for p in 0..n {
        lane[p] = side_of(cells[8 + p], cells[56 + p]);
    }
}

fn at(lane: &[u16; PORTS], p: usize) -> u32
    requires { (p < most_ports) × Sided lane.now }
    ensures { (result ≡ get_or lane.now p 0) × (result ≤ 256) }
{
    lane[p] as u32
}

// Eight ports in one number: those on A in its low byte, those on B in the high one. Twice that is added up, so that all eight are
// multiplied alike and a compiler takes them at once.
#[tactic(auto, unfolding(crate::specs::Tally::weighed))]
fn eight(lane: &[u16; PORTS], p: usize) -> u16
    requires { (p ≤ 40) × Sided lane.now }
    ensures { result ≡ weighed lane.now p }
{
    let twice = at(lane, p) * 2
        + at(lane, p + 1) * 4
        + at(lane, p + 2) * 8
        + at(lane, p + 3) * 16
        + at(lane, p + 4) * 32
        + at(lane, p + 5) * 64
        + at(lane, p + 6) * 128
        + at(lane, p + 7) * 256;
    (twice / 2) as u16
}

// The mask with a byte more, above all that it has.
fn placed(mask: u64, byte: u16, at: usize) -> u64
    requires { (mask < 2 ^ at) × (byte < 256) × (at ≤ 40) }
    ensures { result ≡ mask + byte * 2 ^ at }
{
    mask + ((byte as u64) << at)
}

fn masks(lane: &[u16; PORTS]) -> Closed
    requires { Sided lane.now }
    ensures { result ≡ named lane.now }
{
    let mut a = 0u64;
    let mut b = 0u64;
    for k in 0..6 {
        let p = 8 * k;
        let both = eight(lane, p);
        a = placed(a, both % 256, p);
        b = placed(b, both / 256, p);
    }
    Closed {
        a,
        b,
        number: a.count_ones() + b.count_ones(),
    }
}

// The masks of the closed ports among the first n, and their number. The lane is for work: it has their sides after.
#[tactic(auto, unfolding(crate::specs::Tally::tallied, crate::specs::Tally::closed_in, crate::specs::Tally::sides_in))]
pub fn closed_ports(cells: &[u16], n: usize, lane: &mut [u16]) -> Closed
    ensures value { result ≡ closed_in n cells.now lane.old }
    ensures lane_after { lane.new ≡ sides_in n cells.now lane.old }
{
    let Some(cells) = cells.as_array() else {
        return NONE;
    };
    if PORTS < n {
        return NONE;
    }
    let Some(lane) = lane.as_mut_array() else {
        return NONE;
    };
    sides(cells, n, lane);
    masks(lane)
}
