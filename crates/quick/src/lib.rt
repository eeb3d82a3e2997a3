// Most moves change counters and nothing else. One pass over the lent cells makes those moves, and marks the ports that need the whole
// step.
#![tactic(auto)]

ghost use Rattle.std.specs.Prelude.{◌≡◌, ◌%◌, ◌<◌, ◌≤◌, ◌||◌, if◌then◌else◌, slice_index};
ghost use Rattle.sizes.specs.Sizes.{most_ports};
ghost use Rattle.lists.specs.Every.{some_below};
ghost use Rattle.cells.specs.Cells.{counts_of};
ghost use Rattle.cells.specs.Writes.{with_count_cells};
ghost use Rattle.quick.specs.Sweep.{counted, running, signs_by, looked, looked_at, is_marked, looked_cells, looked_lane, swept_cells, swept_lane, swept_left};

use diagram::limits;
use port::form::Counts;
use sizes::{CELLS, PORTS, PORTS_16};

// What a reading shows before the signature and the class are worked out.
#[derive(Clone, Copy)]
pub struct FlagsShown {
    pub detected: bool,
    pub classed: bool,
    pub settled: bool,
    pub limiting: bool,
    pub overload: bool,
    pub load: bool,
}

// A port's counters after the pass, and a mark, all bits of it, where only the whole step tells.
#[derive(Clone, Copy)]
pub struct Look {
    pub counts: Counts,
    pub mark: u16,
}

// The last tick but one before a state that waits is left.
const DETECTING_LAST: u16 = limits::DETECTING_ENDS - 1;

const BACKOFF_LAST: u16 = limits::BACKOFF_ENDS - 1;

const ERROR_DELAY_LAST: u16 = limits::ERROR_DELAY_ENDS - 1;

const POWER_LAST: u16 = limits::POWER_UP_ENDS - 1;

fn counted(goes: bool, n: u16) -> u16
    ensures { result ≡ counted goes n }
{
    if goes { n.wrapping_add(1) } else { n }
}

fn running(runs: bool, n: u16) -> u16
    ensures { result ≡ running runs n }
{
    if runs { n.wrapping_add(1) } else { 0 }
}

// All bits or none.
fn bits(test: bool) -> u16
    ensures { result ≡ (if test then 65535 else 0) }
{
    if test { 65_535 } else { 0 }
}

// A mark where none of three holds. Tests are all bits or none here, and added up: joined as tests they would be made narrow and wide
// again for each eight ports.
fn mark_unless(a: bool, b: bool, c: bool) -> u16
    ensures { result ≡ (if (a || b) || c then 0 else 65535) }
{
    let two = bits(a).wrapping_add(bits(b));
    let three = two.wrapping_add(bits(c));
    bits(three == 0)
}

// Every counter is a choice and no state is branched on, so that a compiler looks at eight ports at once. A state's code stands beside
// the enable bits: one comparison tests both.
#[tactic(auto, unfolding(crate::specs::Sweep::looked, crate::specs::Sweep::signs_by))]
fn look_at(state: u16, control: u16, demand: u16, flags: u16, counts: Counts) -> Look
    ensures { result ≡ looked state (control % 4) demand (signs_by flags) counts }
{
    let enable = control % 4;
    let key = (enable * 16).wrapping_add(state);
    let limiting = running(flags / 8 % 2 == 1, counts.limiting);
    let overload = running(flags / 16 % 2 == 1, counts.overload);
    let gone = running(!(32 <= flags), counts.no_load);
    let calm = (limiting < limits::FAULT) & (overload < limits::FAULT);
    let rising = counts.power_on < POWER_LAST;
    let detects = (key == 18) & !(flags % 2 == 1) & (counts.detection < DETECTING_LAST);
    let backs = (state == 3) & !(enable == 0) & (counts.backoff < BACKOFF_LAST);
    let classes = (key == 20) & !(flags / 2 % 2 == 1) & rising;
    let rises = (key == 21) & !(flags / 4 % 2 == 1) & rising & calm;
    let stays = (key == 22) & (gone < limits::LOAD_ABSENT) & calm;
    let delays = (state == 7) & !(enable == 0) & (counts.error_delay < ERROR_DELAY_LAST);
    let tests = (key == 40) & calm;
    let stands = ((key == 0) & (demand == 0)) | (key == 41);
    let shut = rises | stays | tests;
    let after = Counts {
        detection: counted(detects, counts.detection),
        backoff: counted(backs, counts.backoff),
        error_delay: counted(delays, counts.error_delay),
        power_on: counted(classes | rises, counts.power_on),
        limiting: if shut { limiting } else { counts.limiting },
        overload: if shut { overload } else { counts.overload },
        no_load: if stays { gone } else { counts.no_load },
    };
    let mark = mark_unless(shut | detects, backs | delays, classes | stands);
    Look {
        counts: after,
        mark,
    }
}

// This and `put_counts` stand in `tick` too, for the reason given there.
#[tactic(auto, unfolding(cells::specs::Cells::counts_of))]
fn counts_at(cells: &[u16; CELLS], p: usize) -> Counts
    requires { p < most_ports }
    ensures { result ≡ counts_of cells.now p }
{
    Counts {
        detection: cells[248 + p],
        backoff: cells[296 + p],
        error_delay: cells[344 + p],
        power_on: cells[392 + p],
        limiting: cells[440 + p],
        overload: cells[488 + p],
        no_load: cells[536 + p],
    }
}

#[tactic(auto, unfolding(cells::specs::Writes::with_count_cells, cells::specs::Writes::writes))]
fn put_counts(cells: &mut [u16; CELLS], p: usize, counts: Counts)
    requires { p < most_ports }
    ensures { cells.new ≡ with_count_cells p counts cells.old }
{
    cells[248 + p] = counts.detection;
    cells[296 + p] = counts.backoff;
    cells[344 + p] = counts.error_delay;
    cells[392 + p] = counts.power_on;
    cells[440 + p] = counts.limiting;
    cells[488 + p] = counts.overload;
    cells[536 + p] = counts.no_load;
}

// A port's counters are moved on where they stand; its mark is answered.
#[tactic(auto, unfolding(crate::specs::Sweep::looked_at))]
fn sweep_port(cells: &mut [u16; CELLS], p: usize, flags: u16) -> u16
    requires { p < most_ports }
    ensures value { result ≡ (looked_at flags cells.old p).mark }
    ensures cells_after { cells.new ≡ with_count_cells p (looked_at flags cells.old p).counts cells.old }
{
    let before = counts_at(cells, p);
    let seen = look_at(cells[8 + p], cells[56 + p], cells[104 + p], flags, before);
    let after = seen.counts;
    put_counts(cells, p, after);
    seen.mark
}

// The ports below n, one after the other. Is some port marked?
fn sweep_all(cells: &mut [u16; CELLS], n: usize, lane: &mut [u16; PORTS]) -> bool
    requires { n ≤ most_ports }
    ensures value { result ≡ some_below n (λ p. is_marked (slice_index lane.old p) cells.old p) }
    ensures cells_after { cells.new ≡ looked_cells n lane.old cells.old }
    ensures lane_after { lane.new ≡ looked_lane n lane.old cells.old }
{
    let mut left = 0u16;
    for p in 0..n {
        let mark = sweep_port(cells, p, lane[p]);
        lane[p] = mark;
        left = left.max(mark);
    }
    left != 0
}

// The lane has a number for each place: a port's flags at first, and its mark then. What is no table of ports stays as it is.
#[tactic(auto, unfolding(crate::specs::Sweep::sweepable, crate::specs::Sweep::swept_left, crate::specs::Sweep::swept_cells, crate::specs::Sweep::swept_lane))]
pub fn sweep(cells: &mut [u16], lane: &mut [u16]) -> bool
    ensures value { result ≡ swept_left cells.old lane.old }
    ensures cells_after { cells.new ≡ swept_cells cells.old lane.old }
    ensures lane_after { lane.new ≡ swept_lane cells.old lane.old }
{
    let Some(cells) = cells.as_mut_array() else {
        return false;
    };
    let Some(lane) = lane.as_mut_array() else {
        return false;
    };
    if PORTS_16 < cells[0] {
        return false;
    }
    let n = cells[0] as usize;
    sweep_all(cells, n, lane)
}
