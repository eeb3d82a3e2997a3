// The test that every call makes first of the cells that it is lent: refusal 13. Tests of bits and comparisons with no branch, so that a
// compiler does them for eight ports at once.
#![tactic(auto)]

ghost use Rattle.std.specs.Prelude.{◌≡◌, not, ◌<◌, ◌≤◌, max, leb, length};
ghost use Rattle.sizes.specs.Sizes.{most_count, most_ports};
ghost use Rattle.lists.specs.Bits.{one};
ghost use Rattle.power.specs.Power.{tenths};
ghost use Rattle.class.specs.Class.{is_demand};
ghost use Rattle.control.specs.Control.{refused};
ghost use Rattle.table.specs.Head.{well_counts, well_head};
ghost use Rattle.cells.specs.Cells.{cells_long, counts_of};
ghost use Rattle.well.specs.Judged.{port_fine, head_cells, well_cells, port_named};

use class::BUDGETS;
use power::Power;
use sizes::refusals::Refusal;
use sizes::{CELLS, MOST_COUNT, PORTS_16};

// A demand is none, or the budget of a class; class 0 has the budget of class 3.
const FIRST: u16 = BUDGETS[1];

const SECOND: u16 = BUDGETS[2];

const THIRD: u16 = BUDGETS[3];

const FOURTH: u16 = BUDGETS[4];

fn control_fine(word: u16) -> bool
    ensures { result ≡ not (refused word) }
{
    (word < 64) & (word % 4 != 3) & (word / 4 % 2 != word / 8 % 2)
}

fn demand_fine(demand: u16) -> bool
    ensures { result ≡ is_demand (tenths demand) }
{
    (demand == 0) | (demand == FIRST) | (demand == SECOND) | (demand == THIRD) | (demand == FOURTH)
}

// The greatest counter: one comparison for seven.
fn top(cells: &[u16; CELLS], p: usize) -> u16
    requires { p < most_ports }
    ensures { leb result most_count ≡ well_counts (counts_of cells.now p) }
{
    cells[248 + p]
        .max(cells[296 + p])
        .max(cells[344 + p])
        .max(cells[392 + p])
        .max(cells[440 + p])
        .max(cells[488 + p])
        .max(cells[536 + p])
}

fn port_fine(cells: &[u16; CELLS], p: usize) -> bool
    requires { p < most_ports }
    ensures { result ≡ port_fine cells.now p }
{
    (top(cells, p) <= MOST_COUNT)
        & (cells[152 + p] <= 4)
        & control_fine(cells[56 + p])
        & demand_fine(cells[104 + p])
        & (cells[8 + p] <= 9)
        & (cells[200 + p] < 256)
}

#[tactic(auto, unfolding(table::specs::Head::well_head, power::specs::Power::at_most))]
fn head_fine(count: u16, supply: u16) -> bool
    ensures { result ≡ well_head count (tenths supply) }
{
    let highest = Power::HIGHEST_SUPPLY.0;
    (1 <= count) & (count <= PORTS_16) & (supply <= highest)
}

// What a call may go by that looks at the ports itself.
#[tactic(auto, unfolding(crate::specs::Judged::head_cells))]
pub fn well_head(cells: &[u16]) -> bool
    ensures { result ≡ head_cells cells.now }
{
    cells.len() == CELLS && head_fine(cells[0], cells[1])
}

// All ports below the count are looked at, and the answer is given at the end: what stands past the count may be anything. What is fine is
// a number, which adds up eight at a time; a flag would be one after the other.
pub fn well_made(cells: &[u16]) -> bool
    ensures { result ≡ well_cells cells.now }
{
    let Some(cells) = cells.as_array::<CELLS>() else {
        return false;
    };
    if !head_fine(cells[0], cells[1]) {
        return false;
    }
    let n = cells[0] as usize;
    let mut fine = 0;
    for p in 0..n {
        fine += port_fine(cells, p) as u16;
    }
    fine as usize == n
}

// What every call that names a port asks first: 13, and then 2.
pub fn port_named(cells: &[u16], port: u64) -> Result<usize, Refusal>
    ensures { result ≡ port_named cells.now port }
{
    if !well_made(cells) {
        return Err(Refusal::IllMade);
    }
    if cells[0] as u64 <= port {
        return Err(Refusal::NoSuchPort);
    }
    Ok(port as usize)
}
