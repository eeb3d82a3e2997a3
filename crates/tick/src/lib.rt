// The tick on a table that the caller lends: refusals first, and then a part that cannot refuse and changes the cells in place.
#![tactic(auto)]

mod ports;
mod sharing;
mod steps;

ghost use Rattle.std.specs.Prelude.{◌≡◌, OnOk};
ghost use Rattle.cells.specs.Cells.{count_cell};
ghost use Rattle.cells.specs.Lent.{cells_told};
ghost use Rattle.well.specs.Judged.{well_cells};
ghost use Rattle.block.specs.Flags.{flag_lane};
ghost use Rattle.passes.specs.OnCells.{tick_on};
ghost use Rattle.passes.specs.Passes.{Portable, checked_on, Ready, some_ask, moved_on, asked_on, shared_on, moved_cells, moved_answer};

use crate::sharing::share_out;
use crate::steps::steps;
use block::flags_into;
use power::Power;
use quick::sweep;
use sizes::refusals::Refusal;
use sizes::{CELLS, PORTS, SAMPLE};
use table::form::Closed;
use tally::{closed_ports, drawn};
use well::{well_head, well_made};

// The supply that the figure is, if nothing is refused: then the lane has the flags of every port. They are read before the ports are
// tested, though looked at after: what was just written would have to be waited for.
fn checked(
    cells: &[u16; CELLS],
    block: &[u8],
    figure: u64,
    lane: &mut [u16; PORTS],
) -> Result<Power, Refusal>
    ensures value { result ≡ checked_on (well_cells cells.now) (count_cell cells.now) block.now figure }
    ensures lane_after { OnOk result (lane.new ≡ flag_lane (count_cell cells.now) block.now lane.old) }
{
    if !well_head(cells) {
        return Err(Refusal::IllMade);
    }
    let n = cells[0] as usize;
    let clean = flags_into(block, n, lane);
    if !well_made(cells) {
        return Err(Refusal::IllMade);
    }
    if block.len() != SAMPLE * n {
        return Err(Refusal::BadLength);
    }
    let supply = Power::supply(figure)?;
    if clean {
        Ok(supply)
    } else {
        Err(Refusal::Reserved)
    }
}

// Every port moves. The lane has the flags of every port at first, and a number other than 0 for each that asks then. Does one?
fn move_all(cells: &mut [u16; CELLS], block: &[u8], lane: &mut [u16; PORTS]) -> bool
    requires { Ready cells.old block.now lane.old }
    ensures value { result ≡ some_ask cells.old block.now lane.old }
    ensures cells_after { cells.new ≡ moved_on cells.old block.now lane.old }
    ensures lane_after { lane.new ≡ asked_on cells.old block.now lane.old }
{
    let n = cells[0] as usize;
    if !sweep(cells, lane) {
        return false;
    }
    steps(cells, n, block, lane)
}

// Where no port asks and what is closed fits, nothing has to be shared.
fn share_all(cells: &mut [u16; CELLS], n: usize, lane: &[u16; PORTS], asks: bool, supply: Power)
    requires { Portable n cells.old }
    ensures { cells.new ≡ shared_on n lane.now asks supply.0 cells.old }
{
    let drawn = drawn(cells, n);
    if asks | ((supply.0 as u32) < drawn) {
        share_out(cells, n, lane, drawn, supply);
    }
}

// Every port moves, the supply is shared, and its figure is stored.
fn moved(cells: &mut [u16; CELLS], block: &[u8], supply: Power, lane: &mut [u16; PORTS]) -> Closed
    requires { Ready cells.old block.now lane.old }
    ensures value { result ≡ moved_answer cells.old block.now supply.0 }
    ensures cells_after { cells.new ≡ moved_cells cells.old block.now supply.0 }
{
    let n = cells[0] as usize;
    let asks = move_all(cells, block, lane);
    share_all(cells, n, lane, asks, supply);
    cells[1] = supply.0;
    closed_ports(cells, n, lane)
}

pub fn tick(cells: &mut [u16], block: &[u8], figure: u64) -> Result<Closed, Refusal>
    ensures value { result ≡ (tick_on cells.old block.now figure).answer }
    ensures cells_after { cells.new ≡ cells_told (tick_on cells.old block.now figure) cells.old }
{
    let Some(cells) = cells.as_mut_array() else {
        return Err(Refusal::IllMade);
    };
    let mut lane = [0; PORTS];
    let supply = checked(cells, block, figure, &mut lane)?;
    Ok(moved(cells, block, supply, &mut lane))
}
