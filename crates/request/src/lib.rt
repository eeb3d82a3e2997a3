// A device's request for power, on the cells that a caller lends: what all closed ports would draw with it, and the call. It changes the
// cells where they stand, and a refusal none of them.
#![tactic(auto)]

ghost use Rattle.std.specs.Prelude.{◌≡◌, cond, ◌<◌, ◌^◌};
ghost use Rattle.power.specs.Power.{sum_of};
ghost use Rattle.port.specs.States.{closed};
ghost use Rattle.table.specs.Drawn.{closed_sum};
ghost use Rattle.cells.specs.Cells.{table_of};
ghost use Rattle.cells.specs.Codes.{state_of};
ghost use Rattle.cells.specs.Lent.{cells_told};
ghost use Rattle.replies.specs.Calls.{granting, over_supply};
ghost use Rattle.replies.specs.OnCells.{request_on};
ghost use Rattle.replies.specs.Rest.{AtPort, request_rest};

use class::{level_of, over_class};
use power::{Power, Sum};
use sizes::MOST_VALUE;
use sizes::refusals::Refusal;
use well::port_named;

// A port is closed exactly in POWER_UP, POWER_ON and TEST_MODE, by their codes.
#[tactic(auto, using(cells::proofs::CodeLaws::closed_code))]
fn drawn(state: u16, demand: u16) -> u32
    ensures { (result ≡ cond (closed (state_of state)) demand 0) × (result < 2 ^ 16) }
{
    if (state == 5) | (state == 6) | (state == 8) {
        demand as u32
    } else {
        0
    }
}

// All closed ports' demands, where the one at `at` has another. 48 of them never reach the end of the type.
fn closed_sum(cells: &[u16], at: usize, demand: Power) -> Sum
    requires { AtPort cells.now at }
    ensures { result ≡ sum_of (closed_sum (granting demand at (table_of cells.now))) }
{
    let n = cells[0] as usize;
    let mut sum = 0;
    for p in 0..n {
        let demanded = if p == at { demand.0 } else { cells[104 + p] };
        sum += drawn(cells[8 + p], demanded);
    }
    Sum(sum)
}

// A demand not above the present one needs no look at the supply.
fn too_much(cells: &[u16], p: usize, demand: Power) -> bool
    requires { AtPort cells.now p }
    ensures { result ≡ over_supply demand p (table_of cells.now) }
{
    Power(cells[104 + p]) < demand && !closed_sum(cells, p, demand).fits(Power(cells[1]))
}

// What the ladder asks after 13 and 2. The code of POWER_ON is 6.
fn requested(cells: &mut [u16], p: usize, value: u64) -> Result<(), Refusal>
    requires { AtPort cells.old p }
    ensures value { result ≡ (request_rest cells.old p value).answer }
    ensures cells_after { cells.new ≡ cells_told (request_rest cells.old p value) cells.old }
{
    if !(1..=MOST_VALUE).contains(&value) {
        return Err(Refusal::BadValue);
    }
    let on = cells[8 + p] == 6;
    if !on {
        return Err(Refusal::WrongState);
    }
    if over_class(value, cells[152 + p] as u8) {
        return Err(Refusal::OverClass);
    }
    let level = level_of(value);
    if too_much(cells, p, level) {
        return Err(Refusal::OverSupply);
    }
    cells[104 + p] = level.0;
    Ok(())
}

pub fn request(cells: &mut [u16], port: u64, value: u64) -> Result<(), Refusal>
    ensures value { result ≡ (request_on cells.old port value).answer }
    ensures cells_after { cells.new ≡ cells_told (request_on cells.old port value) cells.old }
{
    let p = port_named(cells, port)?;
    requested(cells, p, value)
}
