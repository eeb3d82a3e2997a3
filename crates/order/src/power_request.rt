// The first number of a request.
ghost use Rattle.std.specs.Prelude.{◌≡◌, cond, ◌<◌, ◌^◌};
ghost use Rattle.power.specs.Power.{tenths};
ghost use Rattle.port.specs.States.{closed};
ghost use Rattle.table.specs.Drawn.{closed_sum};
ghost use Rattle.cells.specs.Cells.{table_of};
ghost use Rattle.cells.specs.Codes.{state_of};
ghost use Rattle.replies.specs.Calls.{granting, level_of};
ghost use Rattle.replies.specs.Rest.{AtPort};
ghost use Rattle.interface.specs.Statement1C.{first_number, request_list};

use ill::ill_made;

// "Budgets for classes 0 to 4: 154, 40, 70, 154, 300".
pub const BUDGETS: [u16; 5] = [154, 40, 70, 154, 300];

// "value 1..38 means demand 40, ..64 means 70, ..129 means 154, ..255 means 300."
fn level(value: u64) -> u16
    ensures { result ≡ (level_of value).0 }
{
    match value {
        ..=38 => 40,
        ..=64 => 70,
        ..=129 => 154,
        _ => 300,
    }
}

// What a port draws: its demand, if it is closed.
fn drawn(state: u16, demand: u16) -> u64
    ensures { (result ≡ cond (closed (state_of state)) demand 0) × (result < 2 ^ 16) }
{
    if (state == 5) | (state == 6) | (state == 8) {
        demand as u64
    } else {
        0
    }
}

// A choice without a branch in the loop.
fn pick(first: bool, a: u16, b: u16) -> u16
    ensures { result ≡ cond first a b }
{
    if first { a } else { b }
}

// "all closed ports' demands with the change"
fn demands_with(cells: &[u16], at: usize, level: u16) -> u64
    requires { AtPort cells.now at }
    ensures { result ≡ closed_sum (granting (tenths level) at (table_of cells.now)) }
{
    let mut sum = 0;
    for p in 0..cells[0] as usize {
        sum += drawn(cells[8 + p], pick(p == at, level, cells[104 + p]));
    }
    sum
}

// Request [4] of document 02: "A request gives 10 for 0 or above 999, and 11 for 256 to 999, after the state check as before."
// "Request: 2, 10, 5, 11, 12."; "A demand not above the present one is accepted; a higher one exactly if .. at most the stored supply".
pub fn request_number(cells: &[u16], port: u64, value: u64) -> u8
    ensures { result ≡ first_number (request_list cells.now port value) }
{
    if ill_made(cells) {
        return 13;
    }
    if cells[0] as u64 <= port {
        return 2;
    }
    if (value == 0) | (999 < value) {
        return 10;
    }
    let p = port as usize;
    if cells[8 + p] != 6 {
        return 5;
    }
    let asked = level(value);
    let class = cells[152 + p] as usize;
    if (255 < value) | (BUDGETS[class] < asked) {
        return 11;
    }
    if (cells[104 + p] < asked) & ((cells[1] as u64) < demands_with(cells, p, asked)) {
        return 12;
    }
    0
}
