// What the cells before a tick and after it say of one port: whether it is kept or shed, its place in the ranking, and its claim. Field f of
// port p stands in cell 8 + 48 f + p: the state, the control word, the demand, the class, the latches. The port count stands in cell 0.
ghost use Rattle.std.specs.Prelude.{◌≡◌, ◌%◌, ◌<◌, ◌^◌};
ghost use Rattle.second_sharing.specs.Shared.{denied_cell, urgency_cell, place_cell, claim_cell, entered_cell, left_cell};

use order::power_request::BUDGETS;
use second::closed::is_closed;

// Latch 12: "Each shed port latches 12."
pub fn is_denied(cells: &[u16; 728], p: u8) -> bool
    ensures { result ≡ denied_cell cells.now p }
{
    let p = p as usize;
    (p < cells[0] as usize) & (cells[200 + p] / 32 % 2 == 1)
}

// "critical, high, then low and unknown alike": priority 01, 10, and the others.
fn urgency(cells: &[u16; 728], p: u8) -> usize
    ensures { (result ≡ urgency_cell cells.now p) × (result < 3) }
{
    match cells[56 + p as usize] / 16 % 4 {
        1 => 0,
        2 => 1,
        _ => 2,
    }
}

// "ports closed before the tick .. come first, then those asking."
pub fn place(before: &[u16; 728], p: u8) -> usize
    requires { p < 48 }
    ensures { (result ≡ place_cell before.now p) × (result < 384) × (result % 64 < 48) }
{
    let within = 64 * urgency(before, p) + p as usize;
    if is_closed(before, p) {
        return within;
    }
    192 + within
}

// What the port claims: closed before, its demand; from IDLE "demand 154"; from CLASSIFYING the budget of the class just read.
pub fn claim(before: &[u16; 728], after: &[u16; 728], p: u8) -> u64
    ensures { (result ≡ claim_cell before.now after.now p) × (result < 2 ^ 16) }
{
    let place = p as usize;
    if is_closed(before, p) {
        return before[104 + place] as u64;
    }
    if before[8 + place] == 1 {
        return 154;
    }
    match BUDGETS.get(after[152 + place] as usize) {
        Some(budget) => *budget as u64,
        None => 0,
    }
}

// "An asker kept enters its state": TEST_MODE from IDLE, and otherwise POWER_UP.
pub fn entered(before: &[u16; 728], after: &[u16; 728], p: u8) -> bool
    ensures { result ≡ entered_cell before.now after.now p }
{
    let state = 8 + p as usize;
    let due = if before[state] == 1 { 8 } else { 5 };
    is_closed(before, p) | (after[state] == due)
}

// "one shed goes to IDLE. A closed port shed goes to IDLE, or from TEST_MODE to TEST_ERROR."
pub fn left(before: &[u16; 728], after: &[u16; 728], p: u8) -> bool
    ensures { result ≡ left_cell before.now after.now p }
{
    let state = 8 + p as usize;
    let due = if before[state] == 8 { 9 } else { 1 };
    after[state] == due
}
