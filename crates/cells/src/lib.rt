// The codes of states and latches in a lent table. What the table's cells mean is in specs/Cells.antt.
#![tactic(auto)]

ghost use Rattle.std.specs.Prelude.{◌≡◌, ◌*◌, ◌<◌, ◌≤◌};
ghost use Rattle.lists.specs.Bits.{one};
ghost use Rattle.port.specs.States.{code_of};
ghost use Rattle.cells.specs.Codes.{state_of, latch_byte, latches_of};

use port::form::State;
use status::Latches;

// A match: no derive reads a number as a state, and every number is one here.
pub fn state_of(code: u16) -> State
    ensures { result ≡ state_of code }
{
    match code {
        0 => State::Disabled,
        1 => State::Idle,
        2 => State::Detecting,
        3 => State::Backoff,
        4 => State::Classifying,
        5 => State::PowerUp,
        6 => State::PowerOn,
        7 => State::ErrorDelay,
        8 => State::TestMode,
        _ => State::TestError,
    }
}

// The states stand in the order of their codes. Kept beside `as`: the list of one possible answer names it (`cells_code_of`).
pub fn code_of(state: State) -> u16
    ensures { result ≡ code_of state }
{
    state as u16
}

#[tactic(auto, unfolding(crate::specs::Codes::latches_of, lists::specs::Bits::bit))]
pub fn latches_of(cell: u16) -> Latches
    ensures { result ≡ latches_of cell }
{
    Latches {
        disagree: cell / 128 % 2 == 1,
        over_current: cell / 64 % 2 == 1,
        denied: cell / 32 % 2 == 1,
        valid: cell / 16 % 2 == 1,
        invalid: cell / 8 % 2 == 1,
        short: cell / 4 % 2 == 1,
        overload: cell / 2 % 2 == 1,
        absent: cell % 2 == 1,
    }
}

// A set latch counts as much as its place.
#[tactic(auto, using(lists::proofs::Bits::byte_is, lists::proofs::Bits::byte_small), unfolding(crate::specs::Codes::latch_byte))]
pub fn latch_cell(latches: Latches) -> u16
    ensures { result ≡ latch_byte latches }
{
    128 * latches.disagree as u16
        + 64 * latches.over_current as u16
        + 32 * latches.denied as u16
        + 16 * latches.valid as u16
        + 8 * latches.invalid as u16
        + 4 * latches.short as u16
        + 2 * latches.overload as u16
        + latches.absent as u16
}
