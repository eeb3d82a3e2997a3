// The calls of the management side, on the cells that a caller lends: cold start, control write and status read. Each changes the cells
// where they stand, and a refusal none of them. The fourth, the request, is the crate `request`.
#![tactic(auto)]

ghost use Rattle.std.specs.Prelude.{◌≡◌, ◌||◌};
ghost use Rattle.status.specs.Status.{status_word};
ghost use Rattle.port.specs.States.{condition, in_disabled};
ghost use Rattle.table.specs.Parts.{port_at};
ghost use Rattle.cells.specs.Cells.{table_of, cells_of};
ghost use Rattle.cells.specs.Codes.{state_of};
ghost use Rattle.cells.specs.Lent.{cells_told, cells_cold};
ghost use Rattle.replies.specs.Calls.{cold_table, same_alternative};
ghost use Rattle.replies.specs.OnCells.{start_on, control_on, status_on};
ghost use Rattle.replies.specs.Rest.{AtPort, control_rest};

use cells::{latches_of, state_of};
use port::form::State;
use sizes::refusals::Refusal;
use sizes::{CELLS, PORTS_64};
use status::{Condition, status_word};
use well::port_named;

// Enable 00, alternative A, priority unknown.
const COLD: u16 = 0x0004;

// Places at or past the port count are filled alike.
fn fill(cells: &mut [u16; CELLS], count: u16)
    ensures { cells.new ≡ cells_of (cold_table count) }
{
    cells.fill(0);
    cells[0] = count;
    cells[56..104].fill(COLD);
}

// It looks at nothing that the cells hold: they may never have been a table.
pub fn cold_start(cells: &mut [u16], ports: u64) -> Result<(), Refusal>
    ensures value { result ≡ (start_on cells.old ports).answer }
    ensures cells_after { cells.new ≡ cells_cold (start_on cells.old ports) cells.old }
{
    let Some(cells) = cells.as_mut_array::<CELLS>() else {
        return Err(Refusal::IllMade);
    };
    if !(1..=PORTS_64).contains(&ports) {
        return Err(Refusal::NoSuchPort);
    }
    fill(cells, ports as u16);
    Ok(())
}

#[tactic(auto, unfolding(replies::specs::Calls::same_alternative, lists::specs::Bits::field))]
fn same_alternative(v: u16, w: u16) -> bool
    ensures { result ≡ same_alternative v w }
{
    v / 4 % 4 == w / 4 % 4
}

// The code of DISABLED is 0.
#[tactic(auto, using(cells::proofs::CodeLaws::disabled_code))]
fn may_write(state: u16, present: u16, word: u16) -> bool
    ensures { result ≡ (same_alternative present word || in_disabled (state_of state)) }
{
    state == 0 || same_alternative(present, word)
}

// What the ladder asks after 13 and 2.
fn controlled(cells: &mut [u16], p: usize, word: u64) -> Result<(), Refusal>
    requires { AtPort cells.old p }
    ensures value { result ≡ (control_rest cells.old p word).answer }
    ensures cells_after { cells.new ≡ cells_told (control_rest cells.old p word) cells.old }
{
    if control::refused(word) {
        return Err(Refusal::Reserved);
    }
    let control = word as u16;
    if !may_write(cells[8 + p], cells[56 + p], control) {
        return Err(Refusal::WrongState);
    }
    cells[56 + p] = control;
    Ok(())
}

pub fn write_control(cells: &mut [u16], port: u64, word: u64) -> Result<(), Refusal>
    ensures value { result ≡ (control_on cells.old port word).answer }
    ensures cells_after { cells.new ≡ cells_told (control_on cells.old port word) cells.old }
{
    let p = port_named(cells, port)?;
    controlled(cells, p, word)
}

fn condition_of(state: State) -> Condition
    ensures { result ≡ condition state }
{
    match state {
        State::Disabled => Condition::Disabled,
        State::Idle | State::Detecting | State::Backoff | State::Classifying =>
            Condition::Searching,
        State::PowerUp | State::PowerOn => Condition::Delivering,
        State::TestMode => Condition::Testing,
        State::ErrorDelay | State::TestError => Condition::Faulty,
    }
}

#[tactic(auto, using(replies::proofs::OnLaws::state_at, replies::proofs::OnLaws::class_at, replies::proofs::OnLaws::latches_at))]
fn word_of(cells: &[u16], p: usize) -> u16
    requires { AtPort cells.now p }
    ensures { result ≡ status_word (port_at (table_of cells.now) p).latches (port_at (table_of cells.now) p).class (condition (port_at (table_of cells.now) p).state) }
{
    let condition = condition_of(state_of(cells[8 + p]));
    status_word(latches_of(cells[200 + p]), cells[152 + p] as u8, condition)
}

pub fn read_status(cells: &mut [u16], port: u64) -> Result<u16, Refusal>
    ensures value { result ≡ (status_on cells.old port).answer }
    ensures cells_after { cells.new ≡ cells_told (status_on cells.old port) cells.old }
{
    let place = port_named(cells, port)?;
    let word = word_of(cells, place);
    cells[200 + place] = 0;
    Ok(word)
}
