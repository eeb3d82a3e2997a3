// A history of calls from a cold start, read off bytes: any bytes are a history, and the C functions that ship run it.
#![tactic(auto)]

mod bytes;
mod shown;

ghost use Rattle.std.specs.Prelude.{◌≡◌, ◌+◌, ◌-◌, ◌≤◌, min};
ghost use Rattle.cells.specs.Lent.{cells_told};
ghost use Rattle.passes.specs.OnCells.{tick_on};
ghost use Rattle.statements.specs.History.{ticked};
ghost use Rattle.history.specs.Decode.{call_of, calls_of};
ghost use Rattle.history.specs.Lent.{answer_of, cells_after, ran_on, cells_reached};
ghost use Rattle.history.specs.Marks.{noted_all, marks_reached};

use crate::bytes::number_at;
use crate::shown::note;
use ipaqsuni::tables::{
    ipaqsuni_cold_start, ipaqsuni_read_status, ipaqsuni_request, ipaqsuni_tick,
    ipaqsuni_write_control,
};
use marks::NOTHING;
use marks::bytes::word_at;

// The table that calls reached, and each port's mark.
#[derive(Clone, Copy)]
pub struct Reached {
    pub cells: [u16; 728],
    pub shown: [u8; 48],
}

// Kept a number with masks beside it, as the C interface answers: what `ipaqsuni_tick` answers: its number, 0 where the tick is accepted, and what then stands in the two masks.
#[derive(Clone, Copy)]
pub struct TickAnswer {
    pub number: u32,
    pub a: u64,
    pub b: u64,
}

// The masks are lent as 0. A refused tick writes none: who looks at them looks at the number first.
fn tick(cells: &mut [u16], block: &[u8], figure: u32) -> TickAnswer
    ensures value { result ≡ answer_of (tick_on cells.old block.now figure).answer }
    ensures cells_after { cells.new ≡ cells_told (tick_on cells.old block.now figure) cells.old }
{
    let mut a = 0u64;
    let mut b = 0u64;
    let mut closed = 0u32;
    let number = ipaqsuni_tick(cells, block, figure, &mut a, &mut b, &mut closed);
    TickAnswer { number, a, b }
}

// One call, whatever is handed in. Was it a tick that was accepted? Kept a number: the kind is a byte of the record.
fn call(cells: &mut [u16], kind: u8, port: u32, number: u32, block: &[u8]) -> bool
    ensures value { result ≡ ran_on cells.old (call_of kind port number block.now) }
    ensures cells_after { cells.new ≡ cells_after cells.old (call_of kind port number block.now) }
{
    match kind {
        0 => {
            ipaqsuni_write_control(cells, port, number);
            false
        }
        1 => {
            let mut word = 0u32;
            ipaqsuni_read_status(cells, port, &mut word);
            false
        }
        2 => {
            ipaqsuni_request(cells, port, number);
            false
        }
        _ => tick(cells, block, number).number == 0,
    }
}

fn next(from: Reached, kind: u8, port: u32, number: u32, block: &[u8]) -> Reached
    ensures cells_value { result.cells ≡ cells_after from.cells (call_of kind port number block.now) }
    ensures shown_value { result.shown ≡ noted_all result.cells (ran_on from.cells (call_of kind port number block.now)) block.now from.shown }
{
    let mut cells = from.cells;
    let mut shown = from.shown;
    let ticked = call(&mut cells, kind, port, number, block);
    note(&cells, ticked, block, &mut shown);
    Reached { cells, shown }
}

// A record's block ends where it says, or where the bytes run out.
fn end_of(start: usize, long: usize, size: usize) -> usize
    requires { start ≤ size }
    ensures { result ≡ start + min long (size - start) }
{
    start + long.min(size - start)
}

// A record is the call's kind, one byte; a port and a number, four bytes each; how long its block is, two bytes; and the block. The
// number is a control word, a request's value or a tick's figure. Fewer than eleven bytes at the end are no record.
pub fn run(history: &[u8], ports: u32) -> Reached
    ensures cells_value { result.cells ≡ cells_reached ports (calls_of history.now) }
    ensures shown_value { result.shown ≡ marks_reached ports (calls_of history.now) }
{
    let mut cells = [0u16; 728];
    ipaqsuni_cold_start(&mut cells, ports);
    let shown = [NOTHING; 48];
    let mut reached = Reached { cells, shown };
    let mut at = 0;
    // Kept a `while`: a record is as long as it says.
    while 11 <= history.len() - at {
        let port = number_at(history, at + 1);
        let number = number_at(history, at + 5);
        let start = at + 11;
        let end = end_of(start, word_at(history, at + 9) as usize, history.len());
        reached = next(reached, history[at], port, number, &history[start..end]);
        at = end;
    }
    reached
}

// What a tick leaves and answers.
#[derive(Clone, Copy)]
pub struct Tried {
    pub cells: [u16; 728],
    pub shown: [u8; 48],
    pub answer: TickAnswer,
}

pub fn tick_from(from: Reached, block: &[u8], figure: u32) -> Tried
    ensures cells_value { result.cells ≡ cells_after from.cells (ticked block.now figure) }
    ensures shown_value { result.shown ≡ noted_all result.cells (ran_on from.cells (ticked block.now figure)) block.now from.shown }
    ensures answer_value { result.answer ≡ answer_of (tick_on from.cells block.now figure).answer }
{
    let mut cells = from.cells;
    let mut shown = from.shown;
    let answer = tick(&mut cells, block, figure);
    note(&cells, answer.number == 0, block, &mut shown);
    Tried {
        cells,
        shown,
        answer,
    }
}
