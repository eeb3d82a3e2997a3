// The calls on a table. Each program is handed the cells twice: those that are lent to the core, and `before`, which holds the same and which
// the core never sees. It is asked wherever the two are the same, whatever they hold and however many they are.
ghost use Rattle.std.specs.Prelude.{◌≡◌, cond};
ghost use Rattle.cells.specs.Lent.{cells_told, cells_cold};
ghost use Rattle.replies.specs.OnCells.{start_on, control_on, status_on, request_on};
ghost use Rattle.passes.specs.OnCells.{tick_on};
ghost use Rattle.verdict.specs.declared.Verdict.TheVariants.{Held, NotAsked};
ghost use Rattle.judge.specs.Alike.{alike};

use calls::{cold_start, read_status, write_control};
use judge::{answered, refused, same};
use order::control_write::control_number;
use order::power_request::request_number;
use order::start::start_number;
use order::status_read::status_number;
use order::ticking::tick_number;
use request::request;
use tick::tick;
use verdict::Verdict;

pub fn first_start(cells: &mut [u16], before: &[u16], ports: u64) -> Verdict
    ensures value { result ≡ cond (alike before.now cells.old) Held NotAsked }
    ensures cells_after { cells.new ≡ cond (alike before.now cells.old) (cells_cold (start_on cells.old ports) cells.old) cells.old }
{
    if !same(before, cells) {
        return Verdict::NotAsked;
    }
    let start_due = start_number(cells, ports);
    match cold_start(cells, ports) {
        Ok(_) => answered(start_due),
        Err(refusal) => refused(start_due, refusal.number(), same(before, cells)),
    }
}

pub fn first_control(cells: &mut [u16], before: &[u16], port: u64, word: u64) -> Verdict
    ensures value { result ≡ cond (alike before.now cells.old) Held NotAsked }
    ensures cells_after { cells.new ≡ cond (alike before.now cells.old) (cells_told (control_on cells.old port word) cells.old) cells.old }
{
    if !same(before, cells) {
        return Verdict::NotAsked;
    }
    let control_due = control_number(cells, port, word);
    match write_control(cells, port, word) {
        Ok(_) => answered(control_due),
        Err(refusal) => refused(control_due, refusal.number(), same(before, cells)),
    }
}

pub fn first_status(cells: &mut [u16], before: &[u16], port: u64) -> Verdict
    ensures value { result ≡ cond (alike before.now cells.old) Held NotAsked }
    ensures cells_after { cells.new ≡ cond (alike before.now cells.old) (cells_told (status_on cells.old port) cells.old) cells.old }
{
    if !same(before, cells) {
        return Verdict::NotAsked;
    }
    let status_due = status_number(cells, port);
    match read_status(cells, port) {
        Ok(_) => answered(status_due),
        Err(refusal) => refused(status_due, refusal.number(), same(before, cells)),
    }
}

pub fn first_request(cells: &mut [u16], before: &[u16], port: u64, value: u64) -> Verdict
    ensures value { result ≡ cond (alike before.now cells.old) Held NotAsked }
    ensures cells_after { cells.new ≡ cond (alike before.now cells.old) (cells_told (request_on cells.old port value) cells.old) cells.old }
{
    if !same(before, cells) {
        return Verdict::NotAsked;
    }
    let request_due = request_number(cells, port, value);
    match request(cells, port, value) {
        Ok(_) => answered(request_due),
        Err(refusal) => refused(request_due, refusal.number(), same(before, cells)),
    }
}

pub fn first_tick(cells: &mut [u16], before: &[u16], block: &[u8], figure: u64) -> Verdict
    ensures value { result ≡ cond (alike before.now cells.old) Held NotAsked }
    ensures cells_after { cells.new ≡ cond (alike before.now cells.old) (cells_told (tick_on cells.old block.now figure) cells.old) cells.old }
{
    if !same(before, cells) {
        return Verdict::NotAsked;
    }
    let tick_due = tick_number(cells, block, figure);
    match tick(cells, block, figure) {
        Ok(_) => answered(tick_due),
        Err(refusal) => refused(tick_due, refusal.number(), same(before, cells)),
    }
}
