// One port of the lent cells by value, for the moves that are more than a count.
ghost use Rattle.std.specs.Prelude.{◌≡◌, ◌+◌, ◌<◌, get_or};
ghost use Rattle.sizes.specs.Sizes.{most_ports};
ghost use Rattle.cells.specs.Cells.{counts_of, port_of};
ghost use Rattle.cells.specs.Writes.{with_port_cells, with_count_cells};

use cells::{code_of, latch_cell, latches_of, state_of};
use port::form::{Counts, Port};
use power::Power;
use sizes::CELLS;

// These two stand in `quick` too: handed out by one crate they would be public, and none such has a `requires` (docs/PREMISES.md), so that
// they would test the place once more in the hot loop.
#[tactic(auto, unfolding(cells::specs::Cells::counts_of))]
fn counts_at(cells: &[u16; CELLS], p: usize) -> Counts
    requires { p < most_ports }
    ensures { result ≡ counts_of cells.now p }
{
    Counts {
        detection: cells[248 + p],
        backoff: cells[296 + p],
        error_delay: cells[344 + p],
        power_on: cells[392 + p],
        limiting: cells[440 + p],
        overload: cells[488 + p],
        no_load: cells[536 + p],
    }
}

#[tactic(auto, unfolding(cells::specs::Cells::port_of))]
pub fn port_at(cells: &[u16; CELLS], p: usize) -> Port
    requires { (p < most_ports) × (get_or cells.now (152 + p) 0 < 256) }
    ensures { result ≡ port_of cells.now p }
{
    Port {
        state: state_of(cells[8 + p]),
        class: cells[152 + p] as u8,
        control: cells[56 + p],
        demand: Power(cells[104 + p]),
        latches: latches_of(cells[200 + p]),
        counts: counts_at(cells, p),
    }
}

#[tactic(auto, unfolding(cells::specs::Writes::with_count_cells, cells::specs::Writes::writes))]
fn put_counts(cells: &mut [u16; CELLS], p: usize, counts: Counts)
    requires { p < most_ports }
    ensures { cells.new ≡ with_count_cells p counts cells.old }
{
    cells[248 + p] = counts.detection;
    cells[296 + p] = counts.backoff;
    cells[344 + p] = counts.error_delay;
    cells[392 + p] = counts.power_on;
    cells[440 + p] = counts.limiting;
    cells[488 + p] = counts.overload;
    cells[536 + p] = counts.no_load;
}

#[tactic(auto, unfolding(cells::specs::Writes::with_port_cells, cells::specs::Writes::with_count_cells, cells::specs::Writes::writes))]
pub fn put_port(cells: &mut [u16; CELLS], p: usize, port: Port)
    requires { p < most_ports }
    ensures { cells.new ≡ with_port_cells p port cells.old }
{
    cells[8 + p] = code_of(port.state);
    cells[56 + p] = port.control;
    cells[104 + p] = port.demand.0;
    cells[152 + p] = port.class as u16;
    cells[200 + p] = latch_cell(port.latches);
    put_counts(cells, p, port.counts);
}
