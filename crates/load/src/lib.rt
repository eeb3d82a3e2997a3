// From the bytes of an image to the cells of its table.
#![tactic(auto)]

ghost use Rattle.std.specs.Prelude.{◌≡◌, true, ◌+◌, ◌<◌, length};
ghost use Rattle.lists.specs.Bytes.{word_at};
ghost use Rattle.sizes.specs.Sizes.{most_ports};
ghost use Rattle.cells.specs.Cells.{cells_of, cells_long};
ghost use Rattle.cells.specs.Writes.{with_port_cells, with_count_cells};
ghost use Rattle.image.specs.Load.{counts_in, port_in, port_reads, table_in, reads, restore, cells_restored};

use sizes::refusals::Refusal;
use sizes::{CELLS, IMAGE, IMAGE_PORT, PORTS};

// No `from_be_bytes`: a compiler that is shown one read of both bytes gathers them for many ports in `put`, which takes two fifths longer.
#[tactic(auto, unfolding(lists::specs::Bytes::word_at))]
fn word_at(bytes: &[u8], at: usize) -> u16
    requires { at + 1 < length bytes.now }
    ensures { result ≡ word_at bytes.now at }
{
    u16::from(bytes[at]) * 256 + u16::from(bytes[at + 1])
}

// Any byte is latches.
#[tactic(auto, unfolding(image::specs::Load::port_reads))]
fn port_reads(bytes: &[u8], at: usize) -> bool
    requires { at < length bytes.now }
    ensures { result ≡ port_reads bytes.now at }
{
    bytes[at] <= 9
}

#[tactic(auto, unfolding(image::specs::Load::reads))]
fn reads(bytes: &[u8]) -> bool
    ensures { result ≡ reads bytes.now }
{
    if bytes.len() != IMAGE {
        return false;
    }
    if word_at(bytes, 2) != 0 {
        return false;
    }
    for p in 0..PORTS {
        if !port_reads(bytes, 6 + IMAGE_PORT * p) {
            return false;
        }
    }
    true
}

// The cells stay a slice, with their number in the premises: must-fail/fewer_cells_taken.edit hands over fewer.
#[tactic(auto, unfolding(cells::specs::Writes::writes, cells::specs::Writes::with_count_cells, image::specs::Load::counts_in))]
fn put_counts(bytes: &[u8], at: usize, cells: &mut [u16], p: usize)
    requires at_in_bounds { at + 13 < length bytes.now }
    requires cells_len { length cells.old ≡ cells_long }
    requires p_lt_most_ports { p < most_ports }
    ensures { cells.new ≡ with_count_cells p (counts_in bytes.now at) cells.old }
{
    cells[248 + p] = word_at(bytes, at);
    cells[296 + p] = word_at(bytes, at + 2);
    cells[344 + p] = word_at(bytes, at + 4);
    cells[392 + p] = word_at(bytes, at + 6);
    cells[440 + p] = word_at(bytes, at + 8);
    cells[488 + p] = word_at(bytes, at + 10);
    cells[536 + p] = word_at(bytes, at + 12);
}

// A state that reads is its own code, and so is a byte of latches.
fn put_port(bytes: &[u8], at: usize, cells: &mut [u16], p: usize)
    requires at_in_bounds { at + 20 < length bytes.now }
    requires at_value { port_reads bytes.now at ≡ true }
    requires cells_len { length cells.old ≡ cells_long }
    requires p_lt_most_ports { p < most_ports }
    ensures { cells.new ≡ with_port_cells p (port_in bytes.now at) cells.old }
{
    cells[8 + p] = bytes[at] as u16;
    cells[56 + p] = word_at(bytes, at + 1);
    cells[104 + p] = word_at(bytes, at + 4);
    cells[152 + p] = bytes[at + 3] as u16;
    cells[200 + p] = bytes[at + 6] as u16;
    put_counts(bytes, at + 7, cells, p);
}

fn put(bytes: &[u8], cells: &mut [u16])
    requires bytes_value { reads bytes.now ≡ true }
    requires cells_len { length cells.old ≡ cells_long }
    ensures { cells.new ≡ cells_of (table_in bytes.now) }
{
    // What is nobody's is 0.
    cells.fill(0);
    cells[0] = word_at(bytes, 0);
    cells[1] = word_at(bytes, 4);
    for p in 0..PORTS {
        put_port(bytes, 6 + IMAGE_PORT * p, cells, p);
    }
}

// All is looked at before the first cell is written. What the cells held is of no matter.
#[tactic(auto, unfolding(image::specs::Load::restore, image::specs::Load::restores, image::specs::Load::cells_restored))]
pub fn load(bytes: &[u8], cells: &mut [u16]) -> Result<(), Refusal>
    ensures value { result ≡ restore bytes.now cells.old }
    ensures cells_after { cells.new ≡ cells_restored bytes.now cells.old }
{
    if cells.len() != CELLS || !reads(bytes) {
        return Err(Refusal::IllMade);
    }
    put(bytes, cells);
    Ok(())
}
