// From the cells of a table to the bytes of its image, in room that the caller lends.
#![tactic(auto)]

ghost use Rattle.std.specs.Prelude.{◌≡◌, true, ◌<◌, length};
ghost use Rattle.sizes.specs.Sizes.{most_ports};
ghost use Rattle.cells.specs.Cells.{port_of, table_of};
ghost use Rattle.image.specs.Image.{port_bytes, head_bytes, image_of, port_saves, imageable, save, room_after, image_long};

use sizes::refusals::Refusal;
use sizes::{CELLS, IMAGE, IMAGE_PORT, PORTS};

#[tactic(auto, unfolding(image::specs::Image::port_saves, cells::specs::Cells::port_holds))]
fn port_saves(cells: &[u16; CELLS], p: usize) -> bool
    requires { p < most_ports }
    ensures { result ≡ port_saves cells.now p }
{
    cells[8 + p] <= 9 && cells[200 + p] < 256 && cells[152 + p] < 256
}

// The places past the count too: an image has one byte for each of these.
pub fn imageable(cells: &[u16]) -> bool
    ensures { result ≡ imageable cells.now }
{
    let Some(cells) = cells.as_array::<CELLS>() else {
        return false;
    };
    for p in 0..PORTS {
        if !port_saves(cells, p) {
            return false;
        }
    }
    true
}

// A state and latches that there are are their own codes.
fn port_bytes(cells: &[u16; CELLS], p: usize) -> [u8; IMAGE_PORT]
    requires p_lt_most_ports { p < most_ports }
    requires p_value { port_saves cells.now p ≡ true }
    ensures { result ≡ port_bytes (port_of cells.now p) }
{
    let control = cells[56 + p].to_be_bytes();
    let demand = cells[104 + p].to_be_bytes();
    let detection = cells[248 + p].to_be_bytes();
    let backoff = cells[296 + p].to_be_bytes();
    let error_delay = cells[344 + p].to_be_bytes();
    let power_on = cells[392 + p].to_be_bytes();
    let limiting = cells[440 + p].to_be_bytes();
    let overload = cells[488 + p].to_be_bytes();
    let no_load = cells[536 + p].to_be_bytes();
    [
        cells[8 + p] as u8,
        control[0],
        control[1],
        cells[152 + p] as u8,
        demand[0],
        demand[1],
        cells[200 + p] as u8,
        detection[0],
        detection[1],
        backoff[0],
        backoff[1],
        error_delay[0],
        error_delay[1],
        power_on[0],
        power_on[1],
        limiting[0],
        limiting[1],
        overload[0],
        overload[1],
        no_load[0],
        no_load[1],
    ]
}

// The supply has four bytes, and the table's type no more than its two low ones.
fn head_bytes(cells: &[u16; CELLS]) -> [u8; 6]
    ensures { result ≡ head_bytes (table_of cells.now) }
{
    let count = cells[0].to_be_bytes();
    let supply = cells[1].to_be_bytes();
    [count[0], count[1], 0, 0, supply[0], supply[1]]
}

// The room stays a slice, with its length in the premises: must-fail/write_before_check.edit hands over a shorter one.
fn put(cells: &[u16; CELLS], room: &mut [u8])
    requires cells_value { imageable cells.now ≡ true }
    requires room_len { length room.old ≡ image_long }
    ensures { room.new ≡ image_of (table_of cells.now) }
{
    room[..6].copy_from_slice(&head_bytes(cells));
    for p in 0..PORTS {
        let at = 6 + IMAGE_PORT * p;
        room[at..at + IMAGE_PORT].copy_from_slice(&port_bytes(cells, p));
    }
}

// All is looked at before the first byte is written.
#[tactic(auto, unfolding(image::specs::Image::save, image::specs::Image::saves, image::specs::Image::room_after))]
pub fn store(cells: &[u16], room: &mut [u8]) -> Result<(), Refusal>
    ensures value { result ≡ save cells.now room.old }
    ensures room_after { room.new ≡ room_after cells.now room.old }
{
    if !imageable(cells) {
        return Err(Refusal::IllMade);
    }
    let Some(cells) = cells.as_array::<CELLS>() else {
        return Err(Refusal::IllMade);
    };
    if room.len() != IMAGE {
        return Err(Refusal::BadLength);
    }
    put(cells, room);
    Ok(())
}
