// The calls on a table that the caller lends as cells, and its image, as C calls them.
ghost use Rattle.std.specs.Prelude.{◌≡◌};
ghost use Rattle.cells.specs.Lent.{cells_told, cells_cold};
ghost use Rattle.replies.specs.OnCells.{start_on, control_on, status_on, request_on};
ghost use Rattle.passes.specs.OnCells.{tick_on};
ghost use Rattle.image.specs.Image.{save, room_after};
ghost use Rattle.image.specs.Load.{restore, cells_restored};
ghost use Rattle.ipaqsuni.specs.Outcome.{number_of};
ghost use Rattle.ipaqsuni.specs.Calls.{word_left, mask_a_left, mask_b_left, closed_left};

#[unsafe(no_mangle)]
pub extern "C" fn ipaqsuni_cold_start(cells: &mut [u16], ports: u32) -> u32
    ensures value { result ≡ number_of (start_on cells.old ports).answer }
    ensures cells_after { cells.new ≡ cells_cold (start_on cells.old ports) cells.old }
{
    ipaqsuni::tables::ipaqsuni_cold_start(cells, ports)
}

#[unsafe(no_mangle)]
pub extern "C" fn ipaqsuni_write_control(cells: &mut [u16], port: u32, word: u32) -> u32
    ensures value { result ≡ number_of (control_on cells.old port word).answer }
    ensures cells_after { cells.new ≡ cells_told (control_on cells.old port word) cells.old }
{
    ipaqsuni::tables::ipaqsuni_write_control(cells, port, word)
}

#[unsafe(no_mangle)]
pub extern "C" fn ipaqsuni_read_status(cells: &mut [u16], port: u32, status: &mut u32) -> u32
    ensures value { result ≡ number_of (status_on cells.old port).answer }
    ensures cells_after { cells.new ≡ cells_told (status_on cells.old port) cells.old }
    ensures status_after { status.new ≡ word_left (status_on cells.old port).answer status.old }
{
    ipaqsuni::tables::ipaqsuni_read_status(cells, port, status)
}

#[unsafe(no_mangle)]
pub extern "C" fn ipaqsuni_request(cells: &mut [u16], port: u32, value: u32) -> u32
    ensures value { result ≡ number_of (request_on cells.old port value).answer }
    ensures cells_after { cells.new ≡ cells_told (request_on cells.old port value) cells.old }
{
    ipaqsuni::tables::ipaqsuni_request(cells, port, value)
}

#[unsafe(no_mangle)]
pub extern "C" fn ipaqsuni_tick(
    cells: &mut [u16],
    samples: &[u8],
    supply: u32,
    a: &mut u64,
    b: &mut u64,
    closed: &mut u32,
) -> u32
    ensures value { result ≡ number_of (tick_on cells.old samples.now supply).answer }
    ensures cells_after { cells.new ≡ cells_told (tick_on cells.old samples.now supply) cells.old }
    ensures a_after { a.new ≡ mask_a_left (tick_on cells.old samples.now supply).answer a.old }
    ensures b_after { b.new ≡ mask_b_left (tick_on cells.old samples.now supply).answer b.old }
    ensures closed_after { closed.new ≡ closed_left (tick_on cells.old samples.now supply).answer closed.old }
{
    ipaqsuni::tables::ipaqsuni_tick(cells, samples, supply, a, b, closed)
}

#[unsafe(no_mangle)]
pub extern "C" fn ipaqsuni_save(cells: &[u16], image: &mut [u8]) -> u32
    ensures value { result ≡ number_of (save cells.now image.old) }
    ensures image_after { image.new ≡ room_after cells.now image.old }
{
    ipaqsuni::tables::ipaqsuni_save(cells, image)
}

#[unsafe(no_mangle)]
pub extern "C" fn ipaqsuni_restore(cells: &mut [u16], image: &[u8]) -> u32
    ensures value { result ≡ number_of (restore image.now cells.old) }
    ensures cells_after { cells.new ≡ cells_restored image.now cells.old }
{
    ipaqsuni::tables::ipaqsuni_restore(cells, image)
}
