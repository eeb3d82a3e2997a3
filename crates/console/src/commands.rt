// The commands: a line's words to a call of the core. Whatever is not well formed is a bad line, and nothing changes.
ghost use Rattle.std.specs.Prelude.{◌≤◌};

use crate::answers::{self, Fault};
use fields::{Added, Fields, Form};
use parts::{bytes_of, count, front, number_of, numbers_of, word};
use sizes::{CELLS, IMAGE};
use text::Page;

// The first `many` cells of the room are held.
#[derive(Drop)]
pub struct Held {
    pub room: [u16; 1_024],
    pub many: usize,
}

impl Held {
    fn cells(&mut self) -> &mut [u16] {
        let many = self.many.min(self.room.len());
        &mut self.room[..many]
    }
}

// The numbers of a line that has just so many after its command.
fn numbers<const N: usize>(line: &[u8]) -> Result<[u64; N], Fault> {
    let numbers = numbers_of(line, N).ok_or(Fault::BadLine)?;
    numbers.first_chunk().copied().ok_or(Fault::BadLine)
}

// The bytes that the last word of a line says as HEX, if just so many words stand after its command.
fn bytes<'a>(line: &[u8], many: usize, data: &'a mut [u8]) -> Result<&'a [u8], Fault>
    requires { many ≤ 2 }
{
    if count(line) != many + 1 {
        return Err(Fault::BadLine);
    }
    let n = bytes_of(word(line, many), data).ok_or(Fault::BadLine)?;
    Ok(front(data, n))
}

// A line that is its command alone.
fn alone(line: &[u8]) -> Result<(), Fault> {
    if count(line) == 1 {
        Ok(())
    } else {
        Err(Fault::BadLine)
    }
}

fn cold(line: &[u8], cells: &mut [u16], out: &mut Page) -> Result<(), Fault> {
    let [ports] = numbers::<1>(line)?;
    calls::cold_start(cells, ports)?;
    answers::ok(out);
    Ok(())
}

fn control(line: &[u8], cells: &mut [u16], out: &mut Page) -> Result<(), Fault> {
    let [port, word] = numbers::<2>(line)?;
    calls::write_control(cells, port, word)?;
    answers::ok(out);
    Ok(())
}

fn request(line: &[u8], cells: &mut [u16], out: &mut Page) -> Result<(), Fault> {
    let [port, value] = numbers::<2>(line)?;
    request::request(cells, port, value)?;
    answers::ok(out);
    Ok(())
}

fn status(line: &[u8], cells: &mut [u16], out: &mut Page) -> Result<(), Fault> {
    let [port] = numbers::<1>(line)?;
    answers::status(out, calls::read_status(cells, port)?);
    Ok(())
}

// An image is restored into as many cells as a table has, whatever was held before.
fn table(line: &[u8], data: &mut [u8], held: &mut Held, out: &mut Page) -> Result<(), Fault> {
    let image = bytes(line, 1, data)?;
    load::load(image, &mut held.room[..CELLS]).or(Err(Fault::BadImage))?;
    held.many = CELLS;
    answers::ok(out);
    Ok(())
}

fn dump(line: &[u8], cells: &[u16], out: &mut Page) -> Result<(), Fault> {
    alone(line)?;
    let mut image = [0; IMAGE];
    store::store(cells, &mut image).or(Err(Fault::BadImage))?;
    out.hex(&image);
    out.end();
    Ok(())
}

// Whatever the cells are, and however many: what is no table is for the core to refuse. Two bytes a cell, the high one first.
fn cells(line: &[u8], data: &mut [u8], held: &mut Held, out: &mut Page) -> Result<(), Fault> {
    let (pairs, odd) = bytes(line, 1, data)?.as_chunks();
    if !odd.is_empty() || held.room.len() < pairs.len() {
        return Err(Fault::BadLine);
    }
    for (cell, pair) in held.room.iter_mut().zip(pairs) {
        *cell = u16::from_be_bytes(*pair);
    }
    held.many = pairs.len();
    answers::ok(out);
    Ok(())
}

fn show(line: &[u8], cells: &[u16], out: &mut Page) -> Result<(), Fault> {
    alone(line)?;
    out.text(b"cells ");
    if cells.is_empty() {
        out.text(b"-");
    }
    for cell in cells {
        out.hex(&cell.to_be_bytes());
    }
    out.end();
    Ok(())
}

fn tick(line: &[u8], data: &mut [u8], cells: &mut [u16], out: &mut Page) -> Result<(), Fault> {
    let figure = number_of(word(line, 1)).ok_or(Fault::BadLine)?;
    let block = bytes(line, 2, data)?;
    answers::closed(out, tick::tick(cells, block, figure)?);
    Ok(())
}

fn search(line: &[u8], data: &mut [u8], out: &mut Page) -> Result<(), Fault> {
    answers::found(out, search::search(bytes(line, 1, data)?)?);
    Ok(())
}

fn read(line: &[u8], data: &mut [u8], out: &mut Page) -> Result<(), Fault> {
    answers::fields(out, reader::read(bytes(line, 1, data)?)?);
    Ok(())
}

// A room of so many bytes, each A5. The whole room is shown, as it is after an accepted write.
fn write(size: u64, fields: Fields, out: &mut Page) -> Result<(), Fault> {
    let mut bytes = [0xA5; 2_048];
    if 2_048 < size {
        return Err(Fault::BadLine);
    }
    let room = &mut bytes[..size as usize];
    writer::write(fields, room)?;
    out.text(b"wrote ");
    out.hex(room);
    out.end();
    Ok(())
}

fn write7(line: &[u8], out: &mut Page) -> Result<(), Fault> {
    let [size, support, pair, class] = numbers::<4>(line)?;
    let fields = Fields {
        support: u8::try_from(support)?,
        pair: u8::try_from(pair)?,
        class: u8::try_from(class)?,
        form: Form::Short,
    };
    write(size, fields, out)
}

fn write12(line: &[u8], out: &mut Page) -> Result<(), Fault> {
    let [
        size,
        support,
        pair,
        class,
        kind,
        source,
        priority,
        requested,
        allocated,
    ] = numbers::<9>(line)?;
    let added = Added {
        kind,
        source,
        priority,
        requested,
        allocated,
    };
    let fields = Fields {
        support: u8::try_from(support)?,
        pair: u8::try_from(pair)?,
        class: u8::try_from(class)?,
        form: Form::Long(added),
    };
    write(size, fields, out)
}

fn signature(line: &[u8], out: &mut Page) -> Result<(), Fault> {
    let [v1, v2, i1, i2] = numbers::<4>(line)?;
    let shown = signature::signature_of(
        u16::try_from(v1)?,
        u16::try_from(v2)?,
        u16::try_from(i1)?,
        u16::try_from(i2)?,
    );
    answers::signature(out, shown);
    Ok(())
}

fn class(line: &[u8], out: &mut Page) -> Result<(), Fault> {
    let [c1, c2] = numbers::<2>(line)?;
    answers::class(
        out,
        class::class_of_two(u16::try_from(c1)?, u16::try_from(c2)?),
    );
    Ok(())
}

fn command(line: &[u8], data: &mut [u8], held: &mut Held, out: &mut Page) -> Result<(), Fault> {
    match word(line, 0) {
        b"table" => table(line, data, held, out),
        b"cells" => cells(line, data, held, out),
        b"tick" => tick(line, data, held.cells(), out),
        b"control" => control(line, held.cells(), out),
        b"request" => request(line, held.cells(), out),
        b"status" => status(line, held.cells(), out),
        b"cold" => cold(line, held.cells(), out),
        b"dump" => dump(line, held.cells(), out),
        b"show" => show(line, held.cells(), out),
        b"search" => search(line, data, out),
        b"read" => read(line, data, out),
        b"write7" => write7(line, out),
        b"write12" => write12(line, out),
        b"signature" => signature(line, out),
        b"class" => class(line, out),
        _ => Err(Fault::BadLine),
    }
}

// One line is written for each.
pub fn answer(line: &[u8], data: &mut [u8], held: &mut Held, out: &mut Page) {
    if let Err(fault) = command(line, data, held, out) {
        fault.write(out);
    }
}
