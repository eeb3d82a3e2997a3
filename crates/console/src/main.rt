// Reads lines from standard input, hands each to the core, and writes one line for each. It never stops at a bad line.
#![tactic(auto)]

mod answers;
mod commands;
mod lines;

use commands::Held;
use lines::Source;
use parts::front;
use sizes::CELLS;
use text::Page;

// A line over 8,192 bytes is a bad line: one byte more than that is kept, to tell.
const LONGEST: usize = 8_192;

// Lines that are answered: every loop has to end, and no input comes near so many.
const BUDGET: u64 = 1_099_511_627_776;

fn flush(out: &mut Page) {
    let at = out.at;
    io::write_all(1, front(out.room, at));
    out.at = 0;
}

// The answers that wait are written before the program may wait for input, and before the room could be full.
fn run(source: &mut Source, line: &mut [u8], data: &mut [u8], held: &mut Held, out: &mut Page) {
    for _ in 0..BUDGET {
        if source.is_taken() || 32_768 <= out.at {
            flush(out);
        }
        let Some(length) = source.line(line) else {
            return;
        };
        if LONGEST < length {
            out.line(b"bad line");
        } else {
            commands::answer(front(line, length), data, held, out);
        }
    }
    flush(out);
}

// Before the first cold start the table is 728 cells, all 0: it has no ports.
fn main(rt: HostRuntime) {
    let mut buffer = io::large_buffer();
    let mut line = [0; LONGEST + 1];
    let mut data = io::buffer();
    let mut room = io::large_buffer();
    let mut held = Held {
        room: [0; 1_024],
        many: CELLS,
    };
    let mut source = Source {
        stdin: rt.stdin(),
        buffer: &mut buffer,
        at: 0,
        end: 0,
    };
    let mut out = Page {
        room: &mut room,
        at: 0,
    };
    run(&mut source, &mut line, &mut data, &mut held, &mut out);
}
