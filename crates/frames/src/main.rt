// Reads records, each a kind, a length of two bytes and so many bytes, and writes what the power TLV's search, reader and writer
// answer, a line for each.
#![tactic(auto)]

use fields::{Added, Fields, Form};
use search::Found;

fn number(n: u64) {
    io::print_decimal(1, n);
    io::write_all(1, b" ");
}

fn refused(k: u8) {
    io::write_all(1, b"refused ");
    number(u64::from(k));
}

fn octet(n: u8) {
    io::print_hex(1, u64::from(n), 2);
}

fn end_line() {
    io::write_all(1, b"\n");
}

// Of the room only so many bytes are lent, but all of it is shown, so that a byte too many shows, and so does a byte that a refusal wrote.
fn give(fields: Fields, lent: usize) {
    let mut room = [0xa5u8; 16];
    let lent = lent.min(room.len());
    match writer::write(fields, &mut room[..lent]) {
        Ok(n) => {
            io::write_all(1, b"wrote ");
            number(n as u64);
        }
        Err(refusal) => refused(refusal.number()),
    }
    for byte in room {
        octet(byte);
    }
}

fn show_form(form: Form) {
    match form {
        Form::Short => {
            io::write_all(1, b"short ");
        }
        Form::Long(added) => {
            io::write_all(1, b"long ");
            number(added.kind);
            number(added.source);
            number(added.priority);
            number(added.requested);
            number(added.allocated);
        }
    }
}

// The fields, and what they are when written back.
fn take(part: &[u8]) {
    match reader::read(part) {
        Ok(fields) => {
            number(u64::from(fields.support));
            number(u64::from(fields.pair));
            number(u64::from(fields.class));
            show_form(fields.form);
            give(fields, 16);
        }
        Err(refusal) => refused(refusal.number()),
    }
    end_line();
}

fn place(found: Found) {
    io::write_all(1, b"at ");
    number(found.start as u64);
    number(found.size as u64);
}

fn find(pdu: &[u8]) {
    match search::search(pdu) {
        Ok(found) => {
            place(found);
            take(search::part(pdu, found.start, found.size));
        }
        Err(refusal) => {
            refused(refusal.number());
            end_line();
        }
    }
}

// Every beginning of the PDU that is not all of it, on one line: where the power TLV is, or the refusal's number.
fn find_cut(pdu: &[u8]) {
    for n in 0..pdu.len() {
        match search::search(search::part(pdu, 0, n)) {
            Ok(found) => place(found),
            Err(refusal) => number(u64::from(refusal.number())),
        }
    }
    end_line();
}

// A number of four bytes, so that the writer is handed some that are too large for its places in the TLV.
fn number_at(record: &[u8], at: usize) -> u64 {
    match record.get(at..) {
        Some([a, b, c, d, ..]) => u64::from(u32::from_be_bytes([*a, *b, *c, *d])),
        _ => 0,
    }
}

fn form_in(record: &[u8], long: bool) -> Form {
    if !long {
        return Form::Short;
    }
    Form::Long(Added {
        kind: number_at(record, 5),
        source: number_at(record, 9),
        priority: number_at(record, 13),
        requested: number_at(record, 17),
        allocated: number_at(record, 21),
    })
}

// The room that is lent, the three octets, 0 or 1 for the form, and the five numbers.
fn write_record(record: &[u8]) {
    if let [lent, support, pair, class, long, numbers @ ..] = record
        && 20 <= numbers.len()
    {
        let fields = Fields {
            support: *support,
            pair: *pair,
            class: *class,
            form: form_in(record, *long == 1),
        };
        give(fields, usize::from(*lent));
    }
    end_line();
}

// Kept a number: the kind is a byte of the input, and is looked at here alone.
fn show(kind: u8, record: &[u8]) {
    match kind {
        0 => find(record),
        1 => find_cut(record),
        2 => take(record),
        _ => write_record(record),
    }
}

// False where the input ends.
fn next() -> bool {
    let mut head = [0u8; 3];
    if io::read_full(0, &mut head) < 3 {
        return false;
    }
    let [kind, high, low] = head;
    let size = usize::from(u16::from_be_bytes([high, low]));
    if 2_048 < size {
        return false;
    }
    let mut space = [0u8; 2_048];
    let record = &mut space[..size];
    if io::read_full(0, record) < size {
        return false;
    }
    show(kind, record);
    true
}

fn main() {
    for _ in 0..65_536 {
        if !next() {
            return;
        }
    }
}
