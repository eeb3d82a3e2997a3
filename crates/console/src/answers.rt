// The answers, written on the page for output: a line for each.
use class::{ClassReading, Failure};
use fields::{Fields, Form};
use search::Found;
use signature::Signature;
use sizes::refusals::Refusal;
use std::num::TryFromIntError;
use table::form::Closed;
use text::Page;

// What a line is answered that comes to nothing.
#[derive(Clone, Copy)]
pub enum Fault {
    // It is not well formed, and nothing changes.
    BadLine,
    BadImage,
    Refused(Refusal),
}

impl From<Refusal> for Fault {
    fn from(refusal: Refusal) -> Fault {
        Fault::Refused(refusal)
    }
}

// A number that is over what its place takes.
impl From<TryFromIntError> for Fault {
    fn from(_over: TryFromIntError) -> Fault {
        Fault::BadLine
    }
}

impl Fault {
    pub fn write(self, out: &mut Page) {
        match self {
            Fault::BadLine => out.line(b"bad line"),
            Fault::BadImage => out.line(b"bad image"),
            Fault::Refused(refusal) => {
                out.text(b"refused");
                out.number(refusal.number() as u64);
                out.end();
            }
        }
    }
}

pub fn ok(out: &mut Page) {
    out.line(b"ok");
}

pub fn status(out: &mut Page, word: u16) {
    out.text(b"status");
    out.number(word as u64);
    out.end();
}

pub fn closed(out: &mut Page, closed: Closed) {
    out.text(b"ticked");
    out.number(closed.a);
    out.number(closed.b);
    out.number(closed.number as u64);
    out.end();
}

pub fn found(out: &mut Page, found: Found) {
    out.text(b"found");
    out.number(found.start as u64);
    out.number(found.size as u64);
    out.end();
}

pub fn fields(out: &mut Page, fields: Fields) {
    out.text(b"fields");
    out.number(fields.support as u64);
    out.number(fields.pair as u64);
    out.number(fields.class as u64);
    if let Form::Long(added) = fields.form {
        out.number(added.kind);
        out.number(added.source);
        out.number(added.priority);
        out.number(added.requested);
        out.number(added.allocated);
    }
    out.end();
}

pub fn signature(out: &mut Page, shown: Signature) {
    match shown {
        Signature::Valid => out.line(b"valid"),
        Signature::Invalid => out.line(b"invalid"),
        Signature::Open => out.line(b"open"),
    }
}

pub fn class(out: &mut Page, reading: ClassReading) {
    match reading.shown {
        Ok(class) => {
            out.text(b"class");
            out.number(class as u64);
        }
        Err(Failure::OverCurrent) => out.text(b"overcurrent"),
        Err(Failure::Disagree) => out.text(b"disagree"),
    }
    out.text(b" used");
    out.number(reading.used as u64);
    out.end();
}
