// The walk over a PDU, one TLV at a time: a walker holds the PDU and a boundary in it.
#![tactic(auto)]

ghost use Rattle.std.specs.Prelude.{◌≡◌};
ghost use Rattle.walk.specs.Walk.{step_of};

use header::{length_at, type_at};

// What stands at a boundary of the walk.
// No iterator of TLVs, which is no plainer: it would hand out each place beside its size, and remember that a TLV was cut.
#[derive(Clone, Copy, PartialEq, Eq)]
pub enum Step {
    // The walk ends here.
    End,
    // A TLV that runs past the end of the bytes.
    Cut,
    // A whole TLV of so many bytes, its header included.
    Tlv(usize),
}

#[tactic(auto, unfolding(crate::specs::Walk::step_of, header::specs::Header::size_at))]
fn step_at(pdu: &[u8], at: usize) -> Step
    ensures { result ≡ step_of pdu.now at }
{
    // A test and no `get(at..)`: after it the compiler knows each length below, and the walk tests it once.
    if pdu.len() <= at {
        return Step::End;
    }
    let rest = match &pdu[at..] {
        rest @ [_, _, ..] => rest,
        _ => return Step::Cut,
    };
    if type_at(pdu, at) == 0 {
        return Step::End;
    }
    let size = 2 + length_at(pdu, at);
    if rest.len() < size {
        Step::Cut
    } else {
        Step::Tlv(size)
    }
}

#[derive(Drop)]
pub struct Walker<'a> {
    pub pdu: &'a [u8],
    pub at: usize,
}

// Functions and no methods: the list of one possible answer names them so (`walk_new`, `walk_here`).
pub fn new<'a>(pdu: &'a [u8], at: usize) -> Walker<'a>
    ensures { (result.pdu ≡ pdu.entry) × (result.at ≡ at) }
{
    Walker { pdu, at }
}

// What stands where the walker is.
pub fn here<'a>(w: Walker<'a>) -> Step
    ensures { result ≡ step_of w.entry.pdu.now w.entry.at }
{
    step_at(w.pdu, w.at)
}

// The walker's step for a caller that has no walker.
pub fn tlv_at(pdu: &[u8], at: usize) -> Step
    ensures { result ≡ step_of pdu.now at }
{
    here(new(pdu, at))
}
