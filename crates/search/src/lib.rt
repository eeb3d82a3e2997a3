// The search: one walk over a PDU, TLV by TLV, that copies nothing.
#![tactic(auto)]

ghost use Rattle.std.specs.Prelude.{◌≡◌, take, drop};
ghost use Rattle.search.specs.Search.{search_of};
ghost use Rattle.search.specs.Seen.{noted_of, answer_of};

use header::is_power;
use sizes::refusals::Refusal;
use walk::{Step, tlv_at};

// The part of the PDU that is the power TLV, its header included.
#[derive(Clone, Copy, PartialEq, Eq)]
pub struct Found {
    pub start: usize,
    pub size: usize,
}

// The power TLVs that the walk has passed.
#[derive(Clone, Copy, PartialEq, Eq)]
enum Seen {
    Nothing,
    One(Found),
    More,
}

#[tactic(auto, unfolding(crate::specs::Seen::noted_of))]
fn noted(pdu: &[u8], tlv: Found, seen: Seen) -> Seen
    ensures { result ≡ noted_of pdu.now tlv seen }
{
    if !is_power(pdu, tlv.start) {
        return seen;
    }
    match seen {
        Seen::Nothing => Seen::One(tlv),
        Seen::One(_) | Seen::More => Seen::More,
    }
}

#[tactic(auto, unfolding(crate::specs::Seen::answer_of))]
fn answer(seen: Seen) -> Result<Found, Refusal>
    ensures { result ≡ answer_of seen }
{
    match seen {
        Seen::Nothing => Err(Refusal::NoTlv),
        Seen::One(tlv) => Ok(tlv),
        Seen::More => Err(Refusal::SeveralTlvs),
    }
}

// The walk goes to its end before it answers: a TLV that is cut counts for more than two power TLVs before it.
#[tactic(auto, unfolding(crate::specs::Search::search_of))]
pub fn search(pdu: &[u8]) -> Result<Found, Refusal>
    ensures { result ≡ search_of pdu.now }
{
    if 1_500 < pdu.len() {
        return Err(Refusal::BadLength);
    }
    let mut at = 0;
    let mut seen = Seen::Nothing;
    // A loop: each step is as long as its TLV.
    loop {
        match tlv_at(pdu, at) {
            Step::End => return answer(seen),
            Step::Cut => return Err(Refusal::Cut),
            Step::Tlv(size) => {
                seen = noted(pdu, Found { start: at, size }, seen);
                at += size;
            }
        }
    }
}

// A part of the caller's bytes, as far as they go: what the search found, without a copy. It takes two numbers and no `Found`, as the list
// of one possible answer names it (`search_part`).
pub fn part(pdu: &[u8], start: usize, size: usize) -> &[u8]
    ensures { result.now ≡ take size (drop start pdu.now) }
{
    let rest = pdu.get(start..).unwrap_or(&[]);
    rest.get(..size).unwrap_or(rest)
}
