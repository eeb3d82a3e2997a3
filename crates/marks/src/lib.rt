// What a port has shown since it last stood in IDLE, worked out from the sample bytes, with document 01's limits of signature and class.
#![tactic(auto)]

pub mod bytes;

ghost use Rattle.std.specs.Prelude.{◌≡◌, ◌<◌};
ghost use Rattle.class.specs.Class.{class_of_two};
ghost use Rattle.sample.specs.Sample.{sample_at};
ghost use Rattle.signature.specs.Signature.{signature_of};
ghost use Rattle.statements.specs.History.{is_valid, is_class, shows_signature, gives_class};
ghost use Rattle.marks.specs.Mark.{Words, seen_mark, noted_mark};

use crate::bytes::word_at;

// A port's mark: it stands in IDLE; or what it has shown since it last did: nothing, a valid signature, or that and later a class.
// Kept numbers: an enum of four would ask more of the callers of `noted`, `history::tick_from` and `third_tests::answers::sound`, which
// promise their answers for any number here.
pub const IN_IDLE: u8 = 0;

pub const NOTHING: u8 = 1;

pub const SIGNATURE: u8 = 2;

pub const BOTH: u8 = 3;

// Document 01: "Invalid if V1 or V2 is outside 2,800..10,000 or dV < 1,000. Otherwise open if dI <= 0 or dV >= 500 dI. Otherwise valid if
// 19 dI <= dV and 2 dV <= 53 dI; else invalid."
fn is_valid(v1: u64, v2: u64, i1: u64, i2: u64) -> bool
    requires { Words v1 v2 i1 i2 }
    ensures { result ≡ is_valid (signature_of v1 v2 i1 i2) }
{
    if (v1 < 2_800) | (10_000 < v1) | (v2 < 2_800) | (10_000 < v2) {
        return false;
    }
    if (v2 < v1 + 1_000) | (i2 <= i1) {
        return false;
    }
    let dv = v2 - v1;
    let di = i2 - i1;
    (dv < 500 * di) & (19 * di <= dv) & (2 * dv <= 53 * di)
}

// Document 01: "to 31,000 class 3; to 45,000 class 4; above, failure"; "If C1 reads class 4, C2 must too, else failure".
fn is_class(c1: u64, c2: u64) -> bool
    ensures { result ≡ is_class (class_of_two c1 c2).shown }
{
    if c1 <= 31_000 {
        return true;
    }
    (c1 <= 45_000) & (31_000 < c2) & (c2 <= 45_000)
}

// Document 01: "V1, V2 (mV), I1, I2 (µA), C1, C2 (class currents, µA), flags. Flags: 0 detection done, 1 class done".
fn shows_signature(block: &[u8], at: usize) -> bool
    requires { at < 65536 }
    ensures { result ≡ shows_signature (sample_at block.now at) }
{
    let done = word_at(block, at + 12) % 2 == 1;
    done & is_valid(
        word_at(block, at),
        word_at(block, at + 2),
        word_at(block, at + 4),
        word_at(block, at + 6),
    )
}

fn gives_class(block: &[u8], at: usize) -> bool
    requires { at < 65536 }
    ensures { result ≡ gives_class (sample_at block.now at) }
{
    let done = word_at(block, at + 12) / 2 % 2 == 1;
    done & is_class(word_at(block, at + 8), word_at(block, at + 10))
}

// What a tick's bytes add: a signature, and in a later tick a class.
#[tactic(auto, unfolding(crate::specs::Mark::seen_mark))]
fn seen(block: &[u8], p: u8, mark: u8) -> u8
    ensures { result ≡ seen_mark block.now p mark }
{
    let at = 14 * p as usize;
    if mark == NOTHING && shows_signature(block, at) {
        return SIGNATURE;
    }
    if mark == SIGNATURE && gives_class(block, at) {
        return BOTH;
    }
    mark
}

// The port's mark after a call that leaves it in this state; the code of IDLE is 1. A sample that was taken in IDLE does not count.
#[tactic(auto, unfolding(crate::specs::Mark::noted_mark))]
pub fn noted(state: u16, ticked: bool, block: &[u8], p: u8, mark: u8) -> u8
    ensures { result ≡ noted_mark state ticked block.now p mark }
{
    if state == 1 {
        return IN_IDLE;
    }
    if mark == IN_IDLE {
        return NOTHING;
    }
    if ticked {
        return seen(block, p, mark);
    }
    mark
}
