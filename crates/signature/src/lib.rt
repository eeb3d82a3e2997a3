// The signature that two voltages (mV) and two currents (µA) show.
#![tactic(auto)]

ghost use Rattle.std.specs.Prelude.{◌≡◌, ◌<◌, ◌^◌, pos, ◌-ℤ◌};
ghost use Rattle.std.specs.Int.Signed.{mag};
ghost use Rattle.signature.specs.Signature.{outside, by_differences, signature_of};

#[derive(Clone, Copy, PartialEq, Eq)]
pub enum Signature {
    Valid,
    Invalid,
    Open,
}

// Document 01: "Invalid if V1 or V2 is outside 2,800..10,000".
#[tactic(auto, unfolding(crate::specs::Signature::outside))]
fn outside(v: u16) -> bool
    ensures { result ≡ outside v }
{
    !(2_800..=10_000).contains(&v)
}

// Signed, so that a falling current is open and not a huge one.
fn difference(a: u16, b: u16) -> i32
    ensures { (result ≡ pos a -ℤ pos b) × (mag result < 2 ^ 16) }
{
    a as i32 - b as i32
}

#[tactic(auto, unfolding(crate::specs::Signature::by_differences))]
fn by_differences(dv: i32, di: i32) -> Signature
    requires { (mag dv < 2 ^ 16) × (mag di < 2 ^ 16) }
    ensures { result ≡ by_differences dv di }
{
    if dv < 1_000 {
        return Signature::Invalid;
    }
    if di <= 0 || 500 * di <= dv {
        return Signature::Open;
    }
    if 19 * di <= dv && 2 * dv <= 53 * di {
        return Signature::Valid;
    }
    Signature::Invalid
}

#[tactic(auto, unfolding(crate::specs::Signature::signature_of, crate::specs::Signature::by_differences))]
pub fn signature_of(v1: u16, v2: u16, i1: u16, i2: u16) -> Signature
    ensures { result ≡ signature_of v1 v2 i1 i2 }
{
    if outside(v1) || outside(v2) {
        return Signature::Invalid;
    }
    by_differences(difference(v2, v1), difference(i2, i1))
}
