// What stands at a place of the bytes: a number of two bytes, a TLV's header, and the four bytes that make a TLV a power TLV. A byte
// past the end counts as 0, so that every place has an answer.
#![tactic(auto)]

ghost use Rattle.std.specs.Prelude.{◌≡◌, ◌+◌, ◌<◌, ◌^◌};
ghost use Rattle.lists.specs.Bytes.{word_at};
ghost use Rattle.header.specs.Header.{type_at, length_at, fixed_at, is_power};

#[tactic(auto, unfolding(lists::specs::Bytes::word_at))]
pub fn word_at(bytes: &[u8], at: usize) -> u16
    ensures { result ≡ word_at bytes.now at }
{
    match bytes.get(at..) {
        Some([high, low, ..]) => u16::from_be_bytes([*high, *low]),
        Some([high]) => u16::from_be_bytes([*high, 0]),
        _ => 0,
    }
}

#[tactic(auto, unfolding(crate::specs::Header::type_at, lists::specs::Bits::field))]
pub fn type_at(bytes: &[u8], at: usize) -> u16
    ensures { result ≡ type_at bytes.now at }
{
    word_at(bytes, at) / 512 % 128
}

// The length of the TLV's body.
#[tactic(auto, unfolding(crate::specs::Header::length_at, lists::specs::Bits::field))]
pub fn length_at(bytes: &[u8], at: usize) -> usize
    ensures { (result ≡ length_at bytes.now at) × (result < 2 ^ 9) }
{
    usize::from(word_at(bytes, at) % 512)
}

// What stands after the TLV's header: "OUI 00-12-0F, subtype 2".
#[tactic(auto, unfolding(crate::specs::Header::fixed_at, crate::specs::Header::stands_at))]
fn fixed_at(bytes: &[u8], at: usize) -> bool
    ensures { result ≡ fixed_at bytes.now (at + 2) }
{
    matches!(bytes.get(at..), Some([_, _, 0x00, 0x12, 0x0f, 0x02, ..]))
}

#[tactic(auto, unfolding(crate::specs::Header::is_power))]
pub fn is_power(bytes: &[u8], at: usize) -> bool
    ensures { result ≡ is_power bytes.now at }
{
    type_at(bytes, at) == 127 && 4 <= length_at(bytes, at) && fixed_at(bytes, at)
}
