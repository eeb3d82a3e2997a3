// The control word: its three fields, the word of three fields, and which words a write refuses.
#![tactic(auto)]

ghost use Rattle.std.specs.Prelude.{◌≡◌};
ghost use Rattle.control.specs.ByMask.{said_by};
ghost use Rattle.control.specs.Control.{enable_of, pair_of, priority_of, refused};

// Document 01, "1:0 enable": codes 00, 01, 10 and 11.
#[derive(Clone, Copy, PartialEq, Eq)]
pub enum Enable {
    Disabled,
    Enabled,
    Forced,
    Reserved,
}

// Document 01, "3:2 pair control": codes 00, 01, 10 and 11. This board reserves the first and the last.
#[derive(Clone, Copy, PartialEq, Eq)]
pub enum Pair {
    Neither,
    A,
    B,
    Both,
}

// Document 01, "5:4 priority": codes 00, 01, 10 and 11.
#[derive(Clone, Copy, PartialEq, Eq)]
pub enum Priority {
    Unknown,
    Critical,
    High,
    Low,
}

#[derive(Clone, Copy, PartialEq, Eq)]
pub struct Control {
    pub enable: Enable,
    pub pair: Pair,
    pub priority: Priority,
}

// Three matches, and not one function over a table of four: each says beside a code what it is.
#[tactic(auto, unfolding(crate::specs::Control::enable_of, lists::specs::Bits::field))]
pub fn enable_of(word: u16) -> Enable
    ensures { result ≡ enable_of word }
{
    match word % 4 {
        0 => Enable::Disabled,
        1 => Enable::Enabled,
        2 => Enable::Forced,
        _ => Enable::Reserved,
    }
}

#[tactic(auto, unfolding(crate::specs::Control::pair_of, lists::specs::Bits::field))]
pub fn pair_of(word: u16) -> Pair
    ensures { result ≡ pair_of word }
{
    match word / 4 % 4 {
        0 => Pair::Neither,
        1 => Pair::A,
        2 => Pair::B,
        _ => Pair::Both,
    }
}

#[tactic(auto, unfolding(crate::specs::Control::priority_of, lists::specs::Bits::field))]
pub fn priority_of(word: u16) -> Priority
    ensures { result ≡ priority_of word }
{
    match word / 16 % 4 {
        0 => Priority::Unknown,
        1 => Priority::Critical,
        2 => Priority::High,
        _ => Priority::Low,
    }
}

// A test of words by a mask: bit w of it is set if the word w, of those below 64, passes. A word from 64 on passes too.
// So a word is told with no branch, as it is asked of 48 ports in every tick.
#[tactic(auto, unfolding(crate::specs::ByMask::said_by))]
pub fn by_mask(mask: u64, word: u64) -> bool
    ensures { result ≡ said_by mask word }
{
    (64 <= word) | (mask >> (word % 64) & 1 == 1)
}

// Enable 11, or pair control 00 or 11.
const REFUSED: u64 = 0xf88f_f88f_f88f_f88f;

// A write of a word is refused with 3. The number may be wider than a word: what stands above bit 15 is reserved too.
#[tactic(auto, using(crate::proofs::Masks::refused_told))]
pub fn refused(word: u64) -> bool
    ensures { result ≡ refused word }
{
    by_mask(REFUSED, word)
}
