// The status word: latches, class and condition.
#![tactic(auto)]

ghost use Rattle.std.specs.Prelude.{◌≡◌};
ghost use Rattle.status.specs.Status.{join, status_word};

#[derive(Clone, Copy, PartialEq, Eq)]
pub struct Latches {
    pub disagree: bool,
    pub over_current: bool,
    pub denied: bool,
    pub valid: bool,
    pub invalid: bool,
    pub short: bool,
    pub overload: bool,
    pub absent: bool,
}

impl Latches {
    pub const NONE: Latches = Latches {
        disagree: false,
        over_current: false,
        denied: false,
        valid: false,
        invalid: false,
        short: false,
        overload: false,
        absent: false,
    };

    // A latch stays set until a status read clears it: what is latched is added to what was.
    #[tactic(auto, unfolding(crate::specs::Status::join))]
    pub fn join(self, more: Latches) -> Latches
        ensures { result ≡ join self more }
    {
        Latches {
            disagree: self.disagree | more.disagree,
            over_current: self.over_current | more.over_current,
            denied: self.denied | more.denied,
            valid: self.valid | more.valid,
            invalid: self.invalid | more.invalid,
            short: self.short | more.short,
            overload: self.overload | more.overload,
            absent: self.absent | more.absent,
        }
    }
}

// What a port is doing, as the status word tells it.
#[derive(Clone, Copy, PartialEq, Eq)]
pub enum Condition {
    Disabled,
    Searching,
    Delivering,
    Testing,
    Faulty,
}

// The conditions stand in the order of their codes. Of a class the word has room for three bits; a well-made port's class is at most 4.
#[tactic(auto, using(lists::proofs::Bits::byte_is, lists::proofs::Bits::byte_small), unfolding(crate::specs::Status::status_word))]
pub fn status_word(latches: Latches, class: u8, condition: Condition) -> u16
    ensures { result ≡ status_word latches class condition }
{
    16_384 * latches.disagree as u16
        + 8_192 * latches.over_current as u16
        + 4_096 * latches.denied as u16
        + 2_048 * latches.valid as u16
        + 1_024 * latches.invalid as u16
        + 512 * latches.short as u16
        + 256 * latches.overload as u16
        + 128 * latches.absent as u16
        + 16 * (class % 8) as u16
        + 2 * condition as u16
        + 1
}
