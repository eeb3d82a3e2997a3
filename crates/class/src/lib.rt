// The class that one or two currents (µA) show, and what a port of a class may draw.
#![tactic(auto)]

ghost use Rattle.std.specs.Prelude.{◌≡◌, get_or};
ghost use Rattle.class.specs.Class.{class_of, class_of_two, budget_of, level_of, over_class};

use power::Power;

// Why the class events show no class.
#[derive(Clone, Copy, PartialEq, Eq)]
pub enum Failure {
    OverCurrent,
    Disagree,
}

// The reading of a port's two currents, and how many of them it used.
#[derive(Clone, Copy)]
pub struct ClassReading {
    pub shown: Result<u8, Failure>,
    pub used: u8,
}

// Document 01: "up to 5,000 class 0; to 13,000 class 1; to 21,000 class 2; to 31,000 class 3; to 45,000 class 4"
const LIMITS: [u16; 5] = [5_000, 13_000, 21_000, 31_000, 45_000];

// The class is that after the last limit that the current is past. All five are looked at: a walk that ends at the first that it is not
// past is unrolled into a chain of branches.
pub fn class_of(current: u16) -> Option<u8>
    ensures { result ≡ class_of current }
{
    let mut class = 0u8;
    for k in 0..5u8 {
        if current > LIMITS[k as usize] {
            class = k + 1;
        }
    }
    if class == 5 {
        None // "above, failure"
    } else {
        Some(class)
    }
}

// Document 01: "If C1 reads class 4, C2 must too, else failure .. With any other class C2 isn't looked at."
#[tactic(auto, unfolding(crate::specs::Class::class_of_two, crate::specs::Class::is_four))]
pub fn class_of_two(c1: u16, c2: u16) -> ClassReading
    ensures { result ≡ class_of_two c1 c2 }
{
    let first = class_of(c1);
    if first != Some(4) {
        return ClassReading {
            shown: first.ok_or(Failure::OverCurrent),
            used: 1,
        };
    }
    let shown = if class_of(c2) == Some(4) {
        Ok(4)
    } else {
        Err(Failure::Disagree)
    };
    ClassReading { shown, used: 2 }
}

// In tenths of a watt, by class: what a port of a class may draw, and what a port may be granted.
pub const BUDGETS: [u16; 5] = [154, 40, 70, 154, 300];

// What a table says of a class. A number that is no class has 0 there.
pub fn by_class(table: &[u16], class: u8) -> u16
    ensures { result ≡ get_or table.now class 0 }
{
    table.get(class as usize).copied().unwrap_or(0)
}

#[tactic(auto, unfolding(crate::specs::Class::budget_of))]
pub fn budget(class: u8) -> Power
    ensures { result ≡ budget_of class }
{
    Power(by_class(&BUDGETS, class))
}

// What a request for so much asks for: the budgets of classes 1 to 4 are the levels.
#[tactic(auto, unfolding(crate::specs::Class::level_of))]
pub fn level_of(value: u64) -> Power
    ensures { result ≡ level_of value }
{
    match value {
        0..=38 => budget(1),
        39..=64 => budget(2),
        65..=129 => budget(3),
        _ => budget(4),
    }
}

// A request of a port of a class is refused with 11. What is above 255 is over every class, whatever its level.
#[tactic(auto, unfolding(crate::specs::Class::over_class, power::specs::Power::over, power::specs::Power::at_most))]
pub fn over_class(value: u64, class: u8) -> bool
    ensures { result ≡ over_class value class }
{
    255 < value || budget(class) < level_of(value)
}
