// The four-pair board of request [13]: the class that up to three currents (µA) show, what a port of a class may draw and request, and what
// a request is granted with the loss of its cable.
#![tactic(auto)]

mod losses;

ghost use Rattle.std.specs.Prelude.{◌≡◌};
ghost use Rattle.four_pair.specs.FourPair.{third, class_of_three, budget_of, over_class, demand_for};

use crate::losses::loss_of;
use class::{ClassReading, Failure, by_class, class_of, class_of_two};
use power::Power;

// "two 4s then class 0 is class 5, then class 1 is class 6; two 4s then class 4 is class 4; other thirds are failure"
#[tactic(auto, unfolding(crate::specs::FourPair::third))]
fn third(class: Option<u8>) -> Result<u8, Failure>
    ensures { result ≡ third class }
{
    match class {
        Some(0) => Ok(5),
        Some(1) => Ok(6),
        Some(4) => Ok(4),
        _ => Err(Failure::Disagree),
    }
}

// Two currents that show class 4 are two 4s: a first that is none shows another class, and a second that is none disagrees.
#[tactic(auto, using(crate::proofs::Laws::three_by_two))]
pub fn class_of_three(c1: u16, c2: u16, c3: u16) -> ClassReading
    ensures { result ≡ class_of_three c1 c2 c3 }
{
    let two = class_of_two(c1, c2);
    match two.shown {
        Ok(4) => ClassReading {
            shown: third(class_of(c3)),
            used: 3,
        },
        _ => two,
    }
}

// In tenths of a watt, by class.
pub const BUDGETS: [u16; 7] = [140, 40, 67, 140, 300, 450, 600];

#[tactic(auto, unfolding(crate::specs::FourPair::budget_of))]
pub fn budget(class: u8) -> Power
    ensures { result ≡ budget_of class }
{
    Power(by_class(&BUDGETS, class))
}

const LARGEST: [u16; 7] = [130, 38, 64, 130, 255, 400, 510];

// A number that is no class may request nothing.
#[tactic(auto, unfolding(crate::specs::FourPair::over_class, crate::specs::FourPair::largest_of))]
pub fn over_class(value: u64, class: u8) -> bool
    ensures { result ≡ over_class value class }
{
    value > by_class(&LARGEST, class) as u64
}

// What a port of a class is granted for a request: "that or the class budget, the smaller".
#[tactic(auto, unfolding(crate::specs::FourPair::demand_for))]
pub fn demand_for(value: u64, class: u8) -> Power
    ensures { result ≡ demand_for value class }
{
    Power(loss_of(value).min(budget(class).0))
}
