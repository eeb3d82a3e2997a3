// Power is a kind of its own, counted in tenths of a watt.
#![tactic(auto)]

ghost use Rattle.std.specs.Prelude.{◌≡◌};
ghost use Rattle.power.specs.Power.{at_most, same, supply_of, plus, join, fits};

use sizes::refusals::Refusal;

#[derive(Clone, Copy, PartialEq, Eq, PartialOrd, Ord)]
pub struct Power(pub u16);

impl Power {
    pub const ZERO: Power = Power(0);
    // What a port in the forced test state claims.
    pub const FORCED: Power = Power(154);

    pub const HIGHEST_SUPPLY: Power = Power(60_000);

    // This and the next stand beside `<=` and `==`: the list of one possible answer names them (`power_at_most`, `power_same`).
    #[tactic(auto, unfolding(crate::specs::Power::at_most))]
    pub fn at_most(self, other: Power) -> bool
        ensures { result ≡ at_most self other }
    {
        self <= other
    }

    #[tactic(auto, unfolding(crate::specs::Power::same))]
    pub fn same(self, other: Power) -> bool
        ensures { result ≡ same self other }
    {
        self == other
    }

    // A caller's number may be as wide as it likes: it is refused, and never cut.
    #[tactic(auto, unfolding(crate::specs::Power::supply_of))]
    pub fn supply(figure: u64) -> Result<Power, Refusal>
        ensures { result ≡ supply_of figure }
    {
        if figure <= Power::HIGHEST_SUPPLY.0 as u64 {
            Ok(Power(figure as u16))
        } else {
            Err(Refusal::SupplyTooLarge)
        }
    }
}

// Powers added up. It is wider than a power, so that the demands of a whole table never reach its end.
#[derive(Clone, Copy, PartialEq, Eq, PartialOrd, Ord)]
pub struct Sum(pub u32);

impl Sum {
    pub const ZERO: Sum = Sum(0);

    // Past the end of the type a sum stays there: it never wraps to a small one.
    #[tactic(auto, unfolding(crate::specs::Power::plus, crate::specs::Power::join))]
    pub fn plus(self, power: Power) -> Sum
        ensures { result ≡ plus self power }
    {
        self.join(Sum(power.0 as u32))
    }

    // Two sums in one, with the same end.
    #[tactic(auto, unfolding(crate::specs::Power::join))]
    pub fn join(self, other: Sum) -> Sum
        ensures { result ≡ join self other }
    {
        Sum(self.0.saturating_add(other.0))
    }

    #[tactic(auto, unfolding(crate::specs::Power::fits))]
    pub fn fits(self, supply: Power) -> bool
        ensures { result ≡ fits self supply }
    {
        self <= Sum(supply.0 as u32)
    }
}
