// The sharing of one supply. It knows claims only, a rank and a demand for each place, and no port.
#![tactic(auto)]

ghost use Rattle.std.specs.Prelude.{◌≡◌, ◌<◌, ◌^◌};
ghost use Rattle.sizes.specs.Sizes.{most_ports};
ghost use Rattle.lists.specs.Places.{tabulate};
ghost use Rattle.power.specs.Power.{sum_of, plus};
ghost use Rattle.share.specs.Share.{keeps};
ghost use Rattle.share.specs.Given.{rank_of, demand_of};
ghost use Rattle.share.specs.Slots.{Small, within, slot_of, of_slot, joined};

use power::{Power, Sum};
use sizes::PORTS;

// Ranks 0 to 5: ports that were closed before those that ask, and within each critical, high, then low and unknown alike. After them:
pub const NO_CLAIM: u8 = 6;

// A place's rank, of which 0 comes first, and its demand. A place with another rank than 0 to 5 claims nothing.
// Kept a number: a rank is the index of its sum.
#[derive(Clone, Copy)]
pub struct Claim {
    pub rank: u8,
    pub demand: Power,
}

impl Claim {
    pub const NONE: Claim = Claim {
        rank: NO_CLAIM,
        demand: Power::ZERO,
    };
}

// The place of a rank's sum among seven: a sum for each rank, and the last for what is no claim, which nobody asks for.
#[tactic(auto, unfolding(crate::specs::Slots::slot_of))]
fn slot(rank: u8) -> usize
    ensures { (result ≡ slot_of rank) × (result < 7) }
{
    rank.min(NO_CLAIM) as usize
}

// A demand's number fits its type, so that no sum over the places reaches the end of its own.
fn added(sum: Sum, demand: Power) -> Sum
    ensures { (result ≡ plus sum demand) × (demand.0 < 2 ^ 16) }
{
    sum.plus(demand)
}

fn rank_sums(claims: &[Claim; PORTS]) -> [Sum; 7]
    ensures small { Small (demand_of claims.now) }
    ensures value { result ≡ tabulate 7 (λ k. sum_of (of_slot most_ports (rank_of claims.now) (demand_of claims.now) k)) }
{
    let mut sums = [Sum::ZERO; 7];
    for claim in claims {
        let k = slot(claim.rank);
        sums[k] = added(sums[k], claim.demand);
    }
    sums
}

// What is claimed before each rank: the sums of the lower ranks in one.
fn starts(sums: [Sum; 7]) -> [Sum; 7]
    ensures { result ≡ tabulate 7 (joined sums) }
{
    let mut before = [Sum::ZERO; 7];
    let mut sum = Sum::ZERO;
    for k in 0..7 {
        before[k] = sum;
        sum = sum.join(sums[k]);
    }
    before
}

#[tactic(auto, unfolding(crate::specs::Slots::within))]
fn within(sum: Sum, rank: u8, supply: Power) -> bool
    ensures { result ≡ within sum rank supply }
{
    rank < NO_CLAIM && sum.fits(supply)
}

// The places that keep their claim. A shed claim's demand stays in the sum of its rank, so that no smaller claim after it is kept.
pub fn kept(claims: &[Claim; PORTS], supply: Power) -> [bool; PORTS]
    ensures { result ≡ tabulate most_ports (keeps most_ports (rank_of claims.now) (demand_of claims.now) supply.0) }
{
    let mut sums = starts(rank_sums(claims));
    let mut kept = [false; PORTS];
    for (p, claim) in claims.iter().enumerate() {
        let k = slot(claim.rank);
        let before = sums[k];
        let sum = added(before, claim.demand);
        sums[k] = sum;
        kept[p] = within(sum, claim.rank, supply);
    }
    kept
}
