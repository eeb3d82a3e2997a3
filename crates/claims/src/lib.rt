// What ports that have moved claim of the supply, by their cells and a lane that has a number other than 0 for each port that asks.
#![tactic(auto)]

ghost use Rattle.std.specs.Prelude.{◌≡◌, ◌+◌, ◌*◌, ◌<◌, ◌≤◌, ◌^◌, get_or};
ghost use Rattle.sizes.specs.Sizes.{most_ports};
ghost use Rattle.lists.specs.Total.{total};
ghost use Rattle.claims.specs.Claimed.{wants, claims_on, wanted_in, claims_in};

use cells::state_of;
use power::Power;
use settling::rank_in;
use share::Claim;
use sizes::{CELLS, PORTS};

// A product: of an `if` here a compiler makes a branch in the loop, and takes one port at a time.
#[tactic(auto, unfolding(crate::specs::Claimed::wants, cells::specs::Cells::port_of))]
fn wants_at(cells: &[u16; CELLS], p: usize, asks: u16) -> u32
    requires { p < most_ports }
    ensures { (result ≡ wants asks cells.now p) × (result < 2 ^ 16) }
{
    (asks != 0) as u32 * cells[104 + p] as u32
}

fn sum_wanted(cells: &[u16; CELLS], n: usize, lane: &[u16; PORTS]) -> u32
    requires { n ≤ most_ports }
    ensures { (result ≡ total n (λ p. wants (get_or lane.now p 0) cells.now p)) × (result ≤ n * 65535) }
{
    let mut sum = 0u32;
    for p in 0..n {
        sum += wants_at(cells, p, lane[p]);
    }
    sum
}

fn claims_at(cells: &[u16; CELLS], n: usize, lane: &[u16; PORTS]) -> [Claim; PORTS]
    requires { n ≤ most_ports }
    ensures { result ≡ claims_on n lane.now cells.now }
{
    let mut claims = [Claim::NONE; PORTS];
    for p in 0..n {
        let rank = rank_in(state_of(cells[8 + p]), cells[56 + p], lane[p] != 0);
        let demand = Power(cells[104 + p]);
        claims[p] = Claim { rank, demand };
    }
    claims
}

// The demands of the ports that ask.
pub fn wanted(cells: &[u16], n: usize, lane: &[u16]) -> u32
    ensures { result ≡ wanted_in n lane.now cells.now }
{
    let Some(cells) = cells.as_array() else {
        return 0;
    };
    let Some(lane) = lane.as_array() else {
        return 0;
    };
    if PORTS < n {
        return 0;
    }
    sum_wanted(cells, n, lane)
}

// The claim at each place. What is no table of so many ports claims nothing.
pub fn claims_of(cells: &[u16], n: usize, lane: &[u16]) -> [Claim; PORTS]
    ensures { result ≡ claims_in n lane.now cells.now }
{
    let Some(cells) = cells.as_array() else {
        return [Claim::NONE; PORTS];
    };
    let Some(lane) = lane.as_array() else {
        return [Claim::NONE; PORTS];
    };
    if PORTS < n {
        return [Claim::NONE; PORTS];
    }
    claims_at(cells, n, lane)
}
