// The supply is shared among the ports that have moved, and every port settles where it stands.
ghost use Rattle.std.specs.Prelude.{◌≡◌, true, cond, ◌+◌, ◌<◌, leb, get_or};
ghost use Rattle.sizes.specs.Sizes.{most_ports};
ghost use Rattle.settling.specs.Claim.{settling_changes, settled_as};
ghost use Rattle.cells.specs.Cells.{port_of, written};
ghost use Rattle.cells.specs.Writes.{with_port_cells};
ghost use Rattle.claims.specs.Claimed.{is_set};
ghost use Rattle.passes.specs.Passes.{Portable, settled_by, admitted_by, shared_by};

use crate::ports::{port_at, put_port};
use claims::{claims_of, wanted};
use power::Power;
use settling::settled_port;
use share::{Claim, NO_CLAIM};
use sizes::{CELLS, PORTS};

// Most ports stay as they moved: those without a claim, and those that are closed and kept.
#[tactic(auto, unfolding(settling::specs::Claim::settling_changes))]
fn changes(rank: u8, kept: bool) -> bool
    ensures { result ≡ settling_changes rank kept }
{
    (rank < NO_CLAIM) & (!kept | (3 <= rank))
}

fn settle(cells: &mut [u16; CELLS], p: usize, rank: u8, kept: bool)
    requires { (p < most_ports) × (get_or cells.old (152 + p) 0 < 256) }
    ensures { cells.new ≡ cond (settling_changes rank kept) (with_port_cells p (settled_as rank kept (port_of cells.old p)).port cells.old) cells.old }
{
    if changes(rank, kept) {
        let settled = settled_port(rank, kept, port_at(cells, p));
        put_port(cells, p, settled.port);
    }
}

// Each claim was kept or shed.
fn settle_all(cells: &mut [u16; CELLS], n: usize, claims: &[Claim; PORTS], kept: &[bool; PORTS])
    requires { Portable n cells.old }
    ensures { cells.new ≡ written n (settled_by claims.now kept.now cells.old) cells.old }
{
    for p in 0..n {
        settle(cells, p, claims[p].rank, kept[p]);
    }
}

// A port that asked is as one of an asker's rank whose claim is kept. Not by `settle`: what is called from one place alone is compiled
// into it, and a port is not handed on by memory.
fn admit_port(cells: &mut [u16; CELLS], p: usize, asks: u16)
    requires { (p < most_ports) × (get_or cells.old (152 + p) 0 < 256) }
    ensures { cells.new ≡ cond (is_set asks) (with_port_cells p (settled_as 3 true (port_of cells.old p)).port cells.old) cells.old }
{
    if asks != 0 {
        let settled = settled_port(3, true, port_at(cells, p));
        put_port(cells, p, settled.port);
    }
}

// Every claim is kept: who asked enters its state.
fn admit(cells: &mut [u16; CELLS], n: usize, lane: &[u16; PORTS])
    requires { Portable n cells.old }
    ensures { cells.new ≡ written n (admitted_by lane.now cells.old) cells.old }
{
    for p in 0..n {
        admit_port(cells, p, lane[p]);
    }
}

// Nothing is added up that might not fit.
fn all_fit(drawn: u32, wanted: u32, supply: u32) -> bool
    ensures { result ≡ leb (drawn + wanted) supply }
{
    drawn <= supply && wanted <= supply - drawn
}

// The lane has a number other than 0 for each port that asks. Where all claims fit, nothing has to be ranked.
pub fn share_out(cells: &mut [u16; CELLS], n: usize, lane: &[u16; PORTS], drawn: u32, supply: Power)
    requires { Portable n cells.old }
    ensures { cells.new ≡ written n (shared_by n lane.now drawn supply.0 cells.old) cells.old }
{
    if all_fit(drawn, wanted(cells, n, lane), supply.0 as u32) {
        admit(cells, n, lane);
    } else {
        let claims = claims_of(cells, n, lane);
        settle_all(cells, n, &claims, &share::kept(&claims, supply));
    }
}
