// What the sharing of the supply asks of a port, and what it does to it.
#![tactic(auto)]

ghost use Rattle.std.specs.Prelude.{◌≡◌, ◌<◌};
ghost use Rattle.settling.specs.Claim.{rank_in, settled_as};
ghost use Rattle.settling.specs.Settle.{urgency, granted, shed};

use control::{Priority, priority_of};
use port::closed::is_closed;
use port::entry::{enter, latching, quietly};
use port::form::{Moved, Port, State};
use share::NO_CLAIM;
use status::Latches;

const DENIED: Latches = Latches {
    denied: true,
    ..Latches::NONE
};

// The code of a priority is not its rank: 01 is the highest, and 00 is the lowest with 11.
fn urgency_of(priority: Priority) -> u8
    ensures { (result ≡ urgency priority) × (result < 3) }
{
    match priority {
        Priority::Critical => 0,
        Priority::High => 1,
        Priority::Low | Priority::Unknown => 2,
    }
}

// The rank of a port's claim, 0 the first. The state is that after the move: what is closed then was
// closed before.
#[tactic(auto, unfolding(crate::specs::Claim::rank_in))]
pub fn rank_in(state: State, control: u16, asks: bool) -> u8
    ensures { result ≡ rank_in state control asks }
{
    let urgency = urgency_of(priority_of(control));
    if is_closed(state) {
        urgency
    } else if asks {
        3 + urgency
    } else {
        NO_CLAIM
    }
}

#[tactic(auto, unfolding(crate::specs::Settle::granted))]
fn granted_in(state: State, port: Port) -> Port
    ensures { result ≡ granted state port }
{
    match state {
        State::Idle => enter(State::TestMode, port),
        State::Classifying => enter(State::PowerUp, port),
        _ => port,
    }
}

#[tactic(auto, unfolding(crate::specs::Settle::shed))]
fn shed_port(port: Port) -> Moved
    ensures { result ≡ shed port }
{
    if matches!(port.state, State::TestMode) {
        return latching(DENIED, enter(State::TestError, port));
    }
    latching(DENIED, enter(State::Idle, port))
}

// What the sharing makes of a port, by the rank of its claim and whether that was kept. The rank tells who asked.
#[tactic(auto, unfolding(crate::specs::Claim::settled_as))]
pub fn settled_port(rank: u8, kept: bool, port: Port) -> Moved
    ensures { result ≡ settled_as rank kept port }
{
    if NO_CLAIM <= rank {
        return quietly(port);
    }
    if !kept {
        return shed_port(port);
    }
    if 3 <= rank {
        return quietly(granted_in(port.state, port));
    }
    quietly(port)
}
