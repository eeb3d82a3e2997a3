// How a counter runs, what entering a state does, and what a move answers.
ghost use Rattle.std.specs.Prelude.{◌≡◌};
ghost use Rattle.port.specs.Changes.{quietly, latching, asking};
ghost use Rattle.port.specs.Entry.{up, during, counts_on_entry, demand_on_entry, enter};

use crate::form::{Counts, Moved, Port, State};
use power::Power;
use sizes::MOST_COUNT;
use status::Latches;

#[tactic(auto, unfolding(crate::specs::Entry::up))]
pub fn up(n: u16) -> u16
    ensures { result ≡ up n }
{
    if n < MOST_COUNT { n + 1 } else { MOST_COUNT }
}

#[tactic(auto, unfolding(crate::specs::Entry::during))]
pub fn during(runs: bool, n: u16) -> u16
    ensures { result ≡ during runs n }
{
    if runs { up(n) } else { 0 }
}

// A counter that the state does not name stands still.
fn counts_on_entry(to: State, counts: Counts) -> Counts
    ensures { result ≡ counts_on_entry to counts }
{
    match to {
        State::Detecting => Counts {
            detection: 0,
            ..counts
        },
        State::Backoff => Counts {
            backoff: 0,
            ..counts
        },
        State::Classifying => Counts {
            power_on: 0,
            ..counts
        },
        State::PowerUp | State::TestMode => Counts {
            limiting: 0,
            overload: 0,
            ..counts
        },
        State::PowerOn => Counts {
            no_load: 0,
            ..counts
        },
        State::ErrorDelay => Counts {
            error_delay: 0,
            ..counts
        },
        State::Disabled | State::Idle | State::TestError => counts,
    }
}

fn demand_on_entry(to: State, demand: Power) -> Power
    ensures { result ≡ demand_on_entry to demand }
{
    if matches!(to, State::Disabled | State::Idle) {
        Power::ZERO
    } else {
        demand
    }
}

#[tactic(auto, unfolding(crate::specs::Entry::enter))]
pub fn enter(to: State, port: Port) -> Port
    ensures { result ≡ enter to port }
{
    Port {
        state: to,
        demand: demand_on_entry(to, port.demand),
        counts: counts_on_entry(to, port.counts),
        ..port
    }
}

// The answers of a move: it latches nothing and asks nothing; it latches; it asks to be closed.
pub fn quietly(port: Port) -> Moved
    ensures { result ≡ quietly port }
{
    Moved {
        port,
        latched: Latches::NONE,
        asks: false,
    }
}

pub fn latching(latched: Latches, port: Port) -> Moved
    ensures { result ≡ latching latched port }
{
    let latches = port.latches.join(latched);
    Moved {
        latched,
        ..quietly(Port { latches, ..port })
    }
}

pub fn asking(port: Port) -> Moved
    ensures { result ≡ asking port }
{
    Moved {
        asks: true,
        ..quietly(port)
    }
}
