// The diagram: a port's move in one tick, over what the tick is told of it.
#![tactic(auto)]

pub mod limits;
mod rules;

ghost use Rattle.std.specs.Prelude.{◌≡◌};
ghost use Rattle.port.specs.States.{gives_way};
ghost use Rattle.diagram.specs.Step.{by_state, step};

use control::enable_of;
use enable::{is_forced, is_off};
use port::entry::{enter, quietly};
use port::form::{Moved, Port, Reading, State};
use power::Power;

// Enable 10 sends these to IDLE first.
fn gives_way(state: State) -> bool
    ensures { result ≡ gives_way state }
{
    matches!(
        state,
        State::Detecting | State::Classifying | State::PowerUp | State::PowerOn
    )
}

#[tactic(auto, unfolding(crate::specs::Step::by_state))]
fn by_state(state: State, claim: Power, port: Port, reading: Reading) -> Moved
    ensures { result ≡ by_state state claim port reading }
{
    match state {
        State::Disabled => quietly(enter(State::Idle, port)),
        State::Idle => rules::idle(claim, port),
        State::Detecting => rules::detecting(port, reading),
        State::Backoff => rules::backoff(port),
        State::Classifying => rules::classifying(port, reading),
        State::PowerUp => rules::power_up(port, reading),
        State::PowerOn => rules::power_on(port, reading),
        State::ErrorDelay => rules::error_delay(port),
        State::TestMode => rules::test_mode(port, reading),
        State::TestError => rules::test_error(port),
    }
}

// The two enable rules come first, and advance no counter. The claim is what the board's forced ports ask for.
#[tactic(auto, unfolding(crate::specs::Step::step))]
pub fn step(claim: Power, port: Port, reading: Reading) -> Moved
    ensures { result ≡ step claim port reading }
{
    let enable = enable_of(port.control);
    if is_off(enable) {
        return quietly(enter(State::Disabled, port));
    }
    if is_forced(enable) && gives_way(port.state) {
        return quietly(enter(State::Idle, port));
    }
    by_state(port.state, claim, port, reading)
}
