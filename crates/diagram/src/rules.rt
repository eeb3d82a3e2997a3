// The rule of each state of the diagram. A rule advances the state's counters first, and then compares.
ghost use Rattle.std.specs.Prelude.{◌≡◌, cond};
ghost use Rattle.port.specs.Changes.{quietly};
ghost use Rattle.port.specs.Entry.{enter};
ghost use Rattle.diagram.specs.Rules.{idle, detected, detecting, backoff, error_delay_rule, classed, classifying, stressed, watched, risen, power_up, power_on_rule, test_mode, test_error};

use crate::limits::{
    BACKOFF_ENDS, CLASSIFYING_ENDS, DETECTING_ENDS, ERROR_DELAY_ENDS, FAULT, LOAD_ABSENT,
    POWER_UP_ENDS,
};
use control::{Pair, enable_of, pair_of};
use enable::{is_forced, is_on};
use port::entry::{asking, during, enter, latching, quietly, up};
use port::form::{Classing, Counts, Detection, Moved, Port, Reading, State};
use power::Power;
use status::Latches;

const DISAGREE: Latches = Latches {
    disagree: true,
    ..Latches::NONE
};

const OVER_CURRENT: Latches = Latches {
    over_current: true,
    ..Latches::NONE
};

const VALID: Latches = Latches {
    valid: true,
    ..Latches::NONE
};

const INVALID: Latches = Latches {
    invalid: true,
    ..Latches::NONE
};

const SHORT: Latches = Latches {
    short: true,
    ..Latches::NONE
};

const OVERLOAD: Latches = Latches {
    overload: true,
    ..Latches::NONE
};

const ABSENT: Latches = Latches {
    absent: true,
    ..Latches::NONE
};

#[tactic(auto, unfolding(crate::specs::Rules::idle))]
pub fn idle(claim: Power, port: Port) -> Moved
    ensures { result ≡ idle claim port }
{
    let enable = enable_of(port.control);
    if is_on(enable) {
        return quietly(enter(State::Detecting, Port { class: 0, ..port }));
    }
    if is_forced(enable) {
        return asking(Port {
            demand: claim,
            ..port
        });
    }
    quietly(port)
}

#[tactic(auto, unfolding(crate::specs::Rules::detected))]
fn detected(detection: Detection, port: Port) -> Moved
    ensures { result ≡ detected detection port }
{
    match detection {
        Detection::NotDone => quietly(port),
        Detection::Valid => latching(VALID, enter(State::Classifying, port)),
        Detection::Invalid if pair_of(port.control) == Pair::B => {
            latching(INVALID, enter(State::Backoff, port))
        }
        Detection::Invalid | Detection::Open => latching(INVALID, enter(State::Idle, port)),
    }
}

// This rule and that of CLASSIFYING differ in the counter, in its end and in what follows: one function that took all three would be no plainer.
#[tactic(auto, unfolding(crate::specs::Rules::detecting))]
pub fn detecting(port: Port, reading: Reading) -> Moved
    ensures { result ≡ detecting port reading }
{
    let ticks = up(port.counts.detection);
    let counts = Counts {
        detection: ticks,
        ..port.counts
    };
    let after = Port { counts, ..port };
    if DETECTING_ENDS <= ticks {
        return quietly(enter(State::Idle, after));
    }
    detected(reading.detection, after)
}

// A state that looks at its counter alone.
fn waited(ends: bool, after: Port) -> Moved
    ensures { result ≡ quietly (cond ends (enter State.Idle after) after) }
{
    if ends {
        quietly(enter(State::Idle, after))
    } else {
        quietly(after)
    }
}

#[tactic(auto, unfolding(crate::specs::Rules::backoff))]
pub fn backoff(port: Port) -> Moved
    ensures { result ≡ backoff port }
{
    let ticks = up(port.counts.backoff);
    let counts = Counts {
        backoff: ticks,
        ..port.counts
    };
    waited(BACKOFF_ENDS <= ticks, Port { counts, ..port })
}

#[tactic(auto, unfolding(crate::specs::Rules::error_delay_rule))]
pub fn error_delay(port: Port) -> Moved
    ensures { result ≡ error_delay_rule port }
{
    let ticks = up(port.counts.error_delay);
    let counts = Counts {
        error_delay: ticks,
        ..port.counts
    };
    waited(ERROR_DELAY_ENDS <= ticks, Port { counts, ..port })
}

#[tactic(auto, unfolding(crate::specs::Rules::classed))]
fn classed(class: Classing, port: Port) -> Moved
    ensures { result ≡ classed class port }
{
    match class {
        Classing::NotDone => quietly(port),
        Classing::OverCurrent => latching(OVER_CURRENT, enter(State::Idle, port)),
        Classing::Disagree => latching(DISAGREE, enter(State::Idle, port)),
        Classing::Is(k, d) => asking(Port {
            class: k,
            demand: d,
            ..port
        }),
    }
}

#[tactic(auto, unfolding(crate::specs::Rules::classifying))]
pub fn classifying(port: Port, reading: Reading) -> Moved
    ensures { result ≡ classifying port reading }
{
    let ticks = up(port.counts.power_on);
    let counts = Counts {
        power_on: ticks,
        ..port.counts
    };
    let after = Port { counts, ..port };
    if CLASSIFYING_ENDS <= ticks {
        return quietly(enter(State::Idle, after));
    }
    classed(reading.class, after)
}

#[tactic(auto, unfolding(crate::specs::Rules::stressed))]
fn stressed(reading: Reading, counts: Counts) -> Counts
    ensures { result ≡ stressed reading counts }
{
    Counts {
        limiting: during(reading.limiting, counts.limiting),
        overload: during(reading.overload, counts.overload),
        ..counts
    }
}

// Limiting is looked at before overload.
#[tactic(auto, unfolding(crate::specs::Rules::watched))]
fn watched(port: Port, fault: Port, sound: Moved) -> Moved
    ensures { result ≡ watched port fault sound }
{
    if FAULT <= port.counts.limiting {
        return latching(SHORT, fault);
    }
    if FAULT <= port.counts.overload {
        return latching(OVERLOAD, fault);
    }
    sound
}

// At 400 the power-on counter goes before the settled flag.
#[tactic(auto, unfolding(crate::specs::Rules::risen))]
fn risen(settled: bool, port: Port) -> Port
    ensures { result ≡ risen settled port }
{
    if POWER_UP_ENDS <= port.counts.power_on {
        return enter(State::Idle, port);
    }
    if settled {
        return enter(State::PowerOn, port);
    }
    port
}

#[tactic(auto, unfolding(crate::specs::Rules::power_up))]
pub fn power_up(port: Port, reading: Reading) -> Moved
    ensures { result ≡ power_up port reading }
{
    let counts = Counts {
        power_on: up(port.counts.power_on),
        ..stressed(reading, port.counts)
    };
    let after = Port { counts, ..port };
    watched(
        after,
        enter(State::ErrorDelay, after),
        quietly(risen(reading.settled, after)),
    )
}

#[tactic(auto, unfolding(crate::specs::Rules::power_on_rule))]
pub fn power_on(port: Port, reading: Reading) -> Moved
    ensures { result ≡ power_on_rule port reading }
{
    let ticks = during(!reading.load, port.counts.no_load);
    let counts = Counts {
        no_load: ticks,
        ..stressed(reading, port.counts)
    };
    let after = Port { counts, ..port };
    let fault = enter(State::ErrorDelay, after);
    if LOAD_ABSENT <= ticks {
        return watched(after, fault, latching(ABSENT, enter(State::Idle, after)));
    }
    watched(after, fault, quietly(after))
}

#[tactic(auto, unfolding(crate::specs::Rules::test_mode))]
pub fn test_mode(port: Port, reading: Reading) -> Moved
    ensures { result ≡ test_mode port reading }
{
    let counts = stressed(reading, port.counts);
    let after = Port { counts, ..port };
    if is_forced(enable_of(port.control)) {
        return watched(after, enter(State::TestError, after), quietly(after));
    }
    quietly(enter(State::Idle, after))
}

#[tactic(auto, unfolding(crate::specs::Rules::test_error))]
pub fn test_error(port: Port) -> Moved
    ensures { result ≡ test_error port }
{
    if is_forced(enable_of(port.control)) {
        return quietly(port);
    }
    quietly(enter(State::Idle, port))
}
