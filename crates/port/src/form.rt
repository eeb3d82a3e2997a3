// What a port is, what a tick is told of it, and what its move answers.
use power::Power;
use status::Latches;

#[derive(Clone, Copy, PartialEq, Eq)]
pub enum State {
    Disabled,
    Idle,
    Detecting,
    Backoff,
    Classifying,
    PowerUp,
    PowerOn,
    ErrorDelay,
    TestMode,
    TestError,
}

// Ticks counted. A counter runs only in the states that document 01 names for it.
#[derive(Clone, Copy)]
pub struct Counts {
    pub detection: u16,
    pub backoff: u16,
    pub error_delay: u16,
    pub power_on: u16,
    pub limiting: u16,
    pub overload: u16,
    pub no_load: u16,
}

#[derive(Clone, Copy)]
pub struct Port {
    pub state: State,
    pub class: u8,
    pub control: u16,
    pub latches: Latches,
    // Beside the counters, so that all eight are tested at once.
    pub demand: Power,
    pub counts: Counts,
}

// Kept an enum, as is the next: no Option of a signature and no Result of a class, since a port knows no board's sample and stands on the crate
// of neither.
#[derive(Clone, Copy, PartialEq, Eq)]
pub enum Detection {
    NotDone,
    Valid,
    Invalid,
    Open,
}

#[derive(Clone, Copy, PartialEq, Eq)]
pub enum Classing {
    NotDone,
    OverCurrent,
    Disagree,
    // A class and its budget.
    Is(u8, Power),
}

// What a tick is told of a port. Boards differ in their samples; the port's move knows only this.
#[derive(Clone, Copy)]
pub struct Reading {
    pub detection: Detection,
    pub class: Classing,
    pub settled: bool,
    pub limiting: bool,
    pub overload: bool,
    pub load: bool,
}

// A port after its own move, before the supply is shared.
#[derive(Clone, Copy)]
pub struct Moved {
    pub port: Port,
    // What this move latched, also where the latch was set already.
    pub latched: Latches,
    // It asks to be closed: from IDLE for TEST_MODE, from CLASSIFYING for POWER_UP.
    pub asks: bool,
}
