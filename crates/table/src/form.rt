// The table, and what a tick answers of it. A refusal is document 01's, by its name.
use port::form::Port;
use power::Power;
use sizes::PORTS;

#[derive(Drop)]
pub struct Table {
    pub ports: [Port; PORTS],
    // Places at or past the port count never change and count as open.
    pub count: u16,
    // The figure of the last accepted tick.
    pub supply: Power,
}

// The closed ports on alternative A, those on alternative B, and how many they are.
#[derive(Clone, Copy, PartialEq, Eq)]
pub struct Closed {
    pub a: u64,
    pub b: u64,
    pub number: u32,
}
