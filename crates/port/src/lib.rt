// A port: its state, counters and latches, which states are closed, how a counter runs, and what entering a state does.
#![tactic(auto)]

pub mod closed;
pub mod entry;
pub mod form;
