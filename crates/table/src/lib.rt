// The table of a board's ports, and what is answered of it.
#![tactic(auto)]

pub mod form;
