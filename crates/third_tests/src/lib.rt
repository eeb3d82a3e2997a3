// What the third demand looks at: its arguments, and what a tick answered.
#![tactic(auto)]

pub mod answers;
pub mod asked;
