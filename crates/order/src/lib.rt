// "Order of checks": for each call on a table the first number of document 01's list whose condition holds, and 0 if none does, worked out
// from the cells and what is handed in, for the programs that judge the core. Nothing of it is borrowed from the core. The codes of the
// states that are named: DISABLED 0, POWER_UP 5, POWER_ON 6, TEST_MODE 8.
// Kept numbers, and 0 for none: that is what the C interface answers, and what `first_number` of the first statement says.
#![tactic(auto)]

pub mod control_write;
pub mod power_request;
pub mod start;
pub mod status_read;
pub mod ticking;
