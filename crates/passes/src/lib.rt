// The tick: what it is, and the laws of the passes that it is made in. The code is the crate `tick`.
#![tactic(auto)]
