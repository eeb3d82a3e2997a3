// The first demand, as programs over the functions that ship. "Any table, sample block, control word, frame or number may be handed in. The
// core answers or refuses with a number from document 01, and each refusal changes no table and writes no byte." Each program works out
// (`order` and `order_frames`, and for 13 `ill`) which number has to come first, makes the call, and holds what came against it.
#![tactic(auto)]

pub mod frames;
pub mod tables;
