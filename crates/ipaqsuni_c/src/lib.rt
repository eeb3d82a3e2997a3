// The library that C links (include/ipaqsuni.h): each function is the one of the crate `ipaqsuni` of its name, with the same promise.
// Each stands twice, since C links a static library and the demands' programs call a library: a crate is the one or the other.
#![tactic(auto)]

pub mod frames;
pub mod tables;
