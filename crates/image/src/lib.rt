// The table's image, 1,014 bytes, big-endian: what it is, and its laws; no code. Whoever keeps a table, or drives the core from outside, saves
// it by the crate `store` and restores it by `load`.
#![tactic(auto)]
