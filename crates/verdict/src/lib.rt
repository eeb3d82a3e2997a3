// What the program of a demand answers.
#![tactic(auto)]

#[derive(Clone, Copy, PartialEq, Eq)]
pub enum Verdict {
    // It was asked, and it holds.
    Held,
    // The arguments do not ask it.
    NotAsked,
    // It was asked, and it does not hold.
    Broken,
}
