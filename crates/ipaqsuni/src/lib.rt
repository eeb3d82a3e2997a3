// The core for C and for whatever calls as C does. The table is cells that the caller lends; a refusal writes no cell and no byte anywhere.
#![tactic(auto)]

pub mod frames;
pub mod tables;

ghost use Rattle.std.specs.Prelude.{◌≡◌};
ghost use Rattle.ipaqsuni.specs.Outcome.{number_of};

use sizes::refusals::Refusal;

// Every function of the two modules answers so.
fn number_of<T: Drop>(answer: Result<T, Refusal>) -> u32
    ensures { result ≡ number_of answer }
{
    match answer {
        Ok(_) => 0,
        Err(refusal) => u32::from(refusal.number()),
    }
}
