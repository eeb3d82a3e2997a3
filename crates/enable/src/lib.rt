// What a port's enable code asks for.
#![tactic(auto)]

ghost use Rattle.std.specs.Prelude.{◌≡◌};
ghost use Rattle.enable.specs.Enable.{is_off, is_on, is_forced};

use control::Enable;

// Kept beside `==`: the list of one possible answer names all three (`enable_is_off` and the next two).

// Enable 00.
#[tactic(auto, unfolding(crate::specs::Enable::is_off))]
pub fn is_off(enable: Enable) -> bool
    ensures { result ≡ is_off enable }
{
    enable == Enable::Disabled
}

// Enable 01.
#[tactic(auto, unfolding(crate::specs::Enable::is_on))]
pub fn is_on(enable: Enable) -> bool
    ensures { result ≡ is_on enable }
{
    enable == Enable::Enabled
}

// Enable 10. Both bits count: 11 is reserved, and does not force power.
#[tactic(auto, unfolding(crate::specs::Enable::is_forced))]
pub fn is_forced(enable: Enable) -> bool
    ensures { result ≡ is_forced enable }
{
    enable == Enable::Forced
}
