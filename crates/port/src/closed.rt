// Which ports carry 48 volts.
ghost use Rattle.std.specs.Prelude.{◌≡◌};
ghost use Rattle.port.specs.States.{closed};

use crate::form::State;

pub fn is_closed(state: State) -> bool
    ensures { result ≡ closed state }
{
    matches!(state, State::PowerUp | State::PowerOn | State::TestMode)
}
