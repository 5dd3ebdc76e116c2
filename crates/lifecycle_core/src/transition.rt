//! The transitions between the states of a key.
ghost use Rattle.std.specs.Prelude.{◌↔◌, IsTrue, Some};
ghost use Rattle.lifecycle_core.specs.Transition.{IsTransition};

use crate::state::State;

/// Whether a key may go from one state to another in one step: the transitions 2 to 10 of KMIP
/// 1.2's State. (By transition 1 a key is created, and has no state before it.)
pub fn may(from: State, to: State) -> bool
    ensures { IsTrue result ↔ IsTransition (Some from) to }
{
    match from {
        State::PreActive => matches!(to, State::Destroyed | State::Compromised | State::Active),
        State::Active => matches!(to, State::Compromised | State::Deactivated),
        State::Deactivated => matches!(to, State::Destroyed | State::Compromised),
        State::Compromised | State::Destroyed => matches!(to, State::DestroyedCompromised),
        State::DestroyedCompromised => false,
    }
}
