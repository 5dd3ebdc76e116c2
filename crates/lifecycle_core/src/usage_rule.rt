//! What a key may be used for at a moment.
ghost use Rattle.std.specs.Prelude.{◌≡◌};
ghost use Rattle.lifecycle_core.specs.Usage.{usage_at};

use crate::dates::Dates;
use crate::row::state_of;
use crate::state::State;
use crate::usage_types::{Process, Usage};
use moment_core::Moment;

/// What a key with these dates may be used for at a moment. A key with no Protect Stop Date
/// protects nothing.
pub fn usage(dates: &Dates, at: Moment) -> Usage
    ensures { result ≡ usage_at dates.now at }
{
    let state = state_of(dates, at);
    Usage {
        protect: state == State::Active && dates.protect_stop.is_some_and(|stop| at < stop),
        process: match state {
            State::Active => Process::Yes,
            State::Deactivated | State::Compromised => Process::Special,
            State::PreActive | State::Destroyed | State::DestroyedCompromised => Process::No,
        },
    }
}
