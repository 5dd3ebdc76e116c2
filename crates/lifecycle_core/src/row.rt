//! A key's row: its dates, and the state that is kept beside them.
ghost use Rattle.std.specs.Prelude.{◌≡◌, ◌≤◌, ℕ};
ghost use Rattle.lifecycle_core.specs.{State.state_at, State.is_reached_at, Row.IsRightAt};

use crate::dates::Dates;
use crate::state::State;
use moment_core::Moment;

/// A key's dates, and the state that is kept beside them.
#[derive(Clone, Copy)]
pub struct Row {
    pub dates: Dates,
    pub state: State,
}

impl Row {
    ghost use Rattle.std.specs.Prelude.{◌↔◌, IsTrue};

    /// Whether the kept state is the one that the dates give at a moment.
    pub fn has_right_state_at(&self, at: Moment) -> bool
        ensures { IsTrue result ↔ IsRightAt self.now at }
    {
        self.state == state_of(&self.dates, at)
    }
}

/// Whether the date is set and at most the moment.
fn is_reached(date: Option<Moment>, at: Moment) -> bool
    ensures { result ≡ is_reached_at date at }
{
    match date {
        Some(date) => date <= at,
        None => false,
    }
}

/// The state that the dates give at a moment.
pub fn state_of(dates: &Dates, at: Moment) -> State
    ensures { result ≡ state_at dates.now at }
{
    match (dates.destroy, dates.compromise) {
        (Some(_), Some(_)) => State::DestroyedCompromised,
        (Some(_), None) => State::Destroyed,
        (None, Some(_)) => State::Compromised,
        (None, None) => {
            if !is_reached(dates.activation, at) {
                State::PreActive
            } else if is_reached(dates.deactivation, at) {
                State::Deactivated
            } else {
                State::Active
            }
        }
    }
}

/// Moves the row to its state at a moment that is not before the one at which it is right. The
/// dates stay.
pub fn advance(row: &mut Row, at: Moment)
    requires { (before : ℕ) × (before ≤ at) × IsRightAt row.old before }
    ensures dates { row.new.dates ≡ row.old.dates }
    ensures right { IsRightAt row.new at }
{
    // Only these two states are left by the mere passing of time.
    if matches!(row.state, State::PreActive | State::Active) {
        row.state = state_of(&row.dates, at);
    }
}
