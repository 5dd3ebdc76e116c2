//! The transitions between the states of a key, as the table of docs/SPECIFICATION.md has them.
use lifecycle_core::{State, may};

/// For each state that is left, whether each of [`State::ALL`] may be entered from it.
#[rattlefmt::skip]
static ALLOWED: [(State, [bool; 6]); 6] = [
    (State::PreActive, [false, true, false, true, true, false]),
    (State::Active, [false, false, true, true, false, false]),
    (State::Deactivated, [false, false, false, true, true, false]),
    (State::Compromised, [false, false, false, false, false, true]),
    (State::Destroyed, [false, false, false, false, false, true]),
    (State::DestroyedCompromised, [false, false, false, false, false, false]),
];

/// Whether these are the states that may be entered.
fn may_enter(from: State, allowed: &[bool; 6]) -> bool {
    for (to, expected) in State::ALL.iter().zip(allowed) {
        if may(from, *to) != *expected {
            return false;
        }
    }
    true
}

/// The first state from which others may be entered, if there is one.
fn wrongly_left() -> Option<State> {
    for (from, allowed) in &ALLOWED {
        if !may_enter(*from, allowed) {
            return Some(*from);
        }
    }
    None
}

#[test]
fn states_are_left_as_the_table_has_it(rt: HostRuntime) {
    assert!(rt; wrongly_left().is_none());
}
