//! Laws of the lifecycle.
ghost use Rattle.std.specs.Prelude.{ℕ, ◌≤◌, Some};
ghost use Rattle.lifecycle_core.specs.declared.dates.Dates.{Dates};
ghost use Rattle.lifecycle_core.specs.{State.state_at, Transition.HasPath};

/// While a key's dates stay, time takes it along the standard's transitions only.
pub fn time_follows_transitions()
    ensures { (d : Dates) (t u : ℕ) → t ≤ u → HasPath (Some (state_at d t)) (Some (state_at d u)) }
{}
