//! What stands in a column of an export.
use lifecycle_core::State;
use moment_core::Moment;
use period_core::KeyType;
use register_core::{Name, Purpose};

/// What stands in a column of a key's row.
#[derive(Clone, Copy)]
pub(crate) enum Cell<'a> {
    Number(u32),
    Kind(KeyType),
    State(State),
    /// Empty where it is not set.
    Date(Option<Moment>),
    Name(&'a Name),
    Purpose(&'a Purpose),
}
