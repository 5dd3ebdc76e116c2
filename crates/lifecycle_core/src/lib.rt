//! The lifecycle of a key: its states and the transitions between them, its dates, the state that
//! the dates give at a moment, what the key may be used for then, and the reasons of a revocation.
//! The states, their transitions and the dates are those of the State attribute of OASIS KMIP 1.2.
//!
//! ```
//! let before = row.state;
//! advance(&mut row, now); // `row.state` is then `state_of(&row.dates, now)`
//! if usage(&row.dates, now).protect { /* the key may protect data */ }
//! ```
#![tactic(auto)]

mod dates;
pub mod laws;
mod reason;
mod row;
mod state;
mod transition;
mod usage_rule;
mod usage_types;

pub use dates::Dates;
pub use reason::Reason;
pub use row::{Row, advance, state_of};
pub use state::State;
pub use transition::may;
pub use usage_rule::usage;
pub use usage_types::{Process, Usage};
