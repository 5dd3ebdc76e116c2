//! Moments, which are whole seconds of UTC, their sums with calendar months and days, and their
//! texts.
//!
//! ```
//! let leap_day = Moment::read(b"2024-02-29T00:00:00Z")?;
//! let later = leap_day.plus_months(36)?;
//! assert_eq!(later.write(), *b"2027-02-28T00:00:00Z");
//! ```
#![tactic(auto)]

mod calendar;
pub mod laws;
mod moment;
mod moment_text;

pub use moment::{FIRST_MOMENT, LAST_SECOND, Moment};
