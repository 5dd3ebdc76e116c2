//! The types of keys and their usage periods, modelled on the cryptoperiods of NIST SP 800-57 Part
//! 1: which dates fit a period, and what a date becomes that is not given.
//!
//! ```
//! let mut dates = Dates { activation: Some(now), ..dates };
//! match fill(period_of(KeyType::DataEncryption), &mut dates) {
//!     Ok(()) => { /* Protect Stop and Deactivation are set, and fit the period */ }
//!     Err(refusal) => { /* `dates` are as they were */ }
//! }
//! ```
#![tactic(auto)]

mod date_fitting;
mod key_type;
pub mod laws;
mod office;
mod period;

pub use date_fitting::{
    DateRefusal, are_dates_in_order, dates_with_defaults, defaulted_dates_cut_to_limits, fill,
    fits, is_either_use_too_long, is_not_after, trim,
};
pub use key_type::KeyType;
pub use office::OfficePeriods;
pub use period::{MAX_MONTHS, Period, period_of, period_or_default};
