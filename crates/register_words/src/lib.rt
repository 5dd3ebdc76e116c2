//! The program's words: which task they ask for, and the values among them.
#![tactic(auto)]

mod values;
mod words;

pub use values::{Bounds, GivenBounds, GivenTerms, MAX_DAYS, MAX_EXCHANGES, Terms, read_days};
pub use words::{GivenJob, GivenTask, Job, Task, read_words};
