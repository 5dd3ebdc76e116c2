//! Reading rows of a register's tables, and writing what an accepted request makes of them. Its
//! contracts say what each call makes of the rows, and what a stop within it leaves.
#![tactic(auto)]

mod accepted_request;
mod key_scan;
mod setting;
mod stored_key;

pub use accepted_request::{commit_request, find_request};
pub use key_scan::{DateRun, DueCursor, each_due, each_key};
pub use setting::{find_key_need, find_office_period};
pub use stored_key::{find_key_row, load_key};
