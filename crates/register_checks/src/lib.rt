//! The checks of a file's tables, as an opening makes them of each row. Its contracts say which
//! tables pass, and why others do not.
#![tactic(auto)]

mod checking;
mod custody_check;
mod found;
mod key_check;
mod meta_check;
mod refusal;
mod request_check;
mod setting_check;

pub use checking::{check, version};
pub use found::Found;
pub use refusal::CheckError;
