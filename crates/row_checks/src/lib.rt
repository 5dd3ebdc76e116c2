//! Reading the rows of a query one at a time, each of which is put to a check: whatever the file's
//! schema is, and with no row kept.
//!
//! ```
//! let mut check = PriceCheck { total: 0 };
//! check_rows(&mut connection, "SELECT price FROM item", &mut check)?;
//! ```
#![tactic(auto)]

mod error;
mod reading;
mod row_check;

pub use error::RowsError;
pub use reading::check_rows;
pub use row_check::RowCheck;
