//! Tables of the register's keys, in and out: the import of rows of CSV, the export of all keys,
//! and the report on those that are due for rotation.
//!
//! ```
//! let outcome = import(alloc, &mut desk, moment, &caller, 1, input, &mut Watched::new(output));
//! let outcome = export(alloc, &mut desk, &mut Watched::new(output));
//! let outcome = rotation(alloc, &mut desk, 90, &mut Watched::new(output));
//! ```
#![tactic(auto)]

mod exporting;
mod import_row;
mod importing;
mod key_table;
pub mod laws;
mod table_writing;

pub use exporting::{export, rotation};
pub use importing::{MAX_ROWS, import};
pub use register_desk::{Desk, End, Finish, Outcome, Watched};
