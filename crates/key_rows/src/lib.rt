//! Keys as a reader is shown them: their rows, the order of those that are due for rotation, and
//! the texts of an export and of a report on rotation, piece by piece.
//!
//! ```
//! let until = horizon(latest, 90);
//! writer.write_all(report_head(alloc, until)?.as_bytes())?;
//! writer.write_all(report_line(alloc, latest, until, &row)?.as_bytes())?;
//! writer.write_all(report_total(alloc, 1)?.as_bytes())?;
//! ```
#![tactic(auto)]

mod cell;
mod date_text;
mod export;
mod key_row;
pub mod laws;
mod record;
mod report;

pub use export::{export_header, export_row};
pub use key_row::KeyRow;
pub use record::Record;
pub use report::{
    horizon, is_listed_in_report, last_moment, report_head, report_line, report_total,
};
