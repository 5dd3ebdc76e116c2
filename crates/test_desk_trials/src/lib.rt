//! What the tests of a desk look at, over registers in memory. Each function tells whether all is
//! as it should be, or gives the first case that is not. Beside them stand the calls of a desk that
//! trials make, over whatever store, and the rows of exports.
#![tactic(auto)]

mod calls;
mod desks;
mod edited_rows;
mod exchanges;
mod exports;
mod long_runs;
mod memory_desk;
mod steps;

pub use calls::{Call, Called, Ended, Seen, TriedDesk, make_call};
pub use desks::{are_uses_and_periods_told, is_first_day_served_in_pieces, key_wrongly_shown};
pub use edited_rows::edited_row_not_told;
pub use exchanges::{ADVANCE, ADVANCED, worked_exchange_at_fault};
pub use exports::{Cells, export_header, export_of, export_row, is_export_ended_by_writer};
pub use long_runs::is_long_run_answered;
pub use memory_desk::make_desk;
pub use register_report::MAX_ROWS;
pub use steps::{line_of_other_steps, row_of_day_at_fault, table_of_other_steps};
