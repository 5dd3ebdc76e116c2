//! The seven tables of a register, in a database of `sqlite`: their columns, what their rows show,
//! and a connection whose calls are counted. Whoever reads and writes rows stands on it
//! (`register_rows`), whoever makes and migrates tables (`register_schema`), and whoever checks
//! them (`register_checks`); what these do `register_store` gives out.
#![tactic(auto)]

mod cells;
mod columns;
mod counted;
mod error;
mod key_index;
mod row_values;
mod table;

pub use cells::{
    DateCell, MomentCell, date_in, key_number_or_zero_in, key_type_in, moment_in, months_in,
    name_in, purpose_in, quorum_in, state_in, text_in, unsigned_integer_in,
};
pub use columns::{KeyCell, MetaCell, NameCell, RequestCell};
pub use counted::{Counted, Inside, StepCount, Work};
pub use error::StoreError;
pub use key_index::{KEY_INDEXES, KeyIndex};
pub use row_values::{kept_reply_in, key_in, request_number_in};
pub use table::{TABLES, TableName};
