//! What is asked of the register: names, commands with their rules, requests, and the one text of
//! each.
//!
//! ```
//! let request = read_request(b"100 ann 1 advance")?;
//! let text = command_text(&request.command);
//! ```
#![tactic(auto)]

mod command_fields;
mod command_format;
mod command_rule;
mod field_values;
mod request;
mod request_line;
mod request_reading;
mod values;
mod version;

pub use command_fields::{CommandKind, Fields, MAX_WORD_LENGTH, Shape};
pub use command_format::{CommandText, MAX_COMMAND_LENGTH, command_text, put_number};
pub use command_rule::{Giver, KeyPart, OFFICE, Rule};
pub use field_values::{read_decimal, read_key_number, read_request_number};
pub use request::{Command, Edit, Registration, Request};
pub use request_line::{MAX_LINE_LENGTH, read_request};
pub use request_reading::read_command;
pub use values::{
    MAX_APPROVALS, MAX_NAME_LENGTH, MAX_PURPOSE_LENGTH, MAX_REQUEST_NUMBER, MIN_APPROVALS, Name,
    Purpose, Quorum, RequestNumber,
};
pub use version::Version;
