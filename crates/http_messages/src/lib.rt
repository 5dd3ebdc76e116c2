//! The messages of one HTTP exchange: what a request asks of the register, as its whole input has
//! it, and the text of the reply. The register itself is not asked here.
//!
//! ```
//! let mut routes = Routes::new();
//! let asking = read_asked(alloc, &mut routes, &mut reader);
//! let text = answer_reply_text(alloc, &answer)?;
//! ```
#![tactic(auto)]

mod asked;
mod asking;
mod command_value;
mod head;
mod header_fields;
pub mod laws;
mod member_values;
mod reply_text;
mod route;

pub use asked::{AskFault, Asked, Rejection, Sent};
pub use asking::{Asking, MAX_BODY_LENGTH, read_asked};
pub use head::{MAX_EXCHANGE_READS, MAX_HEAD_LENGTH, MAX_HEADERS};
pub use reply_text::{answer_reply_text, key_reply_text, rejection_text, usage_reply_text};
pub use route::{Route, Routes};
