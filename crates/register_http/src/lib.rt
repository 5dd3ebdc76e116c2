//! HTTP exchanges over the register: of each a request is read, the register asked once, and a
//! reply written. Connections are served one after the other, one exchange each, whoever listens.
//!
//! ```
//! let mut routes = Routes::new();
//! let outcome = exchange(alloc, &mut routes, &mut desk, moment, &mut reader, &mut writer);
//! ```
#![tactic(auto)]

mod attendance;
mod exchanging;
mod serving;

pub use attendance::Attendance;
pub use exchanging::exchange;
pub use http_messages::{
    MAX_BODY_LENGTH, MAX_EXCHANGE_READS, MAX_HEAD_LENGTH, MAX_HEADERS, Routes,
};
pub use serving::{Accepted, ServedConnection, serve_at, serve_connection, serve_on};
