//! The register in a file, whoever opens it: its lives, and the serving of connections; and what the
//! program does with its words, over the streams that it is given and whatever files there are.
#![tactic(auto)]

mod acting;
mod faults;
pub mod laws;
mod refused;
mod register_file;
mod world;

pub use acting::{
    Acted, Asked, Done, Inputs, Machine, Outputs, Ran, act, act_in_memory, act_on_words, read_task,
    run_asked,
};
pub use faults::{report_bad_value, report_end, report_refusal};
pub use machine_traits::{
    Absent, Client, Closed, ConnectError, Files, LogCopy, Network, NotConnected, ReadHalf,
    WriteHalf,
};
pub use refused::{Refused, RefusedFiles};
pub use register_file::{
    FileLife, RegisterFile, export_file, import_file, init_file, open_file, report_file, run_file,
    serve_file,
};
pub use register_http::{
    Accepted, Attendance, ServedConnection, serve_at, serve_connection, serve_on,
};
pub use world::{World, run_again_and_again, run_next};
