//! What the register is given of the machine, whoever gives it: files, and a network.
#![tactic(auto)]

mod files;
mod network;

pub use files::{Absent, Closed, ConnectError, Files, LogCopy, NotConnected};
pub use network::{Client, Network, ReadHalf, WriteHalf};
