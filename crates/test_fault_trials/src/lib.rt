//! What the tests of faults look at: a register in files in memory whose calls fail, or that stop
//! at a call, what is answered then, what opening finds after it, and that what was sent acts once
//! in all when it is sent again; and readers and writers that fail. Each function tells whether all
//! is as it should be, or gives the first case that is not.
#![tactic(auto)]

mod contents;
mod files;
mod keys;
mod leaving;
mod lent;
mod looks;
mod requests;
mod sending;
mod stops;
mod texts;
mod trials;

pub use lent::trouble_at_fault;
pub use looks::look_at_fault;
pub use stops::{
    failure_at_fault, stop_elsewhere_at_fault, stop_in_command_at_fault,
    stop_while_spilling_at_fault, want_of_memory_at_fault,
};
