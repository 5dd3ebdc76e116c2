//! Watched readers and writers, and the cutting of lines: the edge at which a program meets streams
//! that may fail, be interrupted, or give and take a few bytes at a time.
//!
//! A caller lends [`Lines::next`] its watched reader again and again. After each [`Next::Line`] it
//! asks [`Lines::line`] for the line, and after [`Next::End`] [`Lines::length`] for how many bytes
//! stood after the last one. It writes what it has to say by [`Watched::write_flushed`].
#![tactic(auto)]

mod lines;
mod watched;

pub use lines::{LINE_FEED, Lines, MAX_PIECE_LENGTH, Next};
pub use watched::{MAX_IDLE_TURNS, MAX_READS, ReadFault, Watched, WriteFault};
