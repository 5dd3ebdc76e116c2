//! How a call that reads or writes ended, and what it did.
ghost use Rattle.std.specs.Prelude.{◌≡◌};

use crate::end::End;

/// How a run ended.
#[derive(Clone, Copy, PartialEq, Eq)]
pub enum Finish {
    /// The input is at its end. `rest` bytes stood after its last line feed, and are no line.
    AtEnd { rest: u64 },
    /// The run ended before that.
    Ended(End),
}

/// What a run did.
#[derive(Clone, Copy, PartialEq, Eq)]
pub struct Outcome {
    /// The bytes that were taken from the reader.
    pub read: u64,
    /// The bytes that were written.
    pub written: u64,
    /// The reply lines that were written whole and flushed.
    pub replies: u64,
    /// How it ended.
    pub end: Finish,
}

impl Outcome {
    /// What a call did that ended so, with nothing read and nothing written.
    pub fn ended_without_bytes(end: Finish) -> Self
        ensures { result ≡ record { read = 0; written = 0; replies = 0; end = end } }
    {
        Outcome {
            read: 0,
            written: 0,
            replies: 0,
            end,
        }
    }

    /// The outcome, with so many bytes read.
    pub fn with_read(self, read: u64) -> Self
        ensures { result ≡ record self { read = read } }
    {
        Outcome { read, ..self }
    }

    /// The outcome, with so many bytes written, and so many replies among them.
    pub fn with_written_and_replies(self, written: u64, replies: u64) -> Self
        ensures { result ≡ record self { written = written; replies = replies } }
    {
        Outcome {
            written,
            replies,
            ..self
        }
    }
}
