//! Reads until a whole head of a request stands in memory, or until it is clear that none will.
ghost use Rattle.std.specs.Prelude.{◌≡◌, ◌<◌, ◌≤◌, ◌+◌, ◌++◌, ℕ, List, [], length, take, IfOk};
ghost use Rattle.std.specs.Prelude.{OnOk, OnErr};
ghost use Rattle.std.specs.Io.KnownBytes.{Consumes, IsAtEnd, Keeps};
ghost use Rattle.streams.specs.Watched.{IsFaulted};
ghost use Rattle.http_messages.specs.HeadSearch.{EndsSearch};

use httparse::spans::{EMPTY_HEADER_SPAN, HeaderSpan, RequestSpans, parse_request};
use httparse::{Error, Status};
use std::io::Read;
use std::marker::Model;
use streams::{ReadFault, Watched};

/// The most bytes of a head.
pub const MAX_HEAD_LENGTH: usize = 8192;

/// The most header lines of a head.
pub const MAX_HEADERS: usize = 64;

/// The most turns at its reader that an exchange takes.
pub const MAX_EXCHANGE_READS: u64 = 80_000;

/// What stands at the start of the input.
#[derive(Clone, Copy)]
pub(crate) enum HeadSearch {
    /// A whole head, with its parts.
    Whole(RequestSpans),
    /// Not one byte.
    Nothing,
    /// No head that is taken.
    Bad,
    /// A head that does not end within the limit.
    TooLarge,
}

/// The bytes that were read while a head was looked for. In a contract it is the list of them.
#[derive(Drop)]
pub(crate) struct Prefix {
    bytes: [u8; MAX_HEAD_LENGTH],
    filled: usize,
}

impl Model for Prefix {
    ghost use Rattle.std.specs.Prelude.{◌≤◌, ℕ, List, take};
    ghost use Rattle.http_messages.specs.declared.head.TheConstants.{MAX_HEAD_LENGTH};

    ghost Value = { List ℕ };

    ghost view = { λ f. take f.filled f.bytes };

    ghost invariant = { λ f. f.filled ≤ MAX_HEAD_LENGTH };
}

impl Prefix {
    /// Begins with no byte.
    pub fn new() -> Self
        ensures { result ≡ [] }
    {
        Prefix {
            bytes: [0; MAX_HEAD_LENGTH],
            filled: 0,
        }
    }

    /// The bytes.
    pub fn bytes(&self) -> &[u8]
        ensures value { result.now ≡ self.now }
        ensures short { length result.now ≤ MAX_HEAD_LENGTH }
    {
        &self.bytes[..self.filled]
    }

    /// Reads once more, where there is room, and returns how many bytes came.
    fn read_more_bytes<R: Read>(&mut self, reader: &mut Watched<R>) -> Result<usize, ReadFault>
        requires { length self.old < MAX_HEAD_LENGTH }
        ensures bytes { IfOk result (λ n. (more : List ℕ) × (self.new ≡ self.old ++ more)
            × (length more ≡ n)
            × Consumes (R.remaining reader.old.inner) (R.remaining reader.new.inner) more) }
        ensures end { IfOk result (λ n. n ≡ 0 → IsAtEnd (R.remaining reader.new.inner)) }
        ensures kept { OnErr result ((self.new ≡ self.old)
            × Keeps (R.remaining reader.old.inner) (R.remaining reader.new.inner)) }
        ensures turns { reader.old.turns ≤ reader.new.turns }
        ensures later { OnOk result (reader.old.turns < reader.new.turns) }
        ensures bound { OnOk result (reader.new.turns ≤ MAX_EXCHANGE_READS) }
        ensures bounded { reader.old.turns ≤ MAX_EXCHANGE_READS
            → reader.new.turns ≤ MAX_EXCHANGE_READS }
        ensures sound { OnOk result (reader.new.failed ≡ reader.old.failed) }
        ensures err { OnErr result
            (IsFaulted reader.new.failed MAX_EXCHANGE_READS reader.new.turns) }
    {
        let filled = self.filled;
        let count = reader.read_piece(MAX_EXCHANGE_READS, &mut self.bytes[filled..])?;
        self.filled = filled + count;
        Ok(count)
    }

    /// Reads until a whole head stands here, or until it is clear that none will.
    pub fn read_head<R: Read>(
        &mut self,
        headers: &mut [HeaderSpan; MAX_HEADERS],
        reader: &mut Watched<R>,
    ) -> Result<HeadSearch, ReadFault>
        requires { self.old ≡ [] }
        ensures found { IfOk result
            (EndsSearch self.new headers.new (R.remaining reader.new.inner)) }
        ensures bytes { Consumes (R.remaining reader.old.inner) (R.remaining reader.new.inner)
            self.new }
        ensures short { length self.new ≤ MAX_HEAD_LENGTH }
        ensures sound { OnOk result (reader.new.failed ≡ reader.old.failed) }
        ensures err { OnErr result
            (IsFaulted reader.new.failed MAX_EXCHANGE_READS reader.new.turns) }
        ensures turns { reader.old.turns ≤ reader.new.turns }
        ensures bounded { reader.old.turns ≤ MAX_EXCHANGE_READS
            → reader.new.turns ≤ MAX_EXCHANGE_READS }
    {
        'reads: loop {
            match parse_request(self.bytes(), headers) {
                Ok(Status::Complete(spans)) => return Ok(HeadSearch::Whole(spans)),
                Ok(Status::Partial) => {}
                Err(_) => return Ok(HeadSearch::Bad),
            }
            if self.bytes().len() == MAX_HEAD_LENGTH {
                return Ok(HeadSearch::TooLarge);
            }
            if self.read_more_bytes(reader)? == 0 {
                // A client may connect and leave without a word, which is no fault of it.
                if self.bytes().is_empty() {
                    return Ok(HeadSearch::Nothing);
                }
                return Ok(HeadSearch::Bad);
            }
        }
    }
}
