//! Readers and writers whose turns are counted and whose failure is kept.
ghost use Rattle.std.specs.Prelude.{◌≡◌, ◌<◌, ◌≤◌, length, take, true, false, IfOk, OnOk, IfErr};
ghost use Rattle.std.specs.Prelude.{OnErr};
ghost use Rattle.std.specs.Bool.{OnFalse, OnTrue};
ghost use Rattle.std.specs.Io.KnownBytes.{Appends, Consumes, IsAtEnd, Keeps};
ghost use Rattle.streams.specs.{Watched.one_more, Watched.IsFaulted, Within.StopsWithin};

mod turns;

use std::io;
use std::io::{Read, Write};
use turns::Turn;

/// The most turns of a reader in one call.
pub const MAX_READS: u64 = 2_000_000_000;

/// The most interrupted turns in a row of a writer in one call.
pub const MAX_IDLE_TURNS: u64 = 10_000;

/// A reader or a writer that a call is lent: its turns are counted, and whether it failed is kept.
///
/// A turn is one read, one write or one flush. An interrupted turn is tried again, up to a bound
/// that the call gives, since nothing says that the interruptions end.
#[derive(Drop)]
pub struct Watched<T> {
    inner: T,
    failed: bool,
    turns: u64,
    idle: u64,
    unflushed: bool,
}

/// The reader failed, or it has had all the turns that it may have.
#[derive(Clone, Copy)]
pub struct ReadFault;

/// The writer failed, or it was interrupted as often in a row as it may be.
#[derive(Clone, Copy)]
pub struct WriteFault {
    /// How many of the bytes it took.
    pub written: usize,
}

impl<T> Watched<T> {
    /// Begins with no turn counted and no failure.
    pub fn new(inner: T) -> Self
        ensures { result ≡
            record { inner = inner; failed = false; turns = 0; idle = 0; unflushed = false } }
    {
        Watched {
            inner,
            failed: false,
            turns: 0,
            idle: 0,
            unflushed: false,
        }
    }

    /// Whether a turn has failed, other than by an interruption.
    pub fn has_failed(&self) -> bool
        ensures { result ≡ self.now.failed }
    {
        self.failed
    }

    /// The turns since the last [`reset_turn_counts`](Watched::reset_turn_counts), which stop at
    /// `u64::MAX`.
    pub fn turns(&self) -> u64
        ensures { result ≡ self.now.turns }
    {
        self.turns
    }

    /// The interrupted turns since the last turn that was not interrupted.
    pub fn interruptions_in_a_row(&self) -> u64
        ensures { result ≡ self.now.idle }
    {
        self.idle
    }

    /// Gives back what was lent.
    pub fn into_inner(self) -> T
        ensures { result ≡ self.inner }
    {
        let Watched {
            inner,
            failed: _,
            turns: _,
            idle: _,
            unflushed: _,
        } = self;
        inner
    }

    /// Counts from 0 again. A call that is lent one does this first.
    pub fn reset_turn_counts(&mut self)
        ensures { self.new ≡ record self.old { turns = 0; idle = 0 } }
    {
        self.turns = 0;
        self.idle = 0;
    }
}

impl<R: Read> Watched<R> {
    /// Reads once into `piece`, and again after an interruption, and returns how many bytes of it
    /// were filled. In all it takes no turn past `max_turns`.
    pub fn read_piece(&mut self, max_turns: u64, piece: &mut [u8]) -> Result<usize, ReadFault>
        ensures bound { IfOk result (λ n. n ≤ length piece.new) }
        ensures bytes { IfOk result (λ n.
            Consumes (R.remaining self.old.inner) (R.remaining self.new.inner) (take n piece.new)) }
        ensures end { IfOk result (λ n.
            n ≡ 0 → 0 < length piece.new → IsAtEnd (R.remaining self.new.inner)) }
        ensures within { OnOk result
            ((self.old.turns < self.new.turns) × (self.new.turns ≤ max_turns)) }
        ensures sound { OnOk result (self.new.failed ≡ self.old.failed) }
        ensures busy { OnOk result (self.new.idle ≡ 0) }
        ensures bounded { self.old.turns ≤ max_turns → self.new.turns ≤ max_turns }

        // Nothing is lost at an error, which comes of a failure or of too many turns.
        ensures kept { OnErr result
            (Keeps (R.remaining self.old.inner) (R.remaining self.new.inner)) }
        ensures err { OnErr result (IsFaulted self.new.failed max_turns self.new.turns) }
        ensures idle { OnErr result (self.new.failed ≡ false → self.old.idle ≤ self.new.idle) }
        ensures turns { self.old.turns ≤ self.new.turns }
        ensures failed { self.old.failed ≡ true → self.new.failed ≡ true }
    {
        while self.turns < max_turns {
            match self.read_turn(piece) {
                Turn::Done(filled) => return Ok(filled),
                Turn::Interrupted => {}
                Turn::Failed => return Err(ReadFault),
            }
        }
        Err(ReadFault)
    }
}

/// A reader as it is watched, for who knows no bound on turns: each read is as
/// [`read_piece`](Watched::read_piece) with [`MAX_READS`].
impl<R: Read> Read for Watched<R> {
    ghost remaining = { λ watched. R.remaining watched.inner };

    fn read(&mut self, buf: &mut [u8]) -> io::Result<usize> {
        match self.read_piece(MAX_READS, buf) {
            Ok(filled) => Ok(filled),
            Err(ReadFault) => Err(io::ErrorKind::Other.into()),
        }
    }
}

impl<W: Write> Watched<W> {
    /// Writes all of `bytes` and then flushes. An interrupted turn is tried again, unless
    /// `max_idle` turns in a row were interrupted.
    pub fn write_flushed(&mut self, max_idle: u64, bytes: &[u8]) -> Result<(), WriteFault>
        ensures bytes { OnOk result
            (Appends (W.contents self.old.inner) (W.contents self.new.inner) bytes.now) }
        ensures sound { OnOk result (self.new.failed ≡ self.old.failed) }

        // A flush takes a turn, and bytes take one before it.
        ensures flushed { OnOk result (self.new.unflushed ≡ false) }
        ensures bounded { self.old.idle ≤ max_idle → self.new.idle ≤ max_idle }
        ensures turned { OnOk result (one_more self.old.turns ≤ self.new.turns) }
        ensures wrote { OnOk result
            (0 < length bytes.now → one_more (one_more self.old.turns) ≤ self.new.turns) }

        // At an error these bytes were taken and no others. It comes of a failure or of too many
        // interruptions.
        ensures bound { IfErr result (λ fault. fault.written ≤ length bytes.now) }
        ensures part { IfErr result (λ fault.
            Appends (W.contents self.old.inner) (W.contents self.new.inner)
            (take fault.written bytes.now)) }
        ensures err { OnErr result (IsFaulted self.new.failed max_idle self.new.idle) }
        ensures turns { self.old.turns ≤ self.new.turns }
        ensures failed { self.old.failed ≡ true → self.new.failed ≡ true }
    {
        self.write_whole(max_idle, bytes)?;
        if self.flush_until_done(max_idle) {
            Ok(())
        } else {
            Err(WriteFault {
                written: bytes.len(),
            })
        }
    }

    // Writes all of `bytes`.
    fn write_whole(&mut self, max_idle: u64, bytes: &[u8]) -> Result<(), WriteFault>
        ensures bytes { OnOk result
            (Appends (W.contents self.old.inner) (W.contents self.new.inner) bytes.now) }
        ensures sound { OnOk result (self.new.failed ≡ self.old.failed) }
        ensures wrote { OnOk result
            (0 < length bytes.now → one_more self.old.turns ≤ self.new.turns) }
        ensures bounded { self.old.idle ≤ max_idle → self.new.idle ≤ max_idle }
        ensures stops { IfErr result
            (StopsWithin W.contents self.old self.new max_idle bytes.now) }
        ensures turns { self.old.turns ≤ self.new.turns }
        ensures failed { self.old.failed ≡ true → self.new.failed ≡ true }
    {
        let mut written = 0;
        while written < bytes.len() {
            if self.idle >= max_idle {
                return Err(WriteFault { written });
            }
            match self.write_turn(&bytes[written..]) {
                Turn::Done(taken) => written += taken,
                Turn::Interrupted => {}
                Turn::Failed => return Err(WriteFault { written }),
            }
        }
        Ok(())
    }

    // Flushes, and returns whether that was done.
    fn flush_until_done(&mut self, max_idle: u64) -> bool
        ensures bytes { Keeps (W.contents self.old.inner) (W.contents self.new.inner) }
        ensures sound { OnTrue result (self.new.failed ≡ self.old.failed) }
        ensures flushed { OnTrue result (self.new.unflushed ≡ false) }
        ensures bounded { self.old.idle ≤ max_idle → self.new.idle ≤ max_idle }
        ensures turned { OnTrue result (one_more self.old.turns ≤ self.new.turns) }
        ensures err { OnFalse result (IsFaulted self.new.failed max_idle self.new.idle) }
        ensures turns { self.old.turns ≤ self.new.turns }
        ensures failed { self.old.failed ≡ true → self.new.failed ≡ true }
    {
        while self.idle < max_idle {
            match self.flush_turn() {
                Turn::Done(()) => return true,
                Turn::Interrupted => {}
                Turn::Failed => return false,
            }
        }
        false
    }
}
