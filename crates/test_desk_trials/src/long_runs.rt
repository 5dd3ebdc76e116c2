//! A run over more turns than a mark of a stream may rest on: each turn is counted by the stream
//! itself, and none comes behind a fault.
use crate::calls::Call;
use crate::memory_desk::MemoryDesk;
use register_desk::{End, Finish};
use std::alloc::Global;
use std::io::{self, Error, ErrorKind, Read, Write};
use std::test::Fail;

/// How many lines come: more than half a million, so more than a million turns of the reader and
/// of the writer. Each line is two bytes and no request.
const LINES: u64 = 600_000;

/// How many come where a write fails.
const FEW_LINES: u64 = 2_000;

/// Gives its lines a byte at a time, so two reads for each.
#[derive(Drop)]
struct Dripping {
    bytes_left: u64,
}

impl Read for Dripping {
    fn read(&mut self, buf: &mut [u8]) -> io::Result<usize> {
        let Some(byte) = buf.first_mut() else {
            return Ok(0);
        };
        if self.bytes_left == 0 {
            return Ok(0);
        }
        *byte = if self.bytes_left % 2 == 0 {
            b'x'
        } else {
            b'\n'
        };
        self.bytes_left -= 1;
        Ok(1)
    }
}

/// Takes everything up to a write that fails, and counts what it is asked.
#[derive(Drop)]
struct Tallied {
    /// How many writes go well.
    good_writes: u64,
    writes: u64,
    flushes: u64,
    /// Whether a write came before the last one was flushed.
    was_unflushed: bool,
    has_failed: bool,
    /// Whether it was asked again behind its fault.
    was_asked_behind: bool,
}

impl Tallied {
    fn new(good_writes: u64) -> Self {
        Tallied {
            good_writes,
            writes: 0,
            flushes: 0,
            was_unflushed: false,
            has_failed: false,
            was_asked_behind: false,
        }
    }

    fn is_sound(&self) -> bool {
        self.writes == self.flushes && !self.was_unflushed && !self.was_asked_behind
    }
}

impl Write for Tallied {
    fn write(&mut self, buf: &[u8]) -> io::Result<usize> {
        self.was_asked_behind |= self.has_failed;
        self.was_unflushed |= self.writes != self.flushes;
        if self.writes == self.good_writes {
            self.has_failed = true;
            return Err(Error::from(ErrorKind::BrokenPipe));
        }
        self.writes = self.writes.saturating_add(1);
        Ok(buf.len())
    }

    fn flush(&mut self) -> io::Result<()> {
        self.was_asked_behind |= self.has_failed;
        self.flushes = self.flushes.saturating_add(1);
        Ok(())
    }
}

/// Whether so many lines are answered where so many writes go well, each reply flushed before the
/// next one, and the run ends so after so many of them.
fn is_answered(alloc: Global, lines: u64, good_writes: u64, end: Finish) -> Result<bool, Fail> {
    let input = Dripping {
        bytes_left: lines.saturating_mul(2),
    };
    let mut desk = MemoryDesk::new(alloc)?;
    let ran = desk.call(Call::Run, input, Tallied::new(good_writes));
    let replies = good_writes.min(lines);
    Ok(
        ran.outcome.end == end
            && ran.outcome.replies == replies
            && ran.writer.writes == replies
            && ran.writer.is_sound()
            && !ran.read_failed,
    )
}

/// Whether a long run is answered whole, and one whose last write fails up to that.
pub fn is_long_run_answered(alloc: Global) -> Result<bool, Fail> {
    let whole = Finish::AtEnd { rest: 0 };
    let cut = Finish::Ended(End::WriteFault);
    Ok(
        is_answered(alloc, LINES, u64::MAX, whole)?
            && is_answered(alloc, FEW_LINES, FEW_LINES - 1, cut)?,
    )
}
