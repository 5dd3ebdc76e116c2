//! Readers and writers that work at first, and then have a trouble, once or from then on.
use crate::planned::Counter;
use std::io::{Error, ErrorKind, Read, Result, Write};

/// What a troubled turn comes to. A turn is one read, one write or one flush.
#[derive(Clone, Copy, Debug, PartialEq, Eq)]
pub enum Trouble {
    /// Each turn fails by `BrokenPipe`.
    Fails,
    /// One turn fails so, and those after it go well.
    FailsOnce,
    /// A read or a write takes no byte; a flush goes well.
    TakesNothing,
    /// A turn is interrupted.
    IsInterrupted,
}

/// What the turns of a stream come to.
pub trait Troubling {
    /// Begins a turn. It goes well as long as good turns are left, of which it takes one, and is
    /// troubled else. `false` says that it takes no byte.
    ///
    /// # Errors
    /// That of the trouble, by `BrokenPipe` or `Interrupted`; never in a good turn.
    fn begin_turn(&self, good_turns: &mut usize) -> Result<bool>;
}

impl Troubling for Trouble {
    fn begin_turn(&self, good_turns: &mut usize) -> Result<bool> {
        if *good_turns > 0 {
            *good_turns -= 1;
            return Ok(true);
        }
        match self {
            Trouble::Fails => Err(Error::from(ErrorKind::BrokenPipe)),
            Trouble::FailsOnce => {
                *good_turns = usize::MAX;
                Err(Error::from(ErrorKind::BrokenPipe))
            }
            Trouble::TakesNothing => Ok(false),
            Trouble::IsInterrupted => Err(Error::from(ErrorKind::Interrupted)),
        }
    }
}

/// A trouble that comes once or stays, of a stream whose turns are counted.
#[derive(Drop)]
pub struct CountedTurns {
    pub trouble: Trouble,
    /// Whether each turn after the good ones is troubled; else one is, and those after it go well.
    pub stays: bool,
    /// Counts each turn, the good ones too.
    pub turns: Counter,
}

impl Troubling for CountedTurns {
    fn begin_turn(&self, good_turns: &mut usize) -> Result<bool> {
        self.turns.next();
        let is_good = *good_turns > 0;
        let turn = self.trouble.begin_turn(good_turns);
        if !is_good && !self.stays {
            *good_turns = usize::MAX;
        }
        turn
    }
}

/// Works at first, and then has its trouble. With `usize::MAX` good turns it has none.
#[derive(Drop)]
pub struct Troubled<T, P> {
    pub inner: T,
    pub trouble: P,
    /// How many turns go well before the first that does not.
    pub good_turns: usize,
}

impl<R: Read, P: Troubling> Read for Troubled<R, P> {
    fn read(&mut self, buf: &mut [u8]) -> Result<usize> {
        if self.trouble.begin_turn(&mut self.good_turns)? {
            self.inner.read(buf)
        } else {
            Ok(0)
        }
    }
}

impl<W: Write, P: Troubling> Write for Troubled<W, P> {
    fn write(&mut self, buf: &[u8]) -> Result<usize> {
        if self.trouble.begin_turn(&mut self.good_turns)? {
            self.inner.write(buf)
        } else {
            Ok(0)
        }
    }

    fn flush(&mut self) -> Result<()> {
        self.trouble.begin_turn(&mut self.good_turns)?;
        self.inner.flush()
    }
}
