//! The turns of a stream: a read, a write or a flush. What is kept of a stream is marked here and
//! nowhere else, since no contract can see what a turn answered.
ghost use Rattle.std.specs.Prelude.{◌≡◌, ◌<◌, ◌≤◌, ◌↔◌, length, take, true, false};
ghost use Rattle.std.specs.IoError.{error_kind};
ghost use Rattle.std.specs.Io.KnownBytes.{Appends, Consumes, IsAtEnd, Keeps};
ghost use Rattle.streams.specs.Watched.{one_more};
ghost use Rattle.streams.specs.Within.{OnDone, OnUndone, idle_after, failed_after};

use crate::watched::Watched;
use std::io::{Error, ErrorKind, Read, Write};

// What came of one turn: it was done, or an interruption kept it from doing anything, or it failed.
pub(super) enum Turn<V> {
    Done(V),
    Interrupted,
    Failed,
}

impl<T> Watched<T> {
    // Counts a turn that was done.
    fn count_done(&mut self)
        ensures { self.new ≡ record self.old { turns = one_more self.old.turns; idle = 0 } }
    {
        self.turns = self.turns.saturating_add(1);
        self.idle = 0;
    }

    // Counts a turn that failed.
    fn count_failed(&mut self)
        ensures { self.new ≡
            record self.old { failed = true; turns = one_more self.old.turns; idle = 0 } }
    {
        self.count_done();
        self.failed = true;
    }

    // Counts a turn that ended in this error, which is an interruption or a failure.
    fn count_error<V>(&mut self, error: &Error) -> Turn<V>
        ensures inner { self.new.inner ≡ self.old.inner }
        ensures turns { self.new.turns ≡ one_more self.old.turns }
        ensures idle { self.new.idle ≡ idle_after result self.old.idle }
        ensures failed { self.new.failed ≡ failed_after result self.old.failed }
        ensures undone { OnDone result (λ _. ⊥) }
        ensures kind { (result ≡ Turn.Interrupted)
            ↔ (error_kind error.now ≡ ErrorKind.Interrupted) }
    {
        if error.kind() == ErrorKind::Interrupted {
            self.turns = self.turns.saturating_add(1);
            self.idle = self.idle.saturating_add(1);
            Turn::Interrupted
        } else {
            self.count_failed();
            Turn::Failed
        }
    }
}

impl<R: Read> Watched<R> {
    pub(super) fn read_turn(&mut self, piece: &mut [u8]) -> Turn<usize>
        ensures turns { self.new.turns ≡ one_more self.old.turns }
        ensures idle { self.new.idle ≡ idle_after result self.old.idle }
        ensures failed { self.new.failed ≡ failed_after result self.old.failed }
        ensures bound { OnDone result (λ n. n ≤ length piece.new) }
        ensures bytes { OnDone result (λ n.
            Consumes (R.remaining self.old.inner) (R.remaining self.new.inner) (take n piece.new)) }
        ensures kept { OnUndone result
            (Keeps (R.remaining self.old.inner) (R.remaining self.new.inner)) }
        ensures end { OnDone result (λ n.
            n ≡ 0 → 0 < length piece.new → IsAtEnd (R.remaining self.new.inner)) }
    {
        match self.inner.read(piece) {
            Ok(filled) => {
                self.count_done();
                Turn::Done(filled)
            }
            Err(error) => self.count_error(&error),
        }
    }
}

impl<W: Write> Watched<W> {
    // A write that takes nothing has failed: the writer takes no more.
    pub(super) fn write_turn(&mut self, bytes: &[u8]) -> Turn<usize>
        requires { 0 < length bytes.now }
        ensures turns { self.new.turns ≡ one_more self.old.turns }
        ensures idle { self.new.idle ≡ idle_after result self.old.idle }
        ensures failed { self.new.failed ≡ failed_after result self.old.failed }
        ensures bound { OnDone result (λ n. (0 < n) × (n ≤ length bytes.now)) }
        ensures bytes { OnDone result (λ n.
            Appends (W.contents self.old.inner) (W.contents self.new.inner) (take n bytes.now)) }
        ensures kept { OnUndone result
            (Keeps (W.contents self.old.inner) (W.contents self.new.inner)) }
        ensures unflushed { OnDone result (λ _. self.new.unflushed ≡ true) }
    {
        match self.inner.write(bytes) {
            Ok(0) => {
                self.count_failed();
                Turn::Failed
            }
            Ok(taken) => {
                self.count_done();
                self.unflushed = true;
                Turn::Done(taken)
            }
            Err(error) => self.count_error(&error),
        }
    }

    pub(super) fn flush_turn(&mut self) -> Turn<()>
        ensures turns { self.new.turns ≡ one_more self.old.turns }
        ensures idle { self.new.idle ≡ idle_after result self.old.idle }
        ensures failed { self.new.failed ≡ failed_after result self.old.failed }
        ensures bytes { Keeps (W.contents self.old.inner) (W.contents self.new.inner) }
        ensures flushed { OnDone result (λ _. self.new.unflushed ≡ false) }
    {
        match self.inner.flush() {
            Ok(()) => {
                self.count_done();
                self.unflushed = false;
                Turn::Done(())
            }
            Err(error) => self.count_error(&error),
        }
    }
}
