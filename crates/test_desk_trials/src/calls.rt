//! The calls of a desk that trials make, each made here alone.
//!
//! A proof is dear where a call with many clauses is made, and more so at a store that it names. So
//! each stands in one function over any store, and what trials call has no clause.
ghost use Rattle.std.specs.Prelude.{◌≡◌, false};

use moment_core::Moment;
use register_core::Name;
use register_desk::{Desk, End, Finish, KeyRows, Outcome, Watched, run};
use register_http::{Routes, exchange};
use register_report::{export, import, rotation};
use sqlite::Alter;
use std::alloc::Global;
use std::io::{Read, Write};
use test_faulty_devices::OneByte;

/// A call that is lent a reader and a writer. Moments are in seconds.
#[derive(Clone, Copy)]
pub enum Call {
    Run,
    /// Of the caller ann, from this number on.
    Import { seconds: u64, first: u64 },
    Export,
    /// For so many days.
    Rotation { days: u32 },
    Exchange { seconds: u64 },
}

/// What a call did, and how it left what it was lent.
#[derive(Drop)]
pub struct Ended<R, W> {
    pub outcome: Outcome,
    pub read_failed: bool,
    pub write_failed: bool,
    pub reader: R,
    pub writer: W,
}

/// What a call did, and what it wrote.
#[derive(Drop)]
pub struct Called {
    pub outcome: Outcome,
    pub output: Vec<u8>,
}

/// What came of a look at a register.
#[derive(Clone, Copy, PartialEq, Eq)]
pub enum Seen {
    /// All that is to be seen.
    Whole,
    /// A prefix of it, and then the end 31.
    Refused,
    /// Anything else.
    Wrong,
}

/// A desk of which trials make calls.
pub trait TriedDesk {
    /// Makes the call over these streams.
    fn call<R: Read + Drop, W: Write + Drop>(
        &mut self,
        alloc: Global,
        call: Call,
        reader: R,
        writer: W,
    ) -> Ended<R, W>;

    /// Looks at the key with this number.
    fn see_key(&mut self, number: u32) -> Seen;

    /// Looks at what it may be used for.
    fn see_usage(&mut self, number: u32) -> Seen;

    /// Reads the rows of all keys, which are to have these numbers.
    fn see_keys(&mut self, numbers: &[u32]) -> Seen;

    /// Reads those of the keys that are due up to this moment, in seconds.
    fn see_due(&mut self, seconds: u64, numbers: &[u32]) -> Seen;
}

/// Makes the call over this input, a byte at each read.
pub fn make_call<D: TriedDesk>(alloc: Global, desk: &mut D, call: Call, input: &[u8]) -> Called {
    let ended = desk.call(alloc, call, OneByte(input), Vec::new(alloc));
    Called {
        outcome: ended.outcome,
        output: ended.writer,
    }
}

/// The last number that a request may have.
const LAST_NUMBER: u64 = 9_007_199_254_740_991;

/// What comes of a call at no moment or of no number, which no trial makes.
fn not_made() -> Outcome {
    Outcome::ended_without_bytes(Finish::Ended(End::Memory))
}

/// The moment, and the caller of an import.
fn moment_and_caller(seconds: u64) -> Option<(Moment, Name)> {
    Some((Moment::new(seconds)?, Name::new(b"ann")?))
}

fn outcome_of<R: Read + Drop, W: Write, S: Alter>(
    alloc: Global,
    call: Call,
    desk: &mut Desk<S>,
    reader: &mut Watched<R>,
    writer: &mut Watched<W>,
) -> Outcome
    requires reader { reader.old.failed ≡ false }
    requires writer { writer.old.failed ≡ false }
{
    match call {
        Call::Run => run(reader, writer, desk),
        Call::Import { seconds, first } => match moment_and_caller(seconds) {
            Some((moment, caller)) => {
                if 1 <= first && first <= LAST_NUMBER {
                    import(alloc, desk, moment, &caller, first, reader, writer)
                } else {
                    not_made()
                }
            }
            None => not_made(),
        },
        Call::Export => export(alloc, desk, writer),
        Call::Rotation { days } => rotation(alloc, desk, days, writer),
        Call::Exchange { seconds } => match Moment::new(seconds) {
            Some(moment) => exchange(alloc, &mut Routes::new(), desk, moment, reader, writer),
            None => not_made(),
        },
    }
}

/// What came of a look at one key.
fn of_key<T>(found: &Result<Option<T>, End>) -> Seen {
    match found {
        Ok(Some(_)) => Seen::Whole,
        Err(End::Store) => Seen::Refused,
        _ => Seen::Wrong,
    }
}

/// The number in the next row.
fn next_number<S: Alter>(rows: &mut KeyRows<'_, S>) -> Result<Option<u32>, End> {
    match rows.next_key() {
        Ok(Some(row)) => Ok(Some(row.number)),
        Ok(None) => Ok(None),
        Err(end) => Err(end),
    }
}

/// Reads the rows, which are to be of the keys with these numbers.
fn read_rows<S: Alter>(rows: &mut KeyRows<'_, S>, numbers: &[u32]) -> Seen {
    for number in numbers {
        match next_number(rows) {
            Ok(Some(found)) if found == *number => {}
            Err(End::Store) => return Seen::Refused,
            _ => return Seen::Wrong,
        }
    }
    match next_number(rows) {
        Ok(None) => Seen::Whole,
        Err(End::Store) => Seen::Refused,
        _ => Seen::Wrong,
    }
}

/// The same, and that 32 comes after 31, and none after the last.
fn read_out<S: Alter>(mut rows: KeyRows<'_, S>, numbers: &[u32]) -> Seen {
    match (read_rows(&mut rows, numbers), next_number(&mut rows)) {
        (Seen::Whole, Ok(None)) => Seen::Whole,
        (Seen::Refused, Err(End::Broken)) => Seen::Refused,
        _ => Seen::Wrong,
    }
}

impl<S: Alter> TriedDesk for Desk<S> {
    fn call<R: Read + Drop, W: Write + Drop>(
        &mut self,
        alloc: Global,
        call: Call,
        reader: R,
        writer: W,
    ) -> Ended<R, W> {
        let mut reader = Watched::new(reader);
        let mut writer = Watched::new(writer);
        let outcome = outcome_of(alloc, call, self, &mut reader, &mut writer);
        Ended {
            outcome,
            read_failed: reader.has_failed(),
            write_failed: writer.has_failed(),
            reader: reader.into_inner(),
            writer: writer.into_inner(),
        }
    }

    fn see_key(&mut self, number: u32) -> Seen {
        of_key(&self.show(number))
    }

    fn see_usage(&mut self, number: u32) -> Seen {
        of_key(&self.usage(number))
    }

    fn see_keys(&mut self, numbers: &[u32]) -> Seen {
        match self.keys() {
            Ok(rows) => read_out(rows, numbers),
            Err(_) => Seen::Wrong,
        }
    }

    fn see_due(&mut self, seconds: u64, numbers: &[u32]) -> Seen {
        let Some(until) = Moment::new(seconds) else {
            return Seen::Wrong;
        };
        match self.due(until) {
            Ok(rows) => read_out(rows, numbers),
            Err(_) => Seen::Wrong,
        }
    }
}
