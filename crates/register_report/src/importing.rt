//! An import: each row is read, applied and answered before the next one is looked at.
ghost use Rattle.std.specs.Prelude.{◌≡◌, ◌⊎◌, ◌-◌, ℕ, List, Some, true, false, IfOk, IfErr, OnOk};
ghost use Rattle.std.specs.Bool.{OnFalse, OnTrue};
ghost use Rattle.csv.specs.{Records.AllText, Records.fields_of, Reading.ReadRecord};
ghost use Rattle.register_requests.specs.{declared.request.Request.Request, Number.IsNumber};
ghost use Rattle.register_desk.specs.Run.{LeavesDesk, LeavesWriter, max_reads};
ghost use Rattle.register_desk.specs.{Desk.IsClean, Register.StandsFor, Lives.DeskLives};
ghost use Rattle.streams.specs.Watched.{IsFaulted};
ghost use Rattle.register_report.specs.declared.importing.TheConstants.{MAX_ROWS};
ghost use Rattle.register_report.specs.Import.{CountsRows, DoesNothing, EndsImporting};
ghost use Rattle.register_report.specs.Import.{ImportsTable, StopsAtRecord};
ghost use Rattle.register_report.specs.ImportRows.{header};
ghost use Rattle.register_report.specs.TableRows.{AreRowsReady, IsPlainTable, IsUnread, RowsCame};
ghost use Rattle.register_report.specs.TableRows.{RowsEnd, RowsFail};
ghost use Rattle.register_report.specs.Within.TableRows.{KeepsRows, LacksHeader, ReadsRecord};

use crate::import_row::{is_header, row_item};
use csv::{ErrorKind, Reader, ReaderBuilder, StringRecord};
use moment_core::Moment;
use register_core::Name;
use register_desk::{Desk, End, Finish, Items, MAX_READS, NextItem, Outcome, Watched, serve_items};
use sqlite::Alter;
use std::alloc::Global;
use std::io::{Read, Write};

/// How many rows of an import are answered at most. A further one ends it by [`End::ReadFault`].
pub const MAX_ROWS: u64 = 1_000_000;

/// The rows of a table, of which each asks for the registration of a key: all at one moment and of
/// one caller, and each under the number that follows that of the one before.
#[derive(Drop)]
struct Rows {
    moment: Moment,
    caller: Name,
    /// The number of the next row.
    number: u64,
    /// How many rows came.
    came: u64,
    /// The record that was read last.
    row: StringRecord,
    /// Whether `csv` told that its reader failed.
    reader_failed: bool,
}

impl Rows {
    /// Reads the next record, and tells whether there was one.
    fn read_record<R: Read>(&mut self, table: &mut Reader<R>) -> Result<bool, End>
        requires { IsPlainTable table.old }
        ensures reads { IfOk result (λ found.
            ReadRecord R.remaining table.old table.new found (fields_of self.new.row)) }
        ensures text { OnOk result (AllText (fields_of self.new.row)) }
        ensures on { OnOk result (ReadsRecord table.old table.new) }
        ensures sound { OnOk result (self.new.reader_failed ≡ self.old.reader_failed) }
        ensures kept { KeepsRows self.old self.new }
        ensures end { IfErr result
            (IsUnread R.remaining table.old table.new self.new.reader_failed) }
    {
        match table.read_record(&mut self.row) {
            Ok(found) => Ok(found),
            Err(error) => match error.kind() {
                ErrorKind::OutOfMemory => Err(End::Memory),
                ErrorKind::Io(_) => {
                    self.reader_failed = true;
                    Err(End::ReadFault)
                }
                _ => Err(End::ReadFault),
            },
        }
    }

    /// Reads the first record, which has to be the header row.
    fn read_header<R: Read>(&mut self, table: &mut Reader<R>) -> Result<(), End>
        requires { IsPlainTable table.old }
        ensures reads { OnOk result (ReadRecord R.remaining table.old table.new true header) }
        ensures on { OnOk result (ReadsRecord table.old table.new) }
        ensures sound { OnOk result (self.new.reader_failed ≡ self.old.reader_failed) }
        ensures kept { KeepsRows self.old self.new }
        ensures end { IfErr result
            (LacksHeader R.remaining table.old table.new self.new.reader_failed) }
    {
        if self.read_record(table)? && is_header(&self.row) {
            Ok(())
        } else {
            Err(End::BadHeader)
        }
    }
}

impl<R: Read> Items<Reader<R>> for Rows {
    ghost came = { RowsCame R.remaining };

    ghost ends = { RowsEnd R.remaining };

    ghost fails = { RowsFail R.remaining };

    ghost left = { λ place. MAX_ROWS - place.0.came };

    ghost is_ready = { AreRowsReady };

    fn next_item(&mut self, table: &mut Reader<R>) -> Result<NextItem, End> {
        if !self.read_record(table)? {
            return Ok(NextItem::End { rest: 0 });
        }
        // Only a row that is there is one too many.
        if self.came == MAX_ROWS {
            return Err(End::ReadFault);
        }
        let item = row_item(self.moment, self.caller, self.number, &self.row);
        self.number += 1;
        self.came += 1;
        Ok(NextItem::Item(item))
    }
}

/// Whether the reader failed, or has had all its turns.
fn is_faulted<R>(reader: &Watched<R>) -> bool
    ensures faulted { OnTrue result (IsFaulted reader.now.failed max_reads reader.now.turns) }
    ensures sound { OnFalse result (IsFaulted reader.now.failed max_reads reader.now.turns → ⊥) }
{
    reader.has_failed() || reader.turns() >= MAX_READS
}

/// Whether `csv` ended the import since a reader failed, and this one did not. No contract of
/// `csv`'s says that it was this one.
fn is_unexplained<R>(end: Finish, rows: &Rows, reader: &Watched<R>) -> bool
    ensures of_reading { OnTrue result (end ≡ Finish.Ended End.ReadFault) }
    ensures of_csv { OnTrue result (rows.now.reader_failed ≡ true) }
    ensures unexplained { OnTrue result
        (IsFaulted reader.now.failed max_reads reader.now.turns → ⊥) }
    ensures explained { OnFalse result (end ≡ Finish.Ended End.ReadFault
        → rows.now.reader_failed ≡ true
        → IsFaulted reader.now.failed max_reads reader.now.turns) }
{
    match end {
        Finish::Ended(End::ReadFault) => rows.reader_failed && !is_faulted(reader),
        _ => false,
    }
}

/// Answers the rows of the table that the reader gives.
fn import_table<R: Read + Drop, W: Write, S: Alter>(
    alloc: Global,
    rows: &mut Rows,
    reader: R,
    writer: &mut Watched<W>,
    desk: &mut Desk<S>,
) -> Outcome
    requires first { IsNumber rows.old.number }
    requires came { rows.old.came ≡ 0 }
    requires sound { rows.old.reader_failed ≡ false }
    requires idles { writer.old.idle ≡ 0 }
    ensures table { (bytes : List ℕ) → R.remaining reader ≡ Some bytes →
        ImportsTable S.Store W.contents rows.old.moment rows.old.caller rows.old.number bytes result
        writer.old writer.new desk.old desk.new }
    ensures lives { (h : List Request) → StandsFor S.Store desk.old h → IsClean S.Store desk.new →
        DeskLives S.Store h result.end result.replies
        (W.contents writer.old.inner) (W.contents writer.new.inner) desk.old desk.new }
    ensures counts { CountsRows result }
    ensures cause { result.end ≡ Finish.Ended End.ReadFault → (rows.new.reader_failed ≡ true)
        ⊎ ((bytes : List ℕ) → R.remaining reader ≡ Some bytes →
        StopsAtRecord bytes result.replies) }
    ensures bad_header { result.end ≡ Finish.Ended End.BadHeader →
        DoesNothing desk.old desk.new writer.old writer.new result }
    ensures writer { LeavesWriter W.contents writer.old writer.new result }
    ensures desk { LeavesDesk desk.old desk.new result.end }
    ensures clean { IsClean S.Store desk.new → IsClean S.Store desk.old }
{
    let mut table = ReaderBuilder::new()
        .has_headers(false)
        .flexible(true)
        .from_reader(alloc, reader);
    match rows.read_header(&mut table) {
        Ok(()) => serve_items(rows, &mut table, writer, desk),
        Err(end) => Outcome::ended_without_bytes(Finish::Ended(end)),
    }
}

/// Registers a key for each row of a table, at this moment and of this caller: the first row after
/// the header row under the number `first`, each other under the next. Each row's reply line is
/// written and flushed before the next row is applied. A row that asks for no registration, or
/// under a number that no request has, is answered `refused 1 BadLine`. A row that was accepted
/// before, under the same caller and number, is answered as then.
///
/// The input is CSV (RFC 4180), as `csv` reads it by default: its first record is the header row
/// `type,owner,activation,protect_stop,deactivation,purpose`, and each other has these six fields,
/// a date as `YYYY-MM-DDTHH:MM:SSZ` or empty. The outcome's `read` and `rest` are 0.
///
/// # Errors
/// The outcome's end is [`End::BadHeader`] where the input does not begin with its header row:
/// nothing was registered and nothing written. It is [`End::ReadFault`] where the reader failed or
/// has had all its turns, where a record is no UTF-8, and where more than [`MAX_ROWS`] rows come;
/// [`End::Memory`] where there is no memory for a row or for its request; and [`End::Store`],
/// [`End::Broken`] and [`End::WriteFault`] as of a run. What was answered before any of these
/// stands, and the same import may be sent again.
pub fn import<R: Read, W: Write, S: Alter>(
    alloc: Global,
    desk: &mut Desk<S>,
    moment: Moment,
    caller: &Name,
    first: u64,
    reader: &mut Watched<R>,
    writer: &mut Watched<W>,
) -> Outcome
    requires first { IsNumber first }
    requires reader { reader.old.failed ≡ false }
    requires writer { writer.old.failed ≡ false }
    // Where the reader's bytes are known, it is a run over the items of their rows.
    ensures table { (bytes : List ℕ) → R.remaining reader.old.inner ≡ Some bytes →
        ImportsTable S.Store W.contents moment caller.now first bytes result
        writer.old writer.new desk.old desk.new }
    // Whatever the reader tells of its bytes, there are items that it was a run over, as many as
    // were answered or one more, and a stop leaves the register after that life.
    ensures lives { (h : List Request) → StandsFor S.Store desk.old h → IsClean S.Store desk.new →
        DeskLives S.Store h result.end result.replies
        (W.contents writer.old.inner) (W.contents writer.new.inner) desk.old desk.new }
    ensures ends { EndsImporting (R.remaining reader.old.inner) reader.new writer.old writer.new
        desk.old desk.new result }
    ensures writer { LeavesWriter W.contents writer.old writer.new result }
    ensures desk { LeavesDesk desk.old desk.new result.end }
    ensures clean { IsClean S.Store desk.new → IsClean S.Store desk.old }
{
    reader.reset_turn_counts();
    writer.reset_turn_counts();
    let mut rows = Rows {
        moment,
        caller: *caller,
        number: first,
        came: 0,
        row: StringRecord::new(alloc),
        reader_failed: false,
    };
    let outcome = import_table(alloc, &mut rows, &mut *reader, writer, desk);
    if is_unexplained(outcome.end, &rows, reader) {
        return Outcome {
            end: Finish::Ended(End::Memory),
            ..outcome
        };
    }
    outcome
}
