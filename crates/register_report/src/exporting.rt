//! The export of all keys, and the report on those that are due for rotation.
ghost use Rattle.std.specs.Prelude.{◌≡◌, false, List, IfErr};
ghost use Rattle.register_report.specs.Within.TextWriter.{IsExport, IsReport, PutsAll, finish_of};
ghost use Rattle.register_report.specs.TextWriter.{EndsText, LeavesAlone, WritesText};
ghost use Rattle.register_desk.specs.Register.{StandsFor};
ghost use Rattle.register_desk.specs.{Run.LeavesWriter, Desk.IsClean, KeyRows.all_rows};
ghost use Rattle.key_rows.specs.{DueRows.AreListed, Report.horizon, Report.report_text};
ghost use Rattle.key_rows.specs.{Export.export_text, declared.key_row.KeyRow.KeyRow};
ghost use Rattle.register_core.specs.History.{latest, period};
ghost use Rattle.register_requests.specs.declared.request.Request.{Request};

use crate::key_table::KeyTable;
use crate::table_writing::put_table;
use key_rows::{horizon, last_moment};
use moment_core::Moment;
use register_desk::{Desk, End, Finish, Outcome, Watched};
use sqlite::Alter;
use std::alloc::Global;
use std::io::Write;

/// What a call did that wrote so much and reads nothing.
fn outcome_of_output(written: u64, done: Result<(), End>) -> Outcome
    ensures { result ≡ record { read = 0; written = written; replies = 0; end = finish_of done } }
{
    let end = match done {
        Ok(()) => Finish::AtEnd { rest: 0 },
        Err(end) => Finish::Ended(end),
    };
    Outcome::ended_without_bytes(end).with_written_and_replies(written, 0)
}

/// Writes the export of all keys.
fn put_export<W: Write, S: Alter>(
    alloc: Global,
    desk: &mut Desk<S>,
    writer: &mut Watched<W>,
    written: &mut u64,
) -> Result<(), End>
    ensures puts { PutsAll W.contents S.Store writer.old writer.new written.old written.new
        desk.old desk.new IsExport result }
    ensures alone { LeavesAlone S.Store desk.old desk.new (finish_of result) }
    ensures end { EndsText (finish_of result) }
{
    let mut rows = desk.keys()?;
    put_table(alloc, &KeyTable::Export, &mut rows, writer, written)
}

/// Writes the report on the keys that are due in so many days, or are long. Where the office set no
/// period, no key is long, and the rows that are due are all; where it set one, the rows go on to
/// the last moment, since a long key may have any Protect Stop Date.
fn put_rotation_report<W: Write, S: Alter>(
    alloc: Global,
    desk: &mut Desk<S>,
    days: u32,
    writer: &mut Watched<W>,
    written: &mut u64,
) -> Result<(), End>
    ensures puts { PutsAll W.contents S.Store writer.old writer.new written.old written.new
        desk.old desk.new (IsReport days) result }
    ensures alone { LeavesAlone S.Store desk.old desk.new (finish_of result) }
    ensures end { EndsText (finish_of result) }
{
    let latest = desk.latest();
    let until = horizon(latest, days);
    let periods = desk.office_periods()?;
    let last = if periods.are_all_unset() {
        until
    } else {
        last_moment()
    };
    let mut rows = desk.due(last)?;
    let report = KeyTable::Report(latest, until, periods);
    put_table(alloc, &report, &mut rows, writer, written)
}

/// Writes all keys as CSV (RFC 4180), as of the latest accepted moment: the row with the names of
/// the columns (`key_rows::export_header`), then one row for each key, by number. A moment stands as
/// `YYYY-MM-DDTHH:MM:SSZ`, a date that is not set as an empty field. It changes nothing, and holds
/// one row at a time.
///
/// # Errors
/// The outcome's end is [`End::Store`] where the database refused, or a row is one that no register
/// holds, and the desk goes on; [`End::Broken`] on a broken desk; [`End::Memory`] where there is no
/// memory for a row; [`End::WriteFault`] where the writer failed. What was written before any of
/// these is a prefix of the export.
pub fn export<W: Write, S: Alter>(
    alloc: Global,
    desk: &mut Desk<S>,
    writer: &mut Watched<W>,
) -> Outcome
    requires { writer.old.failed ≡ false }
    ensures agrees { (h : List Request) → StandsFor S.Store desk.old h →
        IsClean S.Store desk.new → WritesText (export_text (all_rows h)) result.end
        (W.contents writer.old.inner) (W.contents writer.new.inner) }
    ensures alone { LeavesAlone S.Store desk.old desk.new result.end }
    ensures writer { LeavesWriter W.contents writer.old writer.new result }
    ensures ends { EndsText result.end }
    ensures uncounted { (result.read ≡ 0) × (result.replies ≡ 0) }
{
    writer.reset_turn_counts();
    let mut written: u64 = 0;
    let done = put_export(alloc, desk, writer, &mut written);
    outcome_of_output(written, done)
}

/// Writes the report on the keys that are due for rotation in so many days from the latest accepted
/// moment: the Active keys with a Protect Stop Date up to the horizon, and those that are used for
/// longer than the period of their type, by that date and then by number, with `overdue` where it
/// is reached, `due` up to the horizon, and `long` after it. It changes nothing, and holds one row
/// at a time.
///
/// # Errors
/// As of [`export`].
pub fn rotation<W: Write, S: Alter>(
    alloc: Global,
    desk: &mut Desk<S>,
    days: u32,
    writer: &mut Watched<W>,
) -> Outcome
    requires { writer.old.failed ≡ false }
    ensures agrees { (h : List Request) (rows : List KeyRow) → StandsFor S.Store desk.old h →
        IsClean S.Store desk.new →
        AreListed (all_rows h) (horizon (latest h) days) (period h) rows →
        WritesText (report_text (latest h) (horizon (latest h) days) rows) result.end
        (W.contents writer.old.inner) (W.contents writer.new.inner) }
    ensures uncounted { (result.read ≡ 0) × (result.replies ≡ 0) }
    ensures alone { LeavesAlone S.Store desk.old desk.new result.end }
    ensures writer { LeavesWriter W.contents writer.old writer.new result }
    ensures ends { EndsText result.end }
{
    writer.reset_turn_counts();
    let mut written: u64 = 0;
    let done = put_rotation_report(alloc, desk, days, writer, &mut written);
    outcome_of_output(written, done)
}
