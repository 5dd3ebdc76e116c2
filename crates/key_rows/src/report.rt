//! The text of a report on the keys that are due for rotation, a line at a time.
ghost use Rattle.std.specs.Prelude.{◌≡◌, IfOk, string_bytes};
ghost use Rattle.moment_core.specs.Moment.{last_second};
ghost use Rattle.period_core.specs.Office.{period_in};
ghost use Rattle.key_rows.specs.DueRows.{is_listed};
ghost use Rattle.key_rows.specs.Report as spec;

use crate::date_text::date_text;
use crate::key_row::KeyRow;
use lifecycle_core::State;
use moment_core::{LAST_SECOND, Moment};
use period_core::{OfficePeriods, is_either_use_too_long};
use std::alloc::{AllocError, Global};

/// The last moment of a report for so many days from the latest moment on.
pub fn horizon(latest: Moment, days: u32) -> Moment
    ensures { result ≡ spec.horizon latest days }
{
    latest.plus_days(days).unwrap_or(last_moment())
}

/// The last moment, 9999-12-31T23:59:59Z.
pub fn last_moment() -> Moment
    ensures { result ≡ last_second }
{
    let Some(last) = Moment::new(LAST_SECOND) else {
        unreachable!();
    };
    last
}

/// The first line of a report on the keys that are due by this moment, with its LF.
pub fn report_head(alloc: Global, until: Moment) -> Result<String, AllocError>
    ensures { IfOk result (λ head. string_bytes head ≡ spec.report_head until) }
{
    let until = date_text(Some(until));
    format!(in alloc; "Keys due for rotation by {}\n", until.as_str())
}

/// Whether the key is in a report up to this horizon: it is Active, and its Protect Stop Date is up
/// to the horizon or it is used for longer than the period of its type.
pub fn is_listed_in_report(until: Moment, periods: &OfficePeriods, row: &KeyRow) -> bool
    ensures { result ≡ is_listed until (period_in periods.now) row.now }
{
    let dates = &row.row.dates;
    row.row.state == State::Active
        && (dates.protect_stop.is_some_and(|stop| stop <= until)
            || is_either_use_too_long(periods.period(row.kind), dates))
}

/// Whether the key's Protect Stop Date is reached, or will be by the horizon, or the key is long.
fn report_mark(latest: Moment, until: Moment, row: &KeyRow) -> &'static str
    ensures { result.now ≡ spec.report_mark latest until row.now }
{
    match row.row.dates.protect_stop {
        Some(stop) if stop <= latest => "overdue",
        Some(stop) if stop <= until => "due",
        _ => "long",
    }
}

/// The line of a key in a report up to this horizon, with its LF.
pub fn report_line(
    alloc: Global,
    latest: Moment,
    until: Moment,
    row: &KeyRow,
) -> Result<String, AllocError>
    ensures { IfOk result (λ line. string_bytes line ≡ spec.report_line latest until row.now) }
{
    let number = row.number;
    let stop = date_text(row.row.dates.protect_stop);
    let stop = stop.as_str();
    let mark = report_mark(latest, until, row);
    let kind = row.kind.text();
    let owner = row.owner.text();
    let purpose = row.purpose.text();
    format!(in alloc; "{number:>7}  {stop}  {mark:<7}  {kind:<22}  {owner}  {purpose}\n")
}

/// The last line of a report with so many keys, with its LF.
pub fn report_total(alloc: Global, count: u64) -> Result<String, AllocError>
    ensures { IfOk result (λ total. string_bytes total ≡ spec.report_total count) }
{
    format!(in alloc; "total {count}\n")
}
