//! Keys one after the other: all by number, and those that are due for rotation by Protect Stop.
ghost use Rattle.std.specs.Prelude.{◌≡◌, ◌+◌, ◌≤◌, ℕ, MatchOption};
ghost use Rattle.moment_core.specs.Moment.{IsMoment};
ghost use Rattle.register_core.specs.{declared.key.Key.Key, Verdict.max_keys};
ghost use Rattle.register_rows.specs.KeyScan.{HasNextDue, date_run_of_next_key};
ghost use Rattle.register_tables.specs.TableReads.{seen, Calls, HasRow, KeepsSight, Reads};
ghost use Rattle.register_tables.specs.Within.TableReads.{ShowsAt};
ghost use Rattle.register_rows.specs.Within.DueSearch.{HasFirst, IsNumbered, is_found};
ghost use Rattle.register_rows.specs.Within.DueSearch.{search_text};
ghost use Rattle.register_rows.specs.declared.key_scan.DateRun.{DateRun};

use crate::stored_key::find_key_row;
use moment_core::Moment;
use register_core::Key;
use register_tables::{
    Counted, KeyCell, MomentCell, StoreError, columns, key_in, unsigned_integer_in,
};
use sqlite::{Alter, Row, params};

/// Where a scan of the keys that are due stands: after the key with this number, of those with this
/// Protect Stop Date.
#[derive(Clone, Copy)]
pub struct DueCursor {
    pub stop: Moment,
    pub number: u32,
}

/// Whether the key at a cursor is the first of those with its Protect Stop Date. What is found after
/// the cursor is the same either way; it says by which search that costs the least.
#[derive(Clone, Copy)]
pub enum DateRun {
    /// It is the first of them, so one search goes past it alone.
    First,
    /// Others of them came before it: one search past them all would cost more with each of them.
    Later,
}

impl DueCursor {
    /// How the key stands that comes next after this cursor, by its Protect Stop Date.
    pub fn date_run_of_next_key(self, stop: Moment) -> DateRun
        ensures { result ≡ date_run_of_next_key self stop }
    {
        if stop == self.stop {
            DateRun::Later
        } else {
            DateRun::First
        }
    }
}

/// A search for the first of the keys that are due after a cursor.
#[derive(Clone, Copy)]
pub(crate) enum DueSearch {
    /// Among those with the Protect Stop Date of the cursor.
    SameStop,
    /// Among those with a later one.
    LaterStop,
    /// Among all, whatever their date. It begins at the first key with the date of the cursor, and
    /// goes past each of those up to its number.
    Past,
}

impl DueSearch {
    fn sql(self) -> &'static str
        ensures { result.now ≡ search_text self }
    {
        match self {
            DueSearch::SameStop => columns!(
                keys listed "SELECT ",
                ", number FROM keys WHERE state = 2 AND protect_stop = ?1 AND protect_stop <= ?2 \
                AND number > ?3 ORDER BY protect_stop, number"
            ),
            DueSearch::LaterStop => columns!(
                keys listed "SELECT ",
                ", number FROM keys WHERE state = 2 AND protect_stop > ?1 AND protect_stop <= ?2 \
                ORDER BY protect_stop, number"
            ),
            DueSearch::Past => columns!(
                keys listed "SELECT ",
                ", number FROM keys WHERE state = 2 AND protect_stop >= ?1 AND protect_stop <= ?2 \
                AND (protect_stop > ?1 OR number > ?3) ORDER BY protect_stop, number"
            ),
        }
    }
}

/// The key in the cells, with its number in the last of them.
fn numbered_key_in(row: &Row) -> Option<(u64, Key)>
    ensures { MatchOption result ((x : ℕ × Key) → IsNumbered x → ¬ ShowsAt row.now x)
        (λ x. ShowsAt row.now (x.0, x.1)) }
{
    Some((
        unsigned_integer_in(row, KeyCell::Number as usize)?,
        key_in(row)?,
    ))
}

/// The first of the keys that the search finds after this cursor.
fn find_next_due_by_search<S: Alter>(
    connection: &mut Counted<S>,
    by: DueSearch,
    until: Moment,
    last: &DueCursor,
) -> Result<Option<(u64, Key)>, StoreError>
    ensures counted { Calls 2 connection.old connection.new }
    ensures sight { KeepsSight (seen S.Store connection.old) (seen S.Store connection.new) }
    ensures reads { Reads S.Store (HasFirst (is_found by until last.now))
        connection.old connection.new result }
    ensures moment { IsMoment until }
{
    match by {
        DueSearch::LaterStop => connection.find_one_row(
            by.sql(),
            params![MomentCell(last.stop), MomentCell(until)],
            numbered_key_in,
        ),
        DueSearch::SameStop | DueSearch::Past => connection.find_one_row(
            by.sql(),
            params![MomentCell(last.stop), MomentCell(until), last.number],
            numbered_key_in,
        ),
    }
}

/// The first of the keys that are due after this cursor, by the two searches that go past no key:
/// among those with the date of this cursor, and where there is none after it, among those with a
/// later one.
fn find_due_in_two_searches<S: Alter>(
    connection: &mut Counted<S>,
    until: Moment,
    last: &DueCursor,
) -> Result<Option<(u64, Key)>, StoreError>
    ensures counted { Calls 4 connection.old connection.new }
    ensures sight { KeepsSight (seen S.Store connection.old) (seen S.Store connection.new) }
    ensures reads { Reads S.Store (HasNextDue until last.now) connection.old connection.new result }
{
    let found = find_next_due_by_search(connection, DueSearch::SameStop, until, last)?;
    if found.is_some() {
        return Ok(found);
    }
    find_next_due_by_search(connection, DueSearch::LaterStop, until, last)
}

/// The key after the one with this number, in the order of numbers, or `None` after the last. It
/// changes nothing.
///
/// # Errors
/// [`StoreError::Database`] where the database refused, and [`StoreError::NoRegister`] where the
/// row is one that no register holds.
pub fn each_key<S: Alter>(connection: &mut Counted<S>, last: u32) -> Result<Option<Key>, StoreError>
    requires { last ≤ max_keys }
    ensures counted { Calls 2 connection.old connection.new }
    ensures sight { KeepsSight (seen S.Store connection.old) (seen S.Store connection.new) }
    ensures reads { Reads S.Store (HasRow (last + 1)) connection.old connection.new result }
{
    find_key_row(connection, last + 1)
}

/// The first key after this cursor that is Active with a Protect Stop Date up to `until`, in the
/// order of these dates and then of numbers, with its number; `None` after the last. It changes
/// nothing. After a cursor that is [`DateRun::First`] it asks the database once.
///
/// # Errors
/// As [`each_key`].
pub fn each_due<S: Alter>(
    connection: &mut Counted<S>,
    until: Moment,
    last: DueCursor,
    run: DateRun,
) -> Result<Option<(u64, Key)>, StoreError>
    ensures counted { Calls 4 connection.old connection.new }
    ensures once { run ≡ DateRun.First → Calls 2 connection.old connection.new }
    ensures sight { KeepsSight (seen S.Store connection.old) (seen S.Store connection.new) }
    ensures reads { Reads S.Store (HasNextDue until last) connection.old connection.new result }
{
    match run {
        DateRun::First => find_next_due_by_search(connection, DueSearch::Past, until, &last),
        DateRun::Later => find_due_in_two_searches(connection, until, &last),
    }
}
