//! The keys of a desk, one row at a time: all, or those that are due for rotation.

use crate::desk::Desk;
use crate::end::End;
use crate::rows::{KeyRows, Progress, Scan, key_row};
use key_rows::KeyRow;
use moment_core::{FIRST_MOMENT, Moment};
use register_rows::{DateRun, DueCursor, each_due, each_key};
use register_tables::StoreError;
use sqlite::Alter;

impl<S: Alter> Desk<S> {
    ghost use Rattle.std.specs.Prelude.{◌≡◌, List, [], IfOk, IfErr, Some, None};
    ghost use Rattle.std.specs.Borrow.{sem};
    ghost use Rattle.register_requests.specs.declared.request.Request.{Request};
    ghost use Rattle.register_desk.specs.Desk.{ChangesNothing, IsBroken, IsClean, IsWhole};
    ghost use Rattle.register_desk.specs.Desk.{TakesSteps};
    ghost use Rattle.register_desk.specs.KeyRows.{GoOn, HaveGiven, due_until, last_of, row_steps};
    ghost use Rattle.register_desk.specs.KeyRows.{until_of};
    ghost use Rattle.register_desk.specs.Within.{CountsOn, HasNextRow};
    ghost use Rattle.register_desk.specs.Register.{StandsFor, tables};
    ghost use Rattle.register_desk.specs.LentDesk.{LendsRows};
    ghost use Rattle.key_rows.specs.declared.key_row.KeyRow.{KeyRow};

    /// The keys as of the latest accepted moment, by number, one row at a time.
    ///
    /// # Errors
    /// [`End::Broken`] on a broken desk; nothing changed.
    pub fn keys(&mut self) -> Result<KeyRows<'_, S>, End>
        ensures* lends { sem 𝓛 (LendsRows S.row S.Store self.entry result) }
        ensures same_reference { IfOk result (λ rows.
            rows.desk.ghost_name ≡ self.entry.ghost_name) }
        ensures same { IfOk result (λ rows. rows.desk.now ≡ self.old) }
        ensures begins { IfOk result (λ rows. GoOn rows × (until_of rows ≡ None)
            × ((all : List KeyRow) → HaveGiven rows all [])) }
        ensures first { IfOk result (λ rows. last_of rows ≡ 0) }
        ensures whole { IfOk result (λ rows. IsWhole self.old) }
        ensures broken { IfErr result (λ end. (end ≡ End.Broken) × IsBroken self.old) }
    {
        if self.is_broken {
            return Err(End::Broken);
        }
        Ok(self.begin_row_scan(Scan::ByNumber(0)))
    }

    /// The Active keys with a Protect Stop Date up to `until`, by that date and then by number, one
    /// row at a time.
    ///
    /// # Errors
    /// [`End::Broken`] on a broken desk; nothing changed.
    pub fn due(&mut self, until: Moment) -> Result<KeyRows<'_, S>, End>
        ensures* lends { sem 𝓛 (LendsRows S.row S.Store self.entry result) }
        ensures same_reference { IfOk result (λ rows.
            rows.desk.ghost_name ≡ self.entry.ghost_name) }
        ensures same { IfOk result (λ rows. rows.desk.now ≡ self.old) }
        ensures begins { IfOk result (λ rows. GoOn rows × (until_of rows ≡ Some until)
            × ((all : List KeyRow) → HaveGiven rows all [])) }
        ensures whole { IfOk result (λ rows. IsWhole self.old) }
        ensures broken { IfErr result (λ end. (end ≡ End.Broken) × IsBroken self.old) }
    {
        if self.is_broken {
            return Err(End::Broken);
        }
        let first = DueCursor {
            stop: FIRST_MOMENT,
            number: 0,
        };
        Ok(self.begin_row_scan(Scan::ByStop(until, first, DateRun::First)))
    }

    /// Lends the desk to rows.
    fn begin_row_scan(&mut self, scan: Scan) -> KeyRows<'_, S>
        ensures same_reference { result.desk.ghost_name ≡ self.entry.ghost_name }
        ensures same { result.desk.now ≡ self.old }
        ensures scan { result.scan ≡ scan }
        ensures goes_on { GoOn result }
    {
        KeyRows {
            desk: self,
            scan,
            progress: Progress::Going,
        }
    }

    /// The next row of a scan, or `None` after the last.
    pub(crate) fn next_scanned_row(&mut self, scan: Scan) -> Result<Option<KeyRow>, StoreError>
        ensures reads { ChangesNothing S.Store self.old self.new }
        ensures mark { self.new.is_broken ≡ self.old.is_broken }
        ensures next { (h : List Request) → StandsFor S.Store self.old h → IsWhole self.old
            → IsClean S.Store self.new → IfOk result (HasNextRow scan (tables h)) }
        ensures counts_on { IfOk result (CountsOn self.old.keys scan) }
        ensures steps { TakesSteps (row_steps (due_until scan)) self.old self.new }
    {
        match scan {
            Scan::ByNumber(last) => self.next_row_by_number(last),
            Scan::ByStop(until, last, run) => self.next_due_row_by_stop(until, last, run),
        }
    }

    /// The row of the key after the one with this number, or `None` after the last. That of a key
    /// that is counted is there.
    fn next_row_by_number(&mut self, last: u32) -> Result<Option<KeyRow>, StoreError>
        ensures reads { ChangesNothing S.Store self.old self.new }
        ensures mark { self.new.is_broken ≡ self.old.is_broken }
        ensures next { (h : List Request) → StandsFor S.Store self.old h → IsWhole self.old
            → IsClean S.Store self.new → IfOk result (HasNextRow (Scan.ByNumber last) (tables h)) }
        ensures counts_on { IfOk result (CountsOn self.old.keys (Scan.ByNumber last)) }
        ensures steps { TakesSteps 2 self.old self.new }
    {
        if last >= self.keys {
            return Ok(None);
        }
        match each_key(&mut self.connection, last)? {
            Some(key) => Ok(Some(key_row(last + 1, key))),
            None => Err(StoreError::NoRegister),
        }
    }

    /// The row of the first key that is due after this cursor, or `None` after the last.
    fn next_due_row_by_stop(
        &mut self,
        until: Moment,
        last: DueCursor,
        run: DateRun,
    ) -> Result<Option<KeyRow>, StoreError>
        ensures reads { ChangesNothing S.Store self.old self.new }
        ensures mark { self.new.is_broken ≡ self.old.is_broken }
        ensures next { (h : List Request) → StandsFor S.Store self.old h → IsWhole self.old
            → IsClean S.Store self.new
            → IfOk result (HasNextRow (Scan.ByStop until last run) (tables h)) }
        ensures steps { TakesSteps 4 self.old self.new }
    {
        match each_due(&mut self.connection, until, last, run)? {
            Some((number, key)) => match u32::try_from(number) {
                Ok(number) => Ok(Some(key_row(number, key))),
                Err(_) => Err(StoreError::NoRegister),
            },
            None => Ok(None),
        }
    }
}
