//! The checks of the tables of what is set: periods and needs.
ghost use Rattle.std.specs.Prelude.{◌≡◌, ◌↔◌, false, IsTrue};
ghost use Rattle.sqlite.specs.{Held.state, State.Survives};
ghost use Rattle.register_requests.specs.declared.version.Version.TheVariants.{Second};
ghost use Rattle.register_checks.specs.CheckedTables.{ShowsKeyNeed, ShowsTypePeriod, counts_of};
ghost use Rattle.register_checks.specs.CheckedTables.{mark_of};
ghost use Rattle.register_checks.specs.Within.CheckedTables.{ChecksTable};
ghost use Rattle.register_tables.specs.Within.TableReads.{GivesRow};
ghost use Rattle.register_checks.specs.Within.CheckedRows.{IsAnything, key_need, type_period};
ghost use Rattle.register_checks.specs.Stored.{Stored, mark};
ghost use Rattle.register_checks.specs.OpeningChecks.{IsNeedOf};
ghost use Rattle.register_tables.specs.declared.table.TableName.TheVariants as table;

use crate::found::Found;
use crate::refusal::CheckError;
use period_core::{KeyType, Period};
use register_core::Quorum;
use register_tables::{columns, key_type_in, months_in, quorum_in, unsigned_integer_in};
use row_checks::{RowCheck, check_rows};
use sqlite::{Alter, Connection, Row};
use std::alloc::AllocError;

/// A type with the period that is set for it, as a row shows them.
#[derive(Clone, Copy)]
struct PeriodRow {
    kind: KeyType,
    period: Period,
}

/// A key with the need that is set for it, as a row shows them.
#[derive(Clone, Copy)]
struct NeedRow {
    key: u64,
    need: Quorum,
}

/// The period of a type that the row shows.
fn period_row_in(row: &Row) -> Option<PeriodRow>
    ensures { GivesRow result (ShowsTypePeriod row.now)
        (λ shown. type_period shown.kind shown.period) }
{
    let kind = key_type_in(row, 0)?;
    let originator = months_in(row, 1)?;
    let recipient = months_in(row, 2)?;
    let period = Period::new(originator, recipient)?;
    Some(PeriodRow { kind, period })
}

/// The need of a key that the row shows.
fn need_row_in(row: &Row) -> Option<NeedRow>
    ensures { GivesRow result (ShowsKeyNeed row.now) (λ shown. key_need shown.key shown.need) }
{
    let key = unsigned_integer_in(row, 0)?;
    let need = quorum_in(row, 1)?;
    Some(NeedRow { key, need })
}

/// Each period by itself. Nothing is kept of them.
#[derive(Drop)]
struct PeriodCheck;

impl RowCheck for PeriodCheck {
    ghost use Rattle.register_checks.specs.CheckedTables.{ShowsTypePeriod};
    ghost use Rattle.register_checks.specs.CheckedRows.{HasShown, IsAnyPeriod, RefusesEach};

    ghost has_taken = { λ first check rows. HasShown ShowsTypePeriod IsAnyPeriod rows };

    ghost refuses = { λ first check rows. RefusesEach ShowsTypePeriod IsAnyPeriod rows };

    fn take_row(&mut self, row: &Row) -> Result<bool, AllocError> {
        Ok(period_row_in(row).is_some())
    }
}

/// Puts the table of periods of the second version to its check. It changes nothing.
///
/// # Errors
/// As the check of all tables.
pub(crate) fn check_periods<S: Alter>(connection: &mut Connection<S>) -> Result<(), CheckError>
    requires { connection.old.in_transaction ≡ false }
    ensures idle { connection.new.in_transaction ≡ false }
    ensures checks { (t : Stored) → t.version ≡ Second → ChecksTable table.Period t IsAnything
        (state S.Store connection.old) (state S.Store connection.new) result }
    ensures survives { Survives (state S.Store connection.old)
        (state S.Store connection.new) (λ _. ⊥) }
{
    let mut check = PeriodCheck;
    check_rows(
        connection,
        columns!(period listed "SELECT kind, ", " FROM period"),
        &mut check,
    )?;
    Ok(())
}

/// Whether a register with these counts may have the need.
fn is_need_of_counted_key(shown: NeedRow, found: Found) -> bool
    ensures { IsTrue result ↔ IsNeedOf (counts_of found) (key_need shown.key shown.need) }
{
    shown.key > 0 && shown.key <= u64::from(found.keys)
}

/// Each need by itself, with what meta counts.
#[derive(Drop)]
struct NeedCheck {
    found: Found,
}

impl RowCheck for NeedCheck {
    ghost use Rattle.std.specs.Prelude.{◌≡◌};
    ghost use Rattle.register_checks.specs.CheckedTables.{ShowsKeyNeed, counts_of};
    ghost use Rattle.register_checks.specs.CheckedRows.{HasShown, RefusesEach};
    ghost use Rattle.register_checks.specs.OpeningChecks.{IsNeedOf};

    ghost has_taken = { λ first check rows. (check.found ≡ first.found)
        × HasShown ShowsKeyNeed (IsNeedOf (counts_of first.found)) rows };

    ghost refuses = { λ first check rows.
        RefusesEach ShowsKeyNeed (IsNeedOf (counts_of first.found)) rows };

    fn take_row(&mut self, row: &Row) -> Result<bool, AllocError> {
        let Some(shown) = need_row_in(row) else {
            return Ok(false);
        };
        Ok(is_need_of_counted_key(shown, self.found))
    }
}

/// Puts the table of needs of the second version to its check, with what meta counts. It changes
/// nothing.
///
/// # Errors
/// As the check of all tables.
pub(crate) fn check_needs<S: Alter>(
    connection: &mut Connection<S>,
    found: &Found,
) -> Result<(), CheckError>
    requires { connection.old.in_transaction ≡ false }
    ensures idle { connection.new.in_transaction ≡ false }
    ensures checks { (t : Stored) → t.version ≡ Second → mark_of found.now ≡ mark t →
        ChecksTable table.Quorum t IsAnything
        (state S.Store connection.old) (state S.Store connection.new) result }
    ensures survives { Survives (state S.Store connection.old)
        (state S.Store connection.new) (λ _. ⊥) }
{
    let mut check = NeedCheck { found: *found };
    check_rows(
        connection,
        columns!(quorum listed "SELECT key_no, ", " FROM quorum"),
        &mut check,
    )?;
    Ok(())
}
