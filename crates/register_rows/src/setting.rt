//! What is set beside the keys themselves: the usage periods of types, and how many approvals the
//! destruction of a key needs.
ghost use Rattle.std.specs.Prelude.{◌≢◌, Err};
ghost use Rattle.register_rows.specs.Within.TableChanges.{Always, HasNoneSet, more_set};
ghost use Rattle.register_rows.specs.Within.TableChanges.{with_setting, without_set};
ghost use Rattle.register_tables.specs.TableReads.{Calls, HasNeed, HasPeriod, KeepsSight, Reads};
ghost use Rattle.register_tables.specs.TableReads.{seen};
ghost use Rattle.register_tables.specs.Within.TableReads.{GivesRow, ShowsPeriod};
ghost use Rattle.register_tables.specs.{Within.StepCount.WritesInside, TableChanges.Makes};

use period_core::{KeyType, Period};
use register_core::Quorum;
use register_tables::{Counted, Inside, StepCount, StoreError, columns, months_in, quorum_in};
use sqlite::{Alter, Row, params};

/// What is set, and for what.
#[derive(Clone, Copy)]
pub(crate) enum Setting {
    /// The usage period of a type.
    Period { kind: KeyType, period: Period },
    /// How many approvals the destruction of a key needs.
    Need { key: u32, need: Quorum },
}

/// Takes out what was set before for the same type or key, if something was.
fn clear_setting<T: Inside>(
    tx: &mut T,
    steps: &mut StepCount,
    setting: &Setting,
) -> Result<(), StoreError>
    ensures { WritesInside T.Inside.sees T.Inside.name 1 (Makes Always (without_set setting.now))
        tx.old tx.new steps.old steps.new result }
{
    match setting {
        Setting::Period { kind, .. } => {
            let code = u32::from(kind.code());
            tx.execute(steps, "DELETE FROM period WHERE kind = ?1", params![code])?;
            Ok(())
        }
        Setting::Need { key, .. } => {
            tx.execute(steps, "DELETE FROM quorum WHERE key_no = ?1", params![*key])?;
            Ok(())
        }
    }
}

/// Adds what is set. The database refuses it where something is set for the type or key, and where
/// there is no such key.
fn add_setting<T: Inside>(
    tx: &mut T,
    steps: &mut StepCount,
    setting: Setting,
) -> Result<(), StoreError>
    ensures { WritesInside T.Inside.sees T.Inside.name 1
        (Makes (HasNoneSet setting) (more_set setting))
        tx.old tx.new steps.old steps.new result }
{
    match setting {
        Setting::Period { kind, period } => {
            tx.execute(
                steps,
                columns!(period given "INSERT INTO period (kind", ") VALUES (:kind", ")"),
                params![
                    u32::from(kind.code()),
                    u32::from(period.originator()),
                    u32::from(period.recipient())
                ],
            )?;
            Ok(())
        }
        Setting::Need { key, need } => {
            tx.execute(
                steps,
                columns!(quorum given "INSERT INTO quorum (key_no", ") VALUES (:key_no", ")"),
                params![key, u32::from(need.get())],
            )?;
            Ok(())
        }
    }
}

/// Writes what is set, in the place of what was set before for the same type or key.
pub(crate) fn write_setting<T: Inside>(
    tx: &mut T,
    steps: &mut StepCount,
    setting: Setting,
) -> Result<(), StoreError>
    ensures { WritesInside T.Inside.sees T.Inside.name 2 (Makes Always (with_setting setting))
        tx.old tx.new steps.old steps.new result }
{
    // Taken out first, since an INSERT is refused where the type or the key has a row.
    clear_setting(tx, steps, &setting)?;
    add_setting(tx, steps, setting)
}

/// How many approvals the destruction of the key with this number needs, or `None` where its owner
/// set no number. It changes nothing.
///
/// # Errors
/// [`StoreError::Database`] where the database refused, and [`StoreError::NoRegister`] where the
/// row is one that no register holds.
pub fn find_key_need<S: Alter>(
    connection: &mut Counted<S>,
    key: u32,
) -> Result<Option<Quorum>, StoreError>
    ensures counted { Calls 2 connection.old connection.new }
    ensures reads { Reads S.Store (HasNeed key) connection.old connection.new result }
    ensures no_memory { result ≢ Err StoreError.Memory }
{
    connection.find_one_row(
        columns!(quorum listed "SELECT ", " FROM quorum WHERE key_no = ?1"),
        params![key],
        |row| quorum_in(row, 0),
    )
}

/// The period in the first two cells.
fn period_in(row: &Row) -> Option<Period>
    ensures { GivesRow result (ShowsPeriod row.now) (λ period. period) }
{
    Period::new(months_in(row, 0)?, months_in(row, 1)?)
}

/// The usage period that is set for the type, or `None` where none is. It changes nothing.
///
/// # Errors
/// As [`find_key_need`].
pub fn find_office_period<S: Alter>(
    connection: &mut Counted<S>,
    kind: KeyType,
) -> Result<Option<Period>, StoreError>
    ensures counted { Calls 2 connection.old connection.new }
    ensures sight { KeepsSight (seen S.Store connection.old) (seen S.Store connection.new) }
    ensures reads { Reads S.Store (HasPeriod kind) connection.old connection.new result }
    ensures no_memory { result ≢ Err StoreError.Memory }
{
    connection.find_one_row(
        columns!(period listed "SELECT ", " FROM period WHERE kind = ?1"),
        params![u32::from(kind.code())],
        period_in,
    )
}
