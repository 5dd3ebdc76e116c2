//! A key in its tables: its row, which is found, added and changed in what can change of it, and its
//! custody.
ghost use Rattle.std.specs.Prelude.{◌≡◌, ◌≢◌, ◌≤◌, MatchOption, ◌+◌, Option, length, IfOk, IfErr, Err};
ghost use Rattle.sqlite.specs.Held.{state};
ghost use Rattle.lifecycle_core.specs.declared.dates.Dates.{Dates};
ghost use Rattle.register_core.specs.{declared.key.Key.Key, Dates.AreDates};
ghost use Rattle.register_tables.specs.TableChanges.{Makes, with_key, with_key_at};
ghost use Rattle.register_tables.specs.TableChanges.{with_owner_and_row};
ghost use Rattle.register_rows.specs.Within.TableChanges.{Always, without_approvals};
ghost use Rattle.register_tables.specs.TableReads.{seen, Calls, HasRow, KeepsSight, Reads};
ghost use Rattle.register_tables.specs.TableReads.{ShowsDates, ShowsKey, CallsOver, HasHeldKey};
ghost use Rattle.register_tables.specs.TableReads.{load_steps};
ghost use Rattle.register_tables.specs.Within.TableReads.{AreNamesOf};
ghost use Rattle.register_rows.specs.Within.Names.{count_at, HasNames};
ghost use Rattle.register_tables.specs.Within.TableReads.{HasNoName};
ghost use Rattle.register_rows.specs.Within.Roles.{change_text, select_text, with_role_changed};
ghost use Rattle.register_tables.specs.{Within.StepCount.WritesInside, Tables.IsKey};

use lifecycle_core::Row;
use register_core::{Held, Key, Name, Names, Purpose, Quorum};
use register_tables::{
    Counted, DateCell, Inside, MomentCell, StepCount, StoreError, columns, key_in, name_in,
};
use sqlite::{Alter, params};
use std::alloc::Global;

/// The search for the row of a key by its number.
const FIND_KEY: &str = columns!(keys listed "SELECT ", " FROM keys WHERE number = ?1");

/// The statement that sets these columns of the key with the number ?1, where one of them is not so
/// already.
macro_rules! update_where_other {
    ($set:literal $(, $more:literal)+) => {
        concat!(
            "UPDATE keys SET ", $set $(, ", ", $more)+,
            " WHERE number = ?1 AND NOT (", $set $(, " AND ", $more)+, ")"
        )
    };
}

/// These values, and after them the dates that may be unset, in the order of their columns.
macro_rules! params_with_dates {
    ($($value:expr),+; $dates:ident) => {
        params![
            $($value,)+
            DateCell($dates.activation),
            DateCell($dates.protect_stop),
            DateCell($dates.deactivation),
            DateCell($dates.destroy),
            DateCell($dates.compromise),
            DateCell($dates.compromise_occurrence)
        ]
    };
}

/// The row of the key with this number, or `None` where there is none. It changes nothing.
///
/// # Errors
/// [`StoreError::Database`] where the database refused, and [`StoreError::NoRegister`] where the
/// row is one that no register holds.
pub fn find_key_row<S: Alter>(
    connection: &mut Counted<S>,
    number: u32,
) -> Result<Option<Key>, StoreError>
    ensures counted { Calls 2 connection.old connection.new }
    ensures sight { KeepsSight (seen S.Store connection.old) (seen S.Store connection.new) }
    ensures reads { Reads S.Store (HasRow number) connection.old connection.new result }
    ensures no_memory { result ≢ Err StoreError.Memory }
{
    connection.find_one_row(FIND_KEY, params![number], |row| key_in(row))
}

/// Adds a key after the others; `number` is the one that it gets, one more than there are keys.
pub(crate) fn add_key<T: Inside>(
    tx: &mut T,
    steps: &mut StepCount,
    number: u32,
    key: &Key,
) -> Result<(), StoreError>
    ensures { WritesInside T.Inside.sees T.Inside.name 1
        (Makes (λ t. number ≡ length t.keys + 1) (with_key key.now))
        tx.old tx.new steps.old steps.new result }
{
    let dates = &key.row.dates;
    tx.execute(
        steps,
        columns!(keys given "INSERT INTO keys (number", ") VALUES (:number", ")"),
        params_with_dates![
            number,
            u32::from(key.kind.code()),
            key.owner.text(),
            key.purpose.text(),
            u32::from(key.row.state.code()),
            MomentCell(dates.initial);
            dates
        ],
    )?;
    Ok(())
}

/// Gives the key with this number an owner and a row. Its type, its purpose and its Initial Date
/// stay. A row that stands so already is not written.
pub(crate) fn set_owner_state_and_dates<T: Inside>(
    tx: &mut T,
    steps: &mut StepCount,
    number: u32,
    owner: &Name,
    row: &Row,
) -> Result<(), StoreError>
    ensures { WritesInside T.Inside.sees T.Inside.name 1
        (Makes Always (with_key_at number (with_owner_and_row owner.now row.now)))
        tx.old tx.new steps.old steps.new result }
{
    let dates = &row.dates;
    tx.execute(
        steps,
        update_where_other!(
            "owner = ?2",
            "state = ?3",
            "activation = ?4",
            "protect_stop = ?5",
            "deactivation = ?6",
            "destroyed = ?7",
            "compromised = ?8",
            "occurrence = ?9"
        ),
        params_with_dates![
            number,
            owner.text(),
            u32::from(row.state.code());
            dates
        ],
    )?;
    Ok(())
}

/// What a name may be at a key.
#[derive(Clone, Copy)]
pub(crate) enum Role {
    /// One of the key's custodians.
    Custodian,
    /// A custodian whose approval of the key's destruction stands.
    Approver,
}

impl Role {
    fn select_sql(self) -> &'static str
        ensures { result.now ≡ select_text self }
    {
        match self {
            Role::Custodian => "SELECT name FROM custodian WHERE key_no = ?1",
            Role::Approver => "SELECT name FROM approval WHERE key_no = ?1",
        }
    }
}

/// What becomes of a role that a name may have at a key.
#[derive(Clone, Copy)]
pub(crate) enum RoleChange {
    Given(Role),
    Taken(Role),
}

impl RoleChange {
    fn sql(self) -> &'static str
        ensures { result.now ≡ change_text self }
    {
        match self {
            RoleChange::Given(Role::Custodian) => {
                "INSERT INTO custodian (key_no, name) VALUES (?1, ?2)"
            }
            RoleChange::Given(Role::Approver) => {
                "INSERT INTO approval (key_no, name) VALUES (?1, ?2)"
            }
            RoleChange::Taken(Role::Custodian) => {
                "DELETE FROM custodian WHERE key_no = ?1 AND name = ?2"
            }
            RoleChange::Taken(Role::Approver) => {
                "DELETE FROM approval WHERE key_no = ?1 AND name = ?2"
            }
        }
    }
}

/// Gives the name a role at the key, or takes it. With a custodian its approval goes too. The
/// database refuses to give a role where the name has it already, where there is no such key, and
/// for an approver where the name is no custodian.
pub(crate) fn give_or_take_role<T: Inside>(
    tx: &mut T,
    steps: &mut StepCount,
    change: RoleChange,
    key: u32,
    name: &Name,
) -> Result<(), StoreError>
    ensures { WritesInside T.Inside.sees T.Inside.name 1
        (Makes Always (with_role_changed change key name.now))
        tx.old tx.new steps.old steps.new result }
{
    tx.execute(steps, change.sql(), params![key, name.text()])?;
    Ok(())
}

/// Takes back every approval of the key's destruction.
pub(crate) fn end_approvals<T: Inside>(
    tx: &mut T,
    steps: &mut StepCount,
    key: u32,
) -> Result<(), StoreError>
    ensures { WritesInside T.Inside.sees T.Inside.name 1 (Makes Always (without_approvals key))
        tx.old tx.new steps.old steps.new result }
{
    tx.execute(
        steps,
        "DELETE FROM approval WHERE key_no = ?1",
        params![key],
    )?;
    Ok(())
}

/// The names in the first cell of each row, in order of their bytes.
fn sorted_names_in(alloc: Global, rows: &[sqlite::Row]) -> Result<Names, StoreError>
    ensures names { IfOk result (AreNamesOf rows.now) }
    ensures unregistered { IfErr result (λ error. error ≡ StoreError.NoRegister
        → HasNoName rows.now) }
{
    let mut shown = Vec::new(alloc);
    for row in rows {
        let name = name_in(row, 0).ok_or(StoreError::NoRegister)?;
        shown.push(name)?;
    }
    // The search has no ORDER BY: a decision looks at a handful of names.
    Ok(Names::sorted_from_vec(shown))
}

/// The names with this role at the key, in order of their bytes. It changes nothing.
fn find_names_in_role<S: Alter>(
    alloc: Global,
    connection: &mut Counted<S>,
    role: Role,
    key: u32,
) -> Result<Names, StoreError>
    ensures counted { CallsOver S.Store (λ t. 1 + count_at key role t)
        connection.old connection.new }
    ensures reads { Reads S.Store (HasNames role key) connection.old connection.new result }
{
    let rows = connection.query_all(role.select_sql(), params![key])?;
    sorted_names_in(alloc, &rows)
}

/// The key with this number as a decision sees it where its destruction needs so many approvals,
/// with its purpose, or `None` where there is none. The names are in order of their bytes. It
/// changes nothing.
///
/// # Errors
/// [`StoreError::Database`] where the database refused, [`StoreError::Memory`] where memory gave
/// out after its answer, and [`StoreError::NoRegister`] where a row is one that no register holds.
pub fn load_key<S: Alter>(
    alloc: Global,
    connection: &mut Counted<S>,
    number: u32,
    need: Quorum,
) -> Result<Option<(Held, Purpose)>, StoreError>
    ensures counted { CallsOver S.Store (load_steps number) connection.old connection.new }
    ensures reads { Reads S.Store (HasHeldKey number need) connection.old connection.new result }
{
    let Some(key) = find_key_row(connection, number)? else {
        return Ok(None);
    };
    let custodians = find_names_in_role(alloc, connection, Role::Custodian, number)?;
    let approvals = find_names_in_role(alloc, connection, Role::Approver, number)?;
    let held = Held {
        kind: key.kind,
        owner: key.owner,
        row: key.row,
        need,
        custodians,
        approvals,
    };
    Ok(Some((held, key.purpose)))
}
