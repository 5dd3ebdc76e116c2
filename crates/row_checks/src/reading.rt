//! The rows of a query, each put to a check.
ghost use Rattle.std.specs.Prelude.{◌≡◌, false, [], Err, OnOk};
ghost use Rattle.sqlite.specs.State.{HasCleanDisk, IsUnchanged, Survives};
ghost use Rattle.sqlite.specs.{Held.state, Given.HasGiven};
ghost use Rattle.row_checks.specs.ShownRows.{IsQuery, HasNoMeaning, ShowsAll, ShowsFirst};

use crate::error::RowsError;
use crate::row_check::RowCheck;
use sqlite::{Alter, Connection, Error, ErrorCode, Rows};

/// Puts each row that is to come to the check.
fn check_rows_left<S: Alter, T: RowCheck>(
    rows: &mut Rows<'_, S>,
    check: &mut T,
    sql: &str,
) -> Result<(), RowsError>
    requires { IsQuery sql.now }
    ensures same_reference { rows.new.conn.ghost_name ≡ rows.old.conn.ghost_name }
    ensures mode { rows.old.conn.now.in_transaction ≡ false
        → rows.new.conn.now.in_transaction ≡ false }
    ensures met { HasCleanDisk (state S.Store rows.new.conn.now)
        → HasGiven S.Store sql.now [] rows.old.conn.now []
        → T.RowCheck.has_taken check.old check.old []
        → OnOk result (ShowsAll sql.now (T.RowCheck.has_taken check.old check.new)
        (state S.Store rows.old.conn.now) (state S.Store rows.new.conn.now)) }
    ensures refused { HasCleanDisk (state S.Store rows.new.conn.now)
        → HasGiven S.Store sql.now [] rows.old.conn.now []
        → T.RowCheck.has_taken check.old check.old []
        → result ≡ Err RowsError.Refused
        → ShowsFirst sql.now (T.RowCheck.refuses check.old check.new)
        (state S.Store rows.old.conn.now) (state S.Store rows.new.conn.now) }
    ensures memory { HasCleanDisk (state S.Store rows.new.conn.now)
        → HasGiven S.Store sql.now [] rows.old.conn.now []
        → result ≡ Err RowsError.Memory
        → IsUnchanged (state S.Store rows.old.conn.now) (state S.Store rows.new.conn.now) }
    ensures meant { result ≡ Err RowsError.NoMeaning → ⊥ }
    ensures survives { Survives (state S.Store rows.old.conn.now)
        (state S.Store rows.new.conn.now) (λ _. ⊥) }
{
    // The loop is to end, and no contract of the database bounds how many rows it hands out. No file
    // has so many.
    'rows: for _ in 0..u64::MAX {
        let row = match rows.next() {
            Ok(Some(row)) => row,
            Ok(None) => return Ok(()),
            Err(error) => return Err(RowsError::Database(error)),
        };
        match check.take_row(row) {
            Ok(true) => {}
            Ok(false) => return Err(RowsError::Refused),
            Err(_) => return Err(RowsError::Memory),
        }
    }
    Err(RowsError::Database(Error::SqliteFailure(ErrorCode::TooBig)))
}

/// Puts each row that the query shows to the check, one at a time. It changes nothing.
///
/// # Errors
/// [`RowsError::NoMeaning`] where the text has no meaning under the database's schema,
/// [`RowsError::Refused`] where the rows do not pass, [`RowsError::Memory`] where memory gave out
/// in the check, and [`RowsError::Database`] where the database refused. After the first three
/// nothing has changed.
pub fn check_rows<S: Alter, T: RowCheck>(
    connection: &mut Connection<S>,
    sql: &str,
    check: &mut T,
) -> Result<(), RowsError>
    requires idle { connection.old.in_transaction ≡ false }
    requires query { IsQuery sql.now }
    ensures idle { connection.new.in_transaction ≡ false }
    // The query shows these rows, all of them, and the check has taken them.
    ensures met { HasCleanDisk (state S.Store connection.new)
        → T.RowCheck.has_taken check.old check.old []
        → OnOk result (ShowsAll sql.now (T.RowCheck.has_taken check.old check.new)
        (state S.Store connection.old) (state S.Store connection.new)) }
    // The text has no meaning under the schema.
    ensures meaning { HasCleanDisk (state S.Store connection.new)
        → result ≡ Err RowsError.NoMeaning
        → HasNoMeaning sql.now (state S.Store connection.old) (state S.Store connection.new) }
    // The first rows that the query shows do not pass.
    ensures refused { HasCleanDisk (state S.Store connection.new)
        → T.RowCheck.has_taken check.old check.old []
        → result ≡ Err RowsError.Refused
        → ShowsFirst sql.now (T.RowCheck.refuses check.old check.new)
        (state S.Store connection.old) (state S.Store connection.new) }
    ensures memory { HasCleanDisk (state S.Store connection.new)
        → result ≡ Err RowsError.Memory
        → IsUnchanged (state S.Store connection.old) (state S.Store connection.new) }
    ensures survives { Survives (state S.Store connection.old)
        (state S.Store connection.new) (λ _. ⊥) }
{
    match connection.query(sql, &[]) {
        Ok(mut rows) => check_rows_left(&mut rows, check, sql),
        Err(Error::SqlInputError(_)) => Err(RowsError::NoMeaning),
        Err(error) => Err(RowsError::Database(error)),
    }
}
