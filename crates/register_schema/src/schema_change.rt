//! A change of a database's schema, made whole or not at all, and what each such change does with
//! single tables.
ghost use Rattle.std.specs.Prelude.{◌≡◌, ◌≤◌, false, Err};
ghost use Rattle.sqlite.specs.Held.{state};
ghost use Rattle.sql_steps.specs.{Steps.Transacts, Within.Steps};
ghost use Rattle.register_requests.specs.declared.version.Version.TheVariants.{First};
ghost use Rattle.register_tables.specs.Within.Beside.{Adds, IsMadeAs};
ghost use Rattle.register_schema.specs.Creation.{FindsIn, IsThere, WhereNone};
ghost use Rattle.register_schema.specs.Within.Creation.{Answers, FindsInside, MakesTable};
ghost use Rattle.register_schema.specs.Within.Migration.{MakesNext};
ghost use Rattle.register_tables.specs.Tables.{place_of, table_count};

use crate::refusal::CreateError;
use register_tables::TableName;
use sqlite::{Alter, Connection, Error, Transaction};

/// A change of a database's schema that makes tables. Where one of them is there already it is not
/// made.
pub(crate) trait SchemaChange {
    ghost use Rattle.std.specs.Prelude.{◌≡◌};
    ghost use Rattle.sqlite.specs.Schema.{Schema};
    ghost use Rattle.sql_steps.specs.{Steps.DatabaseChange, Within.Steps};
    ghost use Rattle.register_schema.specs.Within.Creation.{Answers};

    /// That one of the tables that it makes is there.
    ghost has_one: { Schema → Type 0 };

    /// What it makes of the database.
    ghost makes: { DatabaseChange };

    /// Whether one of the tables that it makes is there.
    ///
    /// # Errors
    /// As the database refused it.
    fn finds_table_it_would_make<S: Alter>(
        &self,
        tx: &mut Transaction<'_, S>,
    ) -> Result<bool, Error>
        ensures same_reference { tx.new.conn.ghost_name ≡ tx.old.conn.ghost_name }
        ensures answer { Steps S.Store (Answers has_one) tx.old.conn.now tx.new.conn.now result };

    /// Makes it.
    ///
    /// # Errors
    /// As the database refused it; the transaction is then to be rolled back.
    fn make<S: Alter>(&self, tx: &mut Transaction<'_, S>) -> Result<(), Error>
        ensures same_reference { tx.new.conn.ghost_name ≡ tx.old.conn.ghost_name }
        ensures made { Steps S.Store (λ _. makes) tx.old.conn.now tx.new.conn.now result };
}

/// Whether the table is there: the count of its rows has a meaning. Where it is not, nothing has
/// changed.
pub(crate) fn is_table_there<S: Alter>(
    tx: &mut Transaction<'_, S>,
    table: TableName,
) -> Result<bool, Error>
    ensures same_reference { tx.new.conn.ghost_name ≡ tx.old.conn.ghost_name }
    ensures answer { Steps S.Store (Answers (IsThere table))
        tx.old.conn.now tx.new.conn.now result }
{
    // A view of this name would be in the way too: whether a SELECT has a meaning is asked, and not
    // what the schema lists.
    match tx.query_row(table.count_sql(), &[]) {
        Ok(_) => Ok(true),
        Err(Error::SqlInputError(_)) => Ok(false),
        Err(error) => Err(error),
    }
}

/// Makes one of the tables, empty, where those before it are made: in an empty database, or beside
/// those of a register of the first version. Whatever else the database has stays.
pub(crate) fn make_table<S: Alter>(
    tx: &mut Transaction<'_, S>,
    table: TableName,
) -> Result<(), Error>
    ensures same_reference { tx.new.conn.ghost_name ≡ tx.old.conn.ghost_name }
    ensures made { Steps S.Store (λ _. MakesTable table) tx.old.conn.now tx.new.conn.now result }
    ensures next { table_count First ≤ place_of table →
        Steps S.Store (λ _. MakesNext table) tx.old.conn.now tx.new.conn.now result }
    ensures beside { Steps S.Store (λ _. Adds (IsMadeAs table))
        tx.old.conn.now tx.new.conn.now result }
{
    tx.execute(table.create_sql(), &[])?;
    Ok(())
}

/// Makes the change where none of its tables is there.
fn make_where_no_table_is<S: Alter, C: SchemaChange>(
    tx: &mut Transaction<'_, S>,
    change: &C,
) -> Result<(), CreateError>
    ensures same_reference { tx.new.conn.ghost_name ≡ tx.old.conn.ghost_name }
    ensures made { Steps S.Store
        (λ _. WhereNone C.SchemaChange.has_one C.SchemaChange.makes)
        tx.old.conn.now tx.new.conn.now result }
    ensures there { result ≡ Err CreateError.HasTables → FindsInside C.SchemaChange.has_one
        (state S.Store tx.old.conn.now) (state S.Store tx.new.conn.now) }
{
    if change.finds_table_it_would_make(tx)? {
        return Err(CreateError::HasTables);
    }
    change.make(tx)?;
    Ok(())
}

/// Makes the change in one transaction, whole or not at all, and so over a stop.
///
/// # Errors
/// [`CreateError::HasTables`] where one of the tables that it makes is there, and
/// [`CreateError::Database`] where the database refused.
pub(crate) fn change_schema<S: Alter, C: SchemaChange>(
    connection: &mut Connection<S>,
    change: &C,
) -> Result<(), CreateError>
    requires { connection.old.in_transaction ≡ false }
    ensures idle { connection.new.in_transaction ≡ false }
    ensures made { Transacts S.Store (WhereNone C.SchemaChange.has_one C.SchemaChange.makes)
        connection.old connection.new result }
    ensures there { result ≡ Err CreateError.HasTables
        → FindsIn S.Store C.SchemaChange.has_one connection.old connection.new }
{
    let mut tx = connection.transaction();
    // Where this fails the transaction is dropped, which rolls it back.
    make_where_no_table_is(&mut tx, change)?;
    tx.commit()?;
    Ok(())
}
