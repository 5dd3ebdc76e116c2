//! Taking a register of the first version to the second.
ghost use Rattle.std.specs.Prelude.{◌≡◌, false, Err};
ghost use Rattle.sql_steps.specs.Steps.{Transacts};
ghost use Rattle.register_tables.specs.Within.Beside.{Alters, UpdatesMeta};
ghost use Rattle.register_schema.specs.Migration.{FindsNewTable, Migrates};
ghost use Rattle.register_schema.specs.Within.Migration.{SetsVersion};

use crate::refusal::CreateError;
use crate::schema_change::{SchemaChange, change_schema, is_table_there, make_table};
use register_core::Version;
use register_tables::TableName;
use sqlite::{Alter, Connection, Error, Transaction, params};

/// Writes the version.
fn set_version<S: Alter>(tx: &mut Transaction<'_, S>) -> Result<usize, Error>
    ensures { Alters S.Store SetsVersion UpdatesMeta tx.old.conn tx.new.conn result }
{
    tx.execute(
        "UPDATE meta SET version = ?1 WHERE id = 1",
        params![Version::CURRENT.number()],
    )
}

/// Taking the tables of the first version to the second: the rows that are there stay as they are.
#[derive(Drop)]
struct Migration;

impl SchemaChange for Migration {
    ghost use Rattle.register_schema.specs.Migration.{HasNewTable, TakesToSecond};

    ghost has_one = { HasNewTable };

    ghost makes = { TakesToSecond };

    /// Whether one of the new tables is there.
    fn finds_table_it_would_make<S: Alter>(
        &self,
        tx: &mut Transaction<'_, S>,
    ) -> Result<bool, Error> {
        if is_table_there(tx, TableName::Period)? {
            return Ok(true);
        }
        is_table_there(tx, TableName::Quorum)
    }

    fn make<S: Alter>(&self, tx: &mut Transaction<'_, S>) -> Result<(), Error> {
        make_table(tx, TableName::Period)?;
        make_table(tx, TableName::Quorum)?;
        set_version(tx)?;
        Ok(())
    }
}

/// Takes a register of the first version to the second, whole or not at all, and so over a stop.
/// Each other table, index and view of the file stays as it was.
///
/// # Errors
/// [`CreateError::HasTables`] where a table of the second version is there already, and
/// [`CreateError::Database`] where the database refused.
pub fn migrate<S: Alter>(connection: &mut Connection<S>) -> Result<(), CreateError>
    requires { connection.old.in_transaction ≡ false }
    ensures idle { connection.new.in_transaction ≡ false }
    ensures migrated { Transacts S.Store Migrates connection.old connection.new result }
    ensures there { result ≡ Err CreateError.HasTables
        → FindsNewTable S.Store connection.old connection.new }
{
    change_schema(connection, &Migration)
}
