//! Making the tables of a register with its indexes.
ghost use Rattle.std.specs.Prelude.{◌≡◌, false, Err};
ghost use Rattle.sql_steps.specs.Steps.{Transacts};
ghost use Rattle.register_tables.specs.Within.Beside.{AddsUncounted, Alters, InsertsMeta};
ghost use Rattle.register_schema.specs.Creation.{MakesRegister, Finds};
ghost use Rattle.register_schema.specs.Within.Creation.{AddsIndexes, MakesIndex, MakesTables};
ghost use Rattle.register_schema.specs.Within.Creation.{AddsMeta};

use crate::refusal::CreateError;
use crate::schema_change::{SchemaChange, change_schema, is_table_there, make_table};
use register_core::Version;
use register_tables::{KEY_INDEXES, KeyIndex, TABLES, columns};
use sqlite::{Alter, Connection, Error, Transaction, params};

/// Makes one of the indexes, where the tables and the indexes before it are made.
fn make_index<S: Alter>(tx: &mut Transaction<'_, S>, index: KeyIndex) -> Result<(), Error>
    ensures { Alters S.Store (MakesIndex index) AddsUncounted tx.old.conn tx.new.conn result }
{
    tx.execute(index.index_sql(), &[])?;
    Ok(())
}

/// Adds the one row of meta: the version of the tables, and that no request was accepted and no key
/// made.
fn insert_meta<S: Alter>(tx: &mut Transaction<'_, S>) -> Result<usize, Error>
    ensures { Alters S.Store AddsMeta InsertsMeta tx.old.conn tx.new.conn result }
{
    tx.execute(
        columns!(meta listed "INSERT INTO meta (id, ", ") VALUES (1, ?1, 0, 0)"),
        params![Version::CURRENT.number()],
    )
}

fn make_tables<S: Alter>(tx: &mut Transaction<'_, S>) -> Result<(), Error>
    ensures { Alters S.Store MakesTables AddsUncounted tx.old.conn tx.new.conn result }
{
    for table in TABLES {
        make_table(tx, table)?;
    }
    Ok(())
}

fn make_indexes<S: Alter>(tx: &mut Transaction<'_, S>) -> Result<(), Error>
    ensures { Alters S.Store AddsIndexes AddsUncounted tx.old.conn tx.new.conn result }
{
    for index in KEY_INDEXES {
        make_index(tx, index)?;
    }
    Ok(())
}

/// Making the tables of an empty register with their indexes.
#[derive(Drop)]
struct Creation;

impl SchemaChange for Creation {
    ghost use Rattle.register_schema.specs.Creation.{HasTable, MakesAll};

    ghost has_one = { HasTable };

    ghost makes = { MakesAll };

    /// Whether one of the register's tables is there.
    fn finds_table_it_would_make<S: Alter>(
        &self,
        tx: &mut Transaction<'_, S>,
    ) -> Result<bool, Error> {
        for table in TABLES {
            if is_table_there(tx, table)? {
                return Ok(true);
            }
        }
        Ok(false)
    }

    fn make<S: Alter>(&self, tx: &mut Transaction<'_, S>) -> Result<(), Error> {
        make_tables(tx)?;
        make_indexes(tx)?;
        insert_meta(tx)?;
        Ok(())
    }
}

/// Makes the tables of an empty register with their indexes, all of them or none, and so over a
/// stop. Each other table, index and view of the file stays as it was.
///
/// # Errors
/// [`CreateError::HasTables`] where one of the tables is there, and [`CreateError::Database`] where
/// the database refused.
pub fn create<S: Alter>(connection: &mut Connection<S>) -> Result<(), CreateError>
    requires { connection.old.in_transaction ≡ false }
    ensures idle { connection.new.in_transaction ≡ false }
    ensures made { Transacts S.Store MakesRegister connection.old connection.new result }
    ensures there { result ≡ Err CreateError.HasTables
        → Finds S.Store connection.old connection.new }
{
    change_schema(connection, &Creation)
}
