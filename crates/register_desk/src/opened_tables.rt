//! Opening the tables of a file.
ghost use Rattle.std.specs.Prelude.{◌≡◌, false};
ghost use Rattle.register_desk.specs.Within.{OpensTables, migration_error};

use register_checks::{CheckError, Found, check};
use register_core::Version;
use register_schema::{CreateError, migrate};
use sqlite::{Alter, Connection};
use std::alloc::Global;

/// The error of an opening that a making or a migration of tables comes to.
pub(crate) fn migration_error(error: CreateError) -> CheckError
    ensures { result ≡ migration_error error }
{
    match error {
        CreateError::HasTables => CheckError::NotARegister,
        CreateError::Database(error) => CheckError::Database(error),
    }
}

/// Puts the tables of a file to the checks of their version, and takes those of the first version
/// to the second. Gives the version that they had, and what they count.
///
/// # Errors
/// As [`check`]; [`CheckError::NotARegister`] too where tables of the first version stand beside
/// one that the second adds; [`CheckError::Database`] too where the database refused to take them
/// to the second. Then they are of one of the two.
pub(crate) fn open_tables<S: Alter>(
    alloc: Global,
    connection: &mut Connection<S>,
) -> Result<Found, CheckError>
    requires { connection.old.in_transaction ≡ false }
    ensures idle { connection.new.in_transaction ≡ false }
    ensures opens { OpensTables S.Store connection.old connection.new result }
{
    let found = check(alloc, connection)?;
    match found.version {
        Version::Second => Ok(found),
        Version::First => match migrate(connection) {
            Ok(()) => Ok(found),
            Err(error) => Err(migration_error(error)),
        },
    }
}
