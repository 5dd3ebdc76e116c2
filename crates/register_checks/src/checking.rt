//! Checking that the tables of a file are those of a register.
ghost use Rattle.std.specs.Prelude.{◌≡◌, false};
ghost use Rattle.sqlite.specs.Held.{state};
ghost use Rattle.register_tables.specs.declared.table.TableName.TheVariants.{Request};
ghost use Rattle.register_checks.specs.CheckedTables.{ChecksTables, TellsVersion};
ghost use Rattle.register_checks.specs.{Within.CheckedRows.ChecksFirst, OpeningChecks.before};

use crate::custody_check::{check_and_list_custodians, check_approval_rows};
use crate::found::Found;
use crate::key_check::check_keys_and_list_owners;
use crate::meta_check::check_and_read_meta;
use crate::refusal::CheckError;
use crate::request_check::check_requests;
use crate::setting_check::{check_needs, check_periods};
use register_core::Version;
use sqlite::{Alter, Connection};
use std::alloc::Global;

/// Puts meta and the tables of keys and of names at keys to their checks, and gives the version and
/// what they count. It changes nothing.
///
/// # Errors
/// As [`check`].
fn check_meta_keys_and_custody<S: Alter>(
    alloc: Global,
    connection: &mut Connection<S>,
) -> Result<Found, CheckError>
    requires { connection.old.in_transaction ≡ false }
    ensures idle { connection.new.in_transaction ≡ false }
    ensures checks { ChecksFirst (before Request) (state S.Store connection.old)
        (state S.Store connection.new) result }
{
    // Each table comes after what its check goes by: keys after what meta counts, custodians after
    // the keys' owners, approvals after the custodians.
    let found = check_and_read_meta(connection)?;
    let owners = check_keys_and_list_owners(alloc, connection, &found)?;
    let custodians = check_and_list_custodians(alloc, connection, found.version, owners)?;
    check_approval_rows(connection, custodians)?;
    Ok(found)
}

/// Puts the tables of a file to the checks of their version, row by row, whatever the file's schema
/// is. Gives the version and what they count. Beside what the database holds of a row at a time,
/// the names of the keys' owners and custodians are kept meanwhile. It changes nothing.
///
/// # Errors
/// [`CheckError::NewerVersion`] where meta is of a later version, and nothing further is looked at;
/// [`CheckError::NotARegister`] where a check fails, or a query has no meaning under the file's
/// schema; [`CheckError::Memory`] where memory gave out after the database's answer;
/// [`CheckError::Database`] where the database refused. After all but the last nothing has changed.
pub fn check<S: Alter>(alloc: Global, connection: &mut Connection<S>) -> Result<Found, CheckError>
    requires { connection.old.in_transaction ≡ false }
    ensures idle { connection.new.in_transaction ≡ false }
    ensures checks { ChecksTables S.Store connection.old connection.new result }
{
    let found = check_meta_keys_and_custody(alloc, connection)?;
    check_requests(connection, &found)?;
    match found.version {
        Version::First => Ok(found),
        Version::Second => {
            check_periods(connection)?;
            check_needs(connection, &found)?;
            Ok(found)
        }
    }
}

/// The version of the tables of a file, one that this program knows or a later one. It looks at
/// meta alone, and changes nothing.
///
/// # Errors
/// [`CheckError::NotARegister`] where meta fails its check for another cause than a later version;
/// else as [`check`].
pub fn version<S: Alter>(connection: &mut Connection<S>) -> Result<u64, CheckError>
    requires { connection.old.in_transaction ≡ false }
    ensures idle { connection.new.in_transaction ≡ false }
    ensures tells { TellsVersion S.Store connection.old connection.new result }
{
    match check_and_read_meta(connection) {
        Ok(found) => Ok(u64::from(found.version.number())),
        Err(CheckError::NewerVersion { found }) => Ok(found),
        Err(error) => Err(error),
    }
}
