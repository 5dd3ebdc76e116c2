//! The checks of the tables of custodians and of approvals.
ghost use Rattle.std.specs.Prelude.{◌≡◌, ◌≢◌, ◌<◌, ◌∷◌, ◌++◌, ℕ, suc, [], false, length, slice_get};
ghost use Rattle.std.specs.Prelude.{Some, IsTrue, OnOk, IfOk, IfErr, MatchOption};
ghost use Rattle.sqlite.specs.{Held.state, State.HasCleanDisk, State.Survives};
ghost use Rattle.register_core.specs.KeyName.{key_name};
ghost use Rattle.register_checks.specs.Within.CheckedTables.{ChecksTable};
ghost use Rattle.register_checks.specs.Within.CheckedRows.{AreEmpty, IsAnything, KnowsCustodians};
ghost use Rattle.register_tables.specs.declared.table.TableName.TheVariants.{Approval, Custodian};
ghost use Rattle.register_checks.specs.{CheckedTables.ShowsName, Stored.Stored};
ghost use Rattle.register_tables.specs.Within.TableReads.{GivesRow};
ghost use Rattle.register_checks.specs.OpeningChecks.{owners_of};

use crate::refusal::CheckError;
use register_core::{Name, Version};
use register_tables::{NameCell, columns, name_in, unsigned_integer_in};
use row_checks::{RowCheck, check_rows};
use sqlite::{Alter, Connection, Row};
use std::alloc::{AllocError, Global};

/// A key's number with a name, as a row shows them.
#[derive(Clone, Copy)]
struct NameAtKey {
    key: u64,
    name: Name,
}

/// The name at a key that the row shows.
fn key_number_and_name_in(row: &Row) -> Option<NameAtKey>
    ensures { GivesRow result (ShowsName row.now) (λ shown. key_name shown.key shown.name) }
{
    Some(NameAtKey {
        key: unsigned_integer_in(row, NameCell::Key as usize)?,
        name: name_in(row, NameCell::Name as usize)?,
    })
}

/// The index of the key with this number, of those that are numbered from 1.
fn index_of_key_number(key: u64) -> Option<usize>
    ensures { MatchOption result (key ≡ 0) (λ at. key ≡ suc at) }
{
    usize::try_from(key.checked_sub(1)?).ok()
}

/// Adds a name to the list at this place.
fn add_name_to_list_at(lists: &mut Vec<Vec<Name>>, at: usize, name: Name) -> Result<(), AllocError>
    requires { at < length lists.old.items }
    ensures counted { OnOk result (length lists.new.items ≡ length lists.old.items) }
    ensures added { OnOk result ((names : _) → slice_get lists.new.items at ≡ Some names →
        (before : _) × (slice_get lists.old.items at ≡ Some before)
        × (names.items ≡ before.items ++ name ∷ [])) }
    ensures others { OnOk result ((k : ℕ) → k ≢ at →
        slice_get lists.new.items k ≡ slice_get lists.old.items k) }
{
    lists[at].push(name)?;
    Ok(())
}

/// So many empty lists.
fn empty_name_lists(alloc: Global, count: usize) -> Result<Vec<Vec<Name>>, CheckError>
    ensures made { IfOk result (λ lists. AreEmpty lists.items × (length lists.items ≡ count)) }
    ensures failed { IfErr result (λ error. error ≡ CheckError.Memory) }
{
    let mut lists = Vec::new(alloc);
    for _ in 0..count {
        lists.push(Vec::new(alloc))?;
    }
    Ok(lists)
}

/// The owners of the keys, and their custodians so far, both in order of the keys' numbers; and how
/// many a key may have.
#[derive(Drop)]
struct CustodianCheck {
    most: usize,
    owners: Vec<Name>,
    custodians: Vec<Vec<Name>>,
}

impl RowCheck for CustodianCheck {
    ghost use Rattle.std.specs.Prelude.{◌≡◌};
    ghost use Rattle.register_checks.specs.CheckedRows.{HasCustodians, RefusesCustodians};

    ghost has_taken = { λ first check rows. (check.most ≡ first.most)
        × (check.owners.items ≡ first.owners.items)
        × HasCustodians first.most first.owners.items check.custodians.items rows };

    ghost refuses = { λ first check rows. RefusesCustodians first.most first.owners.items rows };

    fn take_row(&mut self, row: &Row) -> Result<bool, AllocError> {
        let Some(shown) = key_number_and_name_in(row) else {
            return Ok(false);
        };
        let Some(at) = index_of_key_number(shown.key) else {
            return Ok(false);
        };
        // The lists are equally long in each check that began so; of any other this is safe too.
        if at >= self.owners.len() || at >= self.custodians.len() {
            return Ok(false);
        }
        if self.custodians[at].len() >= self.most || self.owners[at] == shown.name {
            return Ok(false);
        }
        add_name_to_list_at(&mut self.custodians, at, shown.name)?;
        Ok(true)
    }
}

/// Puts the table of custodians to the check of a version, with the owners of the keys. Gives each
/// key's custodians. It changes nothing.
///
/// # Errors
/// As the check of all tables.
pub(crate) fn check_and_list_custodians<S: Alter>(
    alloc: Global,
    connection: &mut Connection<S>,
    version: Version,
    owners: Vec<Name>,
) -> Result<Vec<Vec<Name>>, CheckError>
    requires { connection.old.in_transaction ≡ false }
    ensures idle { connection.new.in_transaction ≡ false }
    ensures checks { (HasCleanDisk (state S.Store connection.old)
        → IsTrue (state S.Store connection.old).is_open) →
        (t : Stored) → version ≡ t.version → owners.items ≡ owners_of t.tables.keys →
        ChecksTable Custodian t KnowsCustodians
        (state S.Store connection.old) (state S.Store connection.new) result }
    ensures survives { Survives (state S.Store connection.old)
        (state S.Store connection.new) (λ _. ⊥) }
{
    let custodians = empty_name_lists(alloc, owners.len())?;
    let mut check = CustodianCheck {
        most: version.max_custodians(),
        owners,
        custodians,
    };
    check_rows(
        connection,
        columns!(names listed "SELECT ", " FROM custodian"),
        &mut check,
    )?;
    Ok(check.custodians)
}

/// The custodians of the keys, in order of the keys' numbers.
#[derive(Drop)]
struct ApprovalCheck {
    custodians: Vec<Vec<Name>>,
}

impl RowCheck for ApprovalCheck {
    ghost use Rattle.std.specs.Prelude.{◌≡◌};
    ghost use Rattle.register_checks.specs.CheckedTables.{ShowsName};
    ghost use Rattle.register_checks.specs.CheckedRows.{HasShown, IsListed, RefusesEach};

    ghost has_taken = { λ first check rows. (check.custodians.items ≡ first.custodians.items)
        × HasShown ShowsName (IsListed first.custodians.items) rows };

    ghost refuses = { λ first check rows.
        RefusesEach ShowsName (IsListed first.custodians.items) rows };

    fn take_row(&mut self, row: &Row) -> Result<bool, AllocError> {
        let Some(shown) = key_number_and_name_in(row) else {
            return Ok(false);
        };
        let Some(at) = index_of_key_number(shown.key) else {
            return Ok(false);
        };
        if at >= self.custodians.len() {
            return Ok(false);
        }
        Ok(self.custodians[at].contains(&shown.name))
    }
}

/// Puts the table of approvals to its check, with each key's custodians. It changes nothing.
///
/// # Errors
/// As the check of all tables.
pub(crate) fn check_approval_rows<S: Alter>(
    connection: &mut Connection<S>,
    custodians: Vec<Vec<Name>>,
) -> Result<(), CheckError>
    requires { connection.old.in_transaction ≡ false }
    ensures idle { connection.new.in_transaction ≡ false }
    ensures checks { (t : Stored) → KnowsCustodians t.tables.custodians custodians →
        ChecksTable Approval t IsAnything
        (state S.Store connection.old) (state S.Store connection.new) result }
    ensures survives { Survives (state S.Store connection.old)
        (state S.Store connection.new) (λ _. ⊥) }
{
    let mut check = ApprovalCheck { custodians };
    check_rows(
        connection,
        columns!(names listed "SELECT ", " FROM approval"),
        &mut check,
    )?;
    Ok(())
}
