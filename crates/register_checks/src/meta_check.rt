//! The check of the table meta.
ghost use Rattle.std.specs.Prelude.{◌≡◌, [], ◌∷◌, false, MatchOption};
ghost use Rattle.sqlite.specs.{Held.state, State.Survives};
ghost use Rattle.register_tables.specs.declared.table.TableName.TheVariants.{Meta};
ghost use Rattle.register_checks.specs.Stored.{Stored};
ghost use Rattle.register_checks.specs.{Within.CheckedTables.ChecksTable};
ghost use Rattle.register_checks.specs.{CheckedRows.RefusesMeta};
ghost use Rattle.register_checks.specs.{CheckedRows.TellsMeta, Within.CheckedRows.IsCounts};

use crate::found::Found;
use crate::refusal::CheckError;
use register_core::{MAX_KEYS, Version};
use register_tables::{MetaCell, columns, key_number_or_zero_in, moment_in, unsigned_integer_in};
use row_checks::{RowCheck, check_rows};
use sqlite::{Alter, Connection, Row};
use std::alloc::AllocError;

/// What a row of meta tells.
#[derive(Clone, Copy)]
enum MetaRow {
    /// What it counts, under a version that this program knows.
    Counts(Found),
    /// A later version. Nothing else of such a row is looked at.
    Newer(u64),
}

impl MetaRow {
    ghost use Rattle.register_checks.specs.Within.CheckedRows.{counts_in};

    /// What the row counts, or why it is refused.
    fn counts_or_refusal(&self) -> Result<Found, CheckError>
        ensures { result ≡ counts_in self.now }
    {
        match *self {
            MetaRow::Counts(found) => Ok(found),
            MetaRow::Newer(found) => Err(CheckError::NewerVersion { found }),
        }
    }
}

/// What the row tells, where it is a register's.
fn meta_row_in(row: &Row) -> Option<MetaRow>
    ensures { MatchOption result (RefusesMeta (row.now ∷ [])) (TellsMeta row.now) }
{
    if unsigned_integer_in(row, MetaCell::Id as usize)? != 1 {
        return None;
    }
    let number = unsigned_integer_in(row, MetaCell::Version as usize)?;
    // Before any other cell is looked at: a later version may mean something else by it.
    if number > u64::from(Version::CURRENT.number()) {
        return Some(MetaRow::Newer(number));
    }
    let version = Version::of_number(number)?;
    let latest = moment_in(row, MetaCell::Latest as usize)?;
    let keys = key_number_or_zero_in(row, MetaCell::KeyCount as usize)?;
    if keys > MAX_KEYS {
        return None;
    }
    Some(MetaRow::Counts(Found {
        version,
        latest,
        keys,
    }))
}

/// The one row of meta.
#[derive(Drop)]
struct MetaCheck {
    told: Option<MetaRow>,
}

impl RowCheck for MetaCheck {
    ghost use Rattle.register_checks.specs.CheckedRows.{HasMeta};

    ghost has_taken = { λ first check rows. HasMeta check.told rows };

    ghost refuses = { λ first check rows. RefusesMeta rows };

    fn take_row(&mut self, row: &Row) -> Result<bool, AllocError> {
        if self.told.is_some() {
            return Ok(false);
        }
        self.told = meta_row_in(row);
        Ok(self.told.is_some())
    }
}

/// Puts the table meta to its check. Gives the version and what it counts. It changes nothing.
///
/// # Errors
/// [`CheckError::NewerVersion`] where the version is above this program's, and else as the check of
/// all tables.
pub(crate) fn check_and_read_meta<S: Alter>(
    connection: &mut Connection<S>,
) -> Result<Found, CheckError>
    requires { connection.old.in_transaction ≡ false }
    ensures idle { connection.new.in_transaction ≡ false }
    ensures checks { (t : Stored) → ChecksTable Meta t IsCounts
        (state S.Store connection.old) (state S.Store connection.new) result }
    ensures survives { Survives (state S.Store connection.old)
        (state S.Store connection.new) (λ _. ⊥) }
{
    let mut check = MetaCheck { told: None };
    check_rows(
        connection,
        columns!(meta listed "SELECT id, ", " FROM meta ORDER BY id"),
        &mut check,
    )?;
    match check.told {
        Some(told) => told.counts_or_refusal(),
        None => Err(CheckError::NotARegister),
    }
}
