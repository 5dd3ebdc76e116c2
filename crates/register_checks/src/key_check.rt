//! The check of the table of keys.
ghost use Rattle.std.specs.Prelude.{◌≡◌, ◌↔◌, false, MatchOption, IsTrue};
ghost use Rattle.register_core.specs.declared.key.Key.{Key};
ghost use Rattle.sqlite.specs.{Held.state, State.Survives};
ghost use Rattle.register_tables.specs.declared.table.TableName.TheVariants.{Keys};
ghost use Rattle.register_checks.specs.OpeningChecks.{ArePast, DatesFit, IsSoundAt};
ghost use Rattle.register_checks.specs.CheckedTables.{ShowsNumbered, mark_of};
ghost use Rattle.register_checks.specs.Within.CheckedTables.{ChecksTable};
ghost use Rattle.register_checks.specs.Stored.{Stored, mark};
ghost use Rattle.register_checks.specs.Within.CheckedRows.{AreOwners};

use crate::found::Found;
use crate::refusal::CheckError;
use lifecycle_core::Dates;
use moment_core::Moment;
use period_core::{KeyType, are_dates_in_order, fits, is_not_after, period_of};
use register_core::{Key, Name, Version};
use register_tables::{KeyCell, columns, key_in, unsigned_integer_in};
use row_checks::{RowCheck, check_rows};
use sqlite::{Alter, Connection, Row};
use std::alloc::{AllocError, Global};

/// Whether the dates are those of a key whose latest request was at this moment or before.
fn are_event_dates_past(dates: &Dates, latest: Moment) -> bool
    ensures { IsTrue result ↔ ArePast latest dates.now }
{
    dates.initial <= latest
        && is_not_after(dates.destroy, Some(latest))
        && is_not_after(dates.compromise, Some(latest))
        && dates.compromise_occurrence.is_some() == dates.compromise.is_some()
        && is_not_after(dates.compromise_occurrence, dates.compromise)
}

/// Whether the dates are those of a key of this type, as the version has it.
fn are_dates_allowed_in_version(version: Version, kind: KeyType, dates: &Dates) -> bool
    ensures { IsTrue result ↔ DatesFit version kind dates.now }
{
    match version {
        Version::First => fits(period_of(kind), dates),
        Version::Second => are_dates_in_order(dates),
    }
}

/// Whether a register of this version may hold the key at its latest moment.
fn is_sound_key(version: Version, key: &Key, latest: Moment) -> bool
    ensures { IsTrue result ↔ IsSoundAt version latest key.now }
{
    let dates = &key.row.dates;
    are_dates_allowed_in_version(version, key.kind, dates)
        && (dates.activation.is_none() || dates.protect_stop.is_some())
        && (dates.activation.is_none() || dates.deactivation.is_some())
        && are_event_dates_past(dates, latest)
        && key.row.has_right_state_at(latest)
}

/// The key with this number that the row shows, where a register with these counts may hold it.
fn sound_key_in(row: &Row, number: u32, found: Found) -> Option<Key>
    ensures { MatchOption result
        ((k : Key) → ShowsNumbered row.now (number, k) → ¬ IsSoundAt found.version found.latest k)
        (λ k. ShowsNumbered row.now (number, k) × IsSoundAt found.version found.latest k) }
{
    let shown = unsigned_integer_in(row, KeyCell::Number as usize)?;
    let key = key_in(row)?;
    if shown == u64::from(number) && is_sound_key(found.version, &key, found.latest) {
        Some(key)
    } else {
        None
    }
}

/// The owners of the keys so far, which are numbered from 1 and are as many as meta counts at most.
#[derive(Drop)]
struct KeyCheck {
    found: Found,
    count: u32,
    owners: Vec<Name>,
}

impl RowCheck for KeyCheck {
    ghost use Rattle.std.specs.Prelude.{◌≡◌};
    ghost use Rattle.register_checks.specs.CheckedRows.{HasCountedKeys, RefusesKeys};

    ghost has_taken = { λ first check rows. (check.found ≡ first.found)
        × HasCountedKeys first.found check.count check.owners.items rows };

    ghost refuses = { λ first check rows. RefusesKeys first.found rows };

    fn take_row(&mut self, row: &Row) -> Result<bool, AllocError> {
        // Before the row is read: no more owners are kept than meta counts, whatever the file has.
        if self.count >= self.found.keys {
            return Ok(false);
        }
        let number = self.count + 1;
        let Some(key) = sound_key_in(row, number, self.found) else {
            return Ok(false);
        };
        self.owners.push(key.owner)?;
        self.count = number;
        Ok(true)
    }
}

/// Puts the table of keys to its check, with what meta counts. Gives the keys' owners. It changes
/// nothing.
///
/// # Errors
/// As the check of all tables.
pub(crate) fn check_keys_and_list_owners<S: Alter>(
    alloc: Global,
    connection: &mut Connection<S>,
    found: &Found,
) -> Result<Vec<Name>, CheckError>
    requires { connection.old.in_transaction ≡ false }
    ensures idle { connection.new.in_transaction ≡ false }
    ensures survives { Survives (state S.Store connection.old)
        (state S.Store connection.new) (λ _. ⊥) }
    ensures checks { (t : Stored) → mark_of found.now ≡ mark t → ChecksTable Keys t AreOwners
        (state S.Store connection.old) (state S.Store connection.new) result }
{
    let mut check = KeyCheck {
        found: *found,
        count: 0,
        owners: Vec::new(alloc),
    };
    check_rows(
        connection,
        columns!(keys listed "SELECT ", ", number FROM keys ORDER BY number"),
        &mut check,
    )?;
    (check.count == check.found.keys)
        .then_some(check.owners)
        .ok_or(CheckError::NotARegister)
}
