//! The check of the table of requests.
ghost use Rattle.std.specs.Prelude.{◌≡◌, ◌↔◌, false, IsTrue};
ghost use Rattle.sqlite.specs.{Held.state, State.Survives};
ghost use Rattle.register_tables.specs.declared.table.TableName.TheVariants.{Request};
ghost use Rattle.register_checks.specs.CheckedTables.{ShowsKept, mark_of};
ghost use Rattle.register_checks.specs.Within.CheckedTables.{ChecksTable};
ghost use Rattle.register_checks.specs.Stored.{Stored, mark};
ghost use Rattle.register_tables.specs.Within.TableReads.{GivesRow};
ghost use Rattle.register_checks.specs.{OpeningChecks.IsReplyOf, Within.CheckedRows.IsAnything};

use crate::found::Found;
use crate::refusal::CheckError;
use register_core::KeptReply;
use register_tables::{RequestCell, columns, kept_reply_in, name_in, request_number_in};
use row_checks::{RowCheck, check_rows};
use sqlite::{Alter, Connection, Row};
use std::alloc::AllocError;

/// What the row shows of a request, by its first four cells with its caller and its number.
fn kept_request_in(row: &Row) -> Option<KeptReply>
    ensures { GivesRow result (ShowsKept row.now) (λ kept. kept) }
{
    let caller = name_in(row, RequestCell::Caller as usize)?;
    let number = request_number_in(row, RequestCell::Number as usize)?;
    kept_reply_in(row, &caller, number)
}

/// Whether a register of this version, with these counts, may have given the reply.
fn is_reply_of_found_register(kept: &KeptReply, found: Found) -> bool
    ensures { IsTrue result ↔ IsReplyOf (mark_of found) kept.now }
{
    kept.reply.is_within_counts(found.latest, found.keys) && found.version.knows(&kept.command)
}

/// Each request by itself.
#[derive(Drop)]
struct RequestCheck {
    found: Found,
}

impl RowCheck for RequestCheck {
    ghost use Rattle.std.specs.Prelude.{◌≡◌};
    ghost use Rattle.register_checks.specs.CheckedTables.{ShowsKept, mark_of};
    ghost use Rattle.register_checks.specs.CheckedRows.{HasShown, RefusesEach};
    ghost use Rattle.register_checks.specs.OpeningChecks.{IsReplyOf};

    ghost has_taken = { λ first check rows. (check.found ≡ first.found)
        × HasShown ShowsKept (IsReplyOf (mark_of first.found)) rows };

    ghost refuses = { λ first check rows.
        RefusesEach ShowsKept (IsReplyOf (mark_of first.found)) rows };

    fn take_row(&mut self, row: &Row) -> Result<bool, AllocError> {
        let Some(kept) = kept_request_in(row) else {
            return Ok(false);
        };
        Ok(is_reply_of_found_register(&kept, self.found))
    }
}

/// Puts the table of requests to its check, with what meta counts. It changes nothing.
///
/// # Errors
/// As the check of all tables.
pub(crate) fn check_requests<S: Alter>(
    connection: &mut Connection<S>,
    found: &Found,
) -> Result<(), CheckError>
    requires { connection.old.in_transaction ≡ false }
    ensures idle { connection.new.in_transaction ≡ false }
    ensures checks { (t : Stored) → mark_of found.now ≡ mark t → ChecksTable Request t IsAnything
        (state S.Store connection.old) (state S.Store connection.new) result }
    ensures survives { Survives (state S.Store connection.old)
        (state S.Store connection.new) (λ _. ⊥) }
{
    let mut check = RequestCheck { found: *found };
    check_rows(
        connection,
        columns!(request listed "SELECT ", ", caller, number FROM request"),
        &mut check,
    )?;
    Ok(())
}
