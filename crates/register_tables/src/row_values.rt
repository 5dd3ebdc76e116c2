//! The key and the kept request that a row shows.
ghost use Rattle.std.specs.Prelude.{◌≡◌, ◌≢◌, pos, Option, MatchOption};
ghost use Rattle.sqlite.specs.declared.types.Value.TheVariants.{Int, Text as Words};
ghost use Rattle.sqlite.specs.Order.{column};
ghost use Rattle.lifecycle_core.specs.declared.dates.Dates.{Dates};
ghost use Rattle.lifecycle_core.specs.declared.state.State.{State};
ghost use Rattle.register_core.specs.declared.kept_reply.KeptReply.{KeptReply};
ghost use Rattle.register_core.specs.{declared.key.Key.Key, Dates.AreDates, KeptReply.IsKeptReply};
ghost use Rattle.register_requests.specs.Request.{IsCommand, command_text};
ghost use Rattle.register_requests.specs.{Number.IsNumber, declared.request.Command.Command};
ghost use Rattle.register_tables.specs.TableReads.{ShowsDates, ShowsKey, ShowsRequest};
ghost use Rattle.register_tables.specs.FoundRows.{GivesCell, GivesCellIn};
ghost use Rattle.register_tables.specs.Tables.{IsKey, state_cell};

use crate::cells::{
    date_in, key_number_or_zero_in, key_type_in, moment_in, name_in, purpose_in, state_in, text_in,
    unsigned_integer_in,
};
use crate::columns::{KeyCell, RequestCell};
use lifecycle_core::{Dates, Row, State};
use register_core::{Command, KeptReply, Key, Name, Reply, RequestNumber, read_command};

/// The dates that the row shows.
fn dates_in(row: &sqlite::Row) -> Option<Dates>
    ensures { MatchOption result
        ((d : Dates) → AreDates d → ¬ ShowsDates row.now d) (ShowsDates row.now) }
{
    Some(Dates {
        initial: moment_in(row, KeyCell::Initial as usize)?,
        activation: date_in(row, KeyCell::Activation as usize)?,
        protect_stop: date_in(row, KeyCell::ProtectStop as usize)?,
        deactivation: date_in(row, KeyCell::Deactivation as usize)?,
        destroy: date_in(row, KeyCell::Destroyed as usize)?,
        compromise: date_in(row, KeyCell::Compromised as usize)?,
        compromise_occurrence: date_in(row, KeyCell::Occurrence as usize)?,
    })
}

/// The key whose cells these are.
pub fn key_in(row: &sqlite::Row) -> Option<Key>
    ensures { MatchOption result ((k : Key) → IsKey k → ¬ ShowsKey row.now k) (ShowsKey row.now) }
{
    Some(Key {
        kind: key_type_in(row, KeyCell::Kind as usize)?,
        owner: name_in(row, KeyCell::Owner as usize)?,
        purpose: purpose_in(row, KeyCell::Purpose as usize)?,
        row: Row {
            state: state_in(row, KeyCell::State as usize)?,
            dates: dates_in(row)?,
        },
    })
}

/// The state of a reply in the cell, which may be none.
fn state_or_none_in(row: &sqlite::Row, at: usize) -> Option<Option<State>>
    ensures { GivesCell result (column row.now at) (λ state. Int (pos (state_cell state))) }
{
    if unsigned_integer_in(row, at)? == 0 {
        return Some(None);
    }
    state_in(row, at).map(Some)
}

/// The number of a request in the cell.
pub fn request_number_in(row: &sqlite::Row, at: usize) -> Option<RequestNumber>
    ensures { GivesCellIn result (column row.now at) IsNumber (λ number. Int (pos number)) }
{
    RequestNumber::new(unsigned_integer_in(row, at)?)
}

/// The command in the cell.
fn command_in(row: &sqlite::Row, at: usize) -> Option<Command>
    ensures { MatchOption result
        ((command : Command) → IsCommand command
        → column row.now at ≢ Words (command_text command))
        (λ command. (column row.now at ≡ Words (command_text command)) × IsCommand command) }
{
    read_command(text_in(row, at)?)
}

/// What is kept of the caller's request under this number, with its command and its reply in these
/// cells.
pub fn kept_reply_in(row: &sqlite::Row, caller: &Name, number: RequestNumber) -> Option<KeptReply>
    ensures { MatchOption result
        ((k : KeptReply) → IsKeptReply k → ¬ ShowsRequest caller.now number row.now k)
        (ShowsRequest caller.now number row.now) }
{
    let kept = KeptReply {
        caller: *caller,
        number,
        command: command_in(row, RequestCell::Command as usize)?,
        reply: Reply {
            key: key_number_or_zero_in(row, RequestCell::Key as usize)?,
            state: state_or_none_in(row, RequestCell::State as usize)?,
            moment: moment_in(row, RequestCell::Moment as usize)?,
        },
    };
    if kept.fits_its_command() {
        Some(kept)
    } else {
        None
    }
}
