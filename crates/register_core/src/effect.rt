//! What a command does to a key, to its dates, its owner and its custody, and what it changes
//! besides.
ghost use Rattle.std.specs.Prelude.{◌≡◌, None, Option, Some, IsSome, IfOk, IfErr, OnOk};
ghost use Rattle.period_core.specs.Period.{Period, period_or_default};
ghost use Rattle.period_core.specs.{declared.key_type.KeyType.KeyType, Fitting.cut_to_limit};
ghost use Rattle.register_core.specs.Effect.{owner_after, unset_dates, date_after_edit};
ghost use Rattle.register_core.specs.Effect.{asked_dates, dates_after, dates_before};
ghost use Rattle.register_core.specs.Effect.{row_with_dates_at, custody_change};
ghost use Rattle.register_core.specs.Decision.{change_by_request, change_without_key};
ghost use Rattle.register_core.specs.Decision.{change_of_held_key};
ghost use Rattle.register_core.specs.{Within.AreDatesAfter, Verdict.dates_refusal};

use crate::change::{Change, CustodyChange};
use crate::fitting::{Fitting, needed_period_type};
use crate::key::Key;
use crate::reply::Refusal;
use crate::view::Held;
use lifecycle_core::{Dates, Row, state_of};
use moment_core::{FIRST_MOMENT, Moment};
use period_core::{Period, period_or_default};
use register_requests::{Command, Edit, Name, Registration, Request};

/// The dates of a key before it is registered: none is set.
pub fn unset_dates() -> Dates
    ensures { result ≡ unset_dates }
{
    Dates {
        initial: FIRST_MOMENT,
        activation: None,
        protect_stop: None,
        deactivation: None,
        destroy: None,
        compromise: None,
        compromise_occurrence: None,
    }
}

/// The date after an edit.
fn date_after_edit(edit: Edit, before: Option<Moment>) -> Option<Moment>
    ensures { result ≡ date_after_edit edit before }
{
    match edit {
        Edit::Keep => before,
        Edit::Clear => None,
        Edit::Set(date) => Some(date),
    }
}

/// The dates with the state that they give at the moment.
fn row_with_dates_at(dates: Dates, at: Moment) -> Row
    ensures { result ≡ row_with_dates_at dates at }
{
    Row {
        dates,
        state: state_of(&dates, at),
    }
}

/// The earlier of the date and the moment, where the date is set.
fn cut_date_at(at: Moment, date: Option<Moment>) -> Option<Moment>
    ensures { result ≡ cut_to_limit date (Some at) }
{
    match date {
        Some(date) if at < date => Some(at),
        _ => date,
    }
}

/// The dates of the key as it stands; where there is none, no date is set.
fn dates_before(key: &Option<Held>) -> Dates
    ensures { result ≡ dates_before key.now }
{
    match key {
        Some(held) => held.row.dates,
        None => unset_dates(),
    }
}

/// The dates that the command asks for at the moment, before a period is looked at.
fn asked_dates(dates: &Dates, at: Moment, command: &Command) -> Dates
    ensures { result ≡ asked_dates dates.now at command.now }
{
    match *command {
        Command::Register(new) => Dates {
            initial: at,
            activation: new.activation,
            protect_stop: new.protect_stop,
            deactivation: new.deactivation,
            ..unset_dates()
        },
        Command::Activate { .. } => Dates {
            activation: Some(at),
            ..*dates
        },
        Command::SetDates {
            activation,
            protect_stop,
            deactivation,
            ..
        } => Dates {
            activation: date_after_edit(activation, dates.activation),
            protect_stop: date_after_edit(protect_stop, dates.protect_stop),
            deactivation: date_after_edit(deactivation, dates.deactivation),
            ..*dates
        },
        Command::Revoke {
            reason,
            occurrence,
            ..
        } if reason.is_compromise() => Dates {
            compromise: Some(at),
            compromise_occurrence: Some(occurrence.unwrap_or(dates.initial)),
            ..*dates
        },
        Command::Revoke { .. } => Dates {
            deactivation: Some(at),
            protect_stop: cut_date_at(at, dates.protect_stop),
            ..*dates
        },
        Command::Destroy { .. } => Dates {
            destroy: Some(at),
            ..*dates
        },
        _ => *dates,
    }
}

/// The dates after the command at the moment of the key that it makes or names, by the period that
/// is set for the key's type, if one is.
///
/// # Errors
/// Their refusal.
pub(crate) fn key_dates_after_command(
    set: Option<Period>,
    key: &Option<Held>,
    at: Moment,
    command: &Command,
) -> Result<Dates, Refusal>
    ensures dates { IfOk result (AreDatesAfter set key.now at command.now) }
    ensures ok { OnOk result
        (dates_refusal (period_or_default set) key.now at command.now ≡ None) }
    ensures err { IfErr result (λ refusal.
        dates_refusal (period_or_default set) key.now at command.now ≡ Some refusal) }
{
    let asked = asked_dates(&dates_before(key), at, command);
    let Some(kind) = needed_period_type(key, command) else {
        return Ok(asked);
    };
    Ok(Fitting::of(command).fit(period_or_default(kind, set), asked)?)
}

/// What becomes of the custody of a key with these dates, by the caller's command.
fn custody_change(dates: &Dates, caller: Name, command: &Command) -> CustodyChange
    ensures { result ≡ custody_change dates.now caller command.now }
{
    match *command {
        // Those of a destroyed key stay: they tell who approved of what was done.
        Command::Revoke { reason, .. } if reason.is_compromise() && dates.destroy.is_none() => {
            CustodyChange::ApprovalsEnded
        }
        Command::AddCustodian { name, .. } => CustodyChange::CustodianAdded(name),
        Command::RemoveCustodian { name, .. } => CustodyChange::CustodianRemoved(name),
        Command::Approve { .. } => CustodyChange::Approved(caller),
        Command::Withdraw { .. } => CustodyChange::Withdrawn(caller),
        Command::SetQuorum { need, .. } => CustodyChange::NeedSet(need),
        _ => CustodyChange::Kept,
    }
}

/// The owner after the command.
fn owner_after(before: Name, command: &Command) -> Name
    ensures { result ≡ owner_after before command.now }
{
    match *command {
        Command::Register(Registration { owner, .. }) | Command::Assign { owner, .. } => owner,
        _ => before,
    }
}

/// What the accepted request makes of the key that it names by this number, where these are the
/// key's dates after it.
fn change_of_held_key(dates: Dates, key: u32, held: &Held, request: &Request) -> Change
    ensures { (periods : KeyType → Period)
        → dates ≡ dates_after (periods held.now.kind) held.now.row.dates request.now.moment
        request.now.command
        → result ≡ change_of_held_key periods key held.now request.now }
{
    let command = &request.command;
    Change::Held {
        key,
        owner: owner_after(held.owner, command),
        row: row_with_dates_at(dates, request.moment),
        custody: custody_change(&held.row.dates, request.caller, command),
    }
}

/// What the accepted command changes that is about no key, of what the register keeps besides keys.
fn change_without_key(command: &Command) -> Change
    ensures { result ≡ change_without_key command.now }
{
    match *command {
        Command::SetPeriod { kind, period } => Change::PeriodSet { kind, period },
        _ => Change::Nothing,
    }
}

/// What the accepted request changes, where it names this key, and these are the dates after it.
pub(crate) fn change_by_request(dates: Dates, named: &Option<Held>, request: &Request) -> Change
    ensures { (set : Option Period)
        → AreDatesAfter set named.now request.now.moment request.now.command dates
        → result ≡ change_by_request (period_or_default set) named.now request.now }
{
    let command = &request.command;
    if let Command::Register(new) = *command {
        return Change::Made(Key {
            kind: new.kind,
            owner: new.owner,
            purpose: new.purpose,
            row: row_with_dates_at(dates, request.moment),
        });
    }
    match (command.key(), named) {
        (Some(key), Some(held)) => change_of_held_key(dates, key, held, request),
        (Some(_), None) => Change::Nothing,
        (None, _) => change_without_key(command),
    }
}
