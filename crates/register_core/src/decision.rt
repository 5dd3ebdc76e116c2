//! The verdict on a request, and what it makes of the register, where the key that it names is
//! known.
ghost use Rattle.std.specs.Prelude.{◌≡◌, None, Some, IfOk, IfErr, OnOk, ◌≤◌, List, length, nat_lt};
ghost use Rattle.register_requests.specs.declared.request.Command.{Command};
ghost use Rattle.register_requests.specs.{CommandRule.rule, Version.current};
ghost use Rattle.period_core.specs.Period.{period_or_default};
ghost use Rattle.period_core.specs.{Within.Checks, Fitting.first_that_holds};
ghost use Rattle.register_core.specs.CustodyRefusal.{addition_refusals, custody_refusal_in};
ghost use Rattle.register_core.specs.CustodyRefusal.{refused_if};
ghost use Rattle.register_core.specs.declared.reply.Refusal.TheVariants.{ApprovalsMissing};
ghost use Rattle.register_core.specs.Decision.{IsRightKey, IsViewOf, LeadsTo, change_by_request};
ghost use Rattle.register_core.specs.Decision.{reply_to, reply_of_view};
ghost use Rattle.register_core.specs.Within.{AreDatesAfter};
ghost use Rattle.register_core.specs.Verdict.{moment_refusal, key_refusal, giver_refusal};
ghost use Rattle.register_core.specs.Verdict.{state_refusal, keeps_date, freeze_refusal};
ghost use Rattle.register_core.specs.Verdict.{entry_refusals, occurrence_refusal, limit_refusal};
ghost use Rattle.register_core.specs.Verdict.{judge_view, max_keys, judgement};
ghost use Rattle.register_core.specs.{KeptReply.reply, Need.Suffices};

use crate::change::{Accept, Change};
use crate::effect::{change_by_request, key_dates_after_command};
use crate::limits::MAX_KEYS;
use crate::reply::{Refusal, Reply};
use crate::view::{Held, View};
use lifecycle_core::{Dates, State, state_of};
use moment_core::Moment;
use register_requests::{Command, Edit, Giver, Name, OFFICE, Request, Version};

/// The moment is not below the latest.
fn check_moment(latest: Moment, at: Moment) -> Result<(), Refusal>
    ensures { Checks (moment_refusal latest at) result }
{
    if at < latest {
        Err(Refusal::MomentBehind { latest })
    } else {
        Ok(())
    }
}

/// A key that the command names is there.
fn check_key_exists(key: &Option<Held>, command: &Command) -> Result<(), Refusal>
    ensures { Checks (key_refusal key.now command.now) result }
{
    match (key, command.key()) {
        (None, Some(_)) => Err(Refusal::UnknownKey),
        _ => Ok(()),
    }
}

/// The caller is the one whom the command's rule has as its giver.
fn check_giver(giver: Giver, key: &Option<Held>, caller: &Name) -> Result<(), Refusal>
    ensures { Checks (giver_refusal giver key.now caller.now) result }
{
    match (giver, key) {
        (Giver::Owner, Some(held)) if *caller != held.owner => Err(Refusal::NotOwner),
        (Giver::Custodian, Some(held)) if !held.custodians.contains(caller) => {
            Err(Refusal::NotCustodian)
        }
        (Giver::Office, _) if caller.text() != OFFICE => Err(Refusal::NotOffice),
        // With no key there is no owner to compare: that was refused before.
        _ => Ok(()),
    }
}

/// The key has at the moment one of these states.
fn check_state(states: &[State], key: &Option<Held>, at: Moment) -> Result<(), Refusal>
    ensures { (command : Command) → states.now ≡ (rule command).states
        → Checks (state_refusal (rule command).states key.now at) result }
{
    let Some(held) = key else {
        return Ok(());
    };
    let state = state_of(&held.row.dates, at);
    if states.contains(&state) {
        Ok(())
    } else {
        Err(Refusal::WrongState { state })
    }
}

/// Whether the edit keeps its date.
fn keeps_date(edit: Edit) -> bool
    ensures { result ≡ keeps_date edit }
{
    matches!(edit, Edit::Keep)
}

/// An Activation Date is kept outside Pre-Active, and a Protect Stop that is reached.
fn check_freeze(key: &Option<Held>, at: Moment, command: &Command) -> Result<(), Refusal>
    ensures { Checks (freeze_refusal key.now at command.now) result }
{
    let (
        Some(held),
        Command::SetDates {
            activation,
            protect_stop,
            ..
        },
    ) = (key, command)
    else {
        return Ok(());
    };
    let dates = &held.row.dates;
    let is_active = state_of(dates, at) != State::PreActive;
    let is_stopped = dates.protect_stop.is_some_and(|stop| stop <= at);
    if (!keeps_date(*activation) && is_active) || (!keeps_date(*protect_stop) && is_stopped) {
        Err(Refusal::DateFrozen)
    } else {
        Ok(())
    }
}

/// The refusal, where the condition holds.
fn refuse_if(holds: bool, refusal: Refusal) -> Result<(), Refusal>
    ensures { Checks (refused_if holds refusal) result }
{
    if holds { Err(refusal) } else { Ok(()) }
}

/// The name becomes a custodian only where it is none yet, where the key has fewer than it may have,
/// and where it is not the owner.
fn check_addition(held: &Held, name: &Name) -> Result<(), Refusal>
    ensures { Checks (first_that_holds (addition_refusals current held.now name.now)) result }
{
    let is_full = held.custodians.len() >= Version::CURRENT.max_custodians();
    refuse_if(held.custodians.contains(name), Refusal::AlreadyCustodian)?;
    refuse_if(is_full, Refusal::TooManyCustodians)?;
    refuse_if(*name == held.owner, Refusal::OwnerCustodian)
}

/// The key is destroyed only where as many approvals stand as that needs.
fn check_approvals(held: &Held) -> Result<(), Refusal>
    ensures { Checks (refused_if (nat_lt (length held.now.approvals) held.now.need)
        (ApprovalsMissing (length held.now.approvals) held.now.need)) result }
{
    let have = held.approvals.len();
    let need = held.need;
    refuse_if(
        have < usize::from(need.get()),
        Refusal::ApprovalsMissing { have, need },
    )
}

/// What the command asks of the key's custodians and approvals is not refused; else why.
fn check_custody(key: &Option<Held>, caller: &Name, command: &Command) -> Result<(), Refusal>
    ensures { Checks (custody_refusal_in current key.now caller.now command.now) result }
{
    let Some(held) = key else {
        return Ok(());
    };
    match command {
        Command::AddCustodian { name, .. } => check_addition(held, name),
        Command::RemoveCustodian { name, .. } => {
            refuse_if(!held.custodians.contains(name), Refusal::NoSuchCustodian)
        }
        Command::Assign { owner, .. } => {
            refuse_if(held.custodians.contains(owner), Refusal::OwnerCustodian)
        }
        Command::Approve { .. } => {
            refuse_if(held.approvals.contains(caller), Refusal::AlreadyApproved)
        }
        Command::Withdraw { .. } => {
            refuse_if(!held.approvals.contains(caller), Refusal::NoApproval)
        }
        Command::Destroy { .. } => check_approvals(held),
        _ => Ok(()),
    }
}

/// The occurrence of a compromise is not after the moment.
fn check_occurrence_is_not_later(at: Moment, command: &Command) -> Result<(), Refusal>
    ensures { Checks (occurrence_refusal at command.now) result }
{
    match *command {
        Command::Revoke {
            occurrence: Some(occurrence),
            ..
        } if at < occurrence => Err(Refusal::OccurrenceLater),
        _ => Ok(()),
    }
}

/// A key is made only where there are fewer than the register takes.
fn check_key_limit(keys: u32, command: &Command) -> Result<(), Refusal>
    ensures { Checks (limit_refusal keys command.now) result }
{
    match command {
        Command::Register(_) if keys >= MAX_KEYS => Err(Refusal::Full),
        _ => Ok(()),
    }
}

/// No refusal of the moment, of the key, of who asks or of the key's state holds; else the first.
fn check_moment_key_giver_state(view: &View, request: &Request) -> Result<(), Refusal>
    ensures { Checks (first_that_holds (entry_refusals view.now.latest view.now.key request.now))
        result }
{
    let at = request.moment;
    let command = &request.command;
    check_moment(view.latest, at)?;
    check_key_exists(&view.key, command)?;
    let rule = command.rule();
    check_giver(rule.giver, &view.key, &request.caller)?;
    check_state(rule.states, &view.key, at)
}

/// The dates of the key that the request makes or names, as they are after it where it is accepted.
///
/// # Errors
/// The first refusal of the request that holds.
pub(crate) fn dates_after_or_first_refusal(view: &View, request: &Request) -> Result<Dates, Refusal>
    ensures accepted { OnOk result (judge_view view.now request.now ≡ None) }
    ensures dates { IfOk result
        (AreDatesAfter view.now.period view.now.key request.now.moment request.now.command) }
    ensures refused { IfErr result (λ refusal. judge_view view.now request.now ≡ Some refusal) }
{
    let at = request.moment;
    let command = &request.command;
    check_moment_key_giver_state(view, request)?;
    check_freeze(&view.key, at, command)?;
    let dates = key_dates_after_command(view.period, &view.key, at, command)?;
    check_custody(&view.key, &request.caller, command)?;
    check_occurrence_is_not_later(at, command)?;
    check_key_limit(view.keys, command)?;
    Ok(dates)
}

/// The first refusal of the request that holds, or `None`: it is accepted.
pub fn judge(view: &View, request: &Request) -> Option<Refusal>
    ensures { result ≡ judge_view view.now request.now }
{
    match dates_after_or_first_refusal(view, request) {
        Ok(_) => None,
        Err(refusal) => Some(refusal),
    }
}

/// The reply to an accepted request with this change, where this many keys were made before it.
fn reply_to(keys: u32, at: Moment, change: &Change) -> Reply
    requires { keys ≤ max_keys }
    ensures { result ≡ reply_to keys at change.now }
{
    match change {
        Change::Made(key) => Reply {
            key: keys + 1,
            state: Some(key.row.state),
            moment: at,
        },
        Change::Held { key, row, .. } => Reply {
            key: *key,
            state: Some(row.state),
            moment: at,
        },
        Change::PeriodSet { .. } | Change::Nothing => Reply {
            key: 0,
            state: None,
            moment: at,
        },
    }
}

/// Decides on a request: it is accepted, with what it changes and its reply, or the first refusal
/// that holds. Of the key and of the periods, the view needs no more than the decision looks at.
pub fn decide(view: &View, request: &Request) -> Result<Accept, Refusal>
    requires within { view.now.keys ≤ max_keys }
    requires right { IsRightKey view.now.key view.now.latest }
    ensures refused { IfErr result (λ refusal. judge_view view.now request.now ≡ Some refusal) }
    ensures accepted { IfOk result (λ accept. judge_view view.now request.now ≡ None) }
    ensures change { IfOk result (λ accept. accept.change
        ≡ change_by_request (period_or_default view.now.period) view.now.key request.now) }
    ensures reply { IfOk result (λ accept. accept.reply ≡ reply_of_view view.now request.now) }
    ensures judgement { (h : List Request) → Suffices view.now h request.now →
        IfErr result (λ refusal. judgement h request.now ≡ Some refusal)
        × IfOk result (λ accept. judgement h request.now ≡ None) }
    ensures leads { (h : List Request) → Suffices view.now h request.now →
        IfOk result (λ accept.
        (accept.reply ≡ reply h request.now) × LeadsTo h request.now accept.change) }
    // So it is of the whole key, with both its lists.
    ensures whole_view { (h : List Request) → IsViewOf view.now h request.now.command →
        IfErr result (λ refusal. judgement h request.now ≡ Some refusal)
        × IfOk result (λ accept. (judgement h request.now ≡ None)
        × (accept.reply ≡ reply h request.now) × LeadsTo h request.now accept.change) }
{
    match dates_after_or_first_refusal(view, request) {
        Err(refusal) => Err(refusal),
        Ok(dates) => {
            let change = change_by_request(dates, &view.key, request);
            let reply = reply_to(view.keys, request.moment, &change);
            Ok(Accept { change, reply })
        }
    }
}
