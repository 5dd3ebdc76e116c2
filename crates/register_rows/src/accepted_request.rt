//! What an accepted request writes, as one transaction; its own row, and finding it again.
ghost use Rattle.std.specs.Prelude.{◌≡◌, ◌≢◌, ℕ, pos, Option, MatchOption, ◌≤◌, ◌+◌, IfOk, Err};
ghost use Rattle.sqlite.specs.declared.types.Value.TheVariants.{Int, Text as Words};
ghost use Rattle.sqlite.specs.{Held.state, Order.column};
ghost use Rattle.sqlite_value.specs.Value.{owned};
ghost use Rattle.lifecycle_core.specs.declared.state.State.{State};
ghost use Rattle.register_core.specs.declared.kept_reply.KeptReply.{KeptReply};
ghost use Rattle.register_core.specs.{KeptReply.IsKeptReply, Verdict.max_keys};
ghost use Rattle.register_requests.specs.Request.{IsCommand, command_text};
ghost use Rattle.register_requests.specs.{Number.IsNumber, declared.request.Command.Command};
ghost use Rattle.register_tables.specs.TableChanges.{Makes, with_recorded, AreRightAt, HasKeys};
ghost use Rattle.register_tables.specs.TableChanges.{with_keys_advanced};
ghost use Rattle.register_rows.specs.Within.TableChanges.{Always, with_counts, with_kept};
ghost use Rattle.register_tables.specs.TableReads.{Calls, HasRequest, Reads, ShowsRequest, seen};
ghost use Rattle.register_tables.specs.FoundRows.{GivesCell, GivesCellIn};
ghost use Rattle.register_rows.specs.AcceptedRequest.{CanTake, with_request};
ghost use Rattle.register_rows.specs.Change.{made_count, with_change, with_custody};
ghost use Rattle.register_rows.specs.Within.Due.{moved_on, update_text, with_each};
ghost use Rattle.register_tables.specs.{Within.StepCount.WritesInside, Tables.state_cell};
ghost use Rattle.sql_steps.specs.Steps.{TransactsBy};

use crate::setting::{Setting, write_setting};
use crate::stored_key::RoleChange::{Given, Taken};
use crate::stored_key::{
    Role, add_key, end_approvals, give_or_take_role, set_owner_state_and_dates,
};
use lifecycle_core::State;
use moment_core::Moment;
use register_core::CustodyChange::{
    ApprovalsEnded, Approved, CustodianAdded, CustodianRemoved, Kept, NeedSet, Withdrawn,
};
use register_core::{Change, CustodyChange, KeptReply, Name, RequestNumber, command_text};
use register_tables::{
    Counted, Inside, MomentCell, StepCount, StoreError, Work, columns, kept_reply_in,
};
use sqlite::types::{ToSql, ValueRef};
use sqlite::{Alter, params};

/// A request's number.
#[derive(Clone, Copy)]
struct NumberCell(RequestNumber);

impl<'a> ToSql<'a> for NumberCell {
    ghost to_sql = { λ number. Int (pos number.0) };

    fn to_sql(self) -> ValueRef<'a>
        ensures { owned result ≡ Int (pos self.0) }
    {
        ValueRef::Int(self.0.get() as i64)
    }
}

/// The state in a reply, kept as its code, or as 0 where there is none.
#[derive(Clone, Copy)]
struct ReplyStateCell(Option<State>);

impl<'a> ToSql<'a> for ReplyStateCell {
    ghost to_sql = { λ state. Int (pos (state_cell state.0)) };

    fn to_sql(self) -> ValueRef<'a>
        ensures { owned result ≡ Int (pos (state_cell self.0)) }
    {
        match self.0 {
            Some(state) => ValueRef::Int(i64::from(state.code())),
            None => ValueRef::Int(0),
        }
    }
}

/// What is kept of the caller's request under this number, or `None` where none was accepted. It
/// changes nothing.
///
/// # Errors
/// [`StoreError::Database`] where the database refused, and [`StoreError::NoRegister`] where the
/// row is one that no register holds.
pub fn find_request<S: Alter>(
    connection: &mut Counted<S>,
    caller: &Name,
    number: RequestNumber,
) -> Result<Option<KeptReply>, StoreError>
    ensures counted { Calls 2 connection.old connection.new }
    ensures reads { Reads S.Store (HasRequest caller.now number)
        connection.old connection.new result }
    ensures no_memory { result ≢ Err StoreError.Memory }
{
    connection.find_one_row(
        columns!(request listed "SELECT ", " FROM request WHERE caller = ?1 AND number = ?2"),
        params![caller.text(), NumberCell(number)],
        |row| kept_reply_in(row, caller, number),
    )
}

/// Adds what is kept of a request. The database refuses it where the caller's number has a row.
fn add_request<T: Inside>(
    tx: &mut T,
    steps: &mut StepCount,
    kept: &KeptReply,
) -> Result<(), StoreError>
    ensures { WritesInside T.Inside.sees T.Inside.name 1
        (Makes (λ _. IsKeptReply kept.now) (with_kept kept.now))
        tx.old tx.new steps.old steps.new result }
{
    let command = command_text(&kept.command);
    tx.execute(
        steps,
        columns!(
            request given "INSERT INTO request (caller, number",
            ") VALUES (:caller, :number", ")"
        ),
        params![
            kept.caller.text(),
            NumberCell(kept.number),
            command.as_str(),
            kept.reply.key,
            ReplyStateCell(kept.reply.state),
            MomentCell(kept.reply.moment)
        ],
    )?;
    Ok(())
}

/// Sets the latest moment and the number of keys.
fn set_latest_and_key_count<T: Inside>(
    tx: &mut T,
    steps: &mut StepCount,
    latest: Moment,
    key_count: u32,
) -> Result<(), StoreError>
    ensures { WritesInside T.Inside.sees T.Inside.name 1
        (Makes Always (with_counts latest key_count))
        tx.old tx.new steps.old steps.new result }
{
    tx.execute(
        steps,
        "UPDATE meta SET latest = ?1, key_count = ?2 WHERE id = 1",
        params![MomentCell(latest), key_count],
    )?;
    Ok(())
}

/// Writes what is kept of the request that is accepted: its row, its moment as the latest, and the
/// number of keys after it.
///
/// # Errors
/// [`StoreError::Database`] where the database refused, as it does where the caller's number has a
/// row already.
pub(crate) fn record_request<T: Inside>(
    tx: &mut T,
    steps: &mut StepCount,
    kept: &KeptReply,
    key_count: u32,
) -> Result<(), StoreError>
    ensures { WritesInside T.Inside.sees T.Inside.name 2
        (Makes (λ _. IsKeptReply kept.now) (with_recorded kept.now key_count))
        tx.old tx.new steps.old steps.new result }
{
    add_request(tx, steps, kept)?;
    set_latest_and_key_count(tx, steps, kept.reply.moment, key_count)
}

/// A date of a key by which time moves it on.
#[derive(Clone, Copy)]
enum DueDate {
    /// From Pre-Active to Active.
    Activation,
    /// From Active to Deactivated.
    Deactivation,
}

impl DueDate {
    /// The statement that moves the keys whose date is reached.
    fn update_sql(self) -> &'static str
        ensures { result.now ≡ update_text self }
    {
        match self {
            DueDate::Activation => "UPDATE keys SET state = 2 WHERE state = 1 AND activation <= ?1",
            DueDate::Deactivation => {
                "UPDATE keys SET state = 3 WHERE state = 2 AND deactivation <= ?1"
            }
        }
    }
}

/// Moves the keys on that are due by this date.
fn advance_keys_by_date<T: Inside>(
    tx: &mut T,
    steps: &mut StepCount,
    date: DueDate,
    at: Moment,
) -> Result<(), StoreError>
    ensures { WritesInside T.Inside.sees T.Inside.name 1
        (Makes Always (with_each (moved_on date at)))
        tx.old tx.new steps.old steps.new result }
{
    tx.execute(steps, date.update_sql(), params![MomentCell(at)])?;
    Ok(())
}

/// Moves each key from its state at `latest` to its state at `at`, which is no earlier moment. A
/// row whose state stays is not written.
///
/// # Errors
/// [`StoreError::Database`] where the database refused.
fn advance_due<T: Inside>(
    tx: &mut T,
    steps: &mut StepCount,
    latest: Moment,
    at: Moment,
) -> Result<(), StoreError>
    requires { latest ≤ at }
    ensures { WritesInside T.Inside.sees T.Inside.name 2
        (Makes (AreRightAt latest) (with_keys_advanced at))
        tx.old tx.new steps.old steps.new result }
{
    // No date comes to be reached at a moment that was there already.
    if latest == at {
        return Ok(());
    }
    // In this order, since a key may pass both dates at once: the second takes the Active keys on.
    advance_keys_by_date(tx, steps, DueDate::Activation, at)?;
    advance_keys_by_date(tx, steps, DueDate::Deactivation, at)
}

/// Writes what becomes of the custody of the key with this number.
fn write_custody<T: Inside>(
    tx: &mut T,
    steps: &mut StepCount,
    number: u32,
    custody: &CustodyChange,
) -> Result<(), StoreError>
    ensures { WritesInside T.Inside.sees T.Inside.name 2
        (Makes Always (with_custody number custody.now))
        tx.old tx.new steps.old steps.new result }
{
    match custody {
        Kept => Ok(()),
        CustodianAdded(name) => give_or_take_role(tx, steps, Given(Role::Custodian), number, name),
        CustodianRemoved(name) => give_or_take_role(
            tx,
            steps,
            Taken(Role::Custodian),
            number,
            name,
        ),
        Approved(name) => give_or_take_role(tx, steps, Given(Role::Approver), number, name),
        Withdrawn(name) => give_or_take_role(tx, steps, Taken(Role::Approver), number, name),
        ApprovalsEnded => end_approvals(tx, steps, number),
        NeedSet(need) => {
            let need = Setting::Need {
                key: number,
                need: *need,
            };
            write_setting(tx, steps, need)
        }
    }
}

/// Writes the change; `keys` is the number of keys before it.
///
/// # Errors
/// [`StoreError::Database`] where the database refused.
fn write_change<T: Inside>(
    tx: &mut T,
    steps: &mut StepCount,
    keys: u32,
    change: &Change,
) -> Result<(), StoreError>
    requires { keys ≤ max_keys }
    ensures { WritesInside T.Inside.sees T.Inside.name 3
        (Makes (HasKeys keys) (with_change change.now))
        tx.old tx.new steps.old steps.new result }
{
    match change {
        Change::Made(key) => add_key(tx, steps, keys + 1, key),
        Change::Held {
            key,
            owner,
            row,
            custody,
        } => {
            set_owner_state_and_dates(tx, steps, *key, owner, row)?;
            write_custody(tx, steps, *key, custody)
        }
        Change::PeriodSet { kind, period } => {
            let period = Setting::Period {
                kind: *kind,
                period: *period,
            };
            write_setting(tx, steps, period)
        }
        Change::Nothing => Ok(()),
    }
}

/// How many keys there are after the change.
fn key_count_after_change(keys: u32, change: &Change) -> u32
    requires { keys ≤ max_keys }
    ensures { result ≡ keys + made_count change.now }
{
    match change {
        Change::Made(_) => keys + 1,
        Change::Held { .. } | Change::PeriodSet { .. } | Change::Nothing => keys,
    }
}

/// What is written of an accepted request.
#[derive(Drop)]
struct AcceptedRequest<'a> {
    /// How many keys there are before it.
    keys: u32,
    /// The latest moment before it.
    latest: Moment,
    change: &'a Change,
    kept: &'a KeptReply,
    ghost within: { keys ≤ max_keys },
    ghost later: { latest ≤ kept.now.reply.moment },
}

impl Work for AcceptedRequest<'_> {
    ghost use Rattle.register_tables.specs.TableChanges.{Makes};
    ghost use Rattle.register_rows.specs.AcceptedRequest.{CanTake, with_request};

    ghost change = { λ w. Makes (CanTake w.keys w.latest w.kept.now)
        (with_request w.keys w.change.now w.kept.now) };

    ghost most = { 7 };

    /// Each key that is due moves on, the change is written, and the request, the latest moment and
    /// the number of keys are kept.
    fn run<T: Inside>(&self, tx: &mut T, steps: &mut StepCount) -> Result<(), StoreError> {
        advance_due(tx, steps, self.latest, self.kept.reply.moment)?;
        write_change(tx, steps, self.keys, self.change)?;
        let keys = key_count_after_change(self.keys, self.change);
        record_request(tx, steps, self.kept, keys)
    }
}

/// Makes the change of an accepted request in one transaction, so that a stop leaves all of it or
/// nothing; there were so many keys before it, and this was the latest moment. It gives how many
/// keys there are after it.
///
/// # Errors
/// [`StoreError::Database`] where the database refused. It then holds what it held, or what the
/// request makes of it.
pub fn commit_request<S: Alter>(
    connection: &mut Counted<S>,
    keys: u32,
    latest: Moment,
    change: &Change,
    kept: &KeptReply,
) -> Result<u32, StoreError>
    requires within { keys ≤ max_keys }
    requires later { latest ≤ kept.now.reply.moment }
    ensures steps { Calls 9 connection.old connection.new }
    ensures written { TransactsBy
        (Makes (CanTake keys latest kept.now) (with_request keys change.now kept.now))
        (seen S.Store connection.old) (seen S.Store connection.new) result }
    ensures keys { IfOk result (λ after. after ≡ keys + made_count change.now) }
{
    let request = AcceptedRequest {
        keys,
        latest,
        change,
        kept,
    };
    connection.transact(&request)?;
    Ok(key_count_after_change(keys, change))
}
