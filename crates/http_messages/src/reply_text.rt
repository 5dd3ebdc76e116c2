//! The texts of replies, and the JSON values in them.
ghost use Rattle.std.specs.Prelude.{◌≡◌, ◌++◌, [], ◌∷◌, None, Some, IfOk, string_bytes, codes};
ghost use Rattle.std.specs.Prelude.{length, false, Ok, Err, OnOk};
ghost use Rattle.http.specs.StatusCode.{IsStatusCode};
ghost use Rattle.register_core.specs.Answer.{outcome};
ghost use Rattle.http_messages.specs.AnswerText.{json_reply, key_reply, outcome_reply};
ghost use Rattle.http_messages.specs.AnswerText.{refusal_status, usage_reply};
ghost use Rattle.http_messages.specs.AnswerValue.{state_data, reply_data, refusal_data, usage_data};
ghost use Rattle.http_messages.specs.AnswerValue.{names_data, key_data, refusal_name_member};
ghost use Rattle.http_messages.specs.AnswerValue.{refused_member};
ghost use Rattle.http_messages.specs.Within.{date_members};
ghost use Rattle.http_messages.specs.CommandValue.{date_data, members_of};
ghost use Rattle.http_messages.specs.{HttpReply.reply_bytes, Rejection.reply_of};
ghost use Rattle.serde_json.specs.Data.{string, object, put as with_member};
ghost use Rattle.serde_json.specs.{View.view, View.members_view, Written.has_float};

use crate::asked::Rejection;
use http::StatusCode;
use key_rows::Record;
use lifecycle_core::{Dates, State, Usage};
use moment_core::Moment;
use register_core::{Answer, Name, Refusal, Reply};
use serde_json::{Map, Value, json, put};
use std::alloc::{AllocError, Global};

/// The text of a reply with this status and body.
pub(crate) fn reply_text(
    alloc: Global,
    status: StatusCode,
    body: &str,
) -> Result<String, AllocError>
    ensures { IfOk result (λ s. string_bytes s ≡
        reply_bytes (record { status = status; allow = None; body = body.now })) }
{
    let length = body.len();
    format!(in alloc;
        "HTTP/1.1 {status}\r\nContent-Type: application/json\r\nContent-Length: {length}\r\n\
         Connection: close\r\n\r\n{body}"
    )
}

/// The text of a reply that names a method.
pub(crate) fn reply_text_with_allow(
    alloc: Global,
    status: StatusCode,
    method: &str,
    body: &str,
) -> Result<String, AllocError>
    ensures { IfOk result (λ s. string_bytes s ≡
        reply_bytes (record { status = status; allow = Some method.now; body = body.now })) }
{
    let length = body.len();
    format!(in alloc;
        "HTTP/1.1 {status}\r\nContent-Type: application/json\r\nContent-Length: {length}\r\n\
         Allow: {method}\r\nConnection: close\r\n\r\n{body}"
    )
}

/// The text of the reply to an input that is rejected.
pub fn rejection_text(alloc: Global, rejection: Rejection) -> Result<String, AllocError>
    ensures { IfOk result (λ s. string_bytes s ≡ reply_bytes (reply_of rejection)) }
{
    match rejection {
        Rejection::BadRequest => reply_text(
            alloc,
            StatusCode::BAD_REQUEST,
            "{\"name\":\"BadLine\",\"refused\":1}",
        ),
        Rejection::NoRoute => reply_text(alloc, StatusCode::NOT_FOUND, "{\"name\":\"NoRoute\"}"),
        Rejection::MethodNotAllowed(route) => reply_text_with_allow(
            alloc,
            StatusCode::METHOD_NOT_ALLOWED,
            route.method(),
            "{\"name\":\"MethodNotAllowed\"}",
        ),
        Rejection::LengthRequired => reply_text(
            alloc,
            StatusCode::LENGTH_REQUIRED,
            "{\"name\":\"LengthRequired\"}",
        ),
        Rejection::TooLarge => reply_text(
            alloc,
            StatusCode::PAYLOAD_TOO_LARGE,
            "{\"name\":\"TooLarge\"}",
        ),
    }
}

/// A date, or null where there is none.
fn date_value(date: Option<Moment>) -> Value
    ensures { view result ≡ date_data date }
{
    match date {
        Some(date) => Value::from(date.seconds()),
        None => Value::Null,
    }
}

/// A state, or null where there is none.
fn state_value(alloc: Global, state: Option<State>) -> Result<Value, AllocError>
    ensures { IfOk result (λ v. view v ≡ state_data state) }
{
    match state {
        Some(state) => Value::try_from_str(alloc, state.text()),
        None => Ok(Value::Null),
    }
}

/// Puts a text among members.
fn put_text_member(
    members: &mut Map<String, Value>,
    alloc: Global,
    name: &str,
    text: &str,
) -> Result<(), AllocError>
    ensures { OnOk result (members_view members.new.entries
        ≡ with_member name.now (string text.now) (members_view members.old.entries)) }
{
    let text = Value::try_from_str(alloc, text)?;
    put(members, alloc, name, text)
}

/// Puts a date among members, or null where there is none.
fn put_seconds_or_null_member(
    members: &mut Map<String, Value>,
    alloc: Global,
    name: &str,
    date: Option<Moment>,
) -> Result<(), AllocError>
    ensures { OnOk result (members_view members.new.entries
        ≡ with_member name.now (date_data date) (members_view members.old.entries)) }
{
    put(members, alloc, name, date_value(date))
}

/// What an accepted request is answered.
fn reply_value(alloc: Global, reply: &Reply) -> Result<Value, AllocError>
    ensures { IfOk result (λ v. view v ≡ reply_data reply.now) }
{
    let mut members = Map::new(alloc);
    put(&mut members, alloc, "key", Value::from(reply.key))?;
    put_seconds_or_null_member(&mut members, alloc, "moment", Some(reply.moment))?;
    put(
        &mut members,
        alloc,
        "state",
        state_value(alloc, reply.state)?,
    )?;
    Ok(Value::Object(members))
}

/// Puts what a refusal tells beside its name and its number among these.
fn put_refusal_details(
    members: &mut Map<String, Value>,
    alloc: Global,
    refusal: &Refusal,
) -> Result<(), AllocError>
    requires { members_view members.old.entries
        ≡ members_of (refusal_name_member refusal.now ∷ refused_member refusal.now ∷ []) }
    ensures { OnOk result (object (members_view members.new.entries) ≡ refusal_data refusal.now) }
{
    match *refusal {
        Refusal::MomentBehind { latest } => {
            put(members, alloc, "latest", Value::from(latest.seconds()))
        }
        Refusal::WrongState { state } => put_text_member(members, alloc, "state", state.text()),
        Refusal::PeriodTooLong { limit } => {
            put(members, alloc, "limit", Value::from(limit.seconds()))
        }
        Refusal::ApprovalsMissing { have, need } => {
            put(members, alloc, "have", Value::from(have))?;
            put(members, alloc, "need", Value::from(need.get()))
        }
        _ => Ok(()),
    }
}

/// Why a request is refused.
fn refusal_value(alloc: Global, refusal: &Refusal) -> Result<Value, AllocError>
    ensures { IfOk result (λ v. view v ≡ refusal_data refusal.now) }
{
    let mut members = Map::new(alloc);
    put_text_member(&mut members, alloc, "name", refusal.name())?;
    put(
        &mut members,
        alloc,
        "refused",
        Value::from(refusal.number()),
    )?;
    put_refusal_details(&mut members, alloc, refusal)?;
    Ok(Value::Object(members))
}

/// What a key may be used for.
fn usage_value(alloc: Global, usage: &Usage) -> Result<Value, AllocError>
    ensures { IfOk result (λ v. view v ≡ usage_data usage.now) }
{
    let process = usage.process.text();
    json!(in alloc; {"process": process, "protect": usage.protect})
}

/// A list of names.
fn names_value(alloc: Global, names: &[Name]) -> Result<Value, AllocError>
    ensures { IfOk result (λ v. view v ≡ names_data names.now) }
{
    let mut values = Vec::new(alloc);
    for name in names {
        values.push(Value::try_from_str(alloc, name.text())?)?;
    }
    Ok(Value::Array(values))
}

/// Puts a list of names among members.
fn put_names_member(
    members: &mut Map<String, Value>,
    alloc: Global,
    name: &str,
    names: &[Name],
) -> Result<(), AllocError>
    ensures { OnOk result (members_view members.new.entries
        ≡ with_member name.now (names_data names.now) (members_view members.old.entries)) }
{
    let names = names_value(alloc, names)?;
    put(members, alloc, name, names)
}

/// The dates of a key.
fn date_members(alloc: Global, dates: &Dates) -> Result<Map<String, Value>, AllocError>
    ensures { IfOk result (λ m. members_view m.entries ≡ date_members dates.now) }
{
    let mut members = Map::new(alloc);
    put_seconds_or_null_member(&mut members, alloc, "activation", dates.activation)?;
    put_seconds_or_null_member(&mut members, alloc, "compromised", dates.compromise)?;
    put_seconds_or_null_member(&mut members, alloc, "deactivation", dates.deactivation)?;
    put_seconds_or_null_member(&mut members, alloc, "destroyed", dates.destroy)?;
    put_seconds_or_null_member(&mut members, alloc, "initial", Some(dates.initial))?;
    put_seconds_or_null_member(
        &mut members,
        alloc,
        "occurrence",
        dates.compromise_occurrence,
    )?;
    put_seconds_or_null_member(&mut members, alloc, "protect_stop", dates.protect_stop)?;
    Ok(members)
}

/// A key, how many approvals its destruction needs, its custodians, and the names whose approvals
/// stand.
fn key_value(alloc: Global, shown: &Record) -> Result<Value, AllocError>
    ensures { IfOk result (λ v. view v ≡ key_data shown.now) }
{
    let key = &shown.key;
    let mut members = date_members(alloc, &key.row.dates)?;
    put_names_member(&mut members, alloc, "approvals", shown.approvals.as_slice())?;
    put_names_member(
        &mut members,
        alloc,
        "custodians",
        shown.custodians.as_slice(),
    )?;
    put(&mut members, alloc, "need", Value::from(shown.need.get()))?;
    put(&mut members, alloc, "number", Value::from(key.number))?;
    put_text_member(&mut members, alloc, "owner", key.owner.text())?;
    put_text_member(&mut members, alloc, "purpose", key.purpose.text())?;
    put_text_member(&mut members, alloc, "state", key.row.state.text())?;
    put_text_member(&mut members, alloc, "type", key.kind.text())?;
    Ok(Value::Object(members))
}

/// The text of a reply with this status and JSON value.
fn json_reply_text(alloc: Global, status: StatusCode, value: &Value) -> Result<String, AllocError>
    requires { has_float (view value.now) ≡ false }
    ensures { IfOk result (λ s.
        string_bytes s ≡ reply_bytes (json_reply status (view value.now))) }
{
    let body = value.to_string(alloc)?;
    reply_text(alloc, status, body.as_str())
}

/// The status of a refusal.
fn refusal_status(refusal: &Refusal) -> StatusCode
    ensures { result ≡ refusal_status refusal.now }
{
    match refusal {
        Refusal::BadLine => StatusCode::BAD_REQUEST,
        Refusal::UnknownKey => StatusCode::NOT_FOUND,
        _ => StatusCode::CONFLICT,
    }
}

/// The reply to a request that was accepted, now or before.
fn accepted_reply_text(alloc: Global, reply: &Reply) -> Result<String, AllocError>
    ensures { IfOk result (λ s. string_bytes s ≡ reply_bytes (outcome_reply (Ok reply.now))) }
{
    let value = reply_value(alloc, reply)?;
    json_reply_text(alloc, StatusCode::OK, &value)
}

/// The reply to a request that was refused.
fn refused_reply_text(alloc: Global, refusal: &Refusal) -> Result<String, AllocError>
    ensures { IfOk result (λ s. string_bytes s ≡ reply_bytes (outcome_reply (Err refusal.now))) }
{
    let value = refusal_value(alloc, refusal)?;
    json_reply_text(alloc, refusal_status(refusal), &value)
}

/// The text of the reply to a request: the register's reply, or why it refused.
///
/// # Errors
/// Memory gave out.
pub fn answer_reply_text(alloc: Global, answer: &Answer) -> Result<String, AllocError>
    ensures { IfOk result (λ s.
        string_bytes s ≡ reply_bytes (outcome_reply (outcome answer.now))) }
{
    match answer {
        Answer::Accepted(reply) | Answer::Repeated(reply) => accepted_reply_text(alloc, reply),
        Answer::Refused(refusal) => refused_reply_text(alloc, refusal),
    }
}

/// The text of the reply that tells what a key may be used for.
///
/// # Errors
/// Memory gave out.
pub fn usage_reply_text(alloc: Global, usage: &Usage) -> Result<String, AllocError>
    ensures { IfOk result (λ s. string_bytes s ≡ reply_bytes (usage_reply usage.now)) }
{
    let value = usage_value(alloc, usage)?;
    json_reply_text(alloc, StatusCode::OK, &value)
}

/// The text of the reply that shows a key with how many approvals its destruction needs, its
/// custodians, and the names whose approvals stand.
///
/// # Errors
/// Memory gave out.
pub fn key_reply_text(alloc: Global, shown: &Record) -> Result<String, AllocError>
    ensures { IfOk result (λ s. string_bytes s ≡ reply_bytes (key_reply shown.now)) }
{
    let value = key_value(alloc, shown)?;
    json_reply_text(alloc, StatusCode::OK, &value)
}
