//! The command that a JSON value is: first its kind, and then the members of the fields of that
//! kind's shape.
ghost use Rattle.std.specs.Prelude.{◌≡◌, ◌≢◌, ℕ, List, [], ◌∷◌, codes, Option, IfSome, IfNone};
ghost use Rattle.std.specs.Prelude.{◌<◌, ◌≤◌, length, map};
ghost use Rattle.std.specs.List.{zip};
ghost use Rattle.http_messages.specs.declared.command_value.TheConstants.{MAX_MEMBERS};
ghost use Rattle.serde_json.specs.Data.{Data, Members, string, member, no_members};
ghost use Rattle.serde_json.specs.View.{view, members_view};
ghost use Rattle.period_core.specs.{declared.key_type.KeyType.KeyType, Period.Period};
ghost use Rattle.lifecycle_core.specs.declared.reason.Reason.{Reason};
ghost use Rattle.register_requests.specs.declared.command_fields.CommandKind.{CommandKind};
ghost use Rattle.register_requests.specs.declared.request.Command.{Command};
ghost use Rattle.register_requests.specs.declared.command_fields.Fields.{Fields};
ghost use Rattle.register_requests.specs.declared.command_fields.Fields.TheVariants.{Nothing, Key};
ghost use Rattle.register_requests.specs.declared.command_fields.Fields.TheVariants.{DateEdits};
ghost use Rattle.register_requests.specs.declared.command_fields.Fields.TheVariants.{Revocation};
ghost use Rattle.register_requests.specs.declared.command_fields.Fields.TheVariants.{TypeAndPeriod};
ghost use Rattle.register_requests.specs.Within.Fields.{AreFieldsInRange};
ghost use Rattle.register_requests.specs.Request.{IsCommand, IsKeyNumber};
ghost use Rattle.register_requests.specs.{declared.request.Edit.Edit, Fields.fields_of};
ghost use Rattle.register_requests.specs.{Name.IsName, Quorum.IsQuorum, CommandKind.kind_of};
ghost use Rattle.register_requests.specs.declared.command_fields.Fields.TheVariants as fields;
ghost use Rattle.register_requests.specs.declared.command_fields.Shape.TheVariants as shapes;
ghost use Rattle.register_requests.specs.declared.command_fields.CommandKind.TheVariants as kinds;
ghost use Rattle.http_messages.specs.CommandValue.{number_data, kind_data, command_data};
ghost use Rattle.http_messages.specs.CommandValue.{members_of, name_member, fields_members};
ghost use Rattle.http_messages.specs.Within.{HasMembers, IsShaped};

use crate::member_values::{
    date_of, edit_of, key_number_of, key_type_of, name_of, period_of_months, purpose_of, quorum_of,
    reason_of,
};
use register_core::{Command, CommandKind, Fields, Registration, Shape};
use serde_json::{Map, Value};
use std::collections::btree_map::Iter;

/// The value of the next member, if it has this name.
fn next_named<'v>(members: &mut Iter<'v, String, Value>, name: &str) -> Option<&'v Value>
    ensures found { IfSome result (λ value.
        members_view members.old ≡ member name.now (view value.now) (members_view members.new)) }
    ensures none { IfNone result ((d : Data) (rest : Members) →
        members_view members.old ≢ member name.now d rest) }
{
    match members.next() {
        Some((key, value)) => {
            if key.as_str() == name {
                Some(value)
            } else {
                None
            }
        }
        None => None,
    }
}

/// The most members that a command has.
const MAX_MEMBERS: usize = 7;

/// The values of members. Past the last member's stand values that say nothing.
struct MemberValues<'v> {
    values: [&'v Value; MAX_MEMBERS],
}

/// The values of the members, where these are their names.
fn values_named<'v>(members: &'v Map<String, Value>, names: &[&str]) -> Option<MemberValues<'v>>
    requires some { 0 < length names.now }
    requires few { length names.now ≤ MAX_MEMBERS }
    ensures found { IfSome result (λ found. members_view members.now.entries
        ≡ members_of (zip (map (λ name. name.now) names.now)
        (map (λ value. view value.now) found.values))) }
    ensures room { IfSome result (λ found. length found.values ≡ MAX_MEMBERS) }
    ensures none { IfNone result ((values : List Data) → length values ≡ length names.now →
        members_view members.now.entries
        ≢ members_of (zip (map (λ name. name.now) names.now) values)) }
{
    let mut rest = members.iter();
    let first = next_named(&mut rest, names[0])?;
    let mut values = [first; MAX_MEMBERS];
    for at in 1..names.len() {
        values[at] = next_named(&mut rest, names[at])?;
    }
    if rest.next().is_some() {
        return None;
    }
    Some(MemberValues { values })
}

/// No fields: there is no member beside the kind.
fn empty_fields_of(members: &Map<String, Value>) -> Option<Fields>
    ensures found { (of : CommandKind) → IfSome result
        (IsShaped of shapes.Nothing (members_view members.now.entries)) }
    ensures none { IfNone result ((kind : Data) →
        members_view members.now.entries ≢ fields_members kinds.Advance kind Nothing) }
{
    let MemberValues { values: _ } = values_named(members, &["kind"])?;
    Some(Fields::Nothing)
}

/// The key of members that name a key alone.
fn lone_key_of(members: &Map<String, Value>) -> Option<u32>
    ensures found { IfSome result (λ key. IsKeyNumber key
        × HasMembers kinds.Activate (members_view members.now.entries) (Key key)) }
    ensures none { IfNone result ((key : ℕ) (kind : Data) → IsKeyNumber key →
        members_view members.now.entries ≢ fields_members kinds.Activate kind (Key key)) }
{
    let MemberValues { values } = values_named(members, &["key", "kind"])?;
    key_number_of(values[0])
}

/// The key of members that name a key, and the value of the one more, which has this name.
fn key_and_value_of<'v>(members: &'v Map<String, Value>, name: &str) -> Option<(u32, &'v Value)>
    ensures found { IfSome result (λ x. IsKeyNumber x.0 × ((kind : Data) ×
        (members_view members.now.entries ≡ members_of ((codes "key", number_data x.0)
        ∷ (codes "kind", kind) ∷ (name.now, view x.1.now) ∷ [])))) }
    ensures none { IfNone result ((key : ℕ) (kind value : Data) → IsKeyNumber key →
        members_view members.now.entries ≢ members_of ((codes "key", number_data key)
        ∷ (codes "kind", kind) ∷ (name.now, value) ∷ [])) }
{
    let MemberValues { values } = values_named(members, &["key", "kind", name])?;
    let [key, _, value, ..] = values;
    let key = key_number_of(key)?;
    Some((key, value))
}

/// The fields that are a type and its period.
fn type_and_period_fields_of(members: &Map<String, Value>) -> Option<Fields>
    ensures found { (of : CommandKind) → IfSome result
        (IsShaped of shapes.TypeAndPeriod (members_view members.now.entries)) }
    ensures none { IfNone result ((type : KeyType) (period : Period) (kind : Data) →
        AreFieldsInRange (TypeAndPeriod type period) →
        members_view members.now.entries
        ≢ fields_members kinds.SetPeriod kind (TypeAndPeriod type period)) }
{
    let MemberValues { values } = values_named(
        members,
        &["kind", "originator", "recipient", "type"],
    )?;
    let [_, originator, recipient, key_type, ..] = values;
    let kind = key_type_of(key_type)?;
    let period = period_of_months(originator, recipient)?;
    Some(Fields::TypeAndPeriod { kind, period })
}

/// The fields of a revocation. It has an occurrence only where its reason is a compromise.
fn revocation_fields_of(members: &Map<String, Value>) -> Option<Fields>
    ensures found { (of : CommandKind) → IfSome result
        (IsShaped of shapes.Revocation (members_view members.now.entries)) }
    ensures none { IfNone result (
        (key : ℕ) (reason : Reason) (occurrence : Option ℕ) (kind : Data) →
        AreFieldsInRange (Revocation key reason occurrence) →
        members_view members.now.entries
        ≢ fields_members kinds.Revoke kind (Revocation key reason occurrence)) }
{
    let MemberValues { values } = values_named(members, &["key", "kind", "occurrence", "reason"])?;
    let [key, _, occurrence, reason, ..] = values;
    let key = key_number_of(key)?;
    let occurrence = date_of(occurrence)?;
    let reason = reason_of(reason)?;
    if occurrence.is_some() && !reason.is_compromise() {
        return None;
    }
    Some(Fields::Revocation {
        key,
        reason,
        occurrence,
    })
}

/// The fields of a change of dates.
fn date_edit_fields_of(members: &Map<String, Value>) -> Option<Fields>
    ensures found { (of : CommandKind) → IfSome result
        (IsShaped of shapes.DateEdits (members_view members.now.entries)) }
    ensures none { IfNone result (
        (key : ℕ) (activation protect_stop deactivation : Edit) (kind : Data) →
        AreFieldsInRange (DateEdits key activation protect_stop deactivation) →
        members_view members.now.entries
        ≢ fields_members kinds.SetDates kind
        (DateEdits key activation protect_stop deactivation)) }
{
    let MemberValues { values } = values_named(
        members,
        &["activation", "deactivation", "key", "kind", "protect_stop"],
    )?;
    let [activation, deactivation, key, _, protect_stop, ..] = values;
    Some(Fields::DateEdits {
        key: key_number_of(key)?,
        activation: edit_of(activation)?,
        protect_stop: edit_of(protect_stop)?,
        deactivation: edit_of(deactivation)?,
    })
}

/// The fields of a registration.
fn registration_fields_of(members: &Map<String, Value>) -> Option<Fields>
    ensures found { (of : CommandKind) → IfSome result
        (IsShaped of shapes.Registration (members_view members.now.entries)) }
    ensures none { IfNone result ((new : Registration) (kind : Data) →
        AreFieldsInRange (fields.Registration new) →
        members_view members.now.entries
        ≢ fields_members kinds.Register kind (fields.Registration new)) }
{
    let MemberValues { values } = values_named(
        members,
        &[
            "activation",
            "deactivation",
            "kind",
            "owner",
            "protect_stop",
            "purpose",
            "type",
        ],
    )?;
    let [
        activation,
        deactivation,
        _,
        owner,
        protect_stop,
        purpose,
        key_type,
    ] = values;
    Some(Fields::Registration(Registration {
        kind: key_type_of(key_type)?,
        owner: name_of(owner)?,
        activation: date_of(activation)?,
        protect_stop: date_of(protect_stop)?,
        deactivation: date_of(deactivation)?,
        purpose: purpose_of(purpose)?,
    }))
}

/// The member in which a command of the kind has a name beside a key.
fn name_member(kind: CommandKind) -> &'static str
    ensures { result.now ≡ name_member kind }
{
    match kind {
        CommandKind::Assign => "owner",
        _ => "name",
    }
}

/// The fields of this shape, of a command of this kind with these members, whatever the value of
/// `kind` among them.
fn fields_of_shape(kind: CommandKind, shape: Shape, members: &Map<String, Value>) -> Option<Fields>
    ensures found { IfSome result (IsShaped kind shape (members_view members.now.entries)) }
    ensures none { IfNone result ((fields : Fields) →
        IsShaped kind shape (members_view members.now.entries) fields → ⊥) }
{
    match shape {
        Shape::Nothing => empty_fields_of(members),
        Shape::Key => lone_key_of(members).map(|key| Fields::Key { key }),
        Shape::KeyAndName => {
            let (key, value) = key_and_value_of(members, name_member(kind))?;
            let name = name_of(value)?;
            Some(Fields::KeyAndName { key, name })
        }
        Shape::KeyAndNeed => {
            let (key, value) = key_and_value_of(members, "need")?;
            let need = quorum_of(value)?;
            Some(Fields::KeyAndNeed { key, need })
        }
        Shape::TypeAndPeriod => type_and_period_fields_of(members),
        Shape::Registration => registration_fields_of(members),
        Shape::DateEdits => date_edit_fields_of(members),
        Shape::Revocation => revocation_fields_of(members),
    }
}

/// The kind of command whose word the value is.
fn command_kind_of(value: &Value) -> Option<CommandKind>
    ensures found { IfSome result (λ kind. view value.now ≡ kind_data kind) }
    ensures none { IfNone result ((kind : CommandKind) → view value.now ≢ kind_data kind) }
{
    CommandKind::from_text(value.as_str()?.as_bytes())
}

/// The command of this kind with these members, whatever the value of `kind` among them.
fn command_with_members(kind: CommandKind, members: &Map<String, Value>) -> Option<Command>
    ensures found { IfSome result (λ c. IsCommand c × (kind_of c ≡ kind) ×
        HasMembers kind (members_view members.now.entries) (fields_of c)) }
    ensures none { IfNone result ((c : Command) → IsCommand c → kind_of c ≡ kind →
        HasMembers kind (members_view members.now.entries) (fields_of c) → ⊥) }
{
    // By reference: the checker makes no proof of a `?` on fields that are held by value.
    match &fields_of_shape(kind, kind.shape(), members) {
        Some(fields) => Command::with_fields(kind, fields),
        None => None,
    }
}

/// The command that the value is.
pub(crate) fn command_of(value: &Value) -> Option<Command>
    ensures found { IfSome result (λ c. IsCommand c × (view value.now ≡ command_data c)) }
    ensures none { IfNone result ((c : Command) → IsCommand c →
        view value.now ≢ command_data c) }
{
    let kind = command_kind_of(value.get("kind")?)?;
    command_with_members(kind, value.as_object()?)
}
