//! What the value of a member of a JSON object stands for.
ghost use Rattle.std.specs.Prelude.{◌≡◌, ◌≢◌, ◌↔◌, ◌<◌, ◌^◌, ℕ, List, Option, IsTrue, IfSome};
ghost use Rattle.std.specs.Prelude.{IfNone};
ghost use Rattle.serde_json.specs.{Data.string, View.view};
ghost use Rattle.moment_core.specs.Moment.{IsMoment};
ghost use Rattle.lifecycle_core.specs.{declared.reason.Reason.Reason, Reason.reason_code};
ghost use Rattle.period_core.specs.declared.key_type.KeyType.{KeyType};
ghost use Rattle.period_core.specs.{Period.Period, Period.IsPeriod, KeyType.key_type_text};
ghost use Rattle.register_requests.specs.Request.{IsDate, IsEdit, IsKeyNumber};
ghost use Rattle.register_requests.specs.declared.request.Edit.{Edit};
ghost use Rattle.register_requests.specs.{Name.IsName, Purpose.IsPurpose, Quorum.IsQuorum};
ghost use Rattle.http_messages.specs.CommandValue.{number_data, date_data, edit_data};

use lifecycle_core::Reason;
use moment_core::Moment;
use period_core::{KeyType, Period};
use register_core::{Edit, Name, Purpose, Quorum};
use serde_json::Value;

/// The number of a key that the value is.
pub(crate) fn key_number_of(value: &Value) -> Option<u32>
    ensures found { IfSome result (λ key. IsKeyNumber key × (view value.now ≡ number_data key)) }
    ensures none { IfNone result ((key : ℕ) → IsKeyNumber key → view value.now ≢ number_data key) }
{
    let key = u32::try_from(value.as_u64()?).ok()?;
    if key > 0 { Some(key) } else { None }
}

/// How many approvals the value is, for the destruction of a key.
pub(crate) fn quorum_of(value: &Value) -> Option<Quorum>
    ensures found { IfSome result (λ need. IsQuorum need × (view value.now ≡ number_data need)) }
    ensures none { IfNone result ((need : ℕ) → IsQuorum need → view value.now ≢ number_data need) }
{
    Quorum::new(u8::try_from(value.as_u64()?).ok()?)
}

/// The number of at most sixteen bits that the value is.
fn months_of(value: &Value) -> Option<u16>
    ensures found { IfSome result (λ months. view value.now ≡ number_data months) }
    ensures none { IfNone result ((months : ℕ) → months < 2 ^ 16 →
        view value.now ≢ number_data months) }
{
    u16::try_from(value.as_u64()?).ok()
}

/// The period whose months of originator use and of recipient use the values are.
pub(crate) fn period_of_months(originator: &Value, recipient: &Value) -> Option<Period>
    ensures found { IfSome result (λ period. IsPeriod period ×
        (view originator.now ≡ number_data period.originator) ×
        (view recipient.now ≡ number_data period.recipient)) }
    ensures none { IfNone result ((period : Period) → IsPeriod period →
        view originator.now ≡ number_data period.originator →
        view recipient.now ≢ number_data period.recipient) }
{
    let originator = months_of(originator)?;
    let recipient = months_of(recipient)?;
    Period::new(originator, recipient)
}

/// The moment that the value is.
fn moment_of(value: &Value) -> Option<Moment>
    ensures found { IfSome result (λ date. view value.now ≡ number_data date) }
    ensures none { IfNone result ((date : ℕ) → IsMoment date → view value.now ≢ number_data date) }
{
    Moment::new(value.as_u64()?)
}

/// The date that the value is, null for none.
pub(crate) fn date_of(value: &Value) -> Option<Option<Moment>>
    ensures found { IfSome result (λ date. IsDate date × (view value.now ≡ date_data date)) }
    ensures none { IfNone result ((date : Option ℕ) → IsDate date →
        view value.now ≢ date_data date) }
{
    if value.is_null() {
        return Some(None);
    }
    let date = moment_of(value)?;
    Some(Some(date))
}

/// The text that the value is.
pub(crate) fn text_of(value: &Value) -> Option<&str>
    ensures found { IfSome result (λ text. view value.now ≡ string text.now) }
    ensures none { IfNone result ((text : List ℕ) → view value.now ≢ string text) }
{
    value.as_str()
}

/// Whether the value is this text.
fn is_text(value: &Value, text: &str) -> bool
    ensures { IsTrue result ↔ (view value.now ≡ string text.now) }
{
    match text_of(value) {
        Some(found) => found == text,
        None => false,
    }
}

/// What becomes of a date: null unsets it, and the text "keep" leaves it.
pub(crate) fn edit_of(value: &Value) -> Option<Edit>
    ensures found { IfSome result (λ edit. IsEdit edit × (view value.now ≡ edit_data edit)) }
    ensures none { IfNone result ((edit : Edit) → IsEdit edit → view value.now ≢ edit_data edit) }
{
    if is_text(value, "keep") {
        return Some(Edit::Keep);
    }
    match date_of(value) {
        Some(Some(date)) => Some(Edit::Set(date)),
        Some(None) => Some(Edit::Clear),
        None => None,
    }
}

/// The name that the value is.
pub(crate) fn name_of(value: &Value) -> Option<Name>
    ensures found { IfSome result (λ name. IsName name × (view value.now ≡ string name)) }
    ensures none { IfNone result ((name : List ℕ) → IsName name → view value.now ≢ string name) }
{
    Name::new(text_of(value)?.as_bytes())
}

/// The purpose that the value is.
pub(crate) fn purpose_of(value: &Value) -> Option<Purpose>
    ensures found { IfSome result (λ purpose.
        IsPurpose purpose × (view value.now ≡ string purpose)) }
    ensures none { IfNone result ((purpose : List ℕ) → IsPurpose purpose →
        view value.now ≢ string purpose) }
{
    Purpose::new(text_of(value)?.as_bytes())
}

/// The type of key whose text the value is.
pub(crate) fn key_type_of(value: &Value) -> Option<KeyType>
    ensures found { IfSome result (λ kind. view value.now ≡ string (key_type_text kind)) }
    ensures none { IfNone result ((kind : KeyType) →
        view value.now ≢ string (key_type_text kind)) }
{
    KeyType::from_text(text_of(value)?.as_bytes())
}

/// The reason whose code the value is.
pub(crate) fn reason_of(value: &Value) -> Option<Reason>
    ensures found { IfSome result (λ reason. view value.now ≡ number_data (reason_code reason)) }
    ensures none { IfNone result ((reason : Reason) →
        view value.now ≢ number_data (reason_code reason)) }
{
    let code = u8::try_from(value.as_u64()?).ok()?;
    Reason::from_code(code)
}
