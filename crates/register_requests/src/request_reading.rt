//! Reads the command at the end of a line, and the whole request.
ghost use Rattle.std.specs.Prelude.{◌≡◌, ◌++◌, codes, option_map};
ghost use Rattle.register_requests.specs.CommandText.{IsCommandItem, IsCommandText};
ghost use Rattle.register_requests.specs.Request.{IsRequest, IsReadAs, request_text};
ghost use Rattle.register_requests.specs.Within.FieldText.{Writes, HasNoSpace, AreFieldsOf};
ghost use Rattle.register_requests.specs.Within.FieldText.{after_word};
ghost use Rattle.register_requests.specs.declared.command_fields.Shape.TheVariants as shapes;

use crate::command_fields::{CommandKind, Fields, Shape};
use crate::field_values::{FromBytes, read_key_number, split_first_field};
use crate::request::{Command, Registration, Request};
use lifecycle_core::Reason;
use moment_core::Moment;

/// The fields of a registration.
fn read_registration(bytes: &[u8]) -> Option<Fields>
    ensures { IsReadAs (AreFieldsOf shapes.Registration) (codes " " ++ bytes.now) result }
{
    let (kind, (owner, (activation, (protect_stop, (deactivation, purpose))))) =
        FromBytes::from_bytes(bytes)?;
    Some(Fields::Registration(Registration {
        kind,
        owner,
        activation,
        protect_stop,
        deactivation,
        purpose,
    }))
}

/// The fields of a change of dates.
fn read_date_edits(bytes: &[u8]) -> Option<Fields>
    ensures { IsReadAs (AreFieldsOf shapes.DateEdits) (codes " " ++ bytes.now) result }
{
    let (key, (activation, (protect_stop, deactivation))) = FromBytes::from_bytes(bytes)?;
    Some(Fields::DateEdits {
        key,
        activation,
        protect_stop,
        deactivation,
    })
}

/// The fields of a revocation, which has an occurrence with a compromise alone.
fn read_revocation(bytes: &[u8]) -> Option<Fields>
    ensures { IsReadAs (AreFieldsOf shapes.Revocation) (codes " " ++ bytes.now) result }
{
    let (key, (reason, occurrence)) = <(u32, (Reason, Option<Moment>))>::from_bytes(bytes)?;
    if occurrence.is_some() && !reason.is_compromise() {
        return None;
    }
    Some(Fields::Revocation {
        key,
        reason,
        occurrence,
    })
}

/// The fields of this shape, which stand after the space after a word.
fn read_fields(shape: Shape, bytes: &[u8]) -> Option<Fields>
    ensures { IsReadAs (AreFieldsOf shape) (codes " " ++ bytes.now) result }
{
    match shape {
        Shape::Nothing => None,
        Shape::Key => read_key_number(bytes).map(|key| Fields::Key { key }),
        Shape::KeyAndName => {
            let (key, name) = FromBytes::from_bytes(bytes)?;
            Some(Fields::KeyAndName { key, name })
        }
        Shape::KeyAndNeed => {
            let (key, need) = FromBytes::from_bytes(bytes)?;
            Some(Fields::KeyAndNeed { key, need })
        }
        Shape::TypeAndPeriod => {
            let (kind, period) = FromBytes::from_bytes(bytes)?;
            Some(Fields::TypeAndPeriod { kind, period })
        }
        Shape::Registration => read_registration(bytes),
        Shape::DateEdits => read_date_edits(bytes),
        Shape::Revocation => read_revocation(bytes),
    }
}

/// The fields of this shape after a word, which has a space after it or stands alone.
fn fields_after_word(shape: Shape, after: Option<&[u8]>) -> Option<Fields>
    ensures { IsReadAs (AreFieldsOf shape)
        (after_word (option_map (λ bytes. bytes.now) after.entry)) result }
{
    match (after, shape) {
        (Some(bytes), _) => read_fields(shape, bytes),
        (None, Shape::Nothing) => Some(Fields::Nothing),
        (None, _) => None,
    }
}

/// The word at the start, and what stands after its space where it has one.
fn split_command_word(bytes: &[u8]) -> (&[u8], Option<&[u8]>)
    ensures word { HasNoSpace result.0.now }
    ensures whole { bytes.now ≡ result.0.now
        ++ after_word (option_map (λ fields. fields.now) result.1) }
{
    match split_first_field(bytes) {
        Some((word, fields)) => (word, Some(fields)),
        None => (bytes, None),
    }
}

/// The command whose text the bytes are, or `None` where they are the text of no command.
pub fn read_command(bytes: &[u8]) -> Option<Command>
    ensures { IsCommandItem bytes.now result }
{
    let (word, after) = split_command_word(bytes);
    let kind = CommandKind::from_text(word)?;
    // By reference: the checker makes no proof of a `?` on fields that are held by value.
    match &fields_after_word(kind.shape(), after) {
        Some(fields) => Command::with_fields(kind, fields),
        None => None,
    }
}

impl FromBytes for Command {
    ghost is_text = { IsCommandText };

    fn from_bytes(bytes: &[u8]) -> Option<Self> {
        read_command(bytes)
    }
}

impl FromBytes for Request {
    ghost is_text = { Writes IsRequest request_text };

    fn from_bytes(bytes: &[u8]) -> Option<Self> {
        let (moment, (caller, (number, command))) = FromBytes::from_bytes(bytes)?;
        Some(Request {
            moment,
            caller,
            number,
            command,
        })
    }
}
