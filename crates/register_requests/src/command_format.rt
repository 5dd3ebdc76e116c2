//! Writes the text of a command, which is the end of a request's line: the word of its kind, and
//! after it the kind's fields.
ghost use Rattle.std.specs.Prelude.{◌≡◌, ◌+◌, ◌≤◌, ◌∷◌, [], ◌++◌, decimal};
ghost use Rattle.arrayvec.specs.ArrayString.{array_string_len};
ghost use Rattle.period_core.specs.KeyType.{key_type_text};
ghost use Rattle.register_requests.specs.declared.request.Command.TheVariants.{SetDates, SetPeriod};
ghost use Rattle.register_requests.specs.declared.request.Command.TheVariants.{Revoke};
ghost use Rattle.register_requests.specs.Request.{argument_texts, command_text, date_text, spaced};
ghost use Rattle.register_requests.specs.Request.{edit_text};

use crate::command_fields::MAX_WORD_LENGTH;
use crate::request::{Command, Edit};
use crate::values::{Name, Purpose, Quorum};
use arrayvec::ArrayString;
use itoa::Buffer;
use lifecycle_core::Reason;
use moment_core::Moment;
use period_core::{KeyType, Period};

/// How many bytes the text of a command has at most.
pub const MAX_COMMAND_LENGTH: usize = 400;

/// The text of a command.
pub type CommandText = ArrayString<MAX_COMMAND_LENGTH>;

/// Appends the number in decimal.
pub fn put_number<const N: usize>(line: &mut ArrayString<N>, number: u64)
    requires { array_string_len line.old + 20 ≤ N }
    ensures bytes { line.new.bytes ≡ line.old.bytes ++ decimal number }
    ensures short { array_string_len line.new ≤ array_string_len line.old + 20 }
{
    let mut digits = Buffer::new();
    line.push_str(digits.format(number));
}

/// Appends a space, and after it the date, `-` for none.
fn put_spaced_date<const N: usize>(line: &mut ArrayString<N>, date: Option<Moment>)
    requires { array_string_len line.old + 21 ≤ N }
    ensures bytes { line.new.bytes ≡ line.old.bytes ++ spaced (date_text date ∷ []) }
    ensures short { array_string_len line.new ≤ array_string_len line.old + 21 }
{
    line.push_str(" ");
    match date {
        Some(moment) => put_number(line, moment.seconds()),
        None => line.push_str("-"),
    }
}

/// Appends a space, and after it what becomes of a date.
fn put_spaced_edit<const N: usize>(line: &mut ArrayString<N>, edit: Edit)
    requires { array_string_len line.old + 21 ≤ N }
    ensures bytes { line.new.bytes ≡ line.old.bytes ++ spaced (edit_text edit ∷ []) }
    ensures short { array_string_len line.new ≤ array_string_len line.old + 21 }
{
    line.push_str(" ");
    match edit {
        Edit::Keep => line.push_str("="),
        Edit::Clear => line.push_str("-"),
        Edit::Set(moment) => put_number(line, moment.seconds()),
    }
}

/// Appends a space, and after it the number of a key.
fn put_spaced_key_number(text: &mut ArrayString<MAX_COMMAND_LENGTH>, key: u32)
    requires { array_string_len text.old ≤ MAX_WORD_LENGTH }
    ensures bytes { text.new.bytes ≡ text.old.bytes ++ spaced (decimal key ∷ []) }
    ensures short { array_string_len text.new ≤ array_string_len text.old + 21 }
{
    text.push_str(" ");
    put_number(text, u64::from(key));
}

/// Appends the number of a key and then a name, each with a space before it.
fn put_spaced_key_and_name(text: &mut ArrayString<MAX_COMMAND_LENGTH>, key: u32, name: &Name)
    requires { array_string_len text.old ≤ MAX_WORD_LENGTH }
    ensures { text.new.bytes ≡ text.old.bytes ++ spaced (decimal key ∷ name.now ∷ []) }
{
    put_spaced_key_number(text, key);
    text.push_str(" ");
    text.push_str(name.text());
}

/// Appends the number of a key and then a number of approvals, each with a space before it.
fn put_spaced_key_and_need(text: &mut ArrayString<MAX_COMMAND_LENGTH>, key: u32, need: Quorum)
    requires { array_string_len text.old ≤ MAX_WORD_LENGTH }
    ensures { text.new.bytes ≡ text.old.bytes ++ spaced (decimal key ∷ decimal need ∷ []) }
{
    put_spaced_key_number(text, key);
    text.push_str(" ");
    put_number(text, u64::from(need.get()));
}

/// Appends a type with its period.
fn put_spaced_type_and_period(
    text: &mut ArrayString<MAX_COMMAND_LENGTH>,
    kind: KeyType,
    period: Period,
)
    requires { array_string_len text.old ≤ MAX_WORD_LENGTH }
    ensures { text.new.bytes ≡ text.old.bytes ++ spaced (argument_texts (SetPeriod kind period)) }
{
    text.push_str(" ");
    text.push_str(kind.text());
    text.push_str(" ");
    put_number(text, u64::from(period.originator()));
    text.push_str(" ");
    put_number(text, u64::from(period.recipient()));
}

/// Appends a type with an owner.
fn put_spaced_type_and_owner(
    text: &mut ArrayString<MAX_COMMAND_LENGTH>,
    kind: KeyType,
    owner: &Name,
)
    requires { array_string_len text.old ≤ MAX_WORD_LENGTH }
    ensures bytes { text.new.bytes ≡ text.old.bytes ++
        spaced (key_type_text kind ∷ owner.now ∷ []) }
    ensures short { array_string_len text.new ≤ array_string_len text.old + 90 }
{
    text.push_str(" ");
    text.push_str(kind.text());
    text.push_str(" ");
    text.push_str(owner.text());
}

/// Appends the fields of a change of dates.
fn put_spaced_date_edits(
    text: &mut ArrayString<MAX_COMMAND_LENGTH>,
    key: u32,
    activation: Edit,
    protect_stop: Edit,
    deactivation: Edit,
)
    requires { array_string_len text.old ≤ MAX_WORD_LENGTH }
    ensures { text.new.bytes ≡ text.old.bytes ++
        spaced (argument_texts (SetDates key activation protect_stop deactivation)) }
{
    put_spaced_key_number(text, key);
    put_spaced_edit(text, activation);
    put_spaced_edit(text, protect_stop);
    put_spaced_edit(text, deactivation);
}

/// Appends the fields of a revocation.
fn put_spaced_revocation(
    text: &mut ArrayString<MAX_COMMAND_LENGTH>,
    key: u32,
    reason: Reason,
    occurrence: Option<Moment>,
)
    requires { array_string_len text.old ≤ MAX_WORD_LENGTH }
    ensures { text.new.bytes ≡ text.old.bytes ++
        spaced (argument_texts (Revoke key reason occurrence)) }
{
    put_spaced_key_number(text, key);
    text.push_str(" ");
    put_number(text, u64::from(reason.code()));
    put_spaced_date(text, occurrence);
}

/// Appends what the command names after its word, each with a space before it.
fn put_spaced_arguments(text: &mut ArrayString<MAX_COMMAND_LENGTH>, command: &Command)
    requires { array_string_len text.old ≤ MAX_WORD_LENGTH }
    ensures { text.new.bytes ≡ text.old.bytes ++ spaced (argument_texts command.now) }
{
    match *command {
        Command::Advance => {}
        Command::Activate { key }
        | Command::Approve { key }
        | Command::Withdraw { key }
        | Command::Destroy { key } => put_spaced_key_number(text, key),
        Command::Assign {
            key,
            owner: ref name,
        }
        | Command::AddCustodian { key, ref name }
        | Command::RemoveCustodian { key, ref name } => put_spaced_key_and_name(text, key, name),
        Command::SetQuorum { key, need } => put_spaced_key_and_need(text, key, need),
        Command::SetPeriod { kind, period } => put_spaced_type_and_period(text, kind, period),
        Command::Register(ref new) => {
            put_spaced_type_and_owner(text, new.kind, &new.owner);
            put_spaced_date(text, new.activation);
            put_spaced_date(text, new.protect_stop);
            put_spaced_date(text, new.deactivation);
            text.push_str(" ");
            text.push_str(new.purpose.text());
        }
        Command::SetDates {
            key,
            activation,
            protect_stop,
            deactivation,
        } => put_spaced_date_edits(text, key, activation, protect_stop, deactivation),
        Command::Revoke {
            key,
            reason,
            occurrence,
        } => put_spaced_revocation(text, key, reason, occurrence),
    }
}

/// The text of the command.
pub fn command_text(command: &Command) -> CommandText
    ensures { result.bytes ≡ command_text command.now }
{
    let mut text = ArrayString::new();
    text.push_str(command.kind().text());
    put_spaced_arguments(&mut text, command);
    text
}
