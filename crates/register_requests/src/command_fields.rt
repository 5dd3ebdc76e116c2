//! The kinds of commands, each with its word and the shape of its fields; and these fields. A
//! command is its kind and its fields, and what is read off the fields has no row for a command.
ghost use Rattle.std.specs.Prelude.{◌≡◌};
ghost use Rattle.register_requests.specs.Fields.{command_with};

use crate::request::{Command, Edit, Registration};
use crate::values::{Name, Quorum};
use crate::version::Version;
use lifecycle_core::Reason;
use moment_core::Moment;
use period_core::{KeyType, Period};

/// How many bytes the word of a kind has at most.
pub const MAX_WORD_LENGTH: usize = 16;

/// A kind of command: what is left of a [`Command`](crate::Command) without its fields.
#[derive(Clone, Copy, PartialEq, Eq)]
pub enum CommandKind {
    Register,
    Activate,
    SetDates,
    Revoke,
    Assign,
    AddCustodian,
    RemoveCustodian,
    Approve,
    Withdraw,
    Destroy,
    Advance,
    SetQuorum,
    SetPeriod,
}

/// What the commands of a kind look like.
#[derive(Clone, Copy)]
struct CommandForm {
    word: &'static str,
    /// That of the fields after the word.
    shape: Shape,
    /// The first version of the register that knows them.
    since: Version,
}

impl CommandKind {
    ghost use Rattle.std.specs.Prelude.{◌≢◌, ◌≤◌, IfSome, IfNone, All, length};
    ghost use Rattle.register_requests.specs.declared.command_fields.CommandKind.{CommandKind};
    ghost use Rattle.register_requests.specs.CommandKind.{command_kind_text, command_shape};
    ghost use Rattle.register_requests.specs.CommandKind.{first_version};

    /// Each kind once.
    pub const ALL: &'static [CommandKind] = &[
        CommandKind::Register,
        CommandKind::Activate,
        CommandKind::SetDates,
        CommandKind::Revoke,
        CommandKind::Assign,
        CommandKind::AddCustodian,
        CommandKind::RemoveCustodian,
        CommandKind::Approve,
        CommandKind::Withdraw,
        CommandKind::Destroy,
        CommandKind::Advance,
        CommandKind::SetQuorum,
        CommandKind::SetPeriod,
    ];

    /// The one table of all kinds.
    #[rattlefmt::skip]
    fn word_shape_and_version(self) -> CommandForm
        ensures word { result.word.now ≡ command_kind_text self }
        ensures short { length result.word.now ≤ MAX_WORD_LENGTH }
        ensures shape { result.shape ≡ command_shape self }
        ensures since { result.since ≡ first_version self }
    {
        use Version::{First, Second};
        match self {
            CommandKind::Register => CommandForm { word: "register", shape: Shape::Registration, since: First },
            CommandKind::Activate => CommandForm { word: "activate", shape: Shape::Key, since: First },
            CommandKind::SetDates => CommandForm { word: "set", shape: Shape::DateEdits, since: First },
            CommandKind::Revoke => CommandForm { word: "revoke", shape: Shape::Revocation, since: First },
            CommandKind::Assign => CommandForm { word: "assign", shape: Shape::KeyAndName, since: First },
            CommandKind::AddCustodian => CommandForm { word: "add-custodian", shape: Shape::KeyAndName, since: First },
            CommandKind::RemoveCustodian =>
                CommandForm { word: "remove-custodian", shape: Shape::KeyAndName, since: First },
            CommandKind::Approve => CommandForm { word: "approve", shape: Shape::Key, since: First },
            CommandKind::Withdraw => CommandForm { word: "withdraw", shape: Shape::Key, since: First },
            CommandKind::Destroy => CommandForm { word: "destroy", shape: Shape::Key, since: First },
            CommandKind::Advance => CommandForm { word: "advance", shape: Shape::Nothing, since: First },
            CommandKind::SetQuorum => CommandForm { word: "set-quorum", shape: Shape::KeyAndNeed, since: Second },
            CommandKind::SetPeriod => CommandForm { word: "set-period", shape: Shape::TypeAndPeriod, since: Second },
        }
    }

    /// The kind's word, in the texts and in the JSON values of commands: at most 16 bytes.
    pub fn text(self) -> &'static str
        ensures text { result.now ≡ command_kind_text self }
        ensures short { length result.now ≤ MAX_WORD_LENGTH }
    {
        self.word_shape_and_version().word
    }

    /// The shape of the fields after that word.
    pub fn shape(self) -> Shape
        ensures { result ≡ command_shape self }
    {
        self.word_shape_and_version().shape
    }

    /// The first version of the register that knows the kind (this register's own).
    pub fn since(self) -> Version
        ensures { result ≡ first_version self }
    {
        self.word_shape_and_version().since
    }

    /// The kind whose word this is, or `None` where it is the word of none.
    pub fn from_text(bytes: &[u8]) -> Option<Self>
        ensures found { IfSome result (λ k. bytes.now ≡ command_kind_text k) }
        ensures none { IfNone result ((k : CommandKind) → bytes.now ≢ command_kind_text k) }
    {
        CommandKind::first_with_text(CommandKind::ALL, bytes)
    }

    /// The first of these kinds whose word this is.
    fn first_with_text(kinds: &[CommandKind], bytes: &[u8]) -> Option<Self>
        ensures found { IfSome result (λ k. bytes.now ≡ command_kind_text k) }
        ensures none { IfNone result (All (λ k. bytes.now ≢ command_kind_text k) kinds.now) }
    {
        kinds
            .iter()
            .copied()
            .find(|kind| kind.text().as_bytes() == bytes)
    }
}

/// What the fields of a command are. Each kind of command has one shape.
#[derive(Clone, Copy)]
pub enum Shape {
    Nothing,
    Key,
    KeyAndName,
    KeyAndNeed,
    TypeAndPeriod,
    Registration,
    DateEdits,
    Revocation,
}

/// What stands after a command's word.
#[derive(Clone, Copy)]
pub enum Fields {
    /// The word stands alone.
    Nothing,
    Key {
        key: u32,
    },
    KeyAndName {
        key: u32,
        name: Name,
    },
    KeyAndNeed {
        key: u32,
        need: Quorum,
    },
    TypeAndPeriod {
        kind: KeyType,
        period: Period,
    },
    Registration(Registration),
    DateEdits {
        key: u32,
        activation: Edit,
        protect_stop: Edit,
        deactivation: Edit,
    },
    Revocation {
        key: u32,
        reason: Reason,
        occurrence: Option<Moment>,
    },
}

impl Command {
    ghost use Rattle.register_requests.specs.{CommandKind.kind_of, Request.is_in_range};
    ghost use Rattle.register_requests.specs.{Subject.named};

    /// The kind of the command.
    pub fn kind(&self) -> CommandKind
        ensures { result ≡ kind_of self.now }
    {
        match self {
            Command::Register(_) => CommandKind::Register,
            Command::Activate { .. } => CommandKind::Activate,
            Command::SetDates { .. } => CommandKind::SetDates,
            Command::Revoke { .. } => CommandKind::Revoke,
            Command::Assign { .. } => CommandKind::Assign,
            Command::AddCustodian { .. } => CommandKind::AddCustodian,
            Command::RemoveCustodian { .. } => CommandKind::RemoveCustodian,
            Command::Approve { .. } => CommandKind::Approve,
            Command::Withdraw { .. } => CommandKind::Withdraw,
            Command::Destroy { .. } => CommandKind::Destroy,
            Command::Advance => CommandKind::Advance,
            Command::SetQuorum { .. } => CommandKind::SetQuorum,
            Command::SetPeriod { .. } => CommandKind::SetPeriod,
        }
    }

    /// The number of the key that the command names, if it names one.
    pub fn key(&self) -> Option<u32>
        ensures { result ≡ named self.now }
    {
        match *self {
            Command::Register(_) | Command::Advance | Command::SetPeriod { .. } => None,
            Command::Activate { key }
            | Command::SetDates { key, .. }
            | Command::Revoke { key, .. }
            | Command::Assign { key, .. }
            | Command::AddCustodian { key, .. }
            | Command::RemoveCustodian { key, .. }
            | Command::Approve { key }
            | Command::Withdraw { key }
            | Command::Destroy { key }
            | Command::SetQuorum { key, .. } => Some(key),
        }
    }

    /// Whether the command is in its ranges, as that of each line is: a key that it names has a
    /// number from 1 on, and an occurrence is given only with a reason that is a compromise (this
    /// register's own). The rest is in its ranges by its types.
    pub fn is_in_range(&self) -> bool
        ensures { result ≡ is_in_range self.now }
    {
        match *self {
            Command::Revoke {
                key,
                reason,
                occurrence: Some(_),
            } => key > 0 && reason.is_compromise(),
            _ => self.key().is_none_or(|key| key > 0),
        }
    }

    /// The command of this kind with these fields, or `None` where the kind has no such fields.
    #[rattlefmt::skip]
    pub fn with_fields(kind: CommandKind, fields: &Fields) -> Option<Command>
        ensures { result ≡ command_with kind fields.now }
    {
        use CommandKind as Kind;
        match (kind, *fields) {
            (Kind::Register, Fields::Registration(new)) => Some(Command::Register(new)),
            (Kind::Activate, Fields::Key { key }) => Some(Command::Activate { key }),
            (Kind::SetDates, Fields::DateEdits { key, activation, protect_stop, deactivation }) => {
                Some(Command::SetDates { key, activation, protect_stop, deactivation })
            }
            (Kind::Revoke, Fields::Revocation { key, reason, occurrence }) => {
                Some(Command::Revoke { key, reason, occurrence })
            }
            (Kind::Assign, Fields::KeyAndName { key, name }) => Some(Command::Assign { key, owner: name }),
            (Kind::AddCustodian, Fields::KeyAndName { key, name }) => Some(Command::AddCustodian { key, name }),
            (Kind::RemoveCustodian, Fields::KeyAndName { key, name }) => Some(Command::RemoveCustodian { key, name }),
            (Kind::Approve, Fields::Key { key }) => Some(Command::Approve { key }),
            (Kind::Withdraw, Fields::Key { key }) => Some(Command::Withdraw { key }),
            (Kind::Destroy, Fields::Key { key }) => Some(Command::Destroy { key }),
            (Kind::Advance, Fields::Nothing) => Some(Command::Advance),
            (Kind::SetQuorum, Fields::KeyAndNeed { key, need }) => Some(Command::SetQuorum { key, need }),
            (Kind::SetPeriod, Fields::TypeAndPeriod { kind, period }) => Some(Command::SetPeriod { kind, period }),
            _ => None,
        }
    }
}
