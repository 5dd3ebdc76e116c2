//! The rule of each command, as a table.
ghost use Rattle.std.specs.Prelude.{◌≡◌};

use crate::request::Command;
use lifecycle_core::State;

/// The name of the caller that may set the usage periods of types (this register's own).
pub const OFFICE: &str = "office";

/// Who may give a command.
#[derive(Clone, Copy)]
pub enum Giver {
    Anybody,
    /// The key's owner alone.
    Owner,
    /// A custodian of the key alone.
    Custodian,
    /// The caller named [`OFFICE`] alone.
    Office,
}

/// What a decision on a command looks at of the key that it names. The rest need not be read.
#[derive(Clone, Copy)]
pub enum KeyPart {
    /// The key's row alone.
    Row,
    /// Its custodians too, or the approvals of its destruction.
    Custody,
    /// How many approvals its destruction needs, as well.
    CustodyAndNeed,
}

/// What is asked of a command beside its moment, its key and its dates: all of it is this
/// register's own.
#[derive(Clone, Copy)]
pub struct Rule {
    pub giver: Giver,
    /// Those in which a key may be for it.
    pub states: &'static [State],
}

/// A key in these states is not destroyed.
static NOT_DESTROYED: [State; 4] = [
    State::PreActive,
    State::Active,
    State::Deactivated,
    State::Compromised,
];

/// From these states a key may be destroyed.
static BEFORE_DESTRUCTION: [State; 3] = [State::PreActive, State::Deactivated, State::Compromised];

/// In these states a key may be found to be compromised.
static BEFORE_COMPROMISE: [State; 4] = [
    State::PreActive,
    State::Active,
    State::Deactivated,
    State::Destroyed,
];

static PRE_ACTIVE: [State; 1] = [State::PreActive];

static ACTIVE: [State; 1] = [State::Active];

/// In these states a key's dates may be changed by hand.
static DATED_BY_HAND: [State; 2] = [State::PreActive, State::Active];

impl Command {
    ghost use Rattle.register_requests.specs.CommandRule.{rule, looks_at};

    /// The command's rule.
    #[rattlefmt::skip]
    pub fn rule(&self) -> Rule
        ensures giver { result.giver ≡ (rule self.now).giver }
        ensures states { result.states.now ≡ (rule self.now).states }
    {
        use Giver::{Anybody, Custodian, Office, Owner};
        match *self {
            Command::Register(_) => Rule { giver: Anybody, states: &State::ALL },
            Command::Activate { .. } => Rule { giver: Owner, states: &PRE_ACTIVE },
            Command::SetDates { .. } => Rule { giver: Owner, states: &DATED_BY_HAND },
            Command::Revoke { reason, .. } if reason.is_compromise() => {
                Rule { giver: Anybody, states: &BEFORE_COMPROMISE }
            }
            Command::Revoke { .. } => Rule { giver: Owner, states: &ACTIVE },
            Command::Assign { .. } => Rule { giver: Owner, states: &State::ALL },
            Command::AddCustodian { .. } => Rule { giver: Owner, states: &State::ALL },
            Command::RemoveCustodian { .. } => Rule { giver: Owner, states: &NOT_DESTROYED },
            Command::Approve { .. } => Rule { giver: Custodian, states: &BEFORE_DESTRUCTION },
            Command::Withdraw { .. } => Rule { giver: Custodian, states: &NOT_DESTROYED },
            Command::Destroy { .. } => Rule { giver: Owner, states: &BEFORE_DESTRUCTION },
            Command::Advance => Rule { giver: Anybody, states: &State::ALL },
            Command::SetQuorum { .. } => Rule { giver: Owner, states: &State::ALL },
            Command::SetPeriod { .. } => Rule { giver: Office, states: &State::ALL },
        }
    }

    /// What a decision on the command looks at of the key that it names (this register's own).
    pub fn looks_at(&self) -> KeyPart
        ensures { result ≡ looks_at self.now }
    {
        match self {
            Command::Assign { .. }
            | Command::AddCustodian { .. }
            | Command::RemoveCustodian { .. }
            | Command::Approve { .. }
            | Command::Withdraw { .. } => KeyPart::Custody,
            Command::Destroy { .. } => KeyPart::CustodyAndNeed,
            _ => KeyPart::Row,
        }
    }
}
