//! A request, and the commands that a request can carry.
use crate::values::{Name, Purpose, Quorum, RequestNumber};
use lifecycle_core::Reason;
use moment_core::Moment;
use period_core::{KeyType, Period};

/// What becomes of a date of a key.
#[derive(Clone, Copy)]
pub enum Edit {
    /// It stays as it is.
    Keep,
    /// It is unset.
    Clear,
    /// It is set to this moment.
    Set(Moment),
}

/// What a registration gives its key.
#[derive(Clone, Copy)]
pub struct Registration {
    pub kind: KeyType,
    pub owner: Name,
    pub activation: Option<Moment>,
    pub protect_stop: Option<Moment>,
    pub deactivation: Option<Moment>,
    pub purpose: Purpose,
}

/// What a request asks for. Keys are named by their numbers, from 1.
#[derive(Clone, Copy)]
pub enum Command {
    /// A new key, with its dates as given.
    Register(Registration),
    /// The key is activated at the request's moment.
    Activate {
        key: u32,
    },
    /// The key's dates are changed by hand.
    SetDates {
        key: u32,
        activation: Edit,
        protect_stop: Edit,
        deactivation: Edit,
    },
    /// The key is revoked. An occurrence, the moment from which a compromise is held to date, is
    /// given only with a reason that is a compromise.
    Revoke {
        key: u32,
        reason: Reason,
        occurrence: Option<Moment>,
    },
    /// The key gets another owner.
    Assign {
        key: u32,
        owner: Name,
    },
    /// The key gets a custodian.
    AddCustodian {
        key: u32,
        name: Name,
    },
    /// The name ceases to be a custodian of the key, and its approval ends.
    RemoveCustodian {
        key: u32,
        name: Name,
    },
    /// The caller approves of the key's destruction.
    Approve {
        key: u32,
    },
    /// The caller's approval ends.
    Withdraw {
        key: u32,
    },
    /// The key is destroyed at the request's moment.
    Destroy {
        key: u32,
    },
    /// Nothing but that the moment has come.
    Advance,
    /// The key's destruction needs so many approvals from here on.
    SetQuorum {
        key: u32,
        need: Quorum,
    },
    /// Keys of the type are held to this usage period from here on.
    SetPeriod {
        kind: KeyType,
        period: Period,
    },
}

/// One request: its moment, who makes it, the caller's own number for it, and what it asks for.
#[derive(Clone, Copy)]
pub struct Request {
    pub moment: Moment,
    pub caller: Name,
    pub number: RequestNumber,
    pub command: Command,
}
