//! What an accepted request changes, and its reply.
use crate::key::Key;
use crate::reply::Reply;
use lifecycle_core::Row;
use period_core::{KeyType, Period};
use register_requests::{Name, Quorum};

/// What becomes of the custodians of a key, and of the approvals of its destruction.
#[derive(Clone, Copy, Debug)]
pub enum CustodyChange {
    /// They stay as they are.
    Kept,
    /// The name becomes a custodian.
    CustodianAdded(Name),
    /// The name ceases to be a custodian, and its approval ends.
    CustodianRemoved(Name),
    /// The custodian's approval stands.
    Approved(Name),
    /// The custodian's approval ends.
    Withdrawn(Name),
    /// All approvals end.
    ApprovalsEnded,
    /// The key's destruction needs so many approvals.
    NeedSet(Quorum),
}

/// What an accepted request changes, beside the latest moment.
#[derive(Clone, Copy)]
pub enum Change {
    /// A new key comes after the others.
    Made(Key),
    /// The key with this number has this owner and this row, and its custody changes so.
    Held {
        key: u32,
        owner: Name,
        row: Row,
        custody: CustodyChange,
    },
    /// Keys of the type are held to this usage period.
    PeriodSet {
        kind: KeyType,
        period: Period,
    },
    /// Nothing.
    Nothing,
}

/// The decision to accept a request.
#[derive(Clone, Copy)]
pub struct Accept {
    pub change: Change,
    pub reply: Reply,
}
