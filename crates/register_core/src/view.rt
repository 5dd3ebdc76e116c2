//! What a decision rests on: the latest moment, the number of keys, the usage period that the dates
//! are held to, and the key that the request names.
use crate::names::Names;
use lifecycle_core::Row;
use moment_core::Moment;
use period_core::{KeyType, Period};
use register_requests::{Name, Quorum};

/// A key as it stands at some moment.
#[derive(Drop)]
pub struct Held {
    pub kind: KeyType,
    pub owner: Name,
    pub row: Row,
    /// How many approvals its destruction needs.
    pub need: Quorum,
    /// In order of their bytes.
    pub custodians: Names,
    /// Those whose approval of the key's destruction stands, in order of their bytes.
    pub approvals: Names,
}

/// What a decision rests on.
#[derive(Drop)]
pub struct View {
    /// The latest accepted moment.
    pub latest: Moment,
    /// How many keys were made.
    pub keys: u32,
    /// The usage period that the office set for the type that
    /// [`needed_period_type`](crate::needed_period_type) gives; `None` where it set none, or there
    /// is no such type.
    pub period: Option<Period>,
    /// The key that the request names, as it stands at the latest moment; `None` where it names
    /// none, or there is no such key. What its decision does not look at may be left out.
    pub key: Option<Held>,
}
