//! A key's row as a reader is shown it.
use lifecycle_core::Row;
use period_core::KeyType;
use register_core::{Name, Purpose};

/// A key as a reader is shown it, without those who may approve of its destruction.
#[derive(Drop)]
pub struct KeyRow {
    /// Its place in the order of registration, from 1.
    pub number: u32,
    pub kind: KeyType,
    pub owner: Name,
    pub purpose: Purpose,
    /// Its dates, and its state at the latest accepted moment.
    pub row: Row,
}
