//! The date attributes of a key.
use moment_core::Moment;

/// The date attributes of a key (KMIP 1.2, sections 3.23 to 3.30), `None` where one is not set.
/// Protect Stop is kept for every key type, as the end of originator use (this register's own).
#[derive(Clone, Copy, PartialEq, Eq)]
pub struct Dates {
    /// The moment of registration.
    pub initial: Moment,
    pub activation: Option<Moment>,
    pub protect_stop: Option<Moment>,
    pub deactivation: Option<Moment>,
    pub destroy: Option<Moment>,
    pub compromise: Option<Moment>,
    pub compromise_occurrence: Option<Moment>,
}
