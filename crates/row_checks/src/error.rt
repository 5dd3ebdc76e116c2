//! Why the rows of a query were not all taken.

/// Why the rows of a query were not all taken.
#[derive(Clone, Copy)]
pub enum RowsError {
    /// The text has no meaning under the database's schema. Nothing changed.
    NoMeaning,
    /// The rows do not pass the check. Nothing changed.
    Refused,
    /// A growth of the check's own was refused. Nothing changed.
    Memory,
    /// A call of the database was refused.
    Database(sqlite::Error),
}
