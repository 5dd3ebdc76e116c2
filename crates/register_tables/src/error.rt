//! Why calls over the tables fail.
use std::alloc::AllocFailed;

/// Why a call of the store failed. The transaction that it was in is to be given up.
#[derive(Clone, Copy)]
pub enum StoreError {
    /// A call of the database was refused.
    Database(sqlite::Error),
    /// A growth of the store's own was refused, outside a transaction. Nothing changed.
    Memory,
    /// A row is one that no register holds, or one that a register holds is not there.
    NoRegister,
}

impl From<sqlite::Error> for StoreError {
    ghost use Rattle.std.specs.Prelude.{◌≡◌};
    ghost use Rattle.register_tables.specs.declared.error.StoreError.TheVariants.{Database};

    ghost from_gives = { λ refused error. error ≡ Database refused };

    fn from(refused: sqlite::Error) -> StoreError {
        StoreError::Database(refused)
    }
}

impl<T: Drop> From<AllocFailed<T>> for StoreError {
    ghost use Rattle.std.specs.Prelude.{◌≡◌};
    ghost use Rattle.register_tables.specs.declared.error.StoreError.TheVariants.{Memory};

    ghost from_gives = { λ failed error. error ≡ Memory };

    fn from(_: AllocFailed<T>) -> StoreError {
        StoreError::Memory
    }
}
