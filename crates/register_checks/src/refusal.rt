//! Why the tables of a file are not taken as a register's.
use row_checks::RowsError;
use std::alloc::AllocFailed;

/// Why the tables of a file are not taken as a register's.
#[derive(Clone, Copy)]
pub enum CheckError {
    /// A table or a column is not there, or rows are none of a register's. Nothing changed.
    NotARegister,
    /// The tables are of a later version than this program makes. Nothing changed.
    NewerVersion { found: u64 },
    /// A growth of the store's own was refused. Nothing changed.
    Memory,
    /// A call of the database was refused.
    Database(sqlite::Error),
}

impl From<RowsError> for CheckError {
    ghost use Rattle.std.specs.Prelude.{◌≡◌};
    ghost use Rattle.register_checks.specs.CheckedTables.{check_error};

    ghost from_gives = { λ refused error. error ≡ check_error refused };

    fn from(refused: RowsError) -> CheckError {
        match refused {
            RowsError::NoMeaning | RowsError::Refused => CheckError::NotARegister,
            RowsError::Memory => CheckError::Memory,
            RowsError::Database(error) => CheckError::Database(error),
        }
    }
}

impl<T: Drop> From<AllocFailed<T>> for CheckError {
    ghost use Rattle.std.specs.Prelude.{◌≡◌};
    ghost use Rattle.register_checks.specs.declared.refusal.CheckError.TheVariants.{Memory};

    ghost from_gives = { λ failed error. error ≡ Memory };

    fn from(_: AllocFailed<T>) -> CheckError {
        CheckError::Memory
    }
}
