//! Why the tables of a register are not made.
/// Why the tables of a register were not made.
#[derive(Clone, Copy)]
pub enum CreateError {
    /// One of them is there: the count of its rows has a meaning. Nothing changed.
    HasTables,
    /// A call of the database was refused.
    Database(sqlite::Error),
}

impl From<sqlite::Error> for CreateError {
    ghost use Rattle.std.specs.Prelude.{◌≡◌};
    ghost use Rattle.register_schema.specs.declared.refusal.CreateError.TheVariants.{Database};

    ghost from_gives = { λ refused error. error ≡ Database refused };

    fn from(refused: sqlite::Error) -> CreateError {
        CreateError::Database(refused)
    }
}
