//! Checks of rows.
ghost use Rattle.std.specs.Prelude.{◌≡◌};

use sqlite::Row;
use std::alloc::AllocError;

/// A check of rows that come one after the other.
pub trait RowCheck {
    ghost use Rattle.std.specs.Prelude.{◌≡◌, List, ◌∷◌, ◌++◌, [], Ok, true, false};
    ghost use Rattle.sqlite.specs.Order.{Row as Cells};

    /// The check, which began as the first, has taken these rows, which pass.
    ghost has_taken: { Self → Self → List Cells → Type 0 };

    /// The check, which began as the first, refuses these rows: however they go on, they do not
    /// pass.
    ghost refuses: { Self → Self → List Cells → Type 0 };

    /// Takes one more row, or finds that the rows do not pass.
    ///
    /// # Errors
    /// Where memory gave out.
    fn take_row(&mut self, row: &Row) -> Result<bool, AllocError>
        ensures taken { result ≡ Ok true → (first : Self) (rows : List Cells) →
            has_taken first self.old rows → has_taken first self.new (rows ++ row.now ∷ []) }
        ensures refused { result ≡ Ok false → (first : Self) (rows : List Cells) →
            has_taken first self.old rows → refuses first self.new (rows ++ row.now ∷ []) };
}
