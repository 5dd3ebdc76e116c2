//! Laws about the rows that are due for rotation, or listed beside these. Each function does
//! nothing: its contract is the law.
ghost use Rattle.std.specs.Prelude.{◌≡◌, ℕ, Bool, List, ◌++◌};
ghost use Rattle.key_rows.specs.declared.key_row.KeyRow.{KeyRow};
ghost use Rattle.key_rows.specs.DueRows.{AreDue, AreFirstDue, AreThose, HaveOwnNumbers};

/// The rows for which something holds, in their order, are one list only.
pub fn selection_of_rows_is_unique()
    ensures { (holds : KeyRow → Bool) (all rows others : List KeyRow) →
        AreThose holds all rows → AreThose holds all others → rows ≡ others }
{}

/// The first of the rows that are due begin their list.
pub fn first_rows_begin_the_due_rows()
    ensures { (all : List KeyRow) (until : ℕ) (first rows : List KeyRow) →
        AreFirstDue all until first → AreDue all until rows →
        (rest : List KeyRow) × (rows ≡ first ++ rest) }
{}

/// Of rows with a number each there is a list of those for which something holds.
pub fn selection_of_rows_exists()
    ensures { (holds : KeyRow → Bool) (all : List KeyRow) → HaveOwnNumbers all →
        (rows : List KeyRow) × AreThose holds all rows }
{}
