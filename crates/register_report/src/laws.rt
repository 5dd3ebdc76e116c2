//! Laws about this crate's definitions. A function's contract is the law; it does nothing.
ghost use Rattle.std.specs.Prelude.{◌≡◌, ℕ, List, Option};
ghost use Rattle.register_requests.specs.declared.request.Request.{Request};
ghost use Rattle.register_report.specs.ImportRows.{BeginsWithHeader, HasRowItems, HasRows};

/// An input that begins with its header row has rows after it, which stand for a list of items.
pub fn inputs_with_header_have_row_items()
    ensures { (moment : ℕ) (caller : List ℕ) (first : ℕ) (bytes : List ℕ) →
        BeginsWithHeader bytes →
        (items : List (Option Request)) × HasRowItems moment caller first bytes items }
{}

/// An input has no two lists of rows after its header row, and these stand for no two lists of
/// items.
pub fn inputs_have_one_list_of_rows()
    ensures rows { (bytes : List ℕ) (rows others : List (List (List ℕ))) → HasRows bytes rows →
        HasRows bytes others → rows ≡ others }
    ensures items { (moment : ℕ) (caller : List ℕ) (first : ℕ) (bytes : List ℕ) →
        (items others : List (Option Request)) → HasRowItems moment caller first bytes items →
        HasRowItems moment caller first bytes others → items ≡ others }
{}
