//! Texts that no register holds, which came into its tables after an opening: a look-up that reads one
//! tells so, and not that memory gave out, which meets any contract.
use crate::memory_desk::{MemoryDatabase, MemoryDesk};
use register_core::Quorum;
use register_store::{Counted, StoreError, load_key};
use std::alloc::Global;
use std::test::Fail;

/// A key with custodians.
const LINES: &str = "100 ann 1 register master bob 1000 - - root\n\
    101 bob 1 add-custodian 1 cat\n\
    102 bob 2 add-custodian 1 dan\n";

/// Edits that make a row one of no register.
static EDITS: [&str; 5] = [
    "UPDATE custodian SET name = 'd n' WHERE name = 'dan'",
    "UPDATE custodian SET name = '' WHERE name = 'dan'",
    "UPDATE keys SET owner = 'b b'",
    "UPDATE keys SET purpose = ''",
    "UPDATE keys SET kind = 8",
];

/// Whether key 1 is found in the database. No transaction is open there.
fn looked_up(alloc: Global, database: MemoryDatabase) -> Result<bool, StoreError> {
    if !database.connection.is_autocommit() {
        return Ok(false);
    }
    let mut tables = Counted::new(database.connection);
    match load_key(alloc, &mut tables, 1, Quorum::LEAST) {
        Ok(found) => Ok(found.is_some()),
        Err(error) => Err(error),
    }
}

/// Whether the key of the lines is found, once the statement was run.
fn is_found(alloc: Global, edit: Option<&str>) -> Result<Result<bool, StoreError>, Fail> {
    let mut database = MemoryDesk::after(alloc, LINES.as_bytes())?.into_database();
    if let Some(edit) = edit {
        database.execute(edit)?;
    }
    Ok(looked_up(alloc, database))
}

/// An edit of a row that is not told by the look-up, or the empty one where the row is not found as
/// it stood.
pub fn edited_row_not_told(alloc: Global) -> Result<Option<&'static str>, Fail> {
    if !matches!(is_found(alloc, None)?, Ok(true)) {
        return Ok(Some(""));
    }
    for edit in &EDITS {
        if !matches!(is_found(alloc, Some(edit))?, Err(StoreError::NoRegister)) {
            return Ok(Some(edit));
        }
    }
    Ok(None)
}
