//! A key as a reader is shown it by itself: its row, and its custody.
ghost use Rattle.std.specs.Prelude.{◌≡◌};

use crate::key_row::KeyRow;
use register_core::{Held, Names, Purpose, Quorum};

/// A key's row with its custody.
#[derive(Drop)]
pub struct Record {
    pub key: KeyRow,
    /// How many approvals its destruction needs.
    pub need: Quorum,
    /// In order of their bytes.
    pub custodians: Names,
    /// Those whose approval of the key's destruction stands, in order of their bytes.
    pub approvals: Names,
}

impl Record {
    ghost use Rattle.key_rows.specs.Record.{record_of};

    /// The key with this number, which stands so and has this purpose.
    pub fn new(number: u32, held: Held, purpose: Purpose) -> Self
        ensures { result ≡ record_of number purpose held }
    {
        Record {
            key: KeyRow {
                number,
                kind: held.kind,
                owner: held.owner,
                purpose,
                row: held.row,
            },
            need: held.need,
            custodians: held.custodians,
            approvals: held.approvals,
        }
    }
}
