//! The rows of exports, and an export that its writer ends. What else exports and reports have,
//! checks/program/tables.py asks.
use crate::calls::Call;
use crate::memory_desk::MemoryDesk;
use register_desk::{End, Finish, Outcome};
use std::alloc::{AllocError, Global};
use std::test::Fail;
use test_faulty_devices::{Trouble, Troubled};

/// Cells of a key's row in an export, each after the name of its column.
pub type Cells<'a> = &'a [(&'a str, &'a str)];

/// The columns of an export past the number, in their order, each with its cell of the key of the
/// worked row *defaults*. No other test names all of them.
static COLUMNS: [(&str, &str); 11] = [
    ("type", "data-encryption"),
    ("owner", "bob"),
    ("activation", "1970-01-01T00:00:00Z"),
    ("protect_stop", "1972-01-01T00:00:00Z"),
    ("deactivation", "1975-01-01T00:00:00Z"),
    ("state", "Active"),
    ("initial", "1970-01-01T00:01:40Z"),
    ("destroyed", ""),
    ("compromised", ""),
    ("occurrence", ""),
    ("purpose", "payroll disks"),
];

/// The cell in this column, if it is among them.
fn cell_in<'a>(column: &str, cells: Cells<'a>) -> Option<&'a str> {
    for (name, cell) in cells {
        if *name == column {
            return Some(*cell);
        }
    }
    None
}

/// The header row of an export, with its LF.
pub fn export_header(alloc: Global) -> Result<String, AllocError> {
    let mut header = format!(in alloc; "number")?;
    for (column, _) in &COLUMNS {
        header.push_str(",")?;
        header.push_str(*column)?;
    }
    header.push_str("\n")?;
    Ok(header)
}

/// The row of the key with this number that has these cells, and else those of *defaults*, with its
/// LF.
pub fn export_row(alloc: Global, number: u32, cells: Cells<'_>) -> Result<String, AllocError> {
    let mut row = format!(in alloc; "{number}")?;
    for (column, usual) in &COLUMNS {
        row.push_str(",")?;
        row.push_str(cell_in(*column, cells).unwrap_or(*usual))?;
    }
    row.push_str("\n")?;
    Ok(row)
}

/// The export of keys that have these cells, from number 1 on.
pub fn export_of(alloc: Global, keys: &[Cells<'_>]) -> Result<String, AllocError> {
    let mut text = export_header(alloc)?;
    let mut number: u32 = 0;
    for cells in keys {
        number = number.saturating_add(1);
        text.push_str(export_row(alloc, number, *cells)?.as_str())?;
    }
    Ok(text)
}

/// Three keys, of which the first is that of *defaults*.
const LINES: &str = "100 ann 1 register data-encryption bob 0 - - payroll disks\n\
    100 ann 2 register data-encryption eve 0 600 1000 late\n\
    100 ann 3 register data-encryption bob 0 500 1000 disks\n";

/// Whether a writer that fails after the header and the first row ends an export there, and the desk
/// goes on.
pub fn is_export_ended_by_writer(alloc: Global) -> Result<bool, Fail> {
    let text = export_of(alloc, &[&[]])?;
    let mut desk = MemoryDesk::after(alloc, LINES.as_bytes())?;
    let writer = Troubled {
        inner: Vec::new(alloc),
        trouble: Trouble::FailsOnce,
        // Each line takes a write and a flush.
        good_turns: 4,
    };
    let ended = desk.call(Call::Export, b"".as_slice(), writer);
    let expected = Outcome {
        read: 0,
        written: text.len() as u64,
        replies: 0,
        end: Finish::Ended(End::WriteFault),
    };
    let replies = desk.replies(b"600 ann 6 advance\n");
    Ok(
        ended.outcome == expected
            && ended.writer.inner.as_slice() == text.as_bytes()
            && replies.as_slice() == b"ok 0 - 600\n".as_slice(),
    )
}
