//! Writing out what a desk has, a row at a time.
ghost use Rattle.std.specs.Prelude.{◌≡◌, ◌≢◌, Ok, IfOk, IfErr};
ghost use Rattle.register_report.specs.Within.KeyTable.{has_line_for, row_text};
ghost use Rattle.register_report.specs.TextWriter.{IsEndOfWriting};
ghost use Rattle.register_report.specs.Within.TextWriter.{PassesRows, PutsRows, PutsTable};
ghost use Rattle.register_report.specs.Within.TextWriter.{PutsText};

use crate::key_table::KeyTable;
use key_rows::KeyRow;
use register_core::MAX_KEYS;
use register_desk::{End, KeyRows, MAX_IDLE_TURNS, Watched};
use sqlite::Alter;
use std::alloc::{AllocError, Global};
use std::io::Write;

/// The text, where there was memory for it.
fn bytes_or_end(text: Result<Vec<u8>, AllocError>) -> Result<Vec<u8>, End>
    ensures text { IfOk result (λ formed. text ≡ Ok formed) }
    ensures end { IfErr result (λ end. end ≡ End.Memory) }
{
    Ok(text?)
}

/// Writes the text and flushes it, and counts what was written of it. A count that has no room for
/// the text is want of memory, and nothing of it is written.
fn put_text<W: Write>(writer: &mut Watched<W>, written: &mut u64, text: &[u8]) -> Result<(), End>
    ensures puts { PutsText W.contents writer.old writer.new written.old written.new
        text.now result }
    ensures end { IfErr result IsEndOfWriting }
    ensures sound { IfErr result (λ end. end ≢ End.Broken) }
{
    let Some(after) = written.checked_add(text.len() as u64) else {
        return Err(End::Memory);
    };
    match writer.write_flushed(MAX_IDLE_TURNS, text) {
        Ok(()) => {
            *written = after;
            Ok(())
        }
        Err(fault) => {
            *written += fault.written as u64;
            Err(End::WriteFault)
        }
    }
}

/// Writes the line of the row, if it has one, and tells whether it has.
fn put_row_if_listed<W: Write>(
    alloc: Global,
    table: &KeyTable,
    row: &KeyRow,
    writer: &mut Watched<W>,
    written: &mut u64,
) -> Result<bool, End>
    ensures puts { PutsText W.contents writer.old writer.new written.old written.new
        (row_text table.now row.now) result }
    ensures listed { IfOk result (λ listed. listed ≡ has_line_for table.now row.now) }
    ensures end { IfErr result IsEndOfWriting }
    ensures sound { IfErr result (λ end. end ≢ End.Broken) }
{
    if !table.has_line_for(row) {
        return Ok(false);
    }
    let line = bytes_or_end(table.line_text(alloc, row))?;
    put_text(writer, written, &line)?;
    Ok(true)
}

/// Writes a line for each row that comes and has one, and counts them.
fn put_and_count_listed_rows<W: Write, S: Alter>(
    alloc: Global,
    table: &KeyTable,
    rows: &mut KeyRows<'_, S>,
    writer: &mut Watched<W>,
    written: &mut u64,
) -> Result<u64, End>
    ensures passes { PassesRows S.Store rows.old rows.new result }
    ensures rows { PutsRows W.contents S.Store writer.old writer.new written.old written.new
        rows.old rows.new table.now result }
{
    let mut count: u64 = 0;
    'lines: for _ in 0..=MAX_KEYS {
        let Some(row) = rows.next_key()? else {
            return Ok(count);
        };
        if put_row_if_listed(alloc, table, &row, writer, written)? {
            count += 1;
        }
    }
    // No register has as many keys.
    Err(End::Store)
}

/// Writes the table of the rows that come: its head, a line for each that is listed, and its foot.
pub(crate) fn put_table<W: Write, S: Alter>(
    alloc: Global,
    table: &KeyTable,
    rows: &mut KeyRows<'_, S>,
    writer: &mut Watched<W>,
    written: &mut u64,
) -> Result<(), End>
    ensures passes { PassesRows S.Store rows.old rows.new result }
    ensures table { PutsTable W.contents S.Store writer.old writer.new written.old written.new
        rows.old rows.new table.now result }
{
    let head = bytes_or_end(table.head_text(alloc))?;
    put_text(writer, written, &head)?;
    let count = put_and_count_listed_rows(alloc, table, rows, writer, written)?;
    let foot = bytes_or_end(table.foot_text(alloc, count))?;
    put_text(writer, written, &foot)
}
