//! The text of an export, a row at a time.
ghost use Rattle.std.specs.Prelude.{◌≡◌, ◌<◌, ◌+◌, ◌^◌, ◌++◌, ℕ, List, [], ◌∷◌, length, OnOk, IfOk};
ghost use Rattle.std.specs.Prelude.{Some};
ghost use Rattle.key_rows.specs.Export.{export_header, export_row};
ghost use Rattle.key_rows.specs.Within.{HasFields, written};
ghost use Rattle.key_rows.specs.{Within.IsPrintable, Within.cell_text};

use crate::cell::Cell;
use crate::date_text::date_text;
use crate::key_row::KeyRow;
use csv::{Writer, WriterBuilder};
use itoa::Buffer;
use std::alloc::{AllocError, Global};

/// A writer to memory, which fails for want of memory alone.
type RowWriter = Writer<Vec<u8>>;

/// The columns of an export, in their order, each with its cell of a key. No other code names all
/// of them: `header` has their names as a row, and `cells` the cells of a key.
macro_rules! columns {
    (header) => { columns!(@header none) };
    (cells $key:ident) => { columns!(@cells $key) };
    (@$form:ident $key:ident) => {
        columns!(
            @@$form
            "number": Cell::Number($key.number),
            "type": Cell::Kind($key.kind),
            "owner": Cell::Name(&$key.owner),
            "activation": Cell::Date($key.row.dates.activation),
            "protect_stop": Cell::Date($key.row.dates.protect_stop),
            "deactivation": Cell::Date($key.row.dates.deactivation),
            "state": Cell::State($key.row.state),
            "initial": Cell::Date(Some($key.row.dates.initial)),
            "destroyed": Cell::Date($key.row.dates.destroy),
            "compromised": Cell::Date($key.row.dates.compromise),
            "occurrence": Cell::Date($key.row.dates.compromise_occurrence),
            "purpose": Cell::Purpose(&$key.purpose)
        )
    };
    (@@header $name:literal: $cell:expr $(, $more:literal: $its:expr)*) => {
        concat!($name $(, ",", $more)*, "\n")
    };
    (@@cells $($name:literal: $cell:expr),+) => {
        [$($cell),+]
    };
}

/// Writes a field after those that the row has. One with a line end would stand between quotes as
/// well, but no field of a key has one.
fn put_field(row: &mut RowWriter, field: &str) -> Result<(), AllocError>
    ensures { OnOk result ((fields : List (List ℕ)) → length fields + 1 < 2 ^ 64 →
        IsPrintable field.now → HasFields row.old fields →
        HasFields row.new (fields ++ field.now ∷ [])) }
{
    row.write_field(field.as_bytes()).map_err(|_| AllocError)
}

/// Writes a cell after the fields that the row has.
fn put_cell(row: &mut RowWriter, cell: &Cell<'_>) -> Result<(), AllocError>
    ensures { OnOk result ((fields : List (List ℕ)) → length fields + 1 < 2 ^ 64 →
        HasFields row.old fields → HasFields row.new (fields ++ cell_text cell.now ∷ [])) }
{
    match *cell {
        Cell::Number(number) => put_field(row, Buffer::new().format(number)),
        Cell::Kind(kind) => put_field(row, kind.text()),
        Cell::State(state) => put_field(row, state.text()),
        Cell::Date(date) => put_field(row, date_text(date).as_str()),
        Cell::Name(name) => put_field(row, name.text()),
        Cell::Purpose(purpose) => put_field(row, purpose.text()),
    }
}

/// Writes the row of a key.
fn put_row(row: &mut RowWriter, key: &KeyRow) -> Result<(), AllocError>
    ensures { OnOk result (HasFields row.old [] → written row.new ≡ Some (export_row key.now)) }
{
    for cell in &columns!(cells key) {
        put_cell(row, cell)?;
    }
    row.end_record().map_err(|_| AllocError)
}

/// The first line of an export, with its LF.
pub fn export_header() -> &'static str
    ensures { result.now ≡ export_header }
{
    columns!(header)
}

/// The line of a key in an export, with its LF.
pub fn export_row(alloc: Global, key: &KeyRow) -> Result<Vec<u8>, AllocError>
    ensures { IfOk result (λ text. text.items ≡ export_row key.now) }
{
    // The writer lies in this function alone: to hand it on by value costs more than the row.
    let mut row = WriterBuilder::new().from_writer(Vec::new(alloc));
    put_row(&mut row, key)?;
    row.into_inner().map_err(|_| AllocError)
}
