//! The texts that a register is written out as, piece by piece.
ghost use Rattle.std.specs.Prelude.{◌≡◌, IfOk};
ghost use Rattle.register_report.specs.Within.KeyTable.{foot_text, head_text, line_text};
ghost use Rattle.register_report.specs.Within.KeyTable.{has_line_for};

use key_rows::{
    KeyRow, export_header, export_row, is_listed_in_report, report_head, report_line, report_total,
};
use moment_core::Moment;
use period_core::OfficePeriods;
use std::alloc::{AllocError, Global};

/// What is written out: its head, a line for each row that is listed, and its foot.
#[derive(Clone, Copy)]
pub(crate) enum KeyTable {
    /// All keys, as CSV.
    Export,
    /// The keys that are due for rotation up to the second moment, as of the first, and those that
    /// are long by the periods that the office set.
    Report(Moment, Moment, OfficePeriods),
}

impl KeyTable {
    /// Whether the row has a line.
    pub(crate) fn has_line_for(&self, row: &KeyRow) -> bool
        ensures { result ≡ has_line_for self.now row.now }
    {
        match self {
            KeyTable::Export => true,
            KeyTable::Report(_, until, periods) => is_listed_in_report(*until, periods, row),
        }
    }

    pub(crate) fn head_text(&self, alloc: Global) -> Result<Vec<u8>, AllocError>
        ensures { IfOk result (λ text. text.items ≡ head_text self.now) }
    {
        match self {
            KeyTable::Export => Vec::from_slice(alloc, export_header().as_bytes()),
            KeyTable::Report(_, until, _) => Ok(report_head(alloc, *until)?.into_bytes()),
        }
    }

    pub(crate) fn line_text(&self, alloc: Global, row: &KeyRow) -> Result<Vec<u8>, AllocError>
        ensures { IfOk result (λ text. text.items ≡ line_text self.now row.now) }
    {
        match self {
            KeyTable::Export => export_row(alloc, row),
            KeyTable::Report(latest, until, _) => {
                Ok(report_line(alloc, *latest, *until, row)?.into_bytes())
            }
        }
    }

    pub(crate) fn foot_text(&self, alloc: Global, count: u64) -> Result<Vec<u8>, AllocError>
        ensures { IfOk result (λ text. text.items ≡ foot_text self.now count) }
    {
        match self {
            KeyTable::Export => Ok(Vec::new(alloc)),
            KeyTable::Report(..) => Ok(report_total(alloc, count)?.into_bytes()),
        }
    }
}
