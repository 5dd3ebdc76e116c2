//! The text of a date in an export and in a report.
ghost use Rattle.std.specs.Prelude.{◌≡◌};
ghost use Rattle.key_rows.specs.Export.{date_cell_text};

use arrayvec::ArrayString;
use moment_core::Moment;
use std::str;

/// The text of a date, which is empty where the date is not set.
pub(crate) fn date_text(date: Option<Moment>) -> ArrayString<20>
    ensures { result.bytes ≡ date_cell_text date }
{
    let mut text = ArrayString::new();
    if let Some(moment) = date {
        let bytes = moment.write();
        let Ok(written) = str::from_utf8(&bytes) else {
            unreachable!();
        };
        text.push_str(written);
    }
    text
}
