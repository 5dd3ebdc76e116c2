//! What a row of an import asks for.
ghost use Rattle.std.specs.Prelude.{◌≡◌, ◌≢◌, ◌<◌, ◌↔◌, ℕ, true, length, Option, Some, IfSome};
ghost use Rattle.std.specs.Prelude.{IfNone};
ghost use Rattle.csv.specs.Records.{fields_of, field_at};
ghost use Rattle.register_requests.specs.Request.{IsDate, IsRequest};
ghost use Rattle.register_report.specs.ImportRows.{date_field, header, IsRowItem};
ghost use Rattle.register_report.specs.Within.RecordFields.{texts};

use csv::StringRecord;
use moment_core::Moment;
use period_core::KeyType;
use register_core::{Command, Name, Purpose, Registration, Request, RequestNumber};

/// The six fields of a record.
#[derive(Clone, Copy)]
struct RowFields<'a> {
    kind: &'a [u8],
    owner: &'a [u8],
    activation: &'a [u8],
    protect_stop: &'a [u8],
    deactivation: &'a [u8],
    purpose: &'a [u8],
}

/// The field at a place of a record.
fn field_at(row: &StringRecord, place: usize) -> &[u8]
    requires { place < length (fields_of row.now) }
    ensures { field_at (fields_of row.now) place ≡ Some result.now }
{
    let Some(field) = row.get(place) else {
        unreachable!();
    };
    field.as_bytes()
}

/// The fields of a record, if it has six.
fn fields_of_row(row: &StringRecord) -> Option<RowFields<'_>>
    ensures found { IfSome result (λ fields. fields_of row.now ≡ texts fields) }
    ensures none { IfNone result (length (fields_of row.now) ≢ 6) }
{
    if row.len() != 6 {
        return None;
    }
    Some(RowFields {
        kind: field_at(row, 0),
        owner: field_at(row, 1),
        activation: field_at(row, 2),
        protect_stop: field_at(row, 3),
        deactivation: field_at(row, 4),
        purpose: field_at(row, 5),
    })
}

/// Whether these are the fields of the header row.
fn are_header_fields(fields: &RowFields<'_>) -> bool
    ensures { (result ≡ true) ↔ (texts fields.now ≡ header) }
{
    fields.kind == b"type".as_slice()
        && fields.owner == b"owner".as_slice()
        && fields.activation == b"activation".as_slice()
        && fields.protect_stop == b"protect_stop".as_slice()
        && fields.deactivation == b"deactivation".as_slice()
        && fields.purpose == b"purpose".as_slice()
}

/// Whether a record is the header row.
pub fn is_header(row: &StringRecord) -> bool
    ensures { (result ≡ true) ↔ (fields_of row.now ≡ header) }
{
    match fields_of_row(row) {
        Some(fields) => are_header_fields(&fields),
        None => false,
    }
}

/// The date that a field gives, or none where it is empty; `None` where it is neither.
fn date_of_field(field: &[u8]) -> Option<Option<Moment>>
    ensures found { IfSome result (λ date. field.now ≡ date_field date) }
    ensures in_range { IfSome result (λ date. IsDate date) }
    ensures none { IfNone result ((date : Option ℕ) → IsDate date → field.now ≢ date_field date) }
{
    if field.is_empty() {
        return Some(None);
    }
    Some(Some(Moment::read(field)?))
}

/// The registration that a row with these fields asks for under this number, or `None` where it
/// asks for none.
fn registration_request(
    moment: Moment,
    caller: Name,
    number: u64,
    fields: &RowFields<'_>,
) -> Option<Request>
    ensures { IsRowItem moment caller number (texts fields.now) result }
{
    let number = RequestNumber::new(number)?;
    let kind = KeyType::from_text(fields.kind)?;
    let owner = Name::new(fields.owner)?;
    let activation = date_of_field(fields.activation)?;
    let protect_stop = date_of_field(fields.protect_stop)?;
    let deactivation = date_of_field(fields.deactivation)?;
    let purpose = Purpose::new(fields.purpose)?;
    Some(Request {
        moment,
        caller,
        number,
        command: Command::Register(Registration {
            kind,
            owner,
            activation,
            protect_stop,
            deactivation,
            purpose,
        }),
    })
}

/// What a row stands for under this number: the registration that it asks for, or `None` where it
/// asks for none.
pub fn row_item(moment: Moment, caller: Name, number: u64, row: &StringRecord) -> Option<Request>
    ensures item { IsRowItem moment caller number (fields_of row.now) result }
    ensures in_range { IfSome result IsRequest }
{
    registration_request(moment, caller, number, &fields_of_row(row)?)
}
