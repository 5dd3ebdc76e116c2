//! How values stand in the cells of a register's tables.
ghost use Rattle.std.specs.Prelude.{◌≡◌, ◌≢◌, ◌≤◌, ℕ, pos, List, MatchOption, Option};
ghost use Rattle.sqlite.specs.Order.{column};
ghost use Rattle.sqlite.specs.declared.types.Value.TheVariants.{Int, Text as Words};
ghost use Rattle.sqlite_value.specs.Value.{owned};
ghost use Rattle.moment_core.specs.Moment.{IsMoment};
ghost use Rattle.lifecycle_core.specs.State.{state_code};
ghost use Rattle.period_core.specs.{KeyType.key_type_code, Period.max_months};
ghost use Rattle.register_requests.specs.Request.{max_key_number, IsDate};
ghost use Rattle.register_requests.specs.{Name.IsName, Purpose.IsPurpose, Quorum.IsQuorum};
ghost use Rattle.register_tables.specs.Tables.{date_cell};
ghost use Rattle.register_tables.specs.FoundRows.{GivesCell, GivesCellIn};

use lifecycle_core::State;
use moment_core::{LAST_SECOND, Moment};
use period_core::KeyType;
use register_core::{Name, Purpose, Quorum};
use sqlite::types::{ToSql, ValueRef};

/// A moment, kept as its second.
#[derive(Clone, Copy)]
pub struct MomentCell(pub Moment);

impl<'a> ToSql<'a> for MomentCell {
    ghost to_sql = { λ moment. Int (pos moment.0) };

    fn to_sql(self) -> ValueRef<'a>
        ensures value { owned result ≡ Int (pos self.0) }
        ensures in_range { IsMoment self.0 }
    {
        ValueRef::Int(self.0.seconds() as i64)
    }
}

/// What stands for a date that is not set: the second past the last moment, so that it comes after
/// every moment.
const UNSET: u64 = LAST_SECOND + 1;

/// A date that may be unset, kept as its second or [`UNSET`].
#[derive(Clone, Copy)]
pub struct DateCell(pub Option<Moment>);

impl<'a> ToSql<'a> for DateCell {
    ghost to_sql = { λ date. Int (pos (date_cell date.0)) };

    fn to_sql(self) -> ValueRef<'a>
        ensures value { owned result ≡ Int (pos (date_cell self.0)) }
        ensures in_range { IsDate self.0 }
    {
        match self.0 {
            Some(moment) => ValueRef::Int(moment.seconds() as i64),
            None => ValueRef::Int(UNSET as i64),
        }
    }
}

/// The number in the cell.
pub fn unsigned_integer_in(row: &sqlite::Row, at: usize) -> Option<u64>
    ensures { GivesCell result (column row.now at) (λ n. Int (pos n)) }
{
    let Ok(ValueRef::Int(cell)) = row.get_ref(at) else {
        return None;
    };
    u64::try_from(cell).ok()
}

/// The bytes of the text in the cell.
pub fn text_in(row: &sqlite::Row, at: usize) -> Option<&[u8]>
    ensures { MatchOption result ((text : List ℕ) → column row.now at ≢ Words text)
        (λ text. column row.now at ≡ Words text.now) }
{
    let Ok(ValueRef::Text(bytes)) = row.get_ref(at) else {
        return None;
    };
    Some(bytes)
}

/// The type of key in the cell.
pub fn key_type_in(row: &sqlite::Row, at: usize) -> Option<KeyType>
    ensures { GivesCell result (column row.now at) (λ kind. Int (pos (key_type_code kind))) }
{
    KeyType::from_code(u8::try_from(unsigned_integer_in(row, at)?).ok()?)
}

/// A number of months in the cell.
pub fn months_in(row: &sqlite::Row, at: usize) -> Option<u16>
    ensures { GivesCellIn result (column row.now at) (λ months. months ≤ max_months)
        (λ months. Int (pos months)) }
{
    u16::try_from(unsigned_integer_in(row, at)?).ok()
}

/// How many approvals the cell says that a destruction needs.
pub fn quorum_in(row: &sqlite::Row, at: usize) -> Option<Quorum>
    ensures { GivesCellIn result (column row.now at) IsQuorum (λ need. Int (pos need)) }
{
    Quorum::new(u8::try_from(unsigned_integer_in(row, at)?).ok()?)
}

/// The state in the cell.
pub fn state_in(row: &sqlite::Row, at: usize) -> Option<State>
    ensures { GivesCell result (column row.now at) (λ state. Int (pos (state_code state))) }
{
    State::from_code(u8::try_from(unsigned_integer_in(row, at)?).ok()?)
}

/// The name in the cell.
pub fn name_in(row: &sqlite::Row, at: usize) -> Option<Name>
    ensures { GivesCellIn result (column row.now at) IsName Words }
{
    Name::new(text_in(row, at)?)
}

/// The moment in the cell.
pub fn moment_in(row: &sqlite::Row, at: usize) -> Option<Moment>
    ensures { GivesCellIn result (column row.now at) IsMoment (λ second. Int (pos second)) }
{
    Moment::new(unsigned_integer_in(row, at)?)
}

/// The number of a key in the cell, or the 0 that stands for none.
pub fn key_number_or_zero_in(row: &sqlite::Row, at: usize) -> Option<u32>
    ensures { GivesCellIn result (column row.now at) (λ key. key ≤ max_key_number)
        (λ key. Int (pos key)) }
{
    u32::try_from(unsigned_integer_in(row, at)?).ok()
}

/// The purpose in the cell.
pub fn purpose_in(row: &sqlite::Row, at: usize) -> Option<Purpose>
    ensures { GivesCellIn result (column row.now at) IsPurpose Words }
{
    Purpose::new(text_in(row, at)?)
}

/// The date in the cell, which may be one that is not set.
pub fn date_in(row: &sqlite::Row, at: usize) -> Option<Option<Moment>>
    ensures { MatchOption result
        ((date : Option ℕ) → IsDate date → column row.now at ≢ Int (pos (date_cell date)))
        (λ date. (column row.now at ≡ Int (pos (date_cell date))) × IsDate date) }
{
    if unsigned_integer_in(row, at)? == UNSET {
        return Some(None);
    }
    moment_in(row, at).map(Some)
}
