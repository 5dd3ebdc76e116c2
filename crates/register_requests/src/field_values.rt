//! Reads the values that the fields of a line write, which are what stands between its spaces.
#![tactic(auto, using(std::proofs::lemmas::Fmt::decimal_injective))]

ghost use Rattle.std.specs.Prelude.{◌≡◌, ◌≢◌, ℕ, ◌<◌, ◌≤◌, ◌^◌, ◌↔◌, ◌⊎◌, decimal, List};
ghost use Rattle.std.specs.Prelude.{option_map, length, position, IsSome, IfSome, IfNone};
ghost use Rattle.moment_core.specs.Moment.{IsMoment};
ghost use Rattle.lifecycle_core.specs.Reason.{reason_code};
ghost use Rattle.period_core.specs.{KeyType.key_type_text, Period.IsPeriod};
ghost use Rattle.register_requests.specs.Purpose.{IsPurpose};
ghost use Rattle.register_requests.specs.Request.{IsDate, IsEdit, IsKeyNumber, IsReadAs, date_text};
ghost use Rattle.register_requests.specs.Request.{edit_text};
ghost use Rattle.register_requests.specs.Within.FieldText.{Writes, IsAny, itself, IsItself};
ghost use Rattle.register_requests.specs.Within.FieldText.{IsShort, reason_text, period_text};
ghost use Rattle.register_requests.specs.Within.FieldText.{is_space, AreSplit};
ghost use Rattle.register_requests.specs.{Name.IsName, Number.IsNumber, Quorum.IsQuorum};

use crate::request::Edit;
use crate::values::{Name, Purpose, Quorum, RequestNumber};
use itoa::Buffer;
use lifecycle_core::Reason;
use moment_core::Moment;
use period_core::{KeyType, Period};
use std::str;

/// Where the first space stands.
fn first_space(bytes: &[u8]) -> Option<usize>
    ensures place { result ≡ position is_space bytes.now }
    ensures within { IfSome result (λ i. i < length bytes.now) }
{
    bytes.iter().position(|byte| *byte == b' ')
}

/// The field before the first space, and what stands after that space.
pub(crate) fn split_first_field(bytes: &[u8]) -> Option<(&[u8], &[u8])>
    ensures { IsReadAs (AreSplit IsItself IsItself) bytes.now
        (option_map (λ split. (split.0.now, split.1.now)) result) }
{
    let end = first_space(bytes)?;
    Some((&bytes[..end], &bytes[end + 1..]))
}

/// A value that has a text.
pub(crate) trait FromBytes: Copy {
    ghost is_text: { List ℕ → Self → Type 0 };

    /// The value whose text the bytes are, or `None` where they are the text of none.
    fn from_bytes(bytes: &[u8]) -> Option<Self>
        ensures { IsReadAs is_text bytes.now result };
}

// The texts of both with a space between, where the first has none.
impl<A: FromBytes, B: FromBytes> FromBytes for (A, B) {
    ghost is_text = { AreSplit A.is_text B.is_text };

    fn from_bytes(bytes: &[u8]) -> Option<Self> {
        let (field, rest) = split_first_field(bytes)?;
        let first = A::from_bytes(field)?;
        let second = B::from_bytes(rest)?;
        Some((first, second))
    }
}

/// The number that the field writes in decimal, with no sign and no leading zero, or `None` where
/// it writes none below 2^64.
pub fn read_decimal(field: &[u8]) -> Option<u64>
    ensures found { IfSome result (λ n. field.now ≡ decimal n) }
    ensures none { IfNone result ((n : ℕ) → n < 2 ^ 64 → field.now ≢ decimal n) }
{
    let Ok(text) = str::from_utf8(field) else {
        return None;
    };
    let Ok(number) = text.parse::<u64>() else {
        return None;
    };
    // Of the texts that `parse` reads as the number, a field has the one that is written.
    let mut buffer = Buffer::new();
    if buffer.format(number).as_bytes() == field {
        Some(number)
    } else {
        None
    }
}

impl FromBytes for Moment {
    ghost is_text = { Writes IsMoment decimal };

    fn from_bytes(bytes: &[u8]) -> Option<Self> {
        Moment::new(read_decimal(bytes)?)
    }
}

// A date, `-` for none.
impl FromBytes for Option<Moment> {
    ghost is_text = { Writes IsDate date_text };

    fn from_bytes(bytes: &[u8]) -> Option<Self> {
        if bytes == b"-".as_slice() {
            return Some(None);
        }
        let moment = Moment::from_bytes(bytes)?;
        Some(Some(moment))
    }
}

// What is said of a date: `=` that it stays, `-` that it is unset, or the moment to set it to.
impl FromBytes for Edit {
    ghost is_text = { Writes IsEdit edit_text };

    fn from_bytes(bytes: &[u8]) -> Option<Self> {
        if bytes == b"=".as_slice() {
            return Some(Edit::Keep);
        }
        if bytes == b"-".as_slice() {
            return Some(Edit::Clear);
        }
        let moment = Moment::from_bytes(bytes)?;
        Some(Edit::Set(moment))
    }
}

/// The number as that of a key, or `None` out of the range.
fn key_number_in_range(number: u64) -> Option<u32>
    ensures in_range { IsSome result ↔ IsKeyNumber number }
    ensures value { IfSome result (λ n. n ≡ number) }
{
    if number == 0 {
        return None;
    }
    u32::try_from(number).ok()
}

/// The number of a key that the field writes in decimal, from 1 to 2^32 - 1, or `None` where it
/// writes none.
pub fn read_key_number(field: &[u8]) -> Option<u32>
    ensures found { IfSome result (λ n. IsKeyNumber n × (field.now ≡ decimal n)) }
    ensures none { IfNone result ((n : ℕ) → IsKeyNumber n → field.now ≢ decimal n) }
{
    key_number_in_range(read_decimal(field)?)
}

// The number of a key.
impl FromBytes for u32 {
    ghost is_text = { Writes IsKeyNumber decimal };

    fn from_bytes(bytes: &[u8]) -> Option<Self> {
        read_key_number(bytes)
    }
}

/// The reason with this code, or `None` where no reason has it.
fn reason_with_code(number: u64) -> Option<Reason>
    ensures found { IfSome result (λ reason. reason_code reason ≡ number) }
    ensures none { IfNone result ((number < 1) ⊎ (7 < number)) }
{
    let code = u8::try_from(number).ok()?;
    Reason::from_code(code)
}

impl FromBytes for Reason {
    ghost is_text = { Writes IsAny reason_text };

    fn from_bytes(bytes: &[u8]) -> Option<Self> {
        reason_with_code(read_decimal(bytes)?)
    }
}

/// The request's number that the field writes in decimal, or `None` where it writes none.
pub fn read_request_number(field: &[u8]) -> Option<RequestNumber>
    ensures found { IfSome result (λ n. IsNumber n × (field.now ≡ decimal n)) }
    ensures none { IfNone result ((n : ℕ) → IsNumber n → field.now ≢ decimal n) }
{
    RequestNumber::new(read_decimal(field)?)
}

impl FromBytes for RequestNumber {
    ghost is_text = { Writes IsNumber decimal };

    fn from_bytes(bytes: &[u8]) -> Option<Self> {
        read_request_number(bytes)
    }
}

/// So many approvals, or `None` out of the range.
fn quorum_in_range(number: u64) -> Option<Quorum>
    ensures in_range { IsSome result ↔ IsQuorum number }
    ensures value { IfSome result (λ n. n ≡ number) }
{
    Quorum::new(u8::try_from(number).ok()?)
}

impl FromBytes for Quorum {
    ghost is_text = { Writes IsQuorum decimal };

    fn from_bytes(bytes: &[u8]) -> Option<Self> {
        quorum_in_range(read_decimal(bytes)?)
    }
}

// A number of months; of its range a period speaks.
impl FromBytes for u16 {
    ghost is_text = { Writes IsShort decimal };

    fn from_bytes(bytes: &[u8]) -> Option<Self> {
        u16::try_from(read_decimal(bytes)?).ok()
    }
}

impl FromBytes for Period {
    ghost is_text = { Writes IsPeriod period_text };

    fn from_bytes(bytes: &[u8]) -> Option<Self> {
        let (originator, recipient) = <(u16, u16)>::from_bytes(bytes)?;
        Period::new(originator, recipient)
    }
}

impl FromBytes for Name {
    ghost is_text = { Writes IsName itself };

    fn from_bytes(bytes: &[u8]) -> Option<Self> {
        Name::new(bytes)
    }
}

impl FromBytes for Purpose {
    ghost is_text = { Writes IsPurpose itself };

    fn from_bytes(bytes: &[u8]) -> Option<Self> {
        Purpose::new(bytes)
    }
}

impl FromBytes for KeyType {
    ghost is_text = { Writes IsAny key_type_text };

    fn from_bytes(bytes: &[u8]) -> Option<Self> {
        KeyType::from_text(bytes)
    }
}
