//! The values of a request, each of a type of its own, so that none out of its range can be made:
//! names, purposes, request numbers and numbers of approvals.
ghost use Rattle.std.specs.Prelude.{◌≡◌, ◌↔◌, IsSome, IfSome, Some, nat_eq, refl, ◌≤◌, length};
ghost use Rattle.std.specs.Cmp.Lexicographic.{pointwise, slice_cmp, nat_list_eq_equiv};
ghost use Rattle.std.specs.Cmp.Lexicographic.{nat_list_cmp_total, texts_ties, texts_po};
ghost use Rattle.std.specs.{List.list_all, Ordering.nat_cmp, Cmp.partial_equiv_from_equiv};
ghost use Rattle.register_requests.specs.Name.{IsName, is_name_byte};
ghost use Rattle.register_requests.specs.Purpose.{IsPurpose, is_purpose_byte};
ghost use Rattle.register_requests.specs.{Number.IsNumber, Quorum.IsQuorum};

use std::cmp::Ordering;
use std::marker::Model;
use std::{fmt, str};

/// How many bytes a name has at most.
pub const MAX_NAME_LENGTH: usize = 64;

/// A caller, owner or custodian: 1 to 64 bytes, each an ASCII letter, a digit or one of `-_.@`
/// (this register's own). In a contract it is the list of its bytes.
#[derive(Clone, Copy)]
pub struct Name {
    text: Text<MAX_NAME_LENGTH>,
}

impl Model for Name {
    ghost use Rattle.std.specs.Prelude.{ℕ, List};
    ghost use Rattle.register_requests.specs.Name.{IsName};

    ghost Value = { List ℕ };

    ghost view = { λ n. n.text };

    ghost invariant = { λ n. IsName n.text };

    ghost inverse = { λ xs. record { text = xs } };
}

/// Whether a name may have each of the bytes.
fn has_name_bytes(bytes: &[u8]) -> bool
    ensures { result ≡ list_all is_name_byte bytes.now }
{
    bytes.iter().all(
        |byte| matches!(*byte, b'a'..=b'z' | b'A'..=b'Z' | b'0'..=b'9' | b'-' | b'_' | b'.' | b'@'),
    )
}

impl Name {
    /// The name of these bytes, or `None` where they are no name.
    pub fn new(bytes: &[u8]) -> Option<Self>
        ensures in_range { IsSome result ↔ IsName bytes.now }
        ensures value { IfSome result (λ n. n ≡ bytes.now) }
    {
        if (1..=MAX_NAME_LENGTH).contains(&bytes.len()) && has_name_bytes(bytes) {
            Some(Name {
                text: Text::new(bytes),
            })
        } else {
            None
        }
    }

    /// The name's text, which is ASCII.
    pub fn text(&self) -> &str
        ensures value { result.now ≡ self.now }
        ensures in_range { IsName result.now }
    {
        let Ok(text) = str::from_utf8(self.text.as_bytes()) else {
            // The bytes of a name are ASCII.
            unreachable!();
        };
        text
    }
}

impl PartialEq for Name {
    ghost eq = { pointwise nat_eq };

    ghost laws = { partial_equiv_from_equiv nat_list_eq_equiv };

    fn eq(&self, other: &Name) -> bool {
        self.text() == other.text()
    }
}

impl Eq for Name {
    ghost laws = { nat_list_eq_equiv };
}

impl PartialOrd for Name {
    ghost partial_cmp = { λ x y. Some (slice_cmp nat_cmp x y) };

    ghost laws = { texts_po };

    fn partial_cmp(&self, other: &Name) -> Option<Ordering> {
        Some(self.cmp(other))
    }
}

/// In order of their bytes.
impl Ord for Name {
    ghost cmp = { slice_cmp nat_cmp };

    ghost total = { nat_list_cmp_total };

    ghost matches_partial_cmp = { λ x y. refl };

    ghost matches_eq = { texts_ties };

    fn cmp(&self, other: &Name) -> Ordering {
        self.text().cmp(other.text())
    }
}

impl fmt::Debug for Name {
    fn fmt<W: fmt::Write>(&self, f: &mut fmt::Formatter<W>) -> fmt::Result {
        fmt::Debug::fmt(&self.text(), f)
    }
}

/// How many bytes a purpose has at most.
pub const MAX_PURPOSE_LENGTH: usize = 200;

/// What a key is for: 1 to 200 bytes of UTF-8 without control characters (U+0000 to U+001F,
/// U+007F), which neither begins nor ends with a space (this register's own). In a contract it is
/// the list of its bytes.
#[derive(Clone, Copy, PartialEq, Eq)]
pub struct Purpose {
    text: Text<MAX_PURPOSE_LENGTH>,
}

impl Model for Purpose {
    ghost use Rattle.std.specs.Prelude.{ℕ, List};
    ghost use Rattle.register_requests.specs.Purpose.{IsPurpose};

    ghost Value = { List ℕ };

    ghost view = { λ p. p.text };

    ghost invariant = { λ p. IsPurpose p.text };

    ghost inverse = { λ xs. record { text = xs } };
}

/// Whether a purpose may have each of the bytes: none of them is a control character.
fn has_purpose_bytes(bytes: &[u8]) -> bool
    ensures { result ≡ list_all is_purpose_byte bytes.now }
{
    bytes.iter().all(|byte| *byte >= b' ' && *byte != 0x7f)
}

impl Purpose {
    /// The purpose of these bytes, or `None` where they are no purpose.
    pub fn new(bytes: &[u8]) -> Option<Self>
        ensures in_range { IsSome result ↔ IsPurpose bytes.now }
        ensures value { IfSome result (λ p. p ≡ bytes.now) }
    {
        if bytes.is_empty() || bytes.len() > MAX_PURPOSE_LENGTH {
            return None;
        }
        if bytes[0] == b' ' || bytes[bytes.len() - 1] == b' ' {
            return None;
        }
        if !has_purpose_bytes(bytes) || str::from_utf8(bytes).is_err() {
            return None;
        }
        Some(Purpose {
            text: Text::new(bytes),
        })
    }

    /// The purpose's text.
    pub fn text(&self) -> &str
        ensures value { result.now ≡ self.now }
        ensures in_range { IsPurpose result.now }
    {
        let Ok(text) = str::from_utf8(self.text.as_bytes()) else {
            unreachable!();
        };
        text
    }
}

impl fmt::Debug for Purpose {
    fn fmt<W: fmt::Write>(&self, f: &mut fmt::Formatter<W>) -> fmt::Result {
        fmt::Debug::fmt(&self.text(), f)
    }
}

/// The greatest number of a request, 2^53 - 1: a JSON number holds it exactly.
pub const MAX_REQUEST_NUMBER: u64 = 9_007_199_254_740_991;

/// The number by which a caller tells its requests apart, from 1 to [`MAX_REQUEST_NUMBER`] (this
/// register's own). In a contract it is that number.
#[derive(Clone, Copy, PartialEq, Eq)]
pub struct RequestNumber {
    number: u64,
}

impl Model for RequestNumber {
    ghost use Rattle.std.specs.Prelude.{ℕ};
    ghost use Rattle.register_requests.specs.Number.{IsNumber};

    ghost Value = { ℕ };

    ghost view = { λ n. n.number };

    ghost invariant = { λ n. IsNumber n.number };

    ghost inverse = { λ n. record { number = n } };
}

impl RequestNumber {
    /// The number, or `None` out of the range.
    pub fn new(number: u64) -> Option<Self>
        ensures in_range { IsSome result ↔ IsNumber number }
        ensures value { IfSome result (λ n. n ≡ number) }
    {
        if (1..=MAX_REQUEST_NUMBER).contains(&number) {
            Some(RequestNumber { number })
        } else {
            None
        }
    }

    /// The number itself.
    pub fn get(self) -> u64
        ensures value { result ≡ self }
        ensures in_range { IsNumber result }
    {
        self.number
    }
}

/// How many approvals, of different custodians, the destruction of a key needs at the least, and
/// where its owner has set nothing (this register's own).
pub const MIN_APPROVALS: u8 = 2;

/// How many its owner may ask for at the most (this register's own).
pub const MAX_APPROVALS: u8 = 5;

/// How many approvals, of different custodians, the destruction of a key needs: from
/// [`MIN_APPROVALS`] to [`MAX_APPROVALS`] (this register's own). In a contract it is that number.
#[derive(Clone, Copy, Debug, PartialEq, Eq)]
pub struct Quorum {
    approvals: u8,
}

impl Model for Quorum {
    ghost use Rattle.std.specs.Prelude.{ℕ};
    ghost use Rattle.register_requests.specs.Quorum.{IsQuorum};

    ghost Value = { ℕ };

    ghost view = { λ n. n.approvals };

    ghost invariant = { λ n. IsQuorum n.approvals };

    ghost inverse = { λ n. record { approvals = n } };
}

impl Quorum {
    /// The least, which is needed where the key's owner has set nothing.
    pub const LEAST: Quorum = Quorum {
        approvals: MIN_APPROVALS,
    };

    /// So many approvals, or `None` out of the range.
    pub fn new(approvals: u8) -> Option<Self>
        ensures in_range { IsSome result ↔ IsQuorum approvals }
        ensures value { IfSome result (λ n. n ≡ approvals) }
    {
        if (MIN_APPROVALS..=MAX_APPROVALS).contains(&approvals) {
            Some(Quorum { approvals })
        } else {
            None
        }
    }

    /// How many they are.
    pub fn get(self) -> u8
        ensures value { result ≡ self }
        ensures in_range { IsQuorum result }
    {
        self.approvals
    }
}

/// Up to `N` bytes that lie in the value itself, so that keeping them takes no memory.
#[derive(Clone, Copy, PartialEq, Eq)]
pub(crate) struct Text<const N: usize> {
    bytes: [u8; N],
    len: usize,
}

impl<const N: usize> Model for Text<N> {
    ghost use Rattle.std.specs.Prelude.{◌≡◌, ◌≤◌, ◌-◌, ℕ, List, ◌++◌, length, take, drop};
    ghost use Rattle.std.specs.Prelude.{replicate};
    ghost use Rattle.register_requests.specs.Text.{inverse_bytes, inverse_length};

    ghost Value = { List ℕ };

    ghost view = { λ t. take t.len t.bytes };

    // The unused room holds zeros, so that equal texts are equal values.
    ghost invariant = { λ t.
        (t.len ≤ N) × (length t.bytes ≡ N) × (drop t.len t.bytes ≡ replicate (N - t.len) 0) };

    ghost inverse = { λ xs. record { bytes = xs ++ replicate (N - length xs) 0; len = length xs } };

    ghost inverse_ok = { λ t h i. record {
      bytes = inverse_bytes N t.len t.bytes h.0 h.1 h.2 i;
      len = inverse_length N t.len t.bytes h.0 h.1 i;
    } };
}

impl<const N: usize> Text<N> {
    /// A copy of the bytes.
    pub fn new(bytes: &[u8]) -> Self
        requires { length bytes.now ≤ N }
        ensures { result ≡ bytes.now }
    {
        let len = bytes.len();
        let mut kept = [0; N];
        kept[..len].copy_from_slice(bytes);
        Text { bytes: kept, len }
    }

    /// The bytes.
    pub fn as_bytes(&self) -> &[u8]
        ensures value { result.now ≡ self.now }
        ensures fits { length result.now ≤ N }
    {
        &self.bytes[..self.len]
    }
}
