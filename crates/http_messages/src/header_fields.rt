//! The header lines that say how a request is answered, gathered by their names in one pass.
ghost use Rattle.std.specs.Prelude.{◌≡◌, ◌≢◌, ◌++◌, ◌∷◌, [], ℕ, List, length, map, All, IfNone};
ghost use Rattle.std.specs.Prelude.{IfSome};
ghost use Rattle.std.specs.Char.{to_ascii_lowercase};
ghost use Rattle.httparse.specs.Spans.{IsHeaderWithin, header_bytes};
ghost use Rattle.http_messages.specs.HeaderFields.{AreFound, AreGathered, HeaderLines, is_named};
ghost use Rattle.http_messages.specs.HeaderFields.{values_of};

use httparse::spans::HeaderSpan;

/// Whether the line's name is this one, which is given in lower case.
fn is_named(prefix: &[u8], line: &HeaderSpan, name: &[u8]) -> bool
    requires within { IsHeaderWithin (length prefix.now) line.now }
    requires lower { map to_ascii_lowercase name.now ≡ name.now }
    ensures { result ≡ is_named name.now (header_bytes prefix.now line.now).0 }
{
    line.name.of(prefix).eq_ignore_ascii_case(name)
}

/// The values of the header lines of one name.
#[derive(Clone, Copy)]
pub(crate) enum Values<'b> {
    None,
    One(&'b [u8]),
    Several,
}

impl<'b> Values<'b> {
    /// The value, where there is one and no other.
    pub fn only_value(self) -> Option<&'b [u8]>
        ensures found { (vs : List (List ℕ)) → AreFound vs self.entry
            → IfSome result (λ value. vs ≡ value.now ∷ []) }
        ensures none { (vs : List (List ℕ)) → AreFound vs self.entry
            → IfNone result ((value : List ℕ) → vs ≢ value ∷ []) }
    {
        match self {
            Values::One(value) => Some(value),
            Values::None | Values::Several => None,
        }
    }

    /// With one value more.
    fn with_one_more(self, value: &'b [u8]) -> Self
        ensures { (vs : List (List ℕ)) → AreFound vs self.entry
            → AreFound (vs ++ value.now ∷ []) result }
    {
        match self {
            Values::None => Values::One(value),
            _ => Values::Several,
        }
    }

    /// With the value of one line more, where that line has this name, which is given in lower
    /// case.
    fn with_value_if_named(self, prefix: &'b [u8], line: &HeaderSpan, name: &[u8]) -> Self
        requires within { IsHeaderWithin (length prefix.now) line.now }
        requires lower { map to_ascii_lowercase name.now ≡ name.now }
        ensures { (lines : HeaderLines) → AreFound (values_of name.now lines) self.entry
            → AreFound (values_of name.now (lines ++ header_bytes prefix.now line.now ∷ []))
            result }
    {
        if !is_named(prefix, line, name) {
            return self;
        }
        self.with_one_more(line.value.of(prefix))
    }
}

/// The values of the header lines of each name that is looked at (RFC 9110, section 5).
#[derive(Clone, Copy)]
pub(crate) struct HeaderFields<'b> {
    pub host: Values<'b>,
    pub transfer_encoding: Values<'b>,
    pub content_length: Values<'b>,
    pub caller: Values<'b>,
    pub request_number: Values<'b>,
}

impl<'b> HeaderFields<'b> {
    /// With the value of one line more, under its name.
    fn with_line(self, prefix: &'b [u8], line: &HeaderSpan) -> Self
        requires { IsHeaderWithin (length prefix.now) line.now }
        ensures { (lines : HeaderLines) → AreGathered lines self.entry
            → AreGathered (lines ++ header_bytes prefix.now line.now ∷ []) result }
    {
        HeaderFields {
            host: self.host.with_value_if_named(prefix, line, b"host"),
            transfer_encoding: self
                .transfer_encoding
                .with_value_if_named(prefix, line, b"transfer-encoding"),
            content_length: self
                .content_length
                .with_value_if_named(prefix, line, b"content-length"),
            caller: self.caller.with_value_if_named(prefix, line, b"caller"),
            request_number: self
                .request_number
                .with_value_if_named(prefix, line, b"request-number"),
        }
    }

    /// The values of these header lines.
    pub fn gather_lines(prefix: &'b [u8], headers: &[HeaderSpan]) -> Self
        requires { All (IsHeaderWithin (length prefix.now)) headers.now }
        ensures { AreGathered (map (header_bytes prefix.now) headers.now) result }
    {
        let mut fields = HeaderFields {
            host: Values::None,
            transfer_encoding: Values::None,
            content_length: Values::None,
            caller: Values::None,
            request_number: Values::None,
        };
        for line in headers {
            fields = fields.with_line(prefix, line);
        }
        fields
    }
}
