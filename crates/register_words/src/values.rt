//! The values among the program's words, each read as a field of a request line is.
ghost use Rattle.std.specs.Prelude.{◌<◌, ◌^◌};
ghost use Rattle.register_words.specs.Values.{AreBounds, AreTerms, IsBetween, IsCaller, IsDays};
ghost use Rattle.register_words.specs.Values.{IsExchanges, IsFirst, IsMomentText, IsPort};
ghost use Rattle.register_words.specs.Values.{ReadsValue};

use moment_core::Moment;
use register_requests::{Name, RequestNumber, read_decimal, read_request_number};

/// For how many days a report looks ahead at most.
pub const MAX_DAYS: u64 = 36_500;

/// The greatest port.
const MAX_PORT: u64 = 65_535;

/// How many exchanges are served at most.
pub const MAX_EXCHANGES: u64 = 1_000_000;

/// What is said of the rows of an import, as it was given.
#[derive(Clone, Copy)]
pub struct GivenTerms<'a> {
    pub moment: &'a str,
    pub caller: &'a str,
    pub first: &'a str,
}

/// At which moment, of whom, and under which number for the first one the rows of an import are
/// registered.
#[derive(Clone, Copy)]
pub struct Terms {
    pub moment: Moment,
    pub caller: Name,
    pub first: RequestNumber,
}

/// The moment that the text writes in seconds since 1970-01-01T00:00:00Z, in decimal.
fn read_moment_in_seconds(text: &str) -> Option<Moment>
    ensures { ReadsValue IsMomentText text.now result }
{
    Moment::new(read_decimal(text.as_bytes())?)
}

/// The caller that the text names.
fn read_caller(text: &str) -> Option<Name>
    ensures { ReadsValue IsCaller text.now result }
{
    Name::new(text.as_bytes())
}

/// The number of a request that the text writes in decimal.
fn read_first_number(text: &str) -> Option<RequestNumber>
    ensures { ReadsValue IsFirst text.now result }
{
    read_request_number(text.as_bytes())
}

impl GivenTerms<'_> {
    /// The terms, where each text is a value.
    pub fn read(&self) -> Option<Terms>
        ensures { ReadsValue AreTerms self.now result }
    {
        Some(Terms {
            moment: read_moment_in_seconds(self.moment)?,
            caller: read_caller(self.caller)?,
            first: read_first_number(self.first)?,
        })
    }
}

/// Where and how often exchanges are served, as it was given.
#[derive(Clone, Copy)]
pub struct GivenBounds<'a> {
    pub port: &'a str,
    pub exchanges: &'a str,
}

/// Where and how often exchanges are served.
#[derive(Clone, Copy)]
pub struct Bounds {
    /// The port, from 1.
    pub port: u16,
    /// How many connections, from 1 to [`MAX_EXCHANGES`].
    pub exchanges: u32,
}

/// The whole number from `least` to `most` that the text writes in decimal.
fn read_number_between(text: &str, least: u64, most: u64) -> Option<u32>
    requires { most < 2 ^ 32 }
    ensures { ReadsValue (IsBetween least most) text.now result }
{
    let number = read_decimal(text.as_bytes())?;
    if number < least {
        return None;
    }
    if number > most {
        return None;
    }
    Some(number as u32)
}

/// The port that the text writes in decimal.
fn read_port(text: &str) -> Option<u16>
    ensures { ReadsValue IsPort text.now result }
{
    let port = read_number_between(text, 1, MAX_PORT)?;
    Some(port as u16)
}

/// The number of exchanges that the text writes in decimal.
fn read_exchanges(text: &str) -> Option<u32>
    ensures { ReadsValue IsExchanges text.now result }
{
    read_number_between(text, 1, MAX_EXCHANGES)
}

impl GivenBounds<'_> {
    /// The bounds, where each text is a value.
    pub fn read(&self) -> Option<Bounds>
        ensures { ReadsValue AreBounds self.now result }
    {
        Some(Bounds {
            port: read_port(self.port)?,
            exchanges: read_exchanges(self.exchanges)?,
        })
    }
}

/// The number of days, up to [`MAX_DAYS`], that the text writes in decimal.
pub fn read_days(text: &str) -> Option<u32>
    ensures { ReadsValue IsDays text.now result }
{
    read_number_between(text, 0, MAX_DAYS)
}
