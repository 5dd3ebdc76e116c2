//! A moment: a whole second of UTC.
ghost use Rattle.std.specs.Prelude.{◌≡◌, ℕ, ◌↔◌, IsSome, IfSome};
ghost use Rattle.moment_core.specs.Moment.{IsMoment};

use std::marker::Model;

/// The second of the last moment, 9999-12-31T23:59:59Z.
pub const LAST_SECOND: u64 = 253_402_300_799;

/// The first moment, 1970-01-01T00:00:00Z.
pub const FIRST_MOMENT: Moment = Moment { seconds: 0 };

/// A moment, as KMIP's Date-Time: the seconds since 1970-01-01T00:00:00Z, leap seconds not counted,
/// up to [`LAST_SECOND`] (the range is this register's own). In a contract it is that number.
#[derive(Clone, Copy, Debug, PartialEq, Eq, PartialOrd, Ord)]
pub struct Moment {
    seconds: u64,
}

impl Model for Moment {
    ghost Value = { ℕ };

    ghost view = { λ m. m.seconds };

    ghost invariant = { λ m. IsMoment m.seconds };

    ghost inverse = { λ n. record { seconds = n } };
}

impl Moment {
    /// The moment of this second, or `None` past the range.
    pub fn new(seconds: u64) -> Option<Self>
        ensures in_range { IsSome result ↔ IsMoment seconds }
        ensures value { IfSome result (λ m. m ≡ seconds) }
    {
        if seconds <= LAST_SECOND {
            Some(Moment { seconds })
        } else {
            None
        }
    }

    /// The seconds since 1970-01-01T00:00:00Z.
    pub fn seconds(self) -> u64
        ensures value { result ≡ self }
        ensures in_range { IsMoment result }
    {
        self.seconds
    }
}
