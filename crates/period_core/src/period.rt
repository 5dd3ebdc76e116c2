//! The usage periods of the types of keys.
ghost use Rattle.std.specs.Prelude.{◌≡◌};
ghost use Rattle.period_core.specs.Period.{period_or_default, periods};

use crate::key_type::KeyType;
use std::marker::Model;

/// The most months of either number of a period (this register's own).
pub const MAX_MONTHS: u16 = 1200;

/// Two usage periods, in calendar months: how long originator use may last, from Activation to
/// Protect Stop, in which protection is applied, and how much longer than that recipient use, from
/// Activation to Deactivation, in which protected data is processed.
#[derive(Clone, Copy)]
pub struct Period {
    originator: u16,
    recipient: u16,
}

impl Model for Period {
    ghost use Rattle.period_core.specs.Period.{Period, IsPeriod, of_months};

    ghost Value = { Period };

    ghost view = { λ p. of_months p.originator p.recipient };

    ghost invariant = { λ p. IsPeriod (of_months p.originator p.recipient) };

    ghost inverse = { λ p. record { originator = p.originator; recipient = p.recipient } };
}

impl Period {
    ghost use Rattle.std.specs.Prelude.{◌↔◌, IsSome, IfSome};
    ghost use Rattle.period_core.specs.Period.{IsPeriod, of_months};

    /// The period of so many months, or `None` where they are out of range: from 1 to
    /// [`MAX_MONTHS`] of originator use, and at most [`MAX_MONTHS`] of recipient use.
    pub fn new(originator: u16, recipient: u16) -> Option<Self>
        ensures in_range { IsSome result ↔ IsPeriod (of_months originator recipient) }
        ensures value { IfSome result (λ p. p ≡ of_months originator recipient) }
    {
        if (1..=MAX_MONTHS).contains(&originator) && recipient <= MAX_MONTHS {
            Some(Period {
                originator,
                recipient,
            })
        } else {
            None
        }
    }

    /// The months of originator use.
    pub fn originator(self) -> u16
        ensures { result ≡ self.originator }
    {
        self.originator
    }

    /// The months of recipient use.
    pub fn recipient(self) -> u16
        ensures { result ≡ self.recipient }
    {
        self.recipient
    }
}

/// The usage periods of a type. The months are this register's own, chosen with the cryptoperiods
/// that SP 800-57 Part 1 suggests in view.
pub fn period_of(kind: KeyType) -> Period
    ensures { result ≡ periods kind }
{
    match kind {
        KeyType::DataEncryption | KeyType::Authentication | KeyType::KeyWrapping => Period {
            originator: 24,
            recipient: 36,
        },
        KeyType::PrivateSignature => Period {
            originator: 36,
            recipient: 0,
        },
        KeyType::PrivateAuthentication | KeyType::PrivateTransport => Period {
            originator: 24,
            recipient: 0,
        },
        KeyType::Master => Period {
            originator: 12,
            recipient: 0,
        },
    }
}

/// The usage periods of the type, where these are set for it, if any are: else its own.
pub fn period_or_default(kind: KeyType, set: Option<Period>) -> Period
    ensures { result ≡ period_or_default set kind }
{
    set.unwrap_or(period_of(kind))
}
