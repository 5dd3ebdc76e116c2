//! How the dates that a command asks for are fitted to a usage period, and of which type that is.
ghost use Rattle.std.specs.Prelude.{◌≡◌};
ghost use Rattle.register_core.specs.Effect.{needed_period_type};

use crate::view::Held;
use lifecycle_core::Dates;
use period_core::{DateRefusal, KeyType, Period, fill, trim};
use register_requests::Command;

/// How the dates that a command asks for are fitted to the usage period of the key's type.
#[derive(Clone, Copy)]
pub enum Fitting {
    /// By Fill.
    Filled,
    /// By Trim.
    Trimmed,
    /// Not at all: the command asks for none that a period bounds.
    Unfitted,
}

/// The type whose usage period the dates that the command asks for are fitted to: the registered
/// type, or that of the key that the command names. `None` where they are not fitted, or the key is
/// not there.
pub fn needed_period_type(key: &Option<Held>, command: &Command) -> Option<KeyType>
    ensures { result ≡ needed_period_type key.now command.now }
{
    match (Fitting::of(command), command, key) {
        (Fitting::Unfitted, _, _) => None,
        (_, Command::Register(new), _) => Some(new.kind),
        (_, _, Some(held)) => Some(held.kind),
        _ => None,
    }
}

impl Fitting {
    ghost use Rattle.std.specs.Prelude.{◌≡◌, IsSome};
    ghost use Rattle.register_core.specs.declared.fitting.Fitting.TheVariants.{Trimmed};
    ghost use Rattle.register_core.specs.{Effect.fitting, Within.fitted_or_refusal};

    /// How the dates that the command asks for are fitted.
    pub(crate) fn of(command: &Command) -> Self
        ensures { result ≡ fitting command.now }
    {
        match command {
            Command::Register(_) | Command::SetDates { .. } => Fitting::Filled,
            Command::Activate { .. } => Fitting::Trimmed,
            _ => Fitting::Unfitted,
        }
    }

    /// The dates, fitted to the period.
    ///
    /// # Errors
    /// Why they do not fit it.
    pub(crate) fn fit(self, period: Period, mut dates: Dates) -> Result<Dates, DateRefusal>
        requires { self ≡ Trimmed → IsSome dates.activation }
        ensures { result ≡ fitted_or_refusal period self dates }
    {
        match self {
            Fitting::Filled => fill(period, &mut dates)?,
            Fitting::Trimmed => trim(period, &mut dates)?,
            Fitting::Unfitted => {}
        }
        Ok(dates)
    }
}
