//! Which dates fit a usage period, what a date becomes that is not given, and why dates are
//! refused.
ghost use Rattle.std.specs.Prelude.{◌≡◌, ◌≢◌, ◌↔◌, ◌||◌, ◌&&◌, ℕ, is_some, is_none, IsTrue, IsSome};
ghost use Rattle.std.specs.Prelude.{IfErr, OnOk};
ghost use Rattle.period_core.specs.Fitting.{Fits, Gives, KeepsGiven, are_dates_in_order};
ghost use Rattle.period_core.specs.Fitting.{cut_to_limit, dates_with_defaults};
ghost use Rattle.period_core.specs.Fitting.{defaulted_dates_cut_to_limits, earlier_of, fill_of};
ghost use Rattle.period_core.specs.Fitting.{is_either_use_too_long, is_not_after, months_on_date};
ghost use Rattle.period_core.specs.Fitting.{order_refusal, originator_limit, range_refusal};
ghost use Rattle.period_core.specs.Fitting.{recipient_limit, too_long_refusal, trim_of};
ghost use Rattle.period_core.specs.Fitting.{with_default_deactivation, with_default_protect_stop};
ghost use Rattle.period_core.specs.Within.{Checks};

use crate::period::Period;
use lifecycle_core::Dates;
use moment_core::Moment;

/// Why dates are refused.
#[derive(Clone, Copy, PartialEq, Eq)]
pub enum DateRefusal {
    /// Activation is after Protect Stop, Protect Stop after Deactivation, or Activation after
    /// Deactivation.
    DateOrder,
    /// A use is longer than its months: the originator's first, with the limit that is passed.
    PeriodTooLong { limit: Moment },
    /// A date that is not given would be past the last moment.
    DateRange,
}

/// Whether the first date is not after the second, where both are set.
pub fn is_not_after(first: Option<Moment>, second: Option<Moment>) -> bool
    ensures { result ≡ is_not_after first second }
{
    match (first, second) {
        (Some(first), Some(second)) => first <= second,
        _ => true,
    }
}

/// Whether Activation, Protect Stop and Deactivation are in this order.
pub fn are_dates_in_order(dates: &Dates) -> bool
    ensures { result ≡ are_dates_in_order dates.now }
{
    is_not_after(dates.activation, dates.protect_stop)
        && is_not_after(dates.protect_stop, dates.deactivation)
        && is_not_after(dates.activation, dates.deactivation)
}

/// The moment so many months after the date, where it is set and the sum is a moment.
fn months_after_date(date: Option<Moment>, months: u16) -> Option<Moment>
    ensures { result ≡ months_on_date date months }
{
    date?.plus_months(months)
}

/// The last moment of originator use, where there is one.
pub(crate) fn originator_limit(period: Period, dates: &Dates) -> Option<Moment>
    ensures { result ≡ originator_limit period dates.now }
{
    months_after_date(dates.activation, period.originator())
}

/// The last moment of recipient use, where there is one.
pub(crate) fn recipient_limit(period: Period, dates: &Dates) -> Option<Moment>
    ensures { result ≡ recipient_limit period dates.now }
{
    months_after_date(dates.protect_stop, period.recipient())
}

/// Whether the dates fit the period: they are in order, and neither use is longer than its months.
pub fn fits(period: Period, dates: &Dates) -> bool
    ensures { IsTrue result ↔ Fits period dates.now }
{
    are_dates_in_order(dates)
        && is_not_after(dates.protect_stop, originator_limit(period, dates))
        && is_not_after(dates.deactivation, recipient_limit(period, dates))
}

/// Whether either use is longer than its months, whatever the order of the dates. A limit past the
/// last moment limits nothing.
pub fn is_either_use_too_long(period: Period, dates: &Dates) -> bool
    ensures { result ≡ is_either_use_too_long period dates.now }
{
    !is_not_after(dates.protect_stop, originator_limit(period, dates))
        || !is_not_after(dates.deactivation, recipient_limit(period, dates))
}

/// The earlier of two dates; one that has no value counts as later than every moment.
fn earlier_of(first: Option<Moment>, second: Option<Moment>) -> Option<Moment>
    ensures { result ≡ earlier_of first second }
{
    match (first, second) {
        (Some(first), Some(second)) => Some(if first <= second { first } else { second }),
        (Some(first), None) => Some(first),
        (None, second) => second,
    }
}

/// The date, but no later than the limit.
fn cut_to_limit(date: Option<Moment>, limit: Option<Moment>) -> Option<Moment>
    ensures { result ≡ cut_to_limit date limit }
{
    match (date, limit) {
        (Some(date), Some(limit)) => Some(if date <= limit { date } else { limit }),
        (date, _) => date,
    }
}

/// The dates with a Protect Stop, where Activation is set and it is not; this is their originator
/// limit.
fn with_default_protect_stop(originator: &Option<Moment>, dates: &Dates) -> Dates
    ensures { (period : Period) → originator.now ≡ originator_limit period dates.now
        → result ≡ with_default_protect_stop period dates.now }
{
    if dates.activation.is_none() || dates.protect_stop.is_some() {
        return *dates;
    }
    Dates {
        protect_stop: earlier_of(*originator, dates.deactivation),
        ..*dates
    }
}

/// The dates with a Deactivation, where Activation is set and it is not; this is their recipient
/// limit.
fn with_default_deactivation(recipient: &Option<Moment>, dates: &Dates) -> Dates
    ensures { (period : Period) → recipient.now ≡ recipient_limit period dates.now
        → result ≡ with_default_deactivation period dates.now }
{
    if dates.activation.is_none() || dates.deactivation.is_some() {
        return *dates;
    }
    Dates {
        deactivation: *recipient,
        ..*dates
    }
}

/// Dates, with the limits of their uses.
#[derive(Clone, Copy)]
struct Limited {
    dates: Dates,
    originator: Option<Moment>,
    recipient: Option<Moment>,
}

/// The dates with their defaults, and their limits: a default moves no date that a limit before it
/// goes by, so each limit is one sum of months.
fn dates_with_defaults_and_limits(period: Period, dates: &Dates) -> Limited
    ensures dates { result.dates ≡ dates_with_defaults period dates.now }
    ensures originator { result.originator ≡ originator_limit period result.dates }
    ensures recipient { result.recipient ≡ recipient_limit period result.dates }
{
    let originator = originator_limit(period, dates);
    let stopped = with_default_protect_stop(&originator, dates);
    let recipient = recipient_limit(period, &stopped);
    Limited {
        dates: with_default_deactivation(&recipient, &stopped),
        originator,
        recipient,
    }
}

/// The dates with their defaults, whether they fit or not.
pub fn dates_with_defaults(period: Period, dates: Dates) -> Dates
    ensures { result ≡ dates_with_defaults period dates }
{
    dates_with_defaults_and_limits(period, &dates).dates
}

/// The dates with their defaults, each cut to its limit.
pub fn defaulted_dates_cut_to_limits(period: Period, dates: Dates) -> Dates
    ensures { result ≡ defaulted_dates_cut_to_limits period dates }
{
    let originator = originator_limit(period, &dates);
    let first = with_default_protect_stop(&originator, &dates);
    let stopped = Dates {
        protect_stop: cut_to_limit(first.protect_stop, originator),
        ..first
    };
    let recipient = recipient_limit(period, &stopped);
    let second = with_default_deactivation(&recipient, &stopped);
    Dates {
        deactivation: cut_to_limit(second.deactivation, recipient),
        ..second
    }
}

/// The dates are in order.
fn check_order(dates: &Dates) -> Result<(), DateRefusal>
    ensures { Checks (order_refusal dates.now) result }
{
    if are_dates_in_order(dates) {
        Ok(())
    } else {
        Err(DateRefusal::DateOrder)
    }
}

/// The date is not past its limit.
fn check_within_limit(date: Option<Moment>, limit: Option<Moment>) -> Result<(), DateRefusal>
    ensures { Checks (too_long_refusal date limit) result }
{
    let (Some(date), Some(limit)) = (date, limit) else {
        return Ok(());
    };
    if limit < date {
        Err(DateRefusal::PeriodTooLong { limit })
    } else {
        Ok(())
    }
}

/// Where Activation is set the other two are: no default was past the last moment.
fn check_defaults_are_set(dates: &Dates) -> Result<(), DateRefusal>
    ensures { Checks (range_refusal dates.now) result }
{
    if dates.activation.is_some()
        && (dates.protect_stop.is_none() || dates.deactivation.is_none())
    {
        Err(DateRefusal::DateRange)
    } else {
        Ok(())
    }
}

/// Fill: gives Protect Stop and Deactivation their defaults where Activation is set and they are
/// not. A Protect Stop becomes Activation plus the originator months, or the Deactivation if that
/// is earlier; a Deactivation becomes Protect Stop plus the recipient months.
///
/// # Errors
/// The first that holds of the dates with their defaults, which leaves them as they were.
pub fn fill(period: Period, dates: &mut Dates) -> Result<(), DateRefusal>
    ensures gives { Gives (fill_of period dates.old) result dates.old dates.new }
    ensures fits { OnOk result (Fits period dates.new) }
    ensures keeps { OnOk result (KeepsGiven dates.old dates.new) }
{
    let Limited {
        dates: full,
        originator,
        recipient,
    } = dates_with_defaults_and_limits(period, dates);
    check_order(&full)?;
    check_within_limit(full.protect_stop, originator)?;
    check_within_limit(full.deactivation, recipient)?;
    check_defaults_are_set(&full)?;
    *dates = full;
    Ok(())
}

/// Trim, for an activation: as [`fill`], but a date past its limit becomes the limit, so that no
/// period is too long.
///
/// # Errors
/// [`DateRefusal::DateOrder`] or [`DateRefusal::DateRange`], which leaves the dates as they were.
pub fn trim(period: Period, dates: &mut Dates) -> Result<(), DateRefusal>
    requires { IsSome dates.old.activation }
    ensures gives { Gives (trim_of period dates.old) result dates.old dates.new }
    ensures fits { OnOk result (Fits period dates.new) }
    ensures never_too_long { IfErr result (λ refusal.
        (limit : ℕ) → refusal ≢ DateRefusal.PeriodTooLong limit) }
{
    let full = defaulted_dates_cut_to_limits(period, *dates);
    check_order(&full)?;
    check_defaults_are_set(&full)?;
    *dates = full;
    Ok(())
}
