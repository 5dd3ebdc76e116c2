//! Calendar months and days added to moments.
ghost use Rattle.std.specs.Prelude.{◌≡◌, ◌≤◌, ◌<◌, ◌≤ℤ◌, pos, min, MatchOption, IfSome, Some};
ghost use Rattle.moment_core.specs.Calendar.{Civil, IsCivil, civil, month_days, months_on};
ghost use Rattle.moment_core.specs.Calendar.{day_number, months_after, days_after};
ghost use Rattle.moment_core.specs.Within.{HasParts};

use crate::moment::Moment;
use jiff_core::civil::Date;

/// The seconds of a day.
pub(crate) const DAY_SECONDS: u64 = 86_400;

/// The day of the last moment, counted from 1970-01-01.
const LAST_DAY: u64 = 2_932_896;

/// The days from jiff's first date, -9999-01-01, to 1970-01-01.
const DAYS_BEFORE: u32 = 4_371_587;

/// The date of a day counted from 1970-01-01.
pub(crate) fn date_of_day_number(day: u64) -> Date
    requires { day ≤ LAST_DAY }
    ensures { HasParts result (civil day) }
{
    Date::from_days_since_min(day as u32 + DAYS_BEFORE)
}

/// The year of a date from 1970 on.
pub(crate) fn year_of(date: &Date) -> u32
    requires { pos 0 ≤ℤ date.now.year }
    ensures { pos result ≡ date.now.year }
{
    date.year as u32
}

/// The day of a year, month and day, or `None` where the calendar has no such day from 1970 on.
pub(crate) fn day_number_of(year: u32, month: u8, day: u8) -> Option<u64>
    requires year_in { year ≤ 9999 }
    requires month_in { month < 100 }
    requires day_in { day < 100 }
    ensures value { (c : Civil) → IsCivil c → year ≡ c.year → month ≡ c.month → day ≡ c.day
        → result ≡ Some (day_number c) }
    ensures within { IfSome result (λ day. day ≤ LAST_DAY) }
{
    let Ok(date) = Date::new(year as i16, month as i8, day as i8) else {
        return None;
    };
    let day = date.days_since_min();
    if day < DAYS_BEFORE {
        return None;
    }
    Some(u64::from(day - DAYS_BEFORE))
}

/// The date with this year and month, and this day or the month's last where there is no such day.
fn clamp_to_month_end(year: u32, month: u32, day: u8) -> Date
    requires year_in { (1970 ≤ year) × (year ≤ 9999) }
    requires month_in { (1 ≤ month) × (month ≤ 12) }
    requires day_in { 1 ≤ day }
    ensures year { result.year ≡ pos year }
    ensures month { result.month ≡ month }
    ensures day { result.day ≡ min day (month_days year month) }
{
    Date::constrain(year as i16, month as u8, day)
}

/// The day so many months after a date, or `None` after the year 9999.
fn day_number_after_months(date: Date, months: u16) -> Option<u64>
    requires { (c : Civil) × HasParts date c }
    ensures day { (c : Civil) → HasParts date c →
        MatchOption result (9999 < (months_on c months).year)
        (λ day. day ≡ day_number (months_on c months)) }
    ensures within { IfSome result (λ day. day ≤ LAST_DAY) }
{
    let months = year_of(&date) * 12 + u32::from(date.month - 1) + u32::from(months);
    let year = months / 12;
    if year > 9999 {
        return None;
    }
    let later = clamp_to_month_end(year, months % 12 + 1, date.day);
    Some(u64::from(later.days_since_min() - DAYS_BEFORE))
}

impl Moment {
    /// The moment so many calendar months later: the same second of the same day of the month, or
    /// of that month's last day where there is no such day. `None` past the last moment.
    pub fn plus_months(self, months: u16) -> Option<Moment>
        ensures { result ≡ months_after self months }
    {
        let seconds = self.seconds();
        let day = day_number_after_months(date_of_day_number(seconds / DAY_SECONDS), months)?;
        Moment::new(day * DAY_SECONDS + seconds % DAY_SECONDS)
    }

    /// The moment so many days later, or `None` past the last moment.
    pub fn plus_days(self, days: u32) -> Option<Moment>
        ensures { result ≡ days_after self days }
    {
        Moment::new(self.seconds() + DAY_SECONDS * u64::from(days))
    }
}
