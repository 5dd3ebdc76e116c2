//! The text of a moment, as YYYY-MM-DDTHH:MM:SSZ.
ghost use Rattle.std.specs.Prelude.{◌≡◌, ◌≢◌, ℕ, ◌+◌, ◌/◌, ◌%◌, ◌<◌, ◌++◌, Some, IfSome, IfNone};
ghost use Rattle.moment_core.specs.Within.{date_part_text, time_text};
ghost use Rattle.moment_core.specs.{Moment.IsMoment, MomentText.two_digits, MomentText.moment_text};

use crate::calendar::{self, DAY_SECONDS};
use crate::moment::Moment;

/// The digit of a number's tens.
fn ascii_tens_digit(n: u32) -> u8
    ensures { result ≡ 48 + n / 10 % 10 }
{
    b'0' + (n / 10 % 10) as u8
}

/// The digit of a number's ones.
fn ascii_ones_digit(n: u32) -> u8
    ensures { result ≡ 48 + n % 10 }
{
    b'0' + (n % 10) as u8
}

/// The text of a date's year, month and day and a second of the day.
fn format_date_and_time(year: u32, month: u32, day: u32, second: u32) -> [u8; 20]
    ensures { result ≡ date_part_text year month day ++ time_text second }
{
    let (century, hour, minute) = (year / 100, second / 3600, second / 60 % 60);
    let (year, second) = (year % 100, second % 60);
    [
        ascii_tens_digit(century),
        ascii_ones_digit(century),
        ascii_tens_digit(year),
        ascii_ones_digit(year),
        b'-',
        ascii_tens_digit(month),
        ascii_ones_digit(month),
        b'-',
        ascii_tens_digit(day),
        ascii_ones_digit(day),
        b'T',
        ascii_tens_digit(hour),
        ascii_ones_digit(hour),
        b':',
        ascii_tens_digit(minute),
        ascii_ones_digit(minute),
        b':',
        ascii_tens_digit(second),
        ascii_ones_digit(second),
        b'Z',
    ]
}

/// The number of two digits, or `None` where there are not two digits.
fn read_two_digits(digits: &[u8]) -> Option<u8>
    ensures value { (n : ℕ) → n < 100 → digits.now ≡ two_digits n → result ≡ Some n }
    ensures within { IfSome result (λ n. n < 100) }
{
    match digits {
        [tens @ b'0'..=b'9', ones @ b'0'..=b'9'] => Some((*tens - b'0') * 10 + (*ones - b'0')),
        _ => None,
    }
}

/// The moment whose text this is, if it is a moment's. Of another text it is some moment, or
/// `None`.
fn moment_ignoring_separators(text: &[u8]) -> Option<Moment>
    ensures { (m : ℕ) → IsMoment m → text.now ≡ moment_text m → result ≡ Some m }
{
    if text.len() != 20 {
        return None;
    }
    let year = u32::from(read_two_digits(&text[0..2])?) * 100
        + u32::from(read_two_digits(&text[2..4])?);
    let day = calendar::day_number_of(
        year,
        read_two_digits(&text[5..7])?,
        read_two_digits(&text[8..10])?,
    )?;
    let (hour, minute, second) = (
        read_two_digits(&text[11..13])?,
        read_two_digits(&text[14..16])?,
        read_two_digits(&text[17..19])?,
    );
    Moment::new(
        day * DAY_SECONDS + u64::from(hour) * 3600 + u64::from(minute) * 60 + u64::from(second),
    )
}

impl Moment {
    /// The moment whose text is `text`, or `None` where no moment has this text: [`Moment::write`]
    /// says which form a text has, and each part has to be in its range, as a day that its month
    /// has, an hour below 24 or a year from 1970 on.
    pub fn read(text: &[u8]) -> Option<Moment>
        ensures found { IfSome result (λ m. text.now ≡ moment_text m) }
        ensures none { IfNone result ((m : ℕ) → IsMoment m → text.now ≢ moment_text m) }
    {
        let moment = moment_ignoring_separators(text)?;
        if &moment.write()[..] == text {
            Some(moment)
        } else {
            None
        }
    }

    /// The moment's text in UTC, as `1970-01-01T00:00:00Z`: 4 digits of the year, then 2 digits of
    /// each other part.
    pub fn write(self) -> [u8; 20]
        ensures { result ≡ moment_text self }
    {
        let seconds = self.seconds();
        let date = calendar::date_of_day_number(seconds / DAY_SECONDS);
        let (month, day) = (u32::from(date.month), u32::from(date.day));
        format_date_and_time(
            calendar::year_of(&date),
            month,
            day,
            (seconds % DAY_SECONDS) as u32,
        )
    }
}
