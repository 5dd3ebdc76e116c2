//! Laws of the calendar and of the texts of moments.
ghost use Rattle.std.specs.Prelude.{◌≡◌, ◌≤◌, ℕ, Some};
ghost use Rattle.moment_core.specs.Calendar.{Civil, IsCivil, civil, day_number, months_after};
ghost use Rattle.moment_core.specs.{Moment.IsMoment, MomentText.moment_text};

/// Moments with one text are one moment, so that what is written is read again.
pub fn texts_are_of_one_moment()
    ensures { (m n : ℕ) → IsMoment m → IsMoment n → moment_text m ≡ moment_text n → m ≡ n }
{}

/// The number of a day's date is the day.
pub fn day_numbers_invert_dates()
    ensures { (n : ℕ) → day_number (civil n) ≡ n }
{}

/// The date of a date's number is that date.
pub fn dates_invert_day_numbers()
    ensures { (c : Civil) → IsCivil c → civil (day_number c) ≡ c }
{}

/// A moment some months on is no earlier.
pub fn plus_months_is_not_earlier()
    ensures { (m n later : ℕ) → months_after m n ≡ Some later → m ≤ later }
{}
