//! A time as RFC 3339 writes it: in UTC, to the second, or with microseconds.

ghost use Rattle.std.specs.Prelude.{◌≡◌, ◌+◌, ◌<◌, ◌≤◌, ◌*◌, ◌^◌, ◌++◌, ℕ, List, codes, OnOk, string_bytes};
ghost use Rattle.fw_calendar.specs.Times.{HaveGone, IsMoment, IsSecond, IsTime, clock_text, date_text, days_of_month, days_of_months, days_of_year, days_of_years, is_leap, six_digits, two_digits};

use std::alloc::AllocError;

/// The seconds of a day.
const DAY: u64 = 86_400;

/// The day of a time: how many years, months and days have gone by since the start of 1970.
#[derive(Clone, Copy)]
struct Date {
    years: u64,
    months: u64,
    days: u64,
}

/// Appends the time that is so many nanoseconds after the start of 1970 (UTC), with microseconds.
pub fn append_time(text: &mut String, nanoseconds: u64) -> Result<(), AllocError>
    ensures { OnOk result ((time : List ℕ) × IsTime nanoseconds time × (string_bytes text.new ≡ string_bytes text.old ++ time)) }
{
    append_moment(text, nanoseconds / 1_000_000_000)?;
    text.push_str(".")?;
    append_six(text, nanoseconds / 1000 % 1_000_000)?;
    text.push_str("Z")
}

/// Appends the time that is so many seconds after the start of 1970 (UTC).
pub fn append_second(text: &mut String, seconds: u64) -> Result<(), AllocError>
    ensures { OnOk result ((time : List ℕ) × IsSecond seconds time × (string_bytes text.new ≡ string_bytes text.old ++ time)) }
{
    append_moment(text, seconds)?;
    text.push_str("Z")
}

/// Appends a date and the time of the day, so many seconds after the start of 1970.
fn append_moment(text: &mut String, seconds: u64) -> Result<(), AllocError>
    ensures { OnOk result ((moment : List ℕ) × IsMoment seconds moment × (string_bytes text.new ≡ string_bytes text.old ++ moment)) }
{
    append_date(text, date_of(seconds / DAY))?;
    text.push_str("T")?;
    append_clock(text, seconds % DAY)
}

/// The day that is so many days after the first of January 1970.
fn date_of(days: u64) -> Date
    ensures date { HaveGone days result.years result.months result.days }
    ensures bound { result.years < 2 ^ 63 }
{
    let (years, left) = years_of(days);
    let (months, days) = months_of(1970 + years, left);
    Date {
        years,
        months,
        days,
    }
}

/// How many years from 1970 on so many days make, and how many days are left.
fn years_of(days: u64) -> (u64, u64)
    ensures count { days ≡ days_of_years result.0 + result.1 }
    ensures left { result.1 < days_of_year (1970 + result.0) }
    ensures bound { 365 * result.0 ≤ days }
{
    let (mut years, mut left) = (0, days);
    'years: while left >= days_of_year(1970 + years) {
        left -= days_of_year(1970 + years);
        years += 1;
    }
    (years, left)
}

/// How many months of a year so many of its days make, and how many days are left.
fn months_of(year: u64, days: u64) -> (u64, u64)
    requires { days < days_of_year year }
    ensures count { days ≡ days_of_months year result.0 + result.1 }
    ensures left { result.1 < days_of_month year (result.0 + 1) }
    ensures month { result.0 < 12 }
{
    let (mut months, mut left) = (0, days);
    'months: while left >= days_of_month(year, months + 1) {
        left -= days_of_month(year, months + 1);
        months += 1;
    }
    (months, left)
}

/// The days of a year.
fn days_of_year(year: u64) -> u64
    ensures value { result ≡ days_of_year year }
    ensures bound { 365 ≤ result }
{
    if is_leap(year) { 366 } else { 365 }
}

/// The days of a month, of which the first is 1.
fn days_of_month(year: u64, month: u64) -> u64
    ensures value { result ≡ days_of_month year month }
    ensures bound { 28 ≤ result }
{
    match month {
        2 if is_leap(year) => 29,
        2 => 28,
        4 | 6 | 9 | 11 => 30,
        _ => 31,
    }
}

/// Whether a year has a day more.
fn is_leap(year: u64) -> bool
    ensures { result ≡ is_leap year }
{
    year % 4 == 0 && (year % 100 != 0 || year % 400 == 0)
}

/// Appends a date. The first month and the first day have the number 1.
fn append_date(text: &mut String, date: Date) -> Result<(), AllocError>
    requires { (date.years < 2 ^ 63) × (date.months < 12) × (date.days < 31) }
    ensures { OnOk result (string_bytes text.new ≡ string_bytes text.old ++ date_text date.years date.months date.days) }
{
    let year = 1970 + date.years;
    write!(text, "{year}-")?;
    append_two(text, date.months + 1)?;
    text.push_str("-")?;
    append_two(text, date.days + 1)
}

/// Appends the time of the day, of so many seconds.
fn append_clock(text: &mut String, seconds: u64) -> Result<(), AllocError>
    ensures { OnOk result (string_bytes text.new ≡ string_bytes text.old ++ clock_text seconds) }
{
    append_two(text, seconds / 3600)?;
    text.push_str(":")?;
    append_two(text, seconds / 60 % 60)?;
    text.push_str(":")?;
    append_two(text, seconds % 60)
}

/// Appends a number below 1,000,000 in six digits.
fn append_six(text: &mut String, number: u64) -> Result<(), AllocError>
    ensures { OnOk result (string_bytes text.new ≡ string_bytes text.old ++ six_digits number) }
{
    append_two(text, number / 10_000)?;
    append_two(text, number / 100 % 100)?;
    append_two(text, number % 100)
}

/// Appends a number below 100 in two digits.
fn append_two(text: &mut String, number: u64) -> Result<(), AllocError>
    ensures { OnOk result (string_bytes text.new ≡ string_bytes text.old ++ two_digits number) }
{
    let (tens, ones) = (number / 10, number % 10);
    write!(text, "{tens}{ones}")
}
