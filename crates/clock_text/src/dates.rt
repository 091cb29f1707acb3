//! Dates and times of day as text.
ghost use Rattle.std.specs.Prelude.{◌≡◌, ◌<◌, ◌≤◌, ◌+◌, ◌≤ℤ◌, ℕ, ℤ, pos, List, length, Some};
ghost use Rattle.jiff_core.specs.Date.{epoch_day};
ghost use Rattle.jiff_core.specs.Calendar.{weekday_number, IsEpochDay};
ghost use Rattle.clock_text.specs.Times.{date_at, day_of, seconds_of_time, time_at, time_of, HasDate};

use crate::digits::{four, read_digits, two};
use crate::moments::day_of;
use jiff::ToSpan;
use jiff::civil::{Date, date};

/// The day number of a text YYYYMMDD, 0 for 1970-01-01, or `None` if it has another form or the calendar has no
/// such day.
#[tactic(auto, using(crate::proofs::MomentLemmas::date_here))]
pub fn read_date(text: &[u8]) -> Option<i32>
    ensures { result ≡ date_at text.now }
{
    if text.len() != 8 {
        return None;
    }
    let year = read_digits(&text[..4])?;
    let month = read_digits(&text[4..6])?;
    let day = read_digits(&text[6..8])?;
    day_of(year, month, day)
}

/// The day of the week of a day number, from 0 for Monday to 6 for Sunday.
pub fn weekday(day: i32) -> u8
    ensures { result ≡ weekday_number day }
{
    (i64::from(day) + 3).rem_euclid(7) as u8
}

/// The seconds of a time of day, of at most 167 hours.
fn seconds_of_time(hour: u32, minute: u32, second: u32) -> Option<u32>
    ensures { result ≡ seconds_of_time hour minute second }
{
    if hour > 167 || minute > 59 || second > 59 {
        return None;
    }
    Some(3600 * hour + 60 * minute + second)
}

/// The seconds of a time whose hours have this number of digits.
fn time_of(text: &[u8], digits: usize) -> Option<u32>
    requires long { length text.now ≡ digits + 6 }
    requires short { digits ≤ 3 }
    ensures { result ≡ time_of digits text.now }
{
    if text[digits] != b':' || text[digits + 3] != b':' {
        return None;
    }
    let hour = read_digits(&text[..digits])?;
    let minute = read_digits(&text[digits + 1..digits + 3])?;
    let second = read_digits(&text[digits + 4..digits + 6])?;
    seconds_of_time(hour, minute, second)
}

/// The seconds of a text H:MM:SS with one to three digits of hours up to 167, as the GTFS Schedule reference counts
/// a time: from noon minus twelve hours of the service day. `None` if it has another form.
pub fn read_time(text: &[u8]) -> Option<u32>
    ensures { result ≡ time_at text.now }
{
    if text.len() < 7 || text.len() > 9 {
        return None;
    }
    time_of(text, text.len() - 6)
}

/// The date with this day number.
pub(crate) fn date_from(day: i32) -> Date
    requires { IsEpochDay day }
    ensures { epoch_day result ≡ day }
{
    date(1970, 1, 1).checked_add(i64::from(day).days()).unwrap()
}

/// The date of a day of the years 0 to 9999.
fn date_of(day: i32) -> Date
    requires { HasDate day }
    ensures value { epoch_day result ≡ day }
    ensures year { pos 0 ≤ℤ result.year }
{
    date_from(day)
}

/// The year, the month and the day of the month of a day of the years 0 to 9999.
fn year_month_day(day: i32) -> (u32, u32, u32)
    requires { HasDate day }
    ensures year { result.0 < 10000 }
    ensures month { result.1 < 100 }
    ensures day { result.2 < 100 }
    ensures date { day_of result.0 result.1 result.2 ≡ Some day }
{
    let date = date_of(day).to_plain();
    (date.year as u32, u32::from(date.month), u32::from(date.day))
}

/// The text YYYYMMDD of a day of the years 0 to 9999.
pub fn write_date(day: i32) -> [u8; 8]
    requires { HasDate day }
    ensures { date_at result ≡ Some day }
{
    let date = year_month_day(day);
    let y = four(date.0);
    let m = two(date.1);
    let d = two(date.2);
    [y[0], y[1], y[2], y[3], m[0], m[1], d[0], d[1]]
}

/// No date has two texts.
pub fn one_text_for_each_date()
    ensures { (t u : List ℕ) (day : ℤ) → date_at t ≡ Some day → date_at u ≡ Some day → t ≡ u }
{}
