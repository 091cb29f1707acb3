//! Moments of the civil clock as text.
ghost use Rattle.std.specs.Prelude.{◌≡◌, ◌<◌, ◌≤◌, option_map, IfSome, Some, pos, ◌≤ℤ◌, ℕ, List};
ghost use Rattle.jiff_core.specs.Calendar.{days_from_civil};
ghost use Rattle.jiff_core.specs.Date.{epoch_day};
ghost use Rattle.clock_text.specs.Civil.{last_day, last_printable, moment_text, nanos_text};
ghost use Rattle.clock_text.specs.Times.{as_parts, day_of, has_marks, moment_of_parts, moment_at, nanos_at, nanos_of};

use crate::dates::date_from;
use crate::digits::{four, nine, read_digits, two};
use jiff::civil::Date;
use plan_model::{Moment, NANOS_PER_SECOND, SECONDS_PER_DAY};

/// A day, in the seconds of a moment.
const DAY: u64 = SECONDS_PER_DAY as u64;

/// Whether a text has the length and the marks of a moment.
fn has_marks(text: &[u8]) -> bool
    ensures { result ≡ has_marks text.now }
{
    text.len() == 19
        && text[4] == b'-'
        && text[7] == b'-'
        && text[10] == b'T'
        && text[13] == b':'
        && text[16] == b':'
}

/// The day number of a date, 0 for 1970-01-01.
pub(crate) fn day_of(year: u32, month: u32, day: u32) -> Option<i32>
    requires year { year < 10000 }
    requires month { month < 100 }
    requires day { day < 100 }
    ensures value { result ≡ day_of year month day }
    ensures after { IfSome result (λ n. 1970 ≤ year → pos 0 ≤ℤ n) }
    ensures bound { IfSome result (λ n. n ≤ℤ pos last_day) }
{
    match Date::new(year as i16, month as i8, day as i8) {
        Ok(date) => Some(date.to_plain().to_unix_epoch_day()),
        Err(_) => None,
    }
}

/// A date and a time of day, as they are written.
#[derive(Clone, Copy)]
struct Written {
    year: u32,
    month: u32,
    day: u32,
    hour: u32,
    minute: u32,
    second: u32,
}

/// The moment of these parts, from 1970 on.
fn moment_of_parts(w: &Written) -> Option<Moment>
    requires year { w.now.year < 10000 }
    requires month { w.now.month < 100 }
    requires day { w.now.day < 100 }
    ensures { option_map (λ m. m.0) result ≡ moment_of_parts (as_parts w.now) }
{
    if w.year < 1970 || w.hour > 23 || w.minute > 59 || w.second > 59 {
        return None;
    }
    let day = day_of(w.year, w.month, w.day)? as u64;
    let second = u64::from(3600 * w.hour + 60 * w.minute + w.second);
    Some(Moment(DAY * day + second))
}

/// The moment of a text YYYY-MM-DDTHH:MM:SS of the years 1970 to 9999, or `None` if it has another form.
pub fn read_moment(text: &[u8]) -> Option<Moment>
    ensures { option_map (λ m. m.0) result ≡ moment_at text.now }
{
    if !has_marks(text) {
        return None;
    }
    let year = read_digits(&text[..4])?;
    let month = read_digits(&text[5..7])?;
    let day = read_digits(&text[8..10])?;
    let hour = read_digits(&text[11..13])?;
    let minute = read_digits(&text[14..16])?;
    let second = read_digits(&text[17..19])?;
    moment_of_parts(&Written {
        year,
        month,
        day,
        hour,
        minute,
        second,
    })
}

/// The date that is these days after the first of 1970.
fn date_since_1970(days: u32) -> Date
    requires { days ≤ last_day }
    ensures value { epoch_day result ≡ pos days }
    ensures year { pos 1970 ≤ℤ result.year }
{
    date_from(days as i32)
}

/// The parts of a moment before the year 10000.
fn parts_of(moment: u64) -> Written
    requires { moment ≤ last_printable }
    ensures year { result.year < 10000 }
    ensures month { result.month < 100 }
    ensures day { result.day < 100 }
    ensures hour { result.hour < 100 }
    ensures minute { result.minute < 100 }
    ensures second { result.second < 100 }
    ensures moment { moment_of_parts (as_parts result) ≡ Some moment }
{
    let date = date_since_1970((moment / DAY) as u32).to_plain();
    let second = (moment % DAY) as u32;
    Written {
        year: date.year as u32,
        month: u32::from(date.month),
        day: u32::from(date.day),
        hour: second / 3600,
        minute: second / 60 % 60,
        second: second % 60,
    }
}

/// The text of a moment before the year 10000.
fn moment_bytes(moment: Moment) -> [u8; 19]
    requires { moment.0 ≤ last_printable }
    ensures { moment_at result ≡ Some moment.0 }
{
    let parts = parts_of(moment.0);
    let y = four(parts.year);
    let m = two(parts.month);
    let d = two(parts.day);
    let h = two(parts.hour);
    let i = two(parts.minute);
    let s = two(parts.second);
    [
        y[0], y[1], y[2], y[3], b'-', m[0], m[1], b'-', d[0], d[1], b'T', h[0], h[1], b':', i[0],
        i[1], b':', s[0], s[1],
    ]
}

/// The text YYYY-MM-DDTHH:MM:SS of a moment before the year 10000.
pub fn write_moment(moment: Moment) -> [u8; 19]
    requires { moment.0 ≤ last_printable }
    ensures text { result ≡ moment_text moment.0 }
    ensures reads { moment_at result ≡ Some moment.0 }
{
    moment_bytes(moment)
}

/// No moment has two texts.
pub fn one_text_for_each_moment()
    ensures { (t u : List ℕ) (m : ℕ) → moment_at t ≡ Some m → moment_at u ≡ Some m → t ≡ u }
{}

/// The nanoseconds of a moment and of a fraction of a second.
fn nanos_of(moment: u64, fraction: u32) -> Option<u64>
    ensures { result ≡ nanos_of moment fraction }
{
    moment
        .checked_mul(NANOS_PER_SECOND)?
        .checked_add(u64::from(fraction))
}

/// The nanoseconds since 1970 of a text of a moment, a point and nine digits, or `None` if it has another form or
/// they do not fit 64 bits.
pub fn read_nanos(text: &[u8]) -> Option<u64>
    ensures { result ≡ nanos_at text.now }
{
    if text.len() != 29 || text[19] != b'.' {
        return None;
    }
    let fraction = read_digits(&text[20..29])?;
    let moment = read_moment(&text[..19])?;
    nanos_of(moment.0, fraction)
}

/// The text of nanoseconds since 1970: the moment, a point and nine digits.
pub fn write_nanos(nanos: u64) -> [u8; 29]
    ensures text { result ≡ nanos_text nanos }
    ensures reads { nanos_at result ≡ Some nanos }
{
    nanos_bytes(nanos)
}

/// The text of nanoseconds.
fn nanos_bytes(nanos: u64) -> [u8; 29]
    ensures { nanos_at result ≡ Some nanos }
{
    let m = write_moment(Moment(nanos / NANOS_PER_SECOND));
    let f = nine((nanos % NANOS_PER_SECOND) as u32);
    [
        m[0], m[1], m[2], m[3], m[4], m[5], m[6], m[7], m[8], m[9], m[10], m[11], m[12], m[13],
        m[14], m[15], m[16], m[17], m[18], b'.', f[0], f[1], f[2], f[3], f[4], f[5], f[6], f[7],
        f[8],
    ]
}

/// No number of nanoseconds has two texts.
pub fn one_text_for_all_nanos()
    ensures { (t u : List ℕ) (n : ℕ) → nanos_at t ≡ Some n → nanos_at u ≡ Some n → t ≡ u }
{}
