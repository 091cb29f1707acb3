//! Numbers as decimal digits.
ghost use Rattle.std.specs.Prelude.{◌≡◌, ◌<◌, ◌≤◌, ◌^◌, length, IfSome};
ghost use Rattle.clock_text.specs.Digits.{digits, number_spelled, optional_seconds_of, whole_of};

use plan_model::SECONDS_PER_DAY;

/// The number that a text of at most nine digits spells.
pub(crate) fn read_digits(text: &[u8]) -> Option<u32>
    requires { length text.now ≤ 9 }
    ensures value { result ≡ number_spelled text.now }
    ensures bound { IfSome result (λ n. n < 10 ^ length text.now) }
{
    let mut number = 0u32;
    for c in text {
        if !c.is_ascii_digit() {
            return None;
        }
        number = number * 10 + u32::from(*c - b'0');
    }
    Some(number)
}

/// The number of a text of one to nine decimal digits. Leading zeros are allowed, a sign is not. `None` if the text does not
/// have this form or its number is above `most`.
pub fn read_whole(text: &[u8], most: u32) -> Option<u32>
    ensures { result ≡ whole_of most text.now }
{
    if text.is_empty() || text.len() > 9 {
        return None;
    }
    let number = read_digits(text)?;
    if number > most { None } else { Some(number) }
}

/// The seconds of a text, at most a day, or nothing if the text is empty. `None` if it has another form.
pub fn read_optional_seconds(text: &[u8]) -> Option<Option<u32>>
    ensures { result ≡ optional_seconds_of text.now }
{
    if text.is_empty() {
        return Some(None);
    }
    let seconds = read_whole(text, SECONDS_PER_DAY)?;
    Some(Some(seconds))
}

/// Two digits of a number.
pub(crate) fn two(number: u32) -> [u8; 2]
    requires { number < 100 }
    ensures { result ≡ digits 2 number }
{
    [b'0' + (number / 10) as u8, b'0' + (number % 10) as u8]
}

/// Four digits of a number.
pub(crate) fn four(number: u32) -> [u8; 4]
    requires { number < 10000 }
    ensures { result ≡ digits 4 number }
{
    [
        b'0' + (number / 1000) as u8,
        b'0' + (number / 100 % 10) as u8,
        b'0' + (number / 10 % 10) as u8,
        b'0' + (number % 10) as u8,
    ]
}

/// Nine digits of a number.
pub(crate) fn nine(number: u32) -> [u8; 9]
    requires { number < 1_000_000_000 }
    ensures { result ≡ digits 9 number }
{
    let [a, b, c, d] = four(number / 100_000);
    let [e, f, g, h] = four(number / 10 % 10_000);
    [a, b, c, d, e, f, g, h, b'0' + (number % 10) as u8]
}
