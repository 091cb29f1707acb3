//! The forms of the values.
ghost use Rattle.std.specs.Prelude.{◌≡◌, ◌≤◌, ◌+◌, option_map, map, string_bytes, is_some, IfSome, IfOk};
ghost use Rattle.command_line.specs.Values.{last_until, moment_of, start_of, promise_at, later_at, number_at, late_at, pieces, is_delay, delay_in, are_delays, has_form};
ghost use Rattle.command_line.specs.declared.values.TheConstants.{LONGEST_PROMISE, MOST_DELAYS};
ghost use Rattle.command_line.specs.Jobs.{late_in};

use crate::options::OptionName;
use crate::settings::text_of;
use clock_text::{read_moment, read_whole};
use plan_model::{Moment, SECONDS_PER_DAY, Start};
use std::alloc::{AllocError, Global};

/// The first moment at which a journey may begin: 1970-01-08T00:00:00.
const FIRST_START: u64 = 604_800;

/// The last one: 2399-12-31T23:59:59.
const LAST_START: u64 = 13_569_465_599;

/// The last moment of a deadline, and at which departures are looked for: 2400-12-31T23:59:59.
const LAST_UNTIL: u64 = 13_601_087_999;

/// How long after the start one may promise to be there, in seconds: a week.
const LONGEST_PROMISE: u64 = 604_800;

/// The numbers from the least to the most.
#[derive(Clone, Copy)]
pub(crate) struct NumberRange {
    pub(crate) least: u32,
    pub(crate) most: u32,
}

/// The percentages of a deadline.
pub(crate) const ALPHA: NumberRange = NumberRange {
    least: 100,
    most: 1_000,
};

/// The hours of a window.
pub(crate) const HORIZON: NumberRange = NumberRange { least: 1, most: 72 };

/// The sizes of a feed that is made.
pub(crate) const SIZE: NumberRange = NumberRange {
    least: 10,
    most: 400,
};

/// The longest delay, in seconds: a day.
const LONGEST_DELAY: u32 = SECONDS_PER_DAY;

/// How many delays are taken at most.
const MOST_DELAYS: usize = 4_096;

/// A law, with no code: the last moment of a deadline, the seconds of a week, within which a promise is, and how many delays
/// are taken at most.
pub fn numbers_of_words()
    ensures until { last_until ≡ 13601087999 }
    ensures promise { LONGEST_PROMISE ≡ 604800 }
    ensures delays { MOST_DELAYS ≡ 4096 }
{}

/// The moment of a text, if it is of this range.
fn read_moment_of(text: &[u8], first: u64, last: u64) -> Option<Moment>
    ensures moment { option_map (λ moment. moment.0) result ≡ moment_of first last text.now }
    ensures in_range { IfSome result (λ moment. (first ≤ moment.0) × (moment.0 ≤ last)) }
{
    match read_moment(text) {
        None => None,
        Some(moment) => {
            if first <= moment.0 && moment.0 <= last {
                return Some(moment);
            }
            None
        }
    }
}

/// The moment that the journey begins at.
pub(crate) fn start_of(settings: &[String]) -> Start
    ensures { result.moment.0 ≡ start_of (map string_bytes settings.now) }
{
    let text = text_of(settings, OptionName::At);
    match read_moment_of(text.as_bytes(), FIRST_START, LAST_START) {
        None => Start {
            moment: Moment(FIRST_START),
        },
        Some(moment) => Start { moment },
    }
}

/// The moment by which one has promised to be there, if it is of its form.
pub(crate) fn read_promise(settings: &[String]) -> Option<Moment>
    ensures promise { option_map (λ moment. moment.0) result ≡ promise_at (map string_bytes settings.now) }
    ensures in_range { IfSome result (λ moment. (start_of (map string_bytes settings.now) ≤ moment.0)
        × (moment.0 ≤ start_of (map string_bytes settings.now) + LONGEST_PROMISE)) }
{
    let start = start_of(settings).moment;
    let text = text_of(settings, OptionName::By);
    read_moment_of(text.as_bytes(), start.0, start.0 + LONGEST_PROMISE)
}

/// The moment of an option, if it is of its form: from the start of the journey on.
pub(crate) fn read_later(settings: &[String], option: OptionName) -> Option<Moment>
    ensures later { option_map (λ moment. moment.0) result ≡ later_at (map string_bytes settings.now) option }
    ensures in_range { IfSome result (λ moment. (start_of (map string_bytes settings.now) ≤ moment.0)
        × (moment.0 ≤ last_until)) }
{
    let start = start_of(settings).moment;
    let text = text_of(settings, option);
    read_moment_of(text.as_bytes(), start.0, LAST_UNTIL)
}

/// A whole number of a range.
pub(crate) fn read_number(text: &[u8], range: NumberRange) -> Option<u32>
    ensures number { result ≡ number_at range.least range.most text.now }
    ensures in_range { IfSome result (λ number. (range.least ≤ number) × (number ≤ range.most)) }
{
    match read_whole(text, range.most) {
        None => None,
        Some(number) => {
            if range.least <= number {
                return Some(number);
            }
            None
        }
    }
}

/// Whether a text is a delay in seconds.
fn is_delay(text: &str) -> bool
    ensures { result ≡ is_delay text.now }
{
    read_whole(text.as_bytes(), LONGEST_DELAY).is_some()
}

/// The delay of a text, and 0 if it has none.
fn delay_in(text: &str) -> u32
    ensures { result ≡ delay_in text.now }
{
    match read_whole(text.as_bytes(), LONGEST_DELAY) {
        None => 0,
        Some(delay) => delay,
    }
}

/// Whether a text is delays that are joined by commas, not too many.
fn are_delays(text: &str) -> bool
    ensures { result ≡ are_delays (pieces text.now) }
{
    text.split(',').count() <= MOST_DELAYS && text.split(',').all(|piece| is_delay(piece))
}

/// Whether a text says which delays were met.
fn is_late(text: &str) -> bool
    ensures { result ≡ is_some (late_at text.now) }
{
    text == "none" || are_delays(text)
}

/// The delays of texts that are joined by commas.
fn delays_of(alloc: Global, text: &str) -> Result<Vec<u32>, AllocError>
    ensures { IfOk result (λ delays. delays.items ≡ map delay_in (pieces text.now)) }
{
    text.split(',').map(|piece| delay_in(piece)).collect(alloc)
}

/// The delays of a text, in seconds: those that commas join. There are none if the text is `none`, or if it does not have
/// their form.
pub fn read_late(alloc: Global, text: &str) -> Result<Vec<u32>, AllocError>
    ensures { IfOk result (λ delays. delays.items ≡ late_in text.now) }
{
    if text != "none" && are_delays(text) {
        return delays_of(alloc, text);
    }
    Ok(Vec::new(alloc))
}

/// Whether the value that settings give to an option is of its form.
pub(crate) fn has_form(settings: &[String], option: OptionName) -> bool
    ensures { result ≡ has_form (map string_bytes settings.now) option }
{
    let text = text_of(settings, option);
    match option {
        OptionName::At => read_moment_of(text.as_bytes(), FIRST_START, LAST_START).is_some(),
        OptionName::Alpha => read_number(text.as_bytes(), ALPHA).is_some(),
        OptionName::Horizon => read_number(text.as_bytes(), HORIZON).is_some(),
        OptionName::Late => is_late(text),
        OptionName::Size => read_number(text.as_bytes(), SIZE).is_some(),
        OptionName::By => read_promise(settings).is_some(),
        OptionName::Until | OptionName::Last => read_later(settings, option).is_some(),
        OptionName::Cut
        | OptionName::Feed
        | OptionName::Delays
        | OptionName::From
        | OptionName::To
        | OptionName::Graph
        | OptionName::Proof => !text.is_empty(),
    }
}
