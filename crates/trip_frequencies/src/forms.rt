//! The forms of the fields of frequencies (GTFS Schedule reference).
ghost use Rattle.std.specs.Prelude.{◌≡◌};
ghost use Rattle.trip_frequencies.specs.Frequencies.{headway_in, is_exact_in};

use clock_text::read_whole;
use plan_model::SECONDS_PER_DAY;

/// The most seconds from one departure of a trip that repeats to the next: a day.
const MOST_HEADWAY: u32 = SECONDS_PER_DAY;

/// The seconds from one departure to the next, which are one at least.
pub(crate) fn read_headway(text: &[u8]) -> Option<u32>
    ensures { result ≡ headway_in text.now }
{
    let headway = read_whole(text, MOST_HEADWAY)?;
    if headway == 0 {
        return None;
    }
    Some(headway)
}

/// Whether an `exact_times` says that the departures are exact to the second.
pub(crate) fn read_is_exact(text: &[u8]) -> Option<bool>
    ensures { result ≡ is_exact_in text.now }
{
    if text.is_empty() || text == b"0".as_slice() {
        return Some(false);
    }
    if text == b"1".as_slice() {
        return Some(true);
    }
    None
}
