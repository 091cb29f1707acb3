//! The forms of the fields of stop times (GTFS Schedule reference).
ghost use Rattle.std.specs.Prelude.{◌≡◌};
ghost use Rattle.stop_times.specs.StopTimes.{allows_in, time_in};

use clock_text::read_time;

/// Whether a `pickup_type` or a `drop_off_type` lets one board or alight.
pub(crate) fn read_allows(text: &[u8]) -> Option<bool>
    ensures { result ≡ allows_in text.now }
{
    if text.is_empty()
        || text == b"0".as_slice()
        || text == b"2".as_slice()
        || text == b"3".as_slice()
    {
        return Some(true);
    }
    if text == b"1".as_slice() {
        return Some(false);
    }
    None
}

/// A time in seconds of the service day, or none if the field is empty.
pub(crate) fn read_time_or_none(text: &[u8]) -> Option<Option<u32>>
    ensures { result ≡ time_in text.now }
{
    if text.is_empty() {
        return Some(None);
    }
    let seconds = read_time(text)?;
    Some(Some(seconds))
}
