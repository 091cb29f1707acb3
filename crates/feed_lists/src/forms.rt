//! The forms of the fields of stops (GTFS Schedule reference).
ghost use Rattle.std.specs.Prelude.{◌≡◌, option_map};
ghost use Rattle.feed_lists.specs.Stops.{is_stop_in, parent_in};

use csv_rows::read_text;

/// Whether a location is a stop or a platform, by its `location_type`.
pub(crate) fn read_is_stop(text: &[u8]) -> Option<bool>
    ensures { result ≡ is_stop_in text.now }
{
    if text.is_empty() || text == b"0".as_slice() {
        return Some(true);
    }
    if text == b"1".as_slice()
        || text == b"2".as_slice()
        || text == b"3".as_slice()
        || text == b"4".as_slice()
    {
        return Some(false);
    }
    None
}

/// The parent station, at which only stops and platforms are looked at. `None` if the text is empty.
pub(crate) fn read_parent(is_stop: bool, text: &[u8]) -> Option<&str>
    ensures { option_map (λ s. s.now) result ≡ parent_in is_stop text.now }
{
    if is_stop { read_text(text) } else { Some("") }
}
