//! The forms of the fields of transfers (GTFS Schedule reference).
ghost use Rattle.std.specs.Prelude.{◌≡◌};
ghost use Rattle.change_times.specs.Transfers.{is_timed_in};

/// Whether a transfer wants a time at least: type 2 does, and an empty type is 0.
pub(crate) fn read_is_timed(text: &[u8]) -> Option<bool>
    ensures { result ≡ is_timed_in text.now }
{
    if text == b"2".as_slice() {
        return Some(true);
    }
    if text.is_empty()
        || text == b"0".as_slice()
        || text == b"1".as_slice()
        || text == b"3".as_slice()
        || text == b"4".as_slice()
        || text == b"5".as_slice()
    {
        return Some(false);
    }
    None
}
