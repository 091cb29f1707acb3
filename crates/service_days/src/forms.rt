//! The forms of the fields of the calendars (GTFS Schedule reference).
ghost use Rattle.std.specs.Prelude.{◌≡◌};
ghost use Rattle.service_days.specs.CalendarForms.{choice_in, weekday_flag_in, adds_in};

/// Whether a field has the first of two texts, and not the second; `None` if it has neither.
fn read_choice(text: &[u8], first: &[u8], second: &[u8]) -> Option<bool>
    ensures { result ≡ choice_in first.now second.now text.now }
{
    if text == first {
        return Some(true);
    }
    if text == second {
        return Some(false);
    }
    None
}

/// The flag of a weekday.
pub(crate) fn read_flag(text: &[u8]) -> Option<bool>
    ensures { result ≡ weekday_flag_in text.now }
{
    read_choice(text, b"1".as_slice(), b"0".as_slice())
}

/// Whether an exception adds its day: 1 adds it and 2 removes it.
pub(crate) fn read_adds(text: &[u8]) -> Option<bool>
    ensures { result ≡ adds_in text.now }
{
    read_choice(text, b"1".as_slice(), b"2".as_slice())
}
