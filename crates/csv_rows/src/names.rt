//! Fields that name something, and texts.
ghost use Rattle.std.specs.Prelude.{◌≡◌, option_map};
ghost use Rattle.csv_rows.specs.Ids.{name_in, text_in};

/// The text of a field that is a name; `None` if it is empty or not UTF-8.
pub fn read_name(text: &[u8]) -> Option<&str>
    ensures { option_map (λ s. s.now) result ≡ name_in text.now }
{
    if text.is_empty() {
        return None;
    }
    match std::str::from_utf8(text) {
        Ok(name) => Some(name),
        Err(_) => None,
    }
}

/// The text of a field, which may be empty; `None` if it is not UTF-8.
pub fn read_text(text: &[u8]) -> Option<&str>
    ensures { option_map (λ s. s.now) result ≡ text_in text.now }
{
    match std::str::from_utf8(text) {
        Ok(text) => Some(text),
        Err(_) => None,
    }
}
