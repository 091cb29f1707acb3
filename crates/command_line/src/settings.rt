//! Pairs of an option and its value.
ghost use Rattle.std.specs.Prelude.{◌≡◌, ℕ, ◌∷◌, ◌↔◌, List, Some, IsTrue, map, string_bytes, option_map};
ghost use Rattle.command_line.specs.Options.{option_name};
ghost use Rattle.command_line.specs.Settings.{Setting, IsLine, value_of, value_in, is_given, text_of, are_settings};

use crate::options::{OptionName, option_named};

/// The value of an option.
pub(crate) fn value_of(settings: &[String], option: OptionName) -> Option<&str>
    ensures { option_map (λ value. value.now) result ≡ value_of (map string_bytes settings.now) option }
{
    let [name, value, others @ ..] = settings else {
        return None;
    };
    if name.as_str() == option.name() {
        return Some(value.as_str());
    }
    value_of(others, option)
}

/// Whether an option has a value.
pub(crate) fn is_given(settings: &[String], option: OptionName) -> bool
    ensures { result ≡ is_given (map string_bytes settings.now) option }
{
    value_of(settings, option).is_some()
}

/// The value of an option; `None` if it is not given.
pub(crate) fn text_of(settings: &[String], option: OptionName) -> &str
    ensures { result.now ≡ text_of (map string_bytes settings.now) option }
{
    match value_of(settings, option) {
        None => "",
        Some(value) => value,
    }
}

/// Whether words are pairs of an option and a value, in which no option comes twice.
pub(crate) fn are_settings(settings: &[String]) -> bool
    ensures { result ≡ are_settings (map string_bytes settings.now) }
{
    let [name, _value, others @ ..] = settings else {
        return settings.is_empty();
    };
    match option_named(name.as_str()) {
        None => false,
        Some(option) => value_of(others, option).is_none() && are_settings(others),
    }
}

/// A law, with no code: words are accepted exactly if they are a command followed by pairs of an option and a value, no
/// option twice; and the value of an option is the one in its pair.
pub fn line_is_a_command_and_its_settings()
    ensures accepted { (words : List (List ℕ)) (command : List ℕ) (given : List Setting) →
        IsLine words command given → (rest : List (List ℕ)) → words ≡ command ∷ rest →
        IsTrue (are_settings rest) × ((option : OptionName) → value_of rest option ≡ value_in given option) }
    ensures only { (command : List ℕ) (rest : List (List ℕ)) → IsTrue (are_settings rest) →
        (given : List Setting) × IsLine (command ∷ rest) command given }
{}
