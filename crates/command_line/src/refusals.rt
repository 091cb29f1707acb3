//! The options for which a line of words is refused.
ghost use Rattle.std.specs.Prelude.{◌≡◌, map, string_bytes, find};
ghost use Rattle.command_line.specs.Options.{all_options};
ghost use Rattle.command_line.specs.Uses.{is_before, is_used, is_needed, is_useless, is_missing};
ghost use Rattle.command_line.specs.Values.{is_bad};

use crate::options::{Command, OPTIONS, OptionName, Use};
use crate::settings::is_given;
use crate::values::has_form;

/// Whether the number of an option is less than that of another.
fn is_before(option: OptionName, other: OptionName) -> bool
    ensures { result ≡ is_before option other }
{
    option.number() < other.number()
}

/// Whether settings leave a use for an option with which a command does this.
fn is_used(settings: &[String], option: OptionName, done: Use) -> bool
    ensures { result ≡ is_used (map string_bytes settings.now) option done }
{
    match done {
        Use::Needed | Use::Optional => true,
        Use::Unused => false,
        Use::OneOf(other) => !(is_before(option, other) && is_given(settings, other)),
        Use::With(other) => is_given(settings, other),
    }
}

/// Whether settings need an option with which a command does this.
fn is_needed(settings: &[String], option: OptionName, done: Use) -> bool
    ensures { result ≡ is_needed (map string_bytes settings.now) option done }
{
    match done {
        Use::Needed => true,
        Use::Optional | Use::Unused | Use::With(_) => false,
        Use::OneOf(other) => is_before(other, option) && !is_given(settings, other),
    }
}

/// Whether an option is given and has no use.
fn is_useless(command: Command, settings: &[String], option: OptionName) -> bool
    ensures { result ≡ is_useless command (map string_bytes settings.now) option }
{
    !is_used(settings, option, command.use_of(option)) && is_given(settings, option)
}

/// Whether an option is needed and not given.
fn is_missing(command: Command, settings: &[String], option: OptionName) -> bool
    ensures { result ≡ is_missing command (map string_bytes settings.now) option }
{
    is_needed(settings, option, command.use_of(option)) && !is_given(settings, option)
}

/// Whether an option is given with a value that is not of its form.
fn is_bad(settings: &[String], option: OptionName) -> bool
    ensures { result ≡ is_bad (map string_bytes settings.now) option }
{
    is_given(settings, option) && !has_form(settings, option)
}

/// The first option that is given and not used.
pub(crate) fn first_useless(command: Command, settings: &[String]) -> Option<OptionName>
    ensures { result ≡ find (is_useless command (map string_bytes settings.now)) all_options }
{
    OPTIONS
        .iter()
        .copied()
        .find(|option| is_useless(command, settings, *option))
}

/// The first option that is needed and not given.
pub(crate) fn first_missing(command: Command, settings: &[String]) -> Option<OptionName>
    ensures { result ≡ find (is_missing command (map string_bytes settings.now)) all_options }
{
    OPTIONS
        .iter()
        .copied()
        .find(|option| is_missing(command, settings, *option))
}

/// The first option whose value is not of its form.
pub(crate) fn first_bad(settings: &[String]) -> Option<OptionName>
    ensures { result ≡ find (is_bad (map string_bytes settings.now)) all_options }
{
    OPTIONS
        .iter()
        .copied()
        .find(|option| is_bad(settings, *option))
}
