//! The words of the command line: a command, and then pairs of an option and its value.
//!
//! A call that takes an allocator may answer that there is no memory, as `NoMemory` or as the variant of that name; then
//! what it was lent is as it was, unless its own comment says otherwise.
#![tactic(auto)]

mod job;
mod options;
mod refusals;
mod settings;
mod values;

pub use job::{Ask, Job, Journey, Source, WordsFault, read_job};
pub use options::{Command, OptionName, Use, option_word};
pub use settings::line_is_a_command_and_its_settings;
pub use values::{numbers_of_words, read_late};
