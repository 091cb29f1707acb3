//! What a command comes to.
use crate::report::Report;

/// What a command found, and the text that is printed.
#[derive(Drop)]
pub struct Answer {
    /// What was found.
    pub report: Report,
    /// The text.
    pub text: Vec<u8>,
}
