//! What a run answers: its report, and the printed texts of its answers.
//!
//! A call that takes an allocator may answer that there is no memory, as `NoMemory` or as the variant of that name; then
//! what it was lent is as it was, unless its own comment says otherwise.
#![tactic(auto)]

mod answer;
mod departure_texts;
mod printable;
mod reach_texts;
mod report;
mod texts;

pub use answer::Answer;
pub use departure_texts::{departures_text, latest_text};
pub use printable::{NamedQuery, Printable, PrintableTrip};
pub use reach_texts::reach_text;
pub use report::{Report, Status};
pub use texts::{encloses_text, holds_text, punctual_row, safe_text, sample_text, trace_text};
