//! How the trips of a feed repeat: the rows of its frequencies, by trip (GTFS Schedule reference).
//!
//! A call that takes an allocator may answer that there is no memory, as `NoMemory` or as the variant of that name; then a
//! `Files` value may have another file open, and nothing else has changed.
#![tactic(auto)]

mod forms;
mod frequencies;
mod repeats;
mod tables;

pub use frequencies::{FrequencyRow, TripFrequency};
pub use repeats::Repeats;
pub use tables::load_frequencies;
