//! The services of a feed and the days on which they run (`calendar.txt` and `calendar_dates.txt` of the GTFS Schedule
//! reference).
//!
//! A call that takes an allocator may answer that there is no memory, as `NoMemory` or as the variant of that name; then a
//! `Files` value may have another file open, and nothing else has changed.
#![tactic(auto)]

mod dates;
mod exceptions;
mod forms;
mod periods;
mod row;
mod services;
mod tables;

pub use services::Services;
