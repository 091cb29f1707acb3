//! The stops, routes, trips, stop times and frequencies of a feed (GTFS Schedule reference).
//!
//! A call that takes an allocator may answer that there is no memory, as `NoMemory` or as the variant of that name; then a
//! `Files` value may have another file open, and nothing else has changed.
#![tactic(auto)]

mod feed;
mod lists;
mod tables;
mod times;

pub use feed::Feed;
pub use stop_times::StopRow;
pub use trip_frequencies::FrequencyRow;
