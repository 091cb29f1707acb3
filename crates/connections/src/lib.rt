//! The connections of a feed in a window of time (GTFS Schedule reference), as a network.
//!
//! A call that takes an allocator may answer that there is no memory, as `NoMemory` or as the variant of that name; then what
//! it was lent is as it was, unless its own comment says otherwise.
#![tactic(auto)]

mod counts;
mod cuts;
mod feed_window;
mod names;
mod origins;
mod reach;
mod repeats;
mod runs;
mod trip_days;
mod window;
mod window_connections;
mod window_runs;

pub use cuts::{WindowFault, cut};
