//! The stops, the routes and the trips of a feed (GTFS Schedule reference).
//!
//! A call that takes an allocator may answer that there is no memory, as `NoMemory` or as the variant of that name; then a
//! `Files` value may have another file open, and nothing else has changed.
#![tactic(auto)]

mod forms;
mod routes;
mod stops;
mod tables;
mod trips;

pub use routes::Routes;
pub use stops::Stops;
pub use tables::{load_routes, load_stops, load_trips};
pub use trips::{OfTrips, Trips};
