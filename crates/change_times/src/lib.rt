//! The change times of the places of a feed, and the links between them (`transfers.txt` of the GTFS Schedule reference).
//!
//! A call that takes an allocator may answer that there is no memory, as `NoMemory` or as the variant of that name; then a
//! `Files` value may have another file open, and nothing else has changed.
#![tactic(auto)]

mod changes;
mod forms;
mod links;
mod stops;
mod transfers;

pub use changes::Changes;
