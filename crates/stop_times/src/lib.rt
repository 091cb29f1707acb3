//! The stop times of a feed: the rows of the table, in order by trip (GTFS Schedule reference).
//!
//! A call that takes an allocator may answer that there is no memory, as `NoMemory` or as the variant of that name; then what
//! it was lent is as it was, unless its own comment says otherwise.
#![tactic(auto)]

mod by_trip;
mod forms;
mod keys;
mod named;
mod records;
mod rows;
mod stop_order;
mod stored_row;
mod table_rows;
mod timetable;
mod visits;

pub use by_trip::StopTimes;
pub use rows::StopRow;
pub use timetable::read_stop_times;
