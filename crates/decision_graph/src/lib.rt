//! The decision graph of a journey in a network: a strategy that reaches the target by the deadline
//! whatever the delays, with bounds that enclose its expected arrival and the least of all such
//! strategies.
//!
//! The method is that of Dibbelt, Strasser and Wagner, "Delay-Robust Journeys in Timetable Networks
//! with Minimum Expected Arrival Time" (ATMOS 2014), with a model of its own: departures are on time,
//! and each arrival is late by one of a finite list of delays, independently.
//!
//! A call that takes an allocator may answer that there is no memory, as `NoMemory` or as the variant
//! of that name; then what it was lent is as it was, unless its own comment says otherwise.
#![tactic(auto)]

mod expanded;
mod found;
mod laws;
mod planned;
mod punctual;

pub use expanded::expand;
pub use found::Found;
pub use laws::{a_later_deadline_is_no_worse, least_worst_is_kept, one_upper_bound};
pub use planned::{plan, plan_by};
pub use punctual::punctual_plan;
