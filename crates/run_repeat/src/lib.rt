//! Trips that repeat: the runs of a row of `frequencies.txt`, by arithmetic, with no list of them.
#![tactic(auto)]

mod runs;

pub use runs::{count, departure, within};
