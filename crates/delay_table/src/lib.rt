//! How late a trip may arrive, by class: the outcomes of `*`, of each route type, of each route and at each hour that a delay
//! file names.
//!
//! A call that takes an allocator may answer that there is no memory, as `NoMemory` or as the variant of that name; then
//! what it was lent is as it was, unless its own comment says otherwise.
#![tactic(auto)]

mod faults;
mod groups;
mod laws;
mod lines;
mod numbered;
mod other_groups;
mod reading;
mod sums;
mod table;
mod types;

pub use faults::{ClassName, DelayFault};
pub use laws::delay_numbers;
pub use table::DelayTable;
