//! The connections of a cut file.
//!
//! A call that takes an allocator may answer that there is no memory, as `NoMemory` or as the variant of that name; then what
//! it was lent is as it was, unless its own comment says otherwise.
#![tactic(auto)]

mod checked;
mod faults;
mod fields;
mod laws;
mod lines;
mod networks;
mod numbers;
mod order;
mod rows;
mod table;

pub use faults::CutFault;
pub use laws::cut_numbers;
pub use table::{CutTable, read_cut};
