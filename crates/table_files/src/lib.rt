//! The tables of a feed in its folder: the file of each within its limits, and why it cannot be read.
//!
//! A call that takes an allocator may answer that there is no memory, as `NoMemory` or as the variant of that name; then a
//! `Files` value may have another file open, and nothing else has changed.
#![tactic(auto)]

mod loading;
mod required;

pub use loading::{Loaded, read_file, read_table};
pub use required::read_required;
