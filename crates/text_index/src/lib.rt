//! Texts found by hashing: an index that is made when texts are looked up, and dropped after.
//!
//! A call that takes an allocator may answer that there is no memory, as `NoMemory` or as the variant of that name; then
//! what it was lent is as it was, unless its own comment says otherwise.
#![tactic(auto)]

mod index;
mod names;

pub use index::TextIndex;
pub use names::NameIndex;
