//! The scan order of a network backwards, merged from its runs.
//!
//! A call that takes an allocator may answer that there is no memory, as `NoMemory` or as the variant
//! of that name; then what it was lent is as it was, unless its own comment says otherwise.
#![tactic(auto)]

mod merged;

pub use merged::MergedRuns;
