//! Files and sinks in memory, which fail at chosen calls.
//!
//! A call that takes an allocator may answer that there is no memory, as `NoMemory` or as the variant of that name; then
//! what it was lent is as it was, unless its own comment says otherwise.
#![tactic(auto)]

mod memory;
mod memory_sink;

pub use memory::MemoryFiles;
pub use memory_sink::MemorySink;
