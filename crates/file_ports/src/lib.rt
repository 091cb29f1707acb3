//! Files and sinks as values with a meaning: what a folder holds, what remains of the open file, what was written, and
//! how often the outside failed. And the words of the command line.
//!
//! A count of faults is at most 2^64 - 1. It grew in a call if it is greater afterwards, and it rose if it grew or
//! is at that limit afterwards.
//!
//! A call that takes an allocator may answer that there is no memory, as `NoMemory` or as the variant of that name; then a
//! `Files` value may have another file open, and nothing else has changed.
#![tactic(auto)]

mod host;
mod loading;
mod named;
mod ports;
mod steady;
mod words;

pub use host::{HostFiles, HostSink};
pub use loading::{LoadFault, load, put_all};
pub use named::{Named, index_of};
pub use ports::{Failed, Files, Presence, Sink};
pub use steady::SteadyFiles;
pub use words::host_words;
