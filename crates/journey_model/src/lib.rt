//! What a command asks about, and why a run gives no answer: the problem of a journey, and the faults, each with the number
//! that it ends a process with.
//!
//! A call that takes an allocator may answer that there is no memory, as `NoMemory` or as the variant of that name; then
//! what it was lent is as it was, unless its own comment says otherwise.
#![tactic(auto)]

mod faults;
mod lines;
mod problem;
mod texts;

pub use faults::{Fault, Input, LimitKind, Site, Which};
pub use lines::{fault_line, known_line};
pub use problem::{Ends, Problem};
