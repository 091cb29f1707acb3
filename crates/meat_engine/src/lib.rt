//! The commands of the planner over files and sinks.
//!
//! A call that takes an allocator may answer that there is no memory, as `NoMemory` or as the variant of that name; then
//! a `Files` value may have another file open, and nothing else has changed.
#![tactic(auto)]

mod asks;
mod refusal;
mod samples;
mod top;

pub use journey_model::{Fault, Input, LimitKind, Which};
pub use journey_report::{Report, Status};
pub use top::{run, run_limited};
