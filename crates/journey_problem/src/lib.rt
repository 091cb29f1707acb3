//! What a command reads from files. From those of a journey its problem: the timetable with its delays, and the ends of
//! the journey in it. And the graph or the certificate of a file for a problem. Or else the first fault of the files.
//!
//! A call that takes an allocator may answer that there is no memory, as `NoMemory` or as the variant of that name; then
//! a `Files` value may have another file open, and nothing else has changed.
#![tactic(auto)]

mod certificate_files;
mod cut_problem;
mod feed_problem;
mod feed_tables;
mod graph_files;
mod inputs;
mod journey;
mod laws;
mod stops;

pub use certificate_files::read_certificate_file;
pub use graph_files::read_graph_file;
pub use journey::problem_of;
pub use laws::{
    files_have_one_problem, files_of_a_problem_have_no_fault,
    journeys_to_a_stop_have_one_timetable, only_own_files_count, only_records_count,
    saving_elsewhere_keeps_own_files,
};
