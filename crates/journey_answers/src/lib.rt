//! The answers about a journey. About its strategies: the least worst arrival, decision graphs, certificates, and the
//! least chance of being late. About when one can leave: the departures, the latest moment, and the places from which one can reach the target. And about a graph or a
//! certificate that was read: the trip by the graph, bounds on its expected arrival, and that the certificate holds.
//!
//! A call that takes an allocator may answer that there is no memory, as `NoMemory` or as the variant of that name; then
//! what it was lent is as it was, unless its own comment says otherwise.
#![tactic(auto)]

mod answers;
mod certificates;
mod checks;
mod departures;
mod laws;
mod punctual;
mod reaching;
mod read_graph;
mod scores;
mod trips;

pub use answers::{Answered, Asked, asked_of, expand_over, plan_over, planned_of, safe_over};
pub use certificates::certify_over;
pub use checks::{ReadCertificate, check_over};
pub use departures::{departures_over, latest_over};
pub use laws::upper_bound_is_that_of_the_graph;
pub use punctual::punctual_over;
pub use reaching::reach_over;
pub use read_graph::ReadGraph;
pub use scores::score_over;
pub use trips::trip_over;
