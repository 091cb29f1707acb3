//! The graph file that a command reads.
ghost use Rattle.std.specs.Prelude.{◌≡◌, ◌≢◌, ◌≤◌, Some, None, Ok, Err, IfOk, IfErr, IfSome};
ghost use Rattle.plan_graph.specs.Tidy.{IsFit};
ghost use Rattle.graph_text.specs.Asked.{IsHeadOf};
ghost use Rattle.graph_text.specs.Reading.{graph_of};
ghost use Rattle.file_ports.specs.Ports.{file_at};
ghost use Rattle.journey_model.specs.Faults.{MayBeUnread, unread_input};
ghost use Rattle.journey_model.specs.Sites.{last_printable};
ghost use Rattle.journey_problem.specs.Files.{Finds, HasCauses, IsOfInput};
ghost use Rattle.journey_problem.specs.GraphFiles.{graph_as, graph_in};

use crate::inputs::load_bytes;
use csv_rows::Limits;
use file_ports::Files;
use graph_text::{Head, TextFault, read, read_fits};
use journey_model::{Fault, Input, Problem};
use plan_graph::PlanGraph;
use plan_model::Moment;
use std::alloc::Global;

/// The head and the graph of a text.
fn graph_of_bytes(
    alloc: Global,
    bytes: &[u8],
    problem: &Problem,
    start: Moment,
) -> Result<(Head, PlanGraph), Fault>
    ensures graph { IfOk result (λ f. graph_of bytes.now problem.now.timetable.network problem.now.timetable.names
        problem.now.source.0 problem.now.target.0 start.0 ≡ Ok (f.0, f.1)) }
    ensures fault { IfErr result (λ fault. fault ≢ Fault.NoMemory
        → graph_as (graph_of bytes.now problem.now.timetable.network problem.now.timetable.names
        problem.now.source.0 problem.now.target.0 start.0) ≡ Err fault) }
    ensures stage { IfErr result (λ fault. fault ≢ Fault.NoMemory → IsOfInput Input.Graph fault) }
    ensures read { IfErr result (λ fault. unread_input fault ≡ None) }
{
    match read(
        alloc,
        bytes,
        &problem.timetable.network,
        &problem.timetable.names,
        problem.source,
        problem.target,
        start,
    ) {
        Ok(found) => Ok(found),
        Err(TextFault::NoMemory) => Err(Fault::NoMemory),
        Err(fault) => Err(Fault::GraphFile(fault)),
    }
}

/// The head and the graph of the graph file of this path, for a journey that starts then; or the first of its faults:
/// `Read`, `Missing`, `Limit` for its bytes, and then `GraphFile`.
pub fn read_graph_file<F: Files>(
    alloc: Global,
    files: &mut F,
    path: &str,
    problem: &Problem,
    start: Moment,
    limits: &Limits,
) -> Result<(Head, PlanGraph), Fault>
    ensures graph { IfSome (F.state files.old).files (λ m. Finds (λ f. (f.0, f.1))
        (λ unread. graph_in limits.now problem.now start.0 unread (file_at m path.now)) result) }
    ensures fit { IfOk result (λ f. IsFit problem.now.timetable.network f.0.query f.1) }
    ensures head { IfOk result (λ f.
        IsHeadOf problem.now.source.0 problem.now.target.0 start.0 f.0) }
    ensures deadline { IfOk result (λ f. f.0.query.deadline.0 ≤ last_printable) }
    ensures own { IfErr result (MayBeUnread Input.Graph) }
    ensures stage { IfErr result (λ fault. fault ≢ Fault.NoMemory → IsOfInput Input.Graph fault) }
    ensures causes { HasCauses (λ other. Some path.now) (F.state files.old) (F.state files.new) result }
{
    read_fits();
    let bytes = load_bytes(alloc, files, path, Input::Graph, limits)?;
    graph_of_bytes(alloc, bytes.as_slice(), problem, start)
}
