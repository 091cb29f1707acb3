//! A graph that was read.
ghost use Rattle.std.proofs.Props.{props};
ghost use Rattle.std.specs.Prelude.{◌≡◌, ◌≤◌};
ghost use Rattle.plan_graph.specs.Tidy.{IsFit};
ghost use Rattle.journey_model.specs.Sites.{last_printable};
ghost use Rattle.plan_model.specs.Bounds.{last_start};

use graph_text::Head;
use journey_model::Problem;
use plan_graph::PlanGraph;

/// A graph that was read for a problem, with its head. It fits the problem's network, its query is between the ends of
/// the problem, and the moments of the query have texts.
#[derive(Drop)]
pub struct ReadGraph<'a> {
    /// The problem.
    pub problem: &'a Problem,
    /// The query that it is for, and the bounds in its first row.
    pub head: Head,
    /// The graph.
    pub graph: PlanGraph,
    /// That it fits the network and the query.
    pub ghost fit: { IsFit problem.now.timetable.network head.query graph } by { Prim.hlevel props },
    /// That the query begins where the problem does.
    pub ghost source: { head.query.source.0 ≡ problem.now.source.0 },
    /// That it ends where the problem does.
    pub ghost target: { head.query.target.0 ≡ problem.now.target.0 },
    /// That it does not start after the last start.
    pub ghost start: { head.query.start.0 ≤ last_start },
    /// That the deadline has a text.
    pub ghost deadline: { head.query.deadline.0 ≤ last_printable },
}
