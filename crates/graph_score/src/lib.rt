//! Bounds on the expected arrival of any graph by place, or why it has none.
//!
//! A call that takes an allocator may answer that there is no memory, as `NoMemory` or as the variant
//! of that name; then what it was lent is as it was, unless its own comment says otherwise.
#![tactic(auto)]

ghost use Rattle.std.specs.Prelude.{◌≡◌, ℕ, ◌<◌, IfOk, All};
ghost use Rattle.plan_model.specs.declared.model.Query.{Query as QueryParts};
ghost use Rattle.plan_model.specs.Network.{NetworkModel};
ghost use Rattle.plan_graph.specs.declared.PlanGraph.{PlanGraph as GraphParts};
ghost use Rattle.plan_graph.specs.Unfold.{HasRisingTables, unfold_plan};
ghost use Rattle.plan_graph.specs.Tidy.{IsFit};
ghost use Rattle.graph_score.specs.Legs.{IsFitLeg, IsFirstWrong, legs_of};
ghost use Rattle.graph_score.specs.Scores.{IsScore, IsScoreOf};
ghost use Rattle.graph_score.specs.Steps.{IsOutlook};
ghost use Rattle.interval_fixed.specs.Interval.{end_of_nanos};

mod exits;
mod legs;
mod outlooks;

use interval_fixed::Span;
use legs::{first_wrong, legs_of};
use outlooks::{RisingGraph, arrived, outlooks_of, reported};
pub use outlooks::{Failure, Outlook};
use plan_graph::PlanGraph;
use plan_model::{Moment, Network, NoMemory, PlaceId, Query};
use std::alloc::Global;

/// Why a graph has no score.
#[derive(Clone, Copy, Debug, PartialEq, Eq)]
pub enum ScoreFault {
    /// The leg with this number does not fit the network and the query: it is none of the network's
    /// legs, or its row is not by its limit, or the start leg does not leave the source at the start or
    /// later. Legs are counted from 1 on: the start leg first, if there is one, and then the rows in
    /// their order.
    NoSuchLeg(u64),
    /// By the graph a traveller may be stuck at the place at the moment, or arrive there, at the
    /// target, after the deadline. It is the least moment at which this may be, and the least place.
    Unsafe(PlaceId, Moment),
    /// Memory ran out.
    NoMemory,
}

impl From<NoMemory> for ScoreFault {
    ghost use Rattle.graph_score.specs.declared.ScoreFault.TheVariants.{NoMemory as NoMemoryFault};

    ghost from_gives = { λ _ e. e ≡ NoMemoryFault };

    fn from(_: NoMemory) -> ScoreFault {
        ScoreFault::NoMemory
    }
}

/// What comes of a graph whose legs fit.
fn outlook_by_legs(
    alloc: Global,
    rising: &RisingGraph,
    network: &Network,
    query: &Query,
) -> Result<Outlook, NoMemory>
    requires fit { All (IsFitLeg network.now query.now) (legs_of rising.now.graph.now) }
    requires start { query.now.source.0 ≡ query.now.target.0 → query.now.start.0 < end_of_nanos }
    ensures { IfOk result (λ outlook. IsOutlook network.now query.now outlook (unfold_plan rising.now.graph.now network.now query.now)) }
{
    if query.source.0 == query.target.0 {
        return Ok(arrived(query.deadline, query.source, query.start));
    }
    let stuck = Outlook::Failing(Failure {
        moment: query.start,
        place: query.source,
    });
    let Some(start) = rising.graph.start else {
        return Ok(stuck);
    };
    let outlooks = outlooks_of(alloc, rising, network, query)?;
    Ok(reported(&outlooks, start.exit))
}

/// The same, as a score.
fn score_by_legs(
    alloc: Global,
    rising: &RisingGraph,
    network: &Network,
    query: &Query,
) -> Result<Outlook, NoMemory>
    requires fit { All (IsFitLeg network.now query.now) (legs_of rising.now.graph.now) }
    requires start { query.now.source.0 ≡ query.now.target.0 → query.now.start.0 < end_of_nanos }
    ensures { IfOk result (IsScoreOf network.now query.now (unfold_plan rising.now.graph.now network.now query.now)) }
{
    // What comes of each connection has its number.
    let are_numbered = network.count() < u32::MAX;
    prove!(are_numbered);
    outlook_by_legs(alloc, rising, network, query)
}

/// Bounds on the expected arrival of a graph that fits, or its first failure if it is not safe for the
/// query. It goes from the arrivals upward, ride by ride with the mean rounded outward, and looks at
/// each leg once, however many trips lead to it.
pub fn score_fit(
    alloc: Global,
    graph: &PlanGraph,
    network: &Network,
    query: &Query,
) -> Result<Outlook, NoMemory>
    requires fit { IsFit network.now query.now graph.now }
    requires start { query.now.source.0 ≡ query.now.target.0 → query.now.start.0 < end_of_nanos }
    ensures { IfOk result (IsScoreOf network.now query.now (unfold_plan graph.now network.now query.now)) }
{
    fit_is_scored();
    let legs = legs_of(alloc, graph)?;
    let rising = RisingGraph { graph, legs: &legs };
    score_by_legs(alloc, &rising, network, query)
}

/// Bounds on the expected arrival of any graph, in nanoseconds since 1970-01-01: those of `score_fit`, if
/// all legs fit.
///
/// `NoSuchLeg` comes if a leg does not fit the network and the query, and carries the first one; if
/// source and target are one place no leg fits. `Unsafe` comes if all legs fit and the graph is not safe
/// for the query; a graph without a start leg is stuck at the source.
pub fn score(
    alloc: Global,
    graph: &PlanGraph,
    network: &Network,
    query: &Query,
) -> Result<Span, ScoreFault>
    requires rising { HasRisingTables graph.now }
    requires start { query.now.source.0 ≡ query.now.target.0 → query.now.start.0 < end_of_nanos }
    ensures { IsScore network.now query.now graph.now result }
{
    let legs = legs_of(alloc, graph)?;
    if let Some(at) = first_wrong(network, query, &legs) {
        return Err(ScoreFault::NoSuchLeg(at as u64 + 1));
    }
    let rising = RisingGraph { graph, legs: &legs };
    match score_by_legs(alloc, &rising, network, query)? {
        Outlook::Safe(span) => Ok(span),
        Outlook::Failing(failure) => Err(ScoreFault::Unsafe(failure.place, failure.moment)),
    }
}

/// A law, with no code: a graph that fits its network and query rises, and each of its legs fits.
pub fn fit_is_scored()
    ensures rises { (n : NetworkModel) (q : QueryParts) (graph : GraphParts) → IsFit n q graph → HasRisingTables graph }
    ensures legs { (n : NetworkModel) (q : QueryParts) (graph : GraphParts) → IsFit n q graph → All (IsFitLeg n q) (legs_of graph) }
    ensures none_wrong { (n : NetworkModel) (q : QueryParts) (graph : GraphParts) (k : ℕ) → IsFit n q graph
        → IsFirstWrong n q (legs_of graph) k → ⊥ }
{}
