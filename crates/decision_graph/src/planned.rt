//! The decision graph with one table for each place.
ghost use Rattle.std.specs.Prelude.{◌≡◌, ◌<◌, IfOk, MatchOption};
ghost use Rattle.interval_fixed.specs.Interval.{end_of_nanos};
ghost use Rattle.plan_model.specs.Bounds.{end_of_time};
ghost use Rattle.plan_model.specs.Order.{IsScanOrder};
ghost use Rattle.decision_graph.specs.Planned.{IsNoneSafe, IsExpandedBy, HasSteadyChoice, IsPlanned, IsPlannedBy};

use crate::expanded::{expand_by, expand_means};
use crate::found::Found;
use graph_compact::compact;
use graph_prune::{prune, steady_is_coherent};
use interval_fixed::Span;
use plan_graph::{ExpandedGraph, PlanGraph};
use plan_model::{BackwardOrder, Network, NoMemory, Query};
use std::alloc::Global;
use value_laws::Score;

/// The graph with one table for each place that unfolds to the same strategy.
fn compacted<V: Score>(
    alloc: Global,
    network: &Network,
    query: &Query,
    expanded: Found<ExpandedGraph, V>,
) -> Result<Found<PlanGraph, V>, NoMemory>
    requires expanded { IsExpandedBy V.scoring network.now query.now expanded.graph expanded.value }
    requires steady { HasSteadyChoice network.now query.now expanded.graph }
    ensures { IfOk result (λ p. IsPlannedBy V.scoring network.now query.now p.graph p.value) }
{
    let pruned = prune(alloc, &expanded.graph, network, query)?;
    steady_is_coherent();
    let graph = compact(alloc, &pruned, network, query)?;
    Ok(Found {
        graph,
        value: expanded.value,
    })
}

/// The decision graph of a query with one table for each place, by a scan in this order of the
/// network's connections, with a value that covers its own strategy and is below every safe one.
/// `None` if no strategy is safe. Whatever is answered, the order still fits the network.
pub fn plan_by<V: Score, B: BackwardOrder>(
    alloc: Global,
    order: &mut B,
    network: &Network,
    query: &Query,
) -> Result<Option<Found<PlanGraph, V>>, NoMemory>
    requires fits { B.fits order.old network.now }
    requires whole { IsScanOrder network.now (B.rest order.old network.now) }
    requires start { query.now.source.0 ≡ query.now.target.0 → query.now.start.0 < end_of_time }
    ensures plan { IfOk result (λ found. MatchOption found (IsNoneSafe network.now query.now)
        (λ p. IsPlannedBy V.scoring network.now query.now p.graph p.value)) }
    ensures fits { B.fits order.new network.now }
{
    let Some(expanded) = expand_by(alloc, order, network, query)? else {
        return Ok(None);
    };
    let planned = compacted(alloc, network, query, expanded)?;
    Ok(Some(planned))
}

/// The decision graph of a query with one table for each place, by a scan in this order of the
/// network's connections, with bounds on its expected arrival and on the least of all strategies that
/// are safe for it, in nanoseconds since 1970-01-01. `None` if no strategy is safe. Whatever is
/// answered, the order still fits the network.
#[tactic(auto, using(crate::proofs::Means::planned_means))]
pub fn plan<B: BackwardOrder>(
    alloc: Global,
    order: &mut B,
    network: &Network,
    query: &Query,
) -> Result<Option<Found<PlanGraph, Span>>, NoMemory>
    requires fits { B.fits order.old network.now }
    requires whole { IsScanOrder network.now (B.rest order.old network.now) }
    requires start { query.now.source.0 ≡ query.now.target.0 → query.now.start.0 < end_of_nanos }
    ensures plan { IfOk result (λ found. MatchOption found (IsNoneSafe network.now query.now)
        (λ p. IsPlanned network.now query.now p.graph p.value)) }
    ensures fits { B.fits order.new network.now }
{
    let Some(expanded) = expand_means(alloc, order, network, query)? else {
        return Ok(None);
    };
    let planned = compacted(alloc, network, query, expanded)?;
    let bounds = planned.value.0;
    let graph = planned.graph;
    Ok(Some(Found {
        graph,
        value: bounds,
    }))
}
