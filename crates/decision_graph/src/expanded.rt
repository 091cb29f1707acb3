//! The decision graph ride by ride.
ghost use Rattle.std.specs.Prelude.{◌≡◌, ◌<◌, ◌≤◌, IfOk, IfSome, MatchOption};
ghost use Rattle.interval_fixed.specs.Interval.{end_of_nanos};
ghost use Rattle.plan_model.specs.Bounds.{end_of_time};
ghost use Rattle.plan_model.specs.Order.{IsScanOrder};
ghost use Rattle.value_laws.specs.Means.{mean_scoring};
ghost use Rattle.decision_graph.specs.Planned.{no_rides, IsNoneSafe, IsExpanded, IsExpandedBy, HasSteadyChoice};

use crate::found::Found;
use interval_fixed::Span;
use leg_extract::extract;
use meat_scan::{ScanTables, scan};
use plan_graph::ExpandedGraph;
use plan_model::{BackwardOrder, List, Network, NoMemory, Query};
use std::alloc::Global;
use value_laws::{MeanSpan, Score};

/// The graph of a journey that is at its target when it begins; `None` if its deadline is before its start.
fn at_once(alloc: Global, query: &Query) -> Option<ExpandedGraph>
    ensures { MatchOption result (query.now.deadline.0 < query.now.start.0)
        (λ graph. (query.now.start.0 ≤ query.now.deadline.0) × (graph ≡ no_rides)) }
{
    if query.deadline.0 < query.start.0 {
        return None;
    }
    Some(ExpandedGraph {
        start: None,
        rides: List::new(alloc),
    })
}

/// The decision graph of a query ride by ride, with a value that covers its own strategy and is below every safe one.
pub(crate) fn expand_by<V: Score, B: BackwardOrder>(
    alloc: Global,
    order: &mut B,
    network: &Network,
    query: &Query,
) -> Result<Option<Found<ExpandedGraph, V>>, NoMemory>
    requires fits { B.fits order.old network.now }
    requires whole { IsScanOrder network.now (B.rest order.old network.now) }
    requires start { query.now.source.0 ≡ query.now.target.0 → query.now.start.0 < end_of_time }
    ensures plan { IfOk result (λ found. MatchOption found (IsNoneSafe network.now query.now)
        (λ p. IsExpandedBy V.scoring network.now query.now p.graph p.value)) }
    ensures steady { IfOk result (λ found. IfSome found (λ p. HasSteadyChoice network.now query.now p.graph)) }
    ensures fits { B.fits order.new network.now }
{
    if query.source.0 == query.target.0 {
        let Some(graph) = at_once(alloc, query) else {
            return Ok(None);
        };
        return Ok(Some(Found {
            graph,
            value: V::arrive(query.start),
        }));
    }
    let tables: ScanTables<V> = ScanTables::reserve_until(alloc, network, query.deadline)?;
    let scanned = scan(tables, network, order, query);
    let Some((value, _)) = scanned.start() else {
        return Ok(None);
    };
    match extract(alloc, &scanned, network, query)? {
        None => Ok(None),
        Some(graph) => Ok(Some(Found { graph, value })),
    }
}

/// The decision graph of a query ride by ride, by the mean. If source and target are one place, the start may also be
/// after the last moment at which other scores know what it is to have arrived.
pub(crate) fn expand_means<B: BackwardOrder>(
    alloc: Global,
    order: &mut B,
    network: &Network,
    query: &Query,
) -> Result<Option<Found<ExpandedGraph, MeanSpan>>, NoMemory>
    requires fits { B.fits order.old network.now }
    requires whole { IsScanOrder network.now (B.rest order.old network.now) }
    requires start { query.now.source.0 ≡ query.now.target.0 → query.now.start.0 < end_of_nanos }
    ensures plan { IfOk result (λ found. MatchOption found (IsNoneSafe network.now query.now)
        (λ p. IsExpandedBy mean_scoring network.now query.now p.graph p.value)) }
    ensures steady { IfOk result (λ found. IfSome found (λ p. HasSteadyChoice network.now query.now p.graph)) }
    ensures fits { B.fits order.new network.now }
{
    if query.source.0 == query.target.0 {
        let Some(graph) = at_once(alloc, query) else {
            return Ok(None);
        };
        return Ok(Some(Found {
            graph,
            value: MeanSpan(Span::exact(query.start)),
        }));
    }
    expand_by(alloc, order, network, query)
}

/// The decision graph of a query ride by ride, by a scan in this order of the network's connections,
/// with bounds on its expected arrival and on the least of all strategies that are safe for it, in
/// nanoseconds since 1970-01-01. `None` if no strategy is safe. Whatever is answered, the order still
/// fits the network.
#[tactic(auto, using(crate::proofs::Means::expanded_means))]
pub fn expand<B: BackwardOrder>(
    alloc: Global,
    order: &mut B,
    network: &Network,
    query: &Query,
) -> Result<Option<Found<ExpandedGraph, Span>>, NoMemory>
    requires fits { B.fits order.old network.now }
    requires whole { IsScanOrder network.now (B.rest order.old network.now) }
    requires start { query.now.source.0 ≡ query.now.target.0 → query.now.start.0 < end_of_nanos }
    ensures plan { IfOk result (λ found. MatchOption found (IsNoneSafe network.now query.now)
        (λ p. IsExpanded network.now query.now p.graph p.value)) }
    ensures fits { B.fits order.new network.now }
{
    match expand_means(alloc, order, network, query)? {
        None => Ok(None),
        Some(scored) => {
            let bounds = scored.value.0;
            let graph = scored.graph;
            Ok(Some(Found {
                graph,
                value: bounds,
            }))
        }
    }
}
