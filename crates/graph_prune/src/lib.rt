//! A graph by ride without idle rows and rides, each row at the limit of its leg.
//!
//! A call that takes an allocator may answer that there is no memory, as `NoMemory` or as the variant
//! of that name; then what it was lent is as it was, unless its own comment says otherwise.
#![tactic(auto)]

ghost use Rattle.std.specs.Prelude.{◌≡◌, ℕ, ◌<◌, ◌++◌, length, map, All, IfOk, Option, List as Sequence};
ghost use Rattle.std.specs.Option.{option_map};
ghost use Rattle.plan_model.specs.declared.model.Leg.{Leg as LegParts};
ghost use Rattle.plan_model.specs.declared.model.Query.{Query as QueryParts};
ghost use Rattle.plan_model.specs.Network.{NetworkModel};
ghost use Rattle.plan_graph.specs.declared.GraphRow.{GraphRow as RowParts};
ghost use Rattle.plan_graph.specs.declared.ExpandedGraph.{ExpandedGraph as Graph};
ghost use Rattle.plan_graph.specs.Unfold.{unfold_expanded};
ghost use Rattle.plan_graph.specs.Ready.{IsReady, IsReadyRide, IsReadyRow, IsPruned};
ghost use Rattle.plan_graph.specs.Coherent.{IsCoherent, Follows, IsSteady};
ghost use Rattle.graph_prune.specs.Limits.{is_last, with_limit, by_limits, ride_by_limits};

use plan_graph::{ExpandedGraph, GraphChoice, GraphRow, Ride, walk};
use plan_model::{Leg, List, Moment, Network, NoMemory, PlaceId, Query};
use std::alloc::Global;

// Whether the moment is that of the row before.
fn is_last_row(last: Option<Moment>, by: Moment) -> bool
    ensures { result ≡ is_last (option_map (λ moment. moment.0) last) by.0 }
{
    match last {
        Some(moment) => moment.0 == by.0,
        None => false,
    }
}

// Adds the row of a leg by its limit, if the row before is another; gives the moment of the last row.
fn add_limit(
    limit: Option<Moment>,
    leg: Leg,
    last: Option<Moment>,
    rows: &mut Vec<GraphRow>,
) -> Result<Option<Moment>, NoMemory>
    ensures { IfOk result (λ now. (more : Option ℕ → Sequence RowParts) → rows.new.items
        ++ more (option_map (λ moment. moment.0) now) ≡ rows.old.items
        ++ with_limit (option_map (λ moment. moment.0) limit) leg more
        (option_map (λ moment. moment.0) last)) }
{
    let Some(by) = limit else {
        return Ok(last);
    };
    if is_last_row(last, by) {
        return Ok(last);
    }
    rows.push(GraphRow { by, leg })?;
    Ok(Some(by))
}

// The rows by their legs' limits, each limit once.
fn rows_by_limits(
    alloc: Global,
    network: &Network,
    place: PlaceId,
    rows: &[GraphRow],
) -> Result<Vec<GraphRow>, NoMemory>
    requires place { place.0 < length network.now.change }
    requires ready { All (IsReadyRow network.now place.0) rows.now }
    ensures { IfOk result (λ all. all.items ≡ by_limits network.now place.0 rows.now None) }
{
    let mut all = Vec::new(alloc);
    let mut last = None;
    for row in rows {
        last = add_limit(network.limit(place, row.leg), row.leg, last, &mut all)?;
    }
    Ok(all)
}

// The rides with their rows by limits.
fn rides_by_limits(
    alloc: Global,
    network: &Network,
    query: &Query,
    rides: &[Ride],
) -> Result<List<Ride>, NoMemory>
    requires { All (IsReadyRide network.now query.now.target.0) rides.now }
    ensures { IfOk result (λ all. all ≡ map (ride_by_limits network.now) rides.now) }
{
    let mut all = List::new(alloc);
    let _ = query;
    for ride in rides {
        let place = network.get(ride.leg.exit).to;
        let rows = rows_by_limits(alloc, network, place, ride.after.as_slice())?;
        all.push(Ride {
            leg: ride.leg,
            after: List::from_vec(rows),
        })?;
    }
    Ok(all)
}

/// The same decisions without idle rows and rides, each row by its leg's limit. It unfolds to the same
/// tree, and follows each choice at the places that the graph follows.
pub fn prune(
    alloc: Global,
    graph: &ExpandedGraph,
    network: &Network,
    query: &Query,
) -> Result<ExpandedGraph, NoMemory>
    requires { IsReady network.now query.now graph.now }
    ensures unfolds { IfOk result (λ pruned. unfold_expanded pruned network.now query.now
        ≡ unfold_expanded graph.now network.now query.now) }
    ensures pruned { IfOk result (IsPruned network.now query.now) }
    ensures follows { IfOk result (λ pruned. (choice : ℕ → ℕ → Option LegParts)
        → Follows network.now query.now.target.0 choice graph.now
        → Follows network.now query.now.target.0 choice pruned) }
{
    match graph.start {
        None => Ok(ExpandedGraph {
            start: None,
            rides: List::new(alloc),
        }),
        Some(start) => {
            let choice = GraphChoice { graph };
            let walked = walk(alloc, &choice, network, query, start)?;
            let rides = rides_by_limits(alloc, network, query, walked.as_slice())?;
            Ok(ExpandedGraph {
                start: Some(start),
                rides,
            })
        }
    }
}

/// A law, with no code: a pruned graph that follows a steady choice at each place is coherent.
pub fn steady_is_coherent()
    ensures { (n : NetworkModel) (q : QueryParts) (graph : Graph) (choice : ℕ → ℕ → Option LegParts)
        → IsPruned n q graph → IsSteady n q.target.0 choice → Follows n q.target.0 choice graph
        → IsCoherent n graph }
{}
