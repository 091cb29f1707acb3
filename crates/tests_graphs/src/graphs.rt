//! The graphs of three buses, from the scan to one table for each place.
ghost use Rattle.std.specs.Prelude.{◌≢◌, ◌<◌, length, IfOk};
ghost use Rattle.plan_graph.specs.Ready.{IsReady, IsPruned};
ghost use Rattle.plan_graph.specs.Coherent.{IsCoherent};
ghost use Rattle.decision_graph.specs.Planned.{HasSteadyChoice};
ghost use Rattle.value_laws.specs.Means.{mean_scoring};
ghost use Rattle.meat_scan.specs.Solves.{Solves};

use decision_graph::{Found, expand, plan};
use graph_compact::compact;
use graph_prune::{prune, steady_is_coherent};
use interval_fixed::Span;
use leg_extract::extract;
use meat_scan::{ScanTables, Scanned, scan};
use merged_runs::MergedRuns;
use plan_graph::{ExpandedGraph, GraphRow, PlanGraph};
use plan_model::{Leg, Network, Query, SortedOrder};
use std::alloc::Global;
use std::test::Fail;
use test_networks::{
    BUSES, EIGHT, EXPECTED, ONE_WAY, asked, expanded, leg, limits, nanos, network_of, planned, row,
    rows_by_place,
};
use value_laws::MeanSpan;

/// What a scan by expected arrivals finds.
fn solved(alloc: Global, network: &Network, query: &Query) -> Result<Scanned<MeanSpan>, Fail>
    requires source { query.now.source.0 < length network.now.change }
    requires target { query.now.target.0 < length network.now.change }
    requires differ { query.now.source.0 ≢ query.now.target.0 }
    ensures { IfOk result (λ found.
        Solves mean_scoring found network.now query.now) }
{
    let mut order = SortedOrder::new(alloc, network)?;
    let tables = ScanTables::reserve_until(alloc, network, query.deadline)?;
    Ok(scan(tables, network, &mut order, query))
}

/// The graph by ride that is extracted of a scan.
fn extracted(alloc: Global, network: &Network, query: &Query) -> Result<ExpandedGraph, Fail>
    requires source { query.now.source.0 < length network.now.change }
    requires target { query.now.target.0 < length network.now.change }
    requires differ { query.now.source.0 ≢ query.now.target.0 }
    ensures ready { IfOk result (IsReady network.now query.now) }
    ensures steady { IfOk result (HasSteadyChoice network.now query.now) }
{
    let scanned: Scanned<MeanSpan> = solved(alloc, network, query)?;
    match extract(alloc, &scanned, network, query) {
        Ok(Some(graph)) => Ok(graph),
        _ => Err("no graph is extracted".into()),
    }
}

/// The extracted graph, pruned.
fn pruned(alloc: Global, network: &Network, query: &Query) -> Result<ExpandedGraph, Fail>
    requires source { query.now.source.0 < length network.now.change }
    requires target { query.now.target.0 < length network.now.change }
    requires differ { query.now.source.0 ≢ query.now.target.0 }
    ensures pruned { IfOk result (IsPruned network.now query.now) }
    ensures coherent { IfOk result (IsCoherent network.now) }
{
    let graph = extracted(alloc, network, query)?;
    steady_is_coherent();
    match prune(alloc, &graph, network, query) {
        Ok(pruned) => Ok(pruned),
        Err(_) => Err("no memory to prune".into()),
    }
}

/// The graph by ride that is extracted on the way from A to a place.
fn extracted_to(alloc: Global, network: &Network, target: u32) -> Result<ExpandedGraph, Fail> {
    if target == 0 || target >= network.places() {
        return Err("no such place".into());
    }
    extracted(alloc, network, &asked(target))
}

/// The same, pruned.
fn pruned_to(alloc: Global, network: &Network, target: u32) -> Result<ExpandedGraph, Fail> {
    if target == 0 || target >= network.places() {
        return Err("no such place".into());
    }
    pruned(alloc, network, &asked(target))
}

/// The same by place.
fn compacted_to(alloc: Global, network: &Network, target: u32) -> Result<PlanGraph, Fail> {
    if target == 0 || target >= network.places() {
        return Err("no such place".into());
    }
    let query = asked(target);
    let graph = pruned(alloc, network, &query)?;
    Ok(compact(alloc, &graph, network, &query)?)
}

/// The graph by ride from A to a place, with its bounds.
fn expanded_to(
    alloc: Global,
    network: &Network,
    target: u32,
) -> Result<Found<ExpandedGraph, Span>, Fail> {
    if target >= network.places() {
        return Err("no such place".into());
    }
    expanded(alloc, network, &asked(target))
}

/// The graph by place from A to a place, with its bounds.
fn planned_to(
    alloc: Global,
    network: &Network,
    target: u32,
) -> Result<Found<PlanGraph, Span>, Fail> {
    if target >= network.places() {
        return Err("no such place".into());
    }
    planned(alloc, network, &asked(target))
}

/// The leg of a ride and the rows after it, where there is a ride of this number.
fn ride_at(graph: &ExpandedGraph, ride: usize) -> Option<(Leg, &[GraphRow])> {
    match graph.rides.as_slice().get(ride) {
        Some(ride) => Some((ride.leg, ride.after.as_slice())),
        None => None,
    }
}

/// Whether the first ride is that of the first connection, and starts.
fn starts_with(graph: &ExpandedGraph, first: Leg) -> bool {
    first == leg(0, 0) && graph.start == Some(first)
}

/// Whether two more rides end at the target.
fn ends_with_two(graph: &ExpandedGraph) -> bool {
    let none = [].as_slice();
    graph.rides.len() == 3
        && ride_at(graph, 1) == Some((leg(1, 1), none))
        && ride_at(graph, 2) == Some((leg(2, 2), none))
}

/// The rows of the first ride, which starts. Two others end at the target and have none.
fn rows_by_ride(graph: &ExpandedGraph) -> Result<&[GraphRow], Fail> {
    match ride_at(graph, 0) {
        Some((first, rows)) if starts_with(graph, first) && ends_with_two(graph) => Ok(rows),
        _ => Err("other rides".into()),
    }
}

/// Each arrival at place 1 that may happen.
pub(crate) fn arrivals() -> [GraphRow; 3] {
    [row(1200, 1), row(1500, 2), row(2100, 2)]
}

/// The rows of the first ride.
fn ride_rows(alloc: Global, graph: &ExpandedGraph) -> Result<Vec<GraphRow>, Fail> {
    Ok(rows_by_ride(graph)?.to_vec(alloc)?)
}

/// The rows of the only table.
fn place_rows(alloc: Global, graph: &PlanGraph) -> Result<Vec<GraphRow>, Fail> {
    Ok(rows_by_place(graph)?.to_vec(alloc)?)
}

fn extracted_rows(alloc: Global, network: &Network) -> Result<Vec<GraphRow>, Fail> {
    let graph = extracted_to(alloc, network, 2)?;
    ride_rows(alloc, &graph)
}

pub(crate) fn pruned_rows(
    alloc: Global,
    network: &Network,
    target: u32,
) -> Result<Vec<GraphRow>, Fail> {
    let graph = pruned_to(alloc, network, target)?;
    ride_rows(alloc, &graph)
}

fn compacted_rows(alloc: Global, network: &Network) -> Result<Vec<GraphRow>, Fail> {
    let graph = compacted_to(alloc, network, 2)?;
    place_rows(alloc, &graph)
}

/// The rows of the three buses that are extracted.
fn extracted_of_buses(alloc: Global) -> Result<Vec<GraphRow>, Fail> {
    let network = network_of(alloc, BUSES, 3)?;
    extracted_rows(alloc, &network)
}

#[test]
fn extracts_a_row_for_each_outcome(rt: HostRuntime) -> Result<(), Fail> {
    let rows = extracted_of_buses(rt.alloc())?;
    assert_eq!(rt; rows.as_slice(), arrivals().as_slice());
    Ok(())
}

/// Those that are pruned.
fn pruned_of_buses(alloc: Global) -> Result<Vec<GraphRow>, Fail> {
    let network = network_of(alloc, BUSES, 3)?;
    pruned_rows(alloc, &network, 2)
}

#[test]
fn prunes_to_a_row_for_each_limit(rt: HostRuntime) -> Result<(), Fail> {
    let rows = pruned_of_buses(rt.alloc())?;
    assert_eq!(rt; rows.as_slice(), limits().as_slice());
    Ok(())
}

/// Those of the only place.
fn compacted_of_buses(alloc: Global) -> Result<Vec<GraphRow>, Fail> {
    let network = network_of(alloc, BUSES, 3)?;
    compacted_rows(alloc, &network)
}

#[test]
fn compacts_to_one_table(rt: HostRuntime) -> Result<(), Fail> {
    let rows = compacted_of_buses(rt.alloc())?;
    assert_eq!(rt; rows.as_slice(), limits().as_slice());
    Ok(())
}

/// The rows of a graph and its bounds in nanoseconds.
pub(crate) type Reported = (Vec<GraphRow>, (u64, u64));

fn plan_reported(alloc: Global, found: &Found<PlanGraph, Span>) -> Result<Reported, Fail> {
    Ok((place_rows(alloc, &found.graph)?, nanos(found.value)))
}

/// What is said of the graph by place.
pub(crate) fn planned_reported(
    alloc: Global,
    network: &Network,
    target: u32,
) -> Result<Reported, Fail> {
    let found = planned_to(alloc, network, target)?;
    plan_reported(alloc, &found)
}

fn expansion_reported(alloc: Global, found: &Found<ExpandedGraph, Span>) -> Result<Reported, Fail> {
    Ok((ride_rows(alloc, &found.graph)?, nanos(found.value)))
}

/// What is said of the graph by ride.
pub(crate) fn expanded_reported(
    alloc: Global,
    network: &Network,
    target: u32,
) -> Result<Reported, Fail> {
    let found = expanded_to(alloc, network, target)?;
    expansion_reported(alloc, &found)
}

fn expanded_of_buses(alloc: Global) -> Result<Reported, Fail> {
    let network = network_of(alloc, BUSES, 3)?;
    expanded_reported(alloc, &network, 2)
}

#[test]
fn expands_with_bounds(rt: HostRuntime) -> Result<(), Fail> {
    let reported = expanded_of_buses(rt.alloc())?;
    assert_eq!(rt;
        (reported.0.as_slice(), reported.1),
        (arrivals().as_slice(), (EXPECTED, EXPECTED))
    );
    Ok(())
}

fn planned_of_buses(alloc: Global) -> Result<Reported, Fail> {
    let network = network_of(alloc, BUSES, 3)?;
    planned_reported(alloc, &network, 2)
}

#[test]
fn plans_with_bounds(rt: HostRuntime) -> Result<(), Fail> {
    let reported = planned_of_buses(rt.alloc())?;
    assert_eq!(rt;
        (reported.0.as_slice(), reported.1),
        (limits().as_slice(), (EXPECTED, EXPECTED))
    );
    Ok(())
}

/// The graph by place to T, by a scan over merged runs.
fn merged_plan(alloc: Global, network: &Network) -> Result<Option<Found<PlanGraph, Span>>, Fail> {
    if network.places() != 3 {
        return Err("another number of places".into());
    }
    let mut order = MergedRuns::new(alloc, network)?;
    Ok(plan(alloc, &mut order, network, &asked(2))?)
}

fn merged_reported(alloc: Global, network: &Network) -> Result<Reported, Fail> {
    match merged_plan(alloc, network)? {
        Some(found) => plan_reported(alloc, &found),
        None => Err("no plan".into()),
    }
}

fn merged_of_buses(alloc: Global) -> Result<Reported, Fail> {
    let network = network_of(alloc, BUSES, 3)?;
    merged_reported(alloc, &network)
}

#[test]
fn plans_over_merged_runs(rt: HostRuntime) -> Result<(), Fail> {
    let reported = merged_of_buses(rt.alloc())?;
    assert_eq!(rt;
        (reported.0.as_slice(), reported.1),
        (limits().as_slice(), (EXPECTED, EXPECTED))
    );
    Ok(())
}

/// Whether nothing is extracted of a scan to T.
fn extracts_nothing(alloc: Global, network: &Network) -> Result<bool, Fail> {
    if network.places() != 3 {
        return Err("another number of places".into());
    }
    let query = asked(2);
    let scanned = solved(alloc, network, &query)?;
    Ok(extract(alloc, &scanned, network, &query)?.is_none())
}

/// Whether there is no graph by place to T.
fn plans_nothing(alloc: Global, network: &Network) -> Result<bool, Fail> {
    if network.places() != 3 {
        return Err("another number of places".into());
    }
    let mut order = SortedOrder::new(alloc, network)?;
    Ok(plan(alloc, &mut order, network, &asked(2))?.is_none())
}

/// Whether there is no graph by ride to T.
fn expands_nothing(alloc: Global, network: &Network) -> Result<bool, Fail> {
    if network.places() != 3 {
        return Err("another number of places".into());
    }
    let mut order = SortedOrder::new(alloc, network)?;
    Ok(expand(alloc, &mut order, network, &asked(2))?.is_none())
}

/// Whether nothing is extracted, planned and expanded where the last bus is not.
fn finds_nothing(alloc: Global) -> Result<[bool; 3], Fail> {
    let network = network_of(alloc, ONE_WAY, 3)?;
    let extracted = extracts_nothing(alloc, &network)?;
    let planned = plans_nothing(alloc, &network)?;
    Ok([extracted, planned, expands_nothing(alloc, &network)?])
}

#[test]
fn finds_nothing_without_the_second_bus(rt: HostRuntime) -> Result<(), Fail> {
    assert_eq!(rt; finds_nothing(rt.alloc())?, [true; 3]);
    Ok(())
}

/// Eight o'clock in nanoseconds.
const AT_ONCE: u64 = EIGHT * 1_000_000_000;

/// The start of a graph, how many tables or rides it has, and its bounds.
type Begun = (Option<Leg>, usize, (u64, u64));

fn planned_begun(alloc: Global, network: &Network) -> Result<Begun, Fail> {
    let found = planned_to(alloc, network, 0)?;
    let tables = found.graph.tables.len();
    Ok((found.graph.start, tables, nanos(found.value)))
}

fn planned_at_once(alloc: Global) -> Result<Begun, Fail> {
    let network = network_of(alloc, BUSES, 3)?;
    planned_begun(alloc, &network)
}

#[test]
fn plans_at_once(rt: HostRuntime) -> Result<(), Fail> {
    let begun = planned_at_once(rt.alloc())?;
    assert_eq!(rt; begun, (None, 0, (AT_ONCE, AT_ONCE)));
    Ok(())
}

fn expanded_begun(alloc: Global, network: &Network) -> Result<Begun, Fail> {
    let found = expanded_to(alloc, network, 0)?;
    let rides = found.graph.rides.len();
    Ok((found.graph.start, rides, nanos(found.value)))
}

fn expanded_at_once(alloc: Global) -> Result<Begun, Fail> {
    let network = network_of(alloc, BUSES, 3)?;
    expanded_begun(alloc, &network)
}

#[test]
fn expands_at_once(rt: HostRuntime) -> Result<(), Fail> {
    let begun = expanded_at_once(rt.alloc())?;
    assert_eq!(rt; begun, (None, 0, (AT_ONCE, AT_ONCE)));
    Ok(())
}
