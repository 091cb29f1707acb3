//! Small networks for the tests of several crates, from the text of a cut file, and the graphs of
//! one of them: a bus goes from A to B, and two go on from B to T. Networks get links in `links`.
#![tactic(auto)]

mod links;

ghost use Rattle.std.specs.Prelude.{◌≡◌, ◌+◌, ◌<◌, ◌≤◌, length, IfOk};
ghost use Rattle.plan_model.specs.NameLists.{NamesFit};
ghost use Rattle.decision_graph.specs.Planned.{IsExpanded, IsPlanned};
ghost use Rattle.plan_model.specs.Bounds.{end_of_time};

use csv_rows::{Limits, Rows};
use cut_file::{CutTable, read_cut};
use decision_graph::{Found, expand, plan};
use delay_table::DelayTable;
use interval_fixed::Span;
pub use links::{APART, Link, five_minutes, linked, links_of, walk, walked_limits};
use plan_graph::{ExpandedGraph, GraphRow, PlaceTable, PlanGraph};
use plan_model::{ConnectionId, Leg, Moment, Names, Network, PlaceId, Query, SortedOrder};
use std::alloc::Global;
use std::test::Fail;

/// 2024-06-03 08:00:00, from which the times of the tests count.
pub const EIGHT: u64 = 1_717_401_600;

/// The expected arrival over the three buses from A to T in nanoseconds, at 08:54:42.
pub const EXPECTED: u64 = (EIGHT + 3282) * 1_000_000_000;

/// The three buses.
pub const BUSES: &str =
    "run,step,from,to,dep,arr\nr1,1,A,B,2024-06-03T08:00:00,2024-06-03T08:20:00\nr2,1,B,T,2024-06-03T08:24:00,2024-06-03T08:50:00\nr3,1,B,T,2024-06-03T08:40:00,2024-06-03T09:06:00\n";

/// The buses without the last one: who is late at B is stuck there.
pub const ONE_WAY: &str =
    "run,step,from,to,dep,arr\nr1,1,A,B,2024-06-03T08:00:00,2024-06-03T08:20:00\nr2,1,B,T,2024-06-03T08:24:00,2024-06-03T08:50:00\n";

/// On time 8,000 times in 10,000, five minutes late 1,500 times, and a quarter of an hour 500
/// times.
const DELAYS: &str = "class,delay,weight\n*,0,8000\n*,300,1500\n*,900,500\n";

/// The rows of a text.
fn rows_of(alloc: Global, text: &[u8]) -> Result<Rows, Fail> {
    match Rows::read(alloc, text) {
        Ok(rows) => Ok(rows),
        Err(_) => Err("no rows".into()),
    }
}

/// The delays of a text.
fn delays_of(alloc: Global, text: &str) -> Result<DelayTable, Fail> {
    let rows = rows_of(alloc, text.as_bytes())?;
    match DelayTable::read(alloc, &rows) {
        Ok(delays) => Ok(delays),
        Err(_) => Err("no delays".into()),
    }
}

/// The connections of a text.
fn cut_of(alloc: Global, text: &str) -> Result<CutTable, Fail> {
    let rows = rows_of(alloc, text.as_bytes())?;
    match read_cut(alloc, &rows, &Limits::standard()) {
        Ok(cut) => Ok(cut),
        Err(_) => Err("no cut".into()),
    }
}

/// The network of these rides with these delays, and its names.
fn parts_of(alloc: Global, cut: &CutTable, delays: &DelayTable) -> Result<(Network, Names), Fail>
    ensures fit { IfOk result (λ parts. NamesFit parts.1 parts.0) }
{
    match cut.network(alloc, delays) {
        Ok(parts) => Ok(parts),
        Err(_) => Err("no network".into()),
    }
}

/// The network of a cut file with these delays, and its names.
fn delayed_network(alloc: Global, cut: &str, delays: &DelayTable) -> Result<(Network, Names), Fail>
    ensures fit { IfOk result (λ parts. NamesFit parts.1 parts.0) }
{
    let cut = cut_of(alloc, cut)?;
    parts_of(alloc, &cut, delays)
}

/// The network of a cut file with the usual delays, and its names.
fn usual_network(alloc: Global, cut: &str) -> Result<(Network, Names), Fail>
    ensures fit { IfOk result (λ parts. NamesFit parts.1 parts.0) }
{
    let delays = delays_of(alloc, DELAYS)?;
    delayed_network(alloc, cut, &delays)
}

/// The network of a cut file with the delays of a delay file.
pub fn network_with(alloc: Global, cut: &str, delays: &str) -> Result<Network, Fail> {
    let delays = delays_of(alloc, delays)?;
    let (network, _) = delayed_network(alloc, cut, &delays)?;
    Ok(network)
}

/// The network of a cut file, which has this many places, with the usual delays, and its names.
pub fn named_network(alloc: Global, cut: &str, places: u32) -> Result<(Network, Names), Fail>
    ensures fit { IfOk result (λ parts. NamesFit parts.1 parts.0) }
    ensures places { IfOk result (λ parts. length parts.0.change ≡ places) }
{
    let parts = usual_network(alloc, cut)?;
    if parts.0.places() != places {
        return Err("another number of places".into());
    }
    Ok(parts)
}

/// The same network without its names.
pub fn network_of(alloc: Global, cut: &str, places: u32) -> Result<Network, Fail>
    ensures { IfOk result (λ network. length network.change ≡ places) }
{
    let (network, _) = named_network(alloc, cut, places)?;
    Ok(network)
}

/// A ride from one connection to another.
pub fn leg(enter: u32, exit: u32) -> Leg
    ensures enter { result.enter.0 ≡ enter }
    ensures exit { result.exit.0 ≡ exit }
{
    Leg {
        enter: ConnectionId(enter),
        exit: ConnectionId(exit),
    }
}

/// A row by this many seconds after eight o'clock, with a ride of one connection.
pub fn row(by: u32, connection: u32) -> GraphRow
    ensures by { result.by.0 ≡ 1717401600 + by }
    ensures enter { result.leg.enter.0 ≡ connection }
    ensures exit { result.leg.exit.0 ≡ connection }
{
    GraphRow {
        by: Moment(EIGHT + u64::from(by)),
        leg: leg(connection, connection),
    }
}

/// From A to a place at eight o'clock, by 10:42.
pub fn asked(target: u32) -> Query
    ensures source { result.source.0 ≡ 0 }
    ensures target { result.target.0 ≡ target }
    ensures start { result.start.0 ≡ 1717401600 }
    ensures deadline { result.deadline.0 ≡ 1717411320 }
{
    Query {
        source: PlaceId(0),
        target: PlaceId(target),
        start: Moment(EIGHT),
        deadline: Moment(EIGHT + 9720),
    }
}

/// The latest arrival at B for each way on.
pub fn limits() -> [GraphRow; 2] {
    [row(1320, 1), row(2280, 2)]
}

/// Both bounds, the lower one first.
pub fn nanos(bounds: Span) -> (u64, u64)
    ensures lo { result.0 ≡ bounds.lo }
    ensures hi { result.1 ≡ bounds.hi }
{
    (bounds.lo(), bounds.hi())
}

/// The table of a graph, where it has only one.
fn only_table(graph: &PlanGraph) -> Option<&PlaceTable> {
    let tables = graph.tables.as_slice();
    if tables.len() == 1 {
        tables.get(0)
    } else {
        None
    }
}

/// The rows of the only table, which is that of B. The first ride starts.
pub fn rows_by_place(graph: &PlanGraph) -> Result<&[GraphRow], Fail> {
    match only_table(graph) {
        Some(table) if graph.start == Some(leg(0, 0)) && table.place == PlaceId(1) => {
            Ok(table.rows.as_slice())
        }
        _ => Err("another start, or other tables".into()),
    }
}

/// The graph by ride, and its bounds.
pub fn expanded(
    alloc: Global,
    network: &Network,
    query: &Query,
) -> Result<Found<ExpandedGraph, Span>, Fail>
    requires source { query.now.source.0 < length network.now.change }
    requires target { query.now.target.0 < length network.now.change }
    requires start { query.now.start.0 < end_of_time }
    requires deadline { query.now.start.0 ≤ query.now.deadline.0 }
    ensures { IfOk result (λ found. IsExpanded network.now query.now found.graph found.value) }
{
    let mut order = SortedOrder::new(alloc, network)?;
    match expand(alloc, &mut order, network, query) {
        Ok(Some(found)) => Ok(found),
        _ => Err("no graph by ride".into()),
    }
}

/// The graph by place, and its bounds.
pub fn planned(
    alloc: Global,
    network: &Network,
    query: &Query,
) -> Result<Found<PlanGraph, Span>, Fail>
    requires source { query.now.source.0 < length network.now.change }
    requires target { query.now.target.0 < length network.now.change }
    requires start { query.now.start.0 < end_of_time }
    requires deadline { query.now.start.0 ≤ query.now.deadline.0 }
    ensures { IfOk result (λ found. IsPlanned network.now query.now found.graph found.value) }
{
    let mut order = SortedOrder::new(alloc, network)?;
    match plan(alloc, &mut order, network, query) {
        Ok(Some(found)) => Ok(found),
        _ => Err("no graph by place".into()),
    }
}
