//! A network as it is seen from a start on, and graphs by the shift later.
ghost use Rattle.std.specs.Prelude.{◌≡◌, ◌+◌, ◌-◌, ◌^◌, ◌<◌, ◌≤◌, All, IfOk, map};
ghost use Rattle.plan_model.specs.Bounds.{end_of_time};
ghost use Rattle.plan_model.specs.Network.{IsValid};
ghost use Rattle.plan_model.specs.View.{IsView};
ghost use Rattle.late_chance.specs.declared.shift.TheConstants.{SECONDS_PER_WEEK};
ghost use Rattle.late_chance.specs.LaterGraphs.{later_row, later_graph, sooner_query};
ghost use Rattle.late_chance.specs.Punctual.{shifted_connection, shifted_parts};

use plan_graph::{GraphRow, PlaceTable, PlanGraph};
use plan_model::{Connection, ConnectionId, List, Moment, Network, NoMemory, Query};
use std::alloc::Global;

/// A week in seconds. A network is shifted so that the promised moment is a week after the first of all time.
pub const SECONDS_PER_WEEK: u64 = 604_800;

/// A query, and a moment by which one promises to arrive: from its start to a week later.
#[derive(Clone, Copy)]
pub struct Promise {
    /// The query, with its deadline.
    pub query: Query,
    /// The promised moment.
    pub moment: Moment,
    /// That the promised moment is at least a week after the first of all time.
    pub ghost week: { SECONDS_PER_WEEK ≤ moment.0 },
    /// That the start is before the end of all time.
    pub ghost early: { query.start.0 < end_of_time },
    /// That the deadline is not before the start.
    pub ghost order: { query.start.0 ≤ query.deadline.0 },
    /// That the promised moment is not before the start.
    pub ghost later: { query.start.0 ≤ moment.0 },
    /// That it is at most a week after the start.
    pub ghost soon: { moment.0 ≤ query.start.0 + SECONDS_PER_WEEK },
}

/// The rows by this number of seconds later.
fn later_rows(alloc: Global, rows: &[GraphRow], seconds: u64) -> Result<List<GraphRow>, NoMemory>
    requires { All (λ row. row.by.0 + seconds < 2 ^ 64) rows.now }
    ensures { IfOk result (λ later. later ≡ map (later_row seconds) rows.now) }
{
    let mut later = Vec::new(alloc);
    for row in rows {
        later.push(GraphRow {
            by: Moment(row.by.0 + seconds),
            leg: row.leg,
        })?;
    }
    Ok(List::from_vec(later))
}

/// The graph with all moments this number of seconds later.
pub fn unshifted(alloc: Global, graph: &PlanGraph, seconds: u64) -> Result<PlanGraph, NoMemory>
    requires { All (λ table. All (λ row. row.by.0 + seconds < 2 ^ 64) table.rows) graph.now.tables }
    ensures { IfOk result (λ later. later ≡ later_graph seconds graph.now) }
{
    let mut tables = Vec::new(alloc);
    for table in graph.tables.as_slice() {
        let rows = later_rows(alloc, table.rows.as_slice(), seconds)?;
        let place = table.place;
        tables.push(PlaceTable { place, rows })?;
    }
    Ok(PlanGraph {
        start: graph.start,
        tables: List::from_vec(tables),
    })
}

/// The query with its start and its deadline this number of seconds sooner, and 0 if they would be before
/// all time.
pub fn sooner(query: &Query, seconds: u64) -> Query
    ensures { result ≡ sooner_query seconds query.now }
{
    Query {
        source: query.source,
        target: query.target,
        start: moment_before(query.start, seconds),
        deadline: moment_before(query.deadline, seconds),
    }
}

/// A moment this number of seconds sooner, and the first of all time if it would be before that.
fn moment_before(moment: Moment, seconds: u64) -> Moment
    ensures { result ≡ record { 0 = moment.0 - seconds } }
{
    Moment(moment.0.saturating_sub(seconds))
}

/// A connection as it is seen from the start on.
fn seen_connection(connection: Connection, start: Moment, shift: u64) -> Connection
    ensures { result ≡ shifted_connection shift start.0 connection }
{
    Connection {
        dep: moment_before(connection.dep, shift),
        arr: moment_before(connection.arr, shift),
        can_board: connection.can_board && start.0 <= connection.dep.0,
        ..connection
    }
}

/// The connections as they are seen from the start on.
fn seen_connections(
    alloc: Global,
    network: &Network,
    start: Moment,
    shift: u64,
) -> Result<List<Connection>, NoMemory>
    ensures seen { IfOk result (λ seen. seen ≡ map (shifted_connection shift start.0) network.now.connections) }
    ensures valid { IsValid network.now }
{
    let mut seen: Vec<Connection> = Vec::with_capacity(alloc, network.count() as usize)?;
    for id in 0..network.count() {
        let connection = seen_connection(network.get(ConnectionId(id)), start, shift);
        seen.push(connection)?;
    }
    Ok(List::from_vec(seen))
}

/// The network as it is seen from the start on: no connection before the start can be boarded, and all
/// moments are sooner by the time from 1970-01-08T00:00:00 to the promised one, or 0 if they would be before
/// all time; for a promise before 1970-01-08T00:00:00 they stay. Places, delays and links stay.
pub fn shifted(
    alloc: Global,
    network: &Network,
    start: Moment,
    promise: Moment,
) -> Result<Network, NoMemory>
    requires { promise.0 ≤ start.0 + SECONDS_PER_WEEK }
    ensures parts { IfOk result (λ seen. seen ≡ shifted_parts (promise.0 - SECONDS_PER_WEEK) start.0 network.now) }
    ensures view { IfOk result (λ seen. IsView seen network.now (promise.0 - SECONDS_PER_WEEK) start.0) }
    ensures valid { IsValid network.now }
{
    let shift = promise.0.saturating_sub(SECONDS_PER_WEEK);
    let connections = seen_connections(alloc, network, start, shift)?;
    network.try_clone_with(alloc, connections)
}
