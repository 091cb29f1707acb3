//! The connections of a window.
ghost use Rattle.std.proofs.Props.{props};
ghost use Rattle.std.specs.Prelude.{◌≡◌, ◌+◌, ◌≤◌, ◌<◌, ◌++◌, ℕ, length, map, unsigned_abs, OnOk, IfOk, IfSome};
ghost use Rattle.plan_model.specs.Bounds.{end_of_steps};
ghost use Rattle.connections.specs.Steps.{steps_of};
ghost use Rattle.connections.specs.RouteNumbers.{route_numbers, IsRouteOf, IsClassOfHour};
ghost use Rattle.connections.specs.FeedNetworks.{arrives, class_of_trip, connection_from, connections_below};

use crate::origins::Origin;
use crate::runs::leaves;
use crate::window::Window;
use crate::window_runs::WindowRuns;
use delay_table::{ClassName, DelayTable};
use gtfs_tables::{Feed, StopRow};
use plan_model::{
    ClassId, Connection, HOURS_PER_DAY, List, Moment, NoMemory, RunId, SECONDS_PER_HOUR,
};
use std::alloc::Global;
use text_index::TextIndex;

/// A run of a feed by its origin, its number and its trip, and the number of its route among those that the delays name.
#[derive(Clone, Copy)]
struct NumberedRun<'a> {
    feed: &'a Feed,
    delays: &'a DelayTable,
    /// The kept rows of the trip.
    rows: &'a [StopRow],
    origin: Origin,
    number: u32,
    trip: u32,
    route: Option<u32>,
    ghost inside: { trip < length feed.now.trip_ids },
    ghost few: { length rows.now ≤ end_of_steps },
    ghost routed: { IsRouteOf feed.now delays.now trip route } by { Prim.hlevel props },
}

/// A step of a run, from one kept row to the next.
#[derive(Clone, Copy)]
struct RunStep<'a> {
    run: &'a NumberedRun<'a>,
    row: usize,
    ghost inside: { row + 1 < length run.now.rows.now },
}

/// The class of the connections of a run that arrive in an hour of the day.
#[derive(Clone, Copy)]
struct HourClass {
    hour: u64,
    class: u16,
}

/// The number of each route of a feed among those that the delays name, where it is one of them.
#[tactic(auto, using(crate::proofs::JoinLemmas::list_steps))]
fn route_numbers(
    alloc: Global,
    feed: &Feed,
    delays: &DelayTable,
) -> Result<Vec<Option<u32>>, NoMemory>
    ensures { IfOk result (λ numbers. numbers.items ≡ route_numbers feed.now delays.now) }
{
    let index = TextIndex::of(alloc, feed.hash_key(), delays.routes())?;
    let routes = feed.routes();
    let mut numbers: Vec<Option<u32>> = Vec::new(alloc);
    for route in 0..routes.len() {
        numbers.push(index.number(routes.get(route)))?;
    }
    Ok(numbers)
}

/// The number of the class of a connection of a run, by its arrival.
fn class_of(run: &NumberedRun<'_>, arrival: u64) -> u16
    ensures { result ≡ class_of_trip run.now.feed.now run.now.delays.now run.now.trip arrival }
{
    let class = ClassName::Route(run.feed.route_type(run.trip));
    run.delays.class_at(class, run.route, Moment(arrival)).0
}

/// The same with the hour of the arrival, by the class of an hour that is known.
fn class_in_hour(run: &NumberedRun<'_>, arrival: u64, known: Option<HourClass>) -> HourClass
    requires { IfSome known (IsClassOfHour run.now.feed.now run.now.delays.now run.now.trip) }
    ensures class { result.class ≡ class_of_trip run.now.feed.now run.now.delays.now run.now.trip arrival }
    ensures hour { IsClassOfHour run.now.feed.now run.now.delays.now run.now.trip result }
{
    let hour = arrival / SECONDS_PER_HOUR % HOURS_PER_DAY;
    if let Some(known) = known {
        if known.hour == hour {
            return known;
        }
    }
    let class = class_of(run, arrival);
    HourClass { hour, class }
}

impl<'a> RunStep<'a> {
    /// When its connection arrives, in seconds since 1970-01-01, if it departs in a window; otherwise the number means
    /// nothing.
    fn arrival(&self) -> u64
        ensures { result ≡ unsigned_abs (arrives self.now.run.now.rows.now self.now.run.now.origin self.now.row) }
    {
        let to = self.run.rows[self.row + 1];
        self.run.origin.plus(to.arrival).unsigned_abs()
    }

    /// Its connection, with its class, where that departs in a window, whose moments are not before 1970.
    fn connection(&self, class: u16) -> Connection
        ensures { (class_by : ℕ → ℕ)
            → class ≡ class_by (unsigned_abs (arrives self.now.run.now.rows.now self.now.run.now.origin self.now.row))
            → result ≡ connection_from self.now.run.now.rows.now self.now.run.now.origin self.now.run.now.number
            class_by self.now.row }
    {
        let from = self.run.rows[self.row];
        let to = self.run.rows[self.row + 1];
        Connection {
            from: from.place,
            to: to.place,
            dep: Moment(self.run.origin.plus(from.departure).unsigned_abs()),
            arr: Moment(self.arrival()),
            run: RunId(self.run.number),
            step: self.row as u32,
            class: ClassId(class),
            can_board: from.can_board,
            can_exit: to.can_exit,
        }
    }
}

/// Adds the connections of a run that depart in the window.
#[tactic(auto, using(crate::proofs::StepLemmas::map_steps))]
fn add_connections(
    connections: &mut Vec<Connection>,
    run: &NumberedRun<'_>,
    window: Window,
) -> Result<(), NoMemory>
    ensures { OnOk result (connections.new.items
        ≡ connections.old.items ++ map (connection_from run.now.rows.now run.now.origin run.now.number
        (class_of_trip run.now.feed.now run.now.delays.now run.now.trip))
        (steps_of window run.now.rows.now run.now.origin)) }
{
    let mut known: Option<HourClass> = None;
    for row in 0..run.rows.len().saturating_sub(1) {
        if leaves(run.rows, row, run.origin, window) {
            let step = RunStep { run: &*run, row };
            let class = class_in_hour(run, step.arrival(), known);
            connections.push(step.connection(class.class))?;
            known = Some(class);
        }
    }
    Ok(())
}

/// The connections of these runs, by run and step. Room for `room` of them is taken at once.
#[tactic(auto, using(crate::proofs::JoinLemmas::join_steps), unfolding(crate::specs::FeedNetworks::connections_below, crate::specs::FeedNetworks::run_connections))]
pub(crate) fn connections_of(
    alloc: Global,
    runs: &WindowRuns<'_>,
    delays: &DelayTable,
    room: u64,
) -> Result<List<Connection>, NoMemory>
    ensures { IfOk result (λ connections. connections ≡ connections_below runs.now.trips.now.feed.now
        delays.now runs.now.trips.now.window runs.now.list.now (length runs.now.list.now)) }
{
    let feed = runs.trips.feed;
    let routes = route_numbers(alloc, feed, delays)?;
    let mut connections: Vec<Connection> = Vec::with_capacity(alloc, room as usize)?;
    for r in 0..runs.list.len() {
        let run = runs.list[r];
        let numbered = NumberedRun {
            feed,
            delays,
            rows: feed.stop_times(run.trip),
            origin: run.origin,
            number: r as u32,
            trip: run.trip,
            route: routes[feed.route(run.trip) as usize],
        };
        add_connections(&mut connections, &numbered, runs.trips.window)?;
    }
    Ok(List::from_vec(connections))
}
