//! The runs that depart in a window.
ghost use Rattle.std.specs.Prelude.{◌≡◌, ◌<◌, ◌++◌, length, map, [], false, IfOk, OnOk};
ghost use Rattle.connections.specs.Joins.{only_if};
ghost use Rattle.connections.specs.Window.{holds};
ghost use Rattle.connections.specs.Origins.{origin_of_day};
ghost use Rattle.connections.specs.Steps.{departs, has_connection, steps_of};
ghost use Rattle.connections.specs.RepeatedRuns.{rows_repeats, in_order};
ghost use Rattle.connections.specs.TripRuns.{own_run, repeat_run, runs_of_trip, trip_runs, day_runs, window_runs};

use crate::feed_window::{DAYS, FeedTrip, FeedWindow, TripWindow};
use crate::origins::{Origin, ServiceDay};
use crate::reach::may_run_on;
use crate::repeats::{Repeat, origin_at, repeats_of};
use crate::window::Window;
use gtfs_tables::StopRow;
use plan_model::NoMemory;
use std::alloc::Global;

/// Each time of a service day is before this second of it.
const END_OF_TIMES: u32 = 604_800;

/// A run of a trip on a service day.
#[derive(Clone, Copy)]
pub(crate) struct Run {
    /// The moment from which the times of the trip count.
    pub(crate) origin: Origin,
    /// The position of the trip.
    pub(crate) trip: u32,
    /// How it starts, where a row of frequencies of the trip says so.
    pub(crate) repeat: Option<Repeat>,
}

/// When a run leaves a kept row.
fn departure_of(rows: &[StopRow], row: usize, origin: Origin) -> i64
    requires { row < length rows.now }
    ensures { result ≡ departs rows.now origin row }
{
    origin.plus(rows[row].departure)
}

/// Whether a run leaves a kept row in the window.
pub(crate) fn leaves(rows: &[StopRow], row: usize, origin: Origin, window: Window) -> bool
    requires { row < length rows.now }
    ensures { result ≡ holds window (departs rows.now origin row) }
{
    window.holds(departure_of(rows, row, origin))
}

/// Whether a run of a trip may depart in the window: not where its first connection departs after it, or its last one before
/// it.
pub(crate) fn may_depart(trip: &TripWindow<'_>, origin: Origin) -> bool
    ensures { result ≡ false → steps_of trip.now.window trip.now.rows.now origin ≡ [] }
{
    let connections = trip.rows.len().saturating_sub(1);
    if connections == 0 || trip.window.ends_before(departure_of(trip.rows, 0, origin)) {
        return false;
    }
    !trip
        .window
        .starts_after(departure_of(trip.rows, connections - 1, origin))
}

/// Whether some run of a trip may depart in the window on its day: no run of a trip that does not repeat departs after the
/// end of times of its service day.
pub(crate) fn may_run(trip: &TripWindow<'_>) -> bool
    ensures { result ≡ false → (trip.now.frequencies.now ≡ [])
        × (steps_of trip.now.window trip.now.rows.now (origin_of_day trip.now.day) ≡ []) }
{
    if !trip.frequencies.is_empty() {
        return true;
    }
    let origin = Origin::of_day(trip.day);
    !trip.window.starts_after(origin.plus(END_OF_TIMES)) && may_depart(trip, origin)
}

/// Whether a run with these kept rows has a connection in the window.
#[tactic(auto, using(crate::proofs::JoinLemmas::join_steps), unfolding(crate::specs::Steps::steps_below))]
fn has_connection(rows: &[StopRow], origin: Origin, window: Window) -> bool
    ensures { result ≡ has_connection window rows.now origin }
{
    for k in 0..rows.len().saturating_sub(1) {
        if leaves(rows, k, origin, window) {
            return true;
        }
    }
    false
}

/// Adds the run of a trip that does not repeat, where it has a connection in the window.
fn add_own(runs: &mut Vec<Run>, trip: &TripWindow<'_>, number: u32) -> Result<(), NoMemory>
    ensures { OnOk result (runs.new.items ≡ runs.old.items
        ++ only_if (has_connection trip.now.window trip.now.rows.now (origin_of_day trip.now.day))
        (own_run trip.now.day number)) }
{
    let origin = Origin::of_day(trip.day);
    if has_connection(trip.rows, origin, trip.window) {
        runs.push(Run {
            origin,
            trip: number,
            repeat: None,
        })?;
    }
    Ok(())
}

/// Adds those runs of a repeating trip that depart in the window.
fn add_repeats(
    alloc: Global,
    runs: &mut Vec<Run>,
    trip: &TripWindow<'_>,
    number: u32,
) -> Result<(), NoMemory>
    ensures { OnOk result (runs.new.items ≡ runs.old.items
        ++ map (repeat_run trip.now.rows.now trip.now.day number)
        (in_order (rows_repeats trip.now.window trip.now.rows.now trip.now.day trip.now.frequencies.now))) }
{
    let found = repeats_of(alloc, trip)?;
    let repeats = found.as_slice();
    for k in 0..repeats.len() {
        let repeat = repeats[k];
        runs.push(Run {
            origin: origin_at(trip, repeat.departure),
            trip: number,
            repeat: Some(repeat),
        })?;
    }
    Ok(())
}

/// Adds the runs of an active trip that depart in the window.
fn add_trip(
    alloc: Global,
    runs: &mut Vec<Run>,
    trip: &TripWindow<'_>,
    number: u32,
) -> Result<(), NoMemory>
    ensures { OnOk result (runs.new.items ≡ runs.old.items
        ++ runs_of_trip trip.now.window trip.now.rows.now trip.now.frequencies.now trip.now.day number) }
{
    if trip.frequencies.is_empty() {
        return add_own(runs, trip, number);
    }
    add_repeats(alloc, runs, trip, number)
}

/// Adds the runs of a trip that depart in the window on a day, where its service is active then.
fn add_active(
    alloc: Global,
    runs: &mut Vec<Run>,
    trip: &FeedTrip<'_>,
    day: ServiceDay,
) -> Result<(), NoMemory>
    ensures { OnOk result (runs.new.items ≡ runs.old.items
        ++ trip_runs trip.now.trips.now.feed.now trip.now.trips.now.days.now.services trip.now.trips.now.window
        day trip.now.number) }
{
    let found = trip.on(day);
    if !may_run(&found) || !trip.is_active(day) {
        return Ok(());
    }
    add_trip(alloc, runs, &found, trip.number)
}

/// Adds the runs of the trips that are active on a day and depart in the window then.
#[tactic(auto, using(crate::proofs::JoinLemmas::join_steps), unfolding(crate::specs::TripRuns::day_runs))]
fn add_day(
    alloc: Global,
    runs: &mut Vec<Run>,
    trips: &FeedWindow<'_>,
    day: ServiceDay,
) -> Result<(), NoMemory>
    ensures { OnOk result (runs.new.items
        ≡ runs.old.items ++ day_runs trips.now.feed.now trips.now.days.now.services trips.now.window day
        (length trips.now.feed.now.trip_ids)) }
{
    if !may_run_on(trips, day) {
        return Ok(());
    }
    for number in 0..trips.trips {
        add_active(
            alloc,
            runs,
            &FeedTrip {
                trips: &*trips,
                number,
            },
            day,
        )?;
    }
    Ok(())
}

/// The runs that depart in the window, by service day, position of the trip, departure from the first kept row and line of the
/// row of frequencies.
#[tactic(auto, using(crate::proofs::JoinLemmas::join_steps), unfolding(crate::specs::TripRuns::runs_below))]
pub(crate) fn runs_of(alloc: Global, trips: &FeedWindow<'_>) -> Result<Vec<Run>, NoMemory>
    ensures { IfOk result (λ runs. runs.items
        ≡ window_runs trips.now.feed.now trips.now.days.now.services trips.now.window) }
{
    let mut runs: Vec<Run> = Vec::new(alloc);
    for d in 0..DAYS {
        add_day(alloc, &mut runs, trips, trips.day(d))?;
    }
    Ok(runs)
}
