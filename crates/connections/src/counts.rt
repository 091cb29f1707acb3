//! What the connections of a window add up to, before any of them is made.
ghost use Rattle.std.specs.Prelude.{◌≡◌, ◌^◌, ◌-◌, length, min};
ghost use Rattle.gtfs_tables.specs.Timed.{IsFrequency};
ghost use Rattle.connections.specs.Counts.{each_of, steps_sum, row_sum, rows_sum, runs_sum, trip_sum, day_sum, window_sum, HaveWays};

use crate::feed_window::{DAYS, FeedTrip, FeedWindow, TripWindow};
use crate::origins::{Origin, ServiceDay};
use crate::reach::may_run_on;
use crate::repeats::leaving;
use crate::runs::{leaves, may_run};
use crate::window::Window;
use change_times::Changes;
use gtfs_tables::{FrequencyRow, StopRow};
use plan_model::PlaceId;

/// What is counted: connections, or entries, which are the pairs of a connection and a way into the place that it leaves.
#[derive(Clone, Copy)]
pub(crate) enum Counted {
    Connections,
    Entries,
}

/// What a connection counts for that leaves this place.
fn each(changes: &Changes, counted: Counted, place: PlaceId) -> u64
    ensures { result ≡ each_of changes.now counted place }
{
    match counted {
        Counted::Connections => 1,
        Counted::Entries => changes.links_into(place).len() as u64 + 1,
    }
}

/// The most ways into one of these places or the first one: the change there, and the links.
pub(crate) fn most_ways(changes: &Changes, places: u32) -> u64
    ensures { HaveWays changes.now places result }
{
    let mut most = each(changes, Counted::Entries, PlaceId(0));
    for place in 0..places {
        most = each(changes, Counted::Entries, PlaceId(place)).max(most);
    }
    most
}

/// What the connections of a run with these kept rows count for.
#[tactic(auto, using(crate::proofs::CountLemmas::sum_steps))]
fn sum_steps(
    changes: &Changes,
    counted: Counted,
    rows: &[StopRow],
    origin: Origin,
    window: Window,
) -> u64
    ensures { result ≡ min (steps_sum (each_of changes.now counted) window rows.now origin) (2 ^ 64 - 1) }
{
    let mut sum = 0u64;
    for k in 0..rows.len().saturating_sub(1) {
        if leaves(rows, k, origin, window) {
            sum = sum.saturating_add(each(changes, counted, rows[k].place));
        }
    }
    sum
}

/// What the connections of the runs of a row of frequencies count for.
#[tactic(auto, using(crate::proofs::CountLemmas::sum_steps))]
fn sum_row(changes: &Changes, counted: Counted, trip: &TripWindow<'_>, row: &FrequencyRow) -> u64
    requires { IsFrequency row.now }
    ensures { result ≡ min (row_sum (each_of changes.now counted) trip.now.window trip.now.rows.now
        trip.now.day row.now) (2 ^ 64 - 1) }
{
    let mut sum = 0u64;
    for k in 0..trip.rows.len().saturating_sub(1) {
        let (from, to) = leaving(trip, k, row);
        let count = u64::from(to.saturating_sub(from));
        let step = count.saturating_mul(each(changes, counted, trip.rows[k].place));
        sum = sum.saturating_add(step);
    }
    sum
}

/// What the connections of the runs of a trip that repeats count for on a day.
#[tactic(auto, using(crate::proofs::CountLemmas::sum_steps), unfolding(crate::specs::Counts::rows_sum))]
fn sum_repeats(changes: &Changes, counted: Counted, trip: &TripWindow<'_>) -> u64
    ensures { result ≡ min (rows_sum (each_of changes.now counted) trip.now.window trip.now.rows.now
        trip.now.day trip.now.frequencies.now (length trip.now.frequencies.now)) (2 ^ 64 - 1) }
{
    let mut sum = 0u64;
    for i in 0..trip.frequencies.len() {
        let row = &trip.frequencies[i];
        sum = sum.saturating_add(sum_row(changes, counted, trip, row));
    }
    sum
}

/// What the connections of the runs of a trip count for on a day.
fn sum_runs(changes: &Changes, counted: Counted, trip: &TripWindow<'_>) -> u64
    ensures { result ≡ min (runs_sum (each_of changes.now counted) trip.now.window trip.now.rows.now
        trip.now.frequencies.now trip.now.day) (2 ^ 64 - 1) }
{
    if trip.frequencies.is_empty() {
        let origin = Origin::of_day(trip.day);
        return sum_steps(changes, counted, trip.rows, origin, trip.window);
    }
    sum_repeats(changes, counted, trip)
}

/// What the connections of a trip count for on a day.
fn sum_trip(trip: &FeedTrip<'_>, counted: Counted, day: ServiceDay) -> u64
    ensures { result ≡ min (trip_sum (each_of trip.now.trips.now.changes.now counted) trip.now.trips.now.feed.now
        trip.now.trips.now.days.now.services trip.now.trips.now.window day trip.now.number) (2 ^ 64 - 1) }
{
    let runs = trip.on(day);
    if !may_run(&runs) || !trip.is_active(day) {
        return 0;
    }
    sum_runs(trip.trips.changes, counted, &runs)
}

/// What the connections of all trips count for on a day.
#[tactic(auto, using(crate::proofs::CountLemmas::sum_steps), unfolding(crate::specs::Counts::day_sum))]
fn sum_day(trips: &FeedWindow<'_>, counted: Counted, day: ServiceDay) -> u64
    ensures { result ≡ min (day_sum (each_of trips.now.changes.now counted) trips.now.feed.now
        trips.now.days.now.services trips.now.window day (length trips.now.feed.now.trip_ids)) (2 ^ 64 - 1) }
{
    if !may_run_on(trips, day) {
        return 0;
    }
    let mut sum = 0u64;
    for number in 0..trips.trips {
        let trip = FeedTrip {
            trips: &*trips,
            number,
        };
        sum = sum.saturating_add(sum_trip(&trip, counted, day));
    }
    sum
}

/// What the connections of a window count for; from the greatest `u64` on this.
#[tactic(auto, using(crate::proofs::CountLemmas::sum_steps), unfolding(crate::specs::Counts::days_sum))]
pub(crate) fn sum_window(trips: &FeedWindow<'_>, counted: Counted) -> u64
    ensures { result ≡ min (window_sum (each_of trips.now.changes.now counted) trips.now.feed.now
        trips.now.days.now.services trips.now.window) (2 ^ 64 - 1) }
{
    let mut sum = 0u64;
    for d in 0..DAYS {
        let day = sum_day(trips, counted, trips.day(d));
        sum = sum.saturating_add(day);
    }
    sum
}
