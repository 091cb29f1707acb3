//! The runs that the rows of frequencies of a trip start.
ghost use Rattle.std.specs.Prelude.{◌≡◌, ℕ, ◌+◌, ◌-◌, ◌<◌, ◌≤◌, ◌++◌, ◌<ℤ◌, ◌≤ℤ◌, pos, length, OnOk, IfOk};
ghost use Rattle.csv_rows.specs.Lists.{list_below};
ghost use Rattle.stop_times.specs.StopTimeBounds.{end_of_times};
ghost use Rattle.gtfs_tables.specs.Timed.{IsFrequency};
ghost use Rattle.run_repeat.specs.Runs.{AreBelow, IsRunOf, departure};
ghost use Rattle.connections.specs.Steps.{departs};
ghost use Rattle.connections.specs.RepeatedRuns.{repeat_of, origin_at, row_repeats, rows_repeats, in_order};

use crate::feed_window::TripWindow;
use crate::origins::Origin;
use gtfs_tables::FrequencyRow;
use plan_model::NoMemory;
use run_repeat::{departure, within};
use std::alloc::Global;

/// A run that a row of frequencies starts.
#[derive(Clone, Copy, PartialEq, Eq, PartialOrd, Ord)]
pub(crate) struct Repeat {
    /// When it leaves the first kept row of its trip, in seconds of the service day.
    pub(crate) departure: u32,
    /// The line of the row.
    pub(crate) line: u64,
}

/// The moment from which the times of a trip count, where it leaves the first of its kept rows at a second of its service day.
pub(crate) fn origin_at(trip: &TripWindow<'_>, second: u32) -> Origin
    requires some { 0 < length trip.now.rows.now }
    requires second { second < end_of_times }
    ensures { result ≡ origin_at trip.now.rows.now trip.now.day second }
{
    Origin {
        day: trip.day,
        shift: second as i32 - trip.rows[0].departure as i32,
    }
}

/// The runs of a row that leave a kept row in the window: those from the first number on, and below the second.
pub(crate) fn leaving(trip: &TripWindow<'_>, step: usize, row: &FrequencyRow) -> (u32, u32)
    requires step { step < length trip.now.rows.now }
    requires row { IsFrequency row.now }
    ensures before { AreBelow result.0 (λ m. IsRunOf row.now m
        × (departs trip.now.rows.now (origin_at trip.now.rows.now trip.now.day (departure row.now m)) step
        <ℤ pos trip.now.window.start)) }
    ensures up_to { AreBelow result.1 (λ m. IsRunOf row.now m
        × (departs trip.now.rows.now (origin_at trip.now.rows.now trip.now.day (departure row.now m)) step
        ≤ℤ pos trip.now.window.end)) }
{
    let begin = Origin::of_day(trip.day).plus(0);
    let offset = trip.rows[step].departure - trip.rows[0].departure;
    within(
        row,
        offset,
        trip.window.start as i64 - begin,
        trip.window.end as i64 - begin,
    )
}

/// Adds the runs of a row from one number on to another.
#[tactic(auto, using(crate::proofs::JoinLemmas::list_steps))]
fn add_between(
    repeats: &mut Vec<Repeat>,
    row: &FrequencyRow,
    from: u32,
    to: u32,
) -> Result<(), NoMemory>
    requires { (m : ℕ) → m < to → IsRunOf row.now m }
    ensures { OnOk result (repeats.new.items
        ≡ repeats.old.items ++ list_below (λ i. repeat_of row.now (from + i)) (to - from)) }
{
    for i in 0..to.saturating_sub(from) {
        repeats.push(Repeat {
            departure: departure(row, from + i),
            line: row.line,
        })?;
    }
    Ok(())
}

/// Adds the runs of a row that depart in the window, in their order: the later a kept row is left, the sooner run is the first
/// to leave it in the window.
fn add_row_repeats(
    repeats: &mut Vec<Repeat>,
    trip: &TripWindow<'_>,
    row: &FrequencyRow,
) -> Result<(), NoMemory>
    requires { IsFrequency row.now }
    ensures { OnOk result (repeats.new.items
        ≡ repeats.old.items ++ row_repeats trip.now.window trip.now.rows.now trip.now.day row.now) }
{
    let mut next = 0;
    for step in (0..trip.rows.len().saturating_sub(1)).rev() {
        let (from, to) = leaving(trip, step, row);
        add_between(repeats, row, from.max(next), to)?;
        next = next.max(to);
    }
    Ok(())
}

/// The runs of a trip that repeats which depart in the window, by departure and then by line.
#[tactic(auto, using(crate::proofs::JoinLemmas::join_steps), unfolding(crate::specs::RepeatedRuns::rows_repeats))]
pub(crate) fn repeats_of(alloc: Global, trip: &TripWindow<'_>) -> Result<Vec<Repeat>, NoMemory>
    ensures { IfOk result (λ found. found.items
        ≡ in_order (rows_repeats trip.now.window trip.now.rows.now trip.now.day trip.now.frequencies.now)) }
{
    let mut repeats: Vec<Repeat> = Vec::new(alloc);
    for i in 0..trip.frequencies.len() {
        add_row_repeats(&mut repeats, trip, &trip.frequencies[i])?;
    }
    repeats.sort_unstable();
    Ok(repeats)
}
