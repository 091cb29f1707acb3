//! The kept rows of the trips.
ghost use Rattle.std.specs.Prelude.{◌≡◌, ◌<◌, ◌≤◌, ◌+◌, ℕ, length, true, None, IfOk, slice_index, slice_index_or, []};
ghost use Rattle.csv_rows.specs.Lists.{first_below, list_below};
ghost use Rattle.csv_rows.specs.Keys.{key_at, IsRising};
ghost use Rattle.stop_times.specs.StopTimeBounds.{most_stop_times};
ghost use Rattle.stop_times.specs.StopTimeKeys.{AreKeysOf};
ghost use Rattle.stop_times.specs.StopTimes.{row_at, is_kept, repeated_time};
ghost use Rattle.stop_times.specs.Visits.{visit_or_none, visit_at, AreStopTimes, IsSpanOf};

use crate::by_trip::StopTimes;
use crate::rows::StopRow;
use crate::stored_row::StoredRow;
use csv_rows::Key;
use plan_model::NoMemory;
use std::alloc::Global;

/// The end of the keys of a trip, which begin at an index.
fn end_of(keys: &[Key], start: usize, trip: u32) -> usize
    requires start { start ≤ length keys.now }
    ensures order { start ≤ result }
    ensures inside { result ≤ length keys.now }
    ensures here { (k : ℕ) → start ≤ k → k < result → (key_at keys.now k).group ≡ trip }
    ensures after { result < length keys.now → (key_at keys.now result).group ≡ trip → ⊥ }
{
    let mut end = start;
    while end < keys.len() && keys[end].group == trip {
        end += 1;
    }
    end
}

/// Where the keys of each trip begin, and where those of the last one end.
fn bounds_of(alloc: Global, keys: &[Key], trips: u32) -> Result<Vec<u32>, NoMemory>
    requires rising { IsRising keys.now }
    requires few { length keys.now ≤ most_stop_times }
    ensures size { IfOk result (λ bounds. length bounds.items ≡ trips + 1) }
    ensures spans { IfOk result (λ bounds. (trip : ℕ) → trip < trips
        → IsSpanOf keys.now trip (slice_index bounds.items trip) (slice_index bounds.items (trip + 1))) }
{
    let mut bounds: Vec<u32> = Vec::with_capacity(alloc, trips as usize + 1)?;
    let mut end = 0;
    bounds.push(0)?;
    for trip in 0..trips {
        end = end_of(keys, end, trip);
        bounds.push(end as u32)?;
    }
    Ok(bounds)
}

/// A kept row.
fn visit_at(rows: &[StoredRow], row: u32) -> StopRow
    requires inside { row < length rows.now }
    requires kept { is_kept rows.now row ≡ true }
    ensures { result ≡ visit_or_none (row_at rows.now row).visit }
{
    match rows[row as usize].visit() {
        Some(visit) => visit,
        None => unreachable!(),
    }
}

/// The kept rows of the keys.
fn visits_by(alloc: Global, rows: &[StoredRow], keys: &[Key]) -> Result<Vec<StopRow>, NoMemory>
    requires { AreKeysOf true rows.now keys.now }
    ensures { IfOk result (λ visits. visits.items
        ≡ list_below (visit_at rows.now keys.now) (length keys.now)) }
{
    let mut visits: Vec<StopRow> = Vec::with_capacity(alloc, keys.len())?;
    for k in 0..keys.len() {
        visits.push(visit_at(rows, keys[k].row))?;
    }
    Ok(visits)
}

/// The kept rows of each trip, in rising order of their sequences.
pub(crate) fn visits_of(
    alloc: Global,
    rows: &[StoredRow],
    keys: &[Key],
    trips: u32,
) -> Result<StopTimes, NoMemory>
    requires sorted { AreKeysOf true rows.now keys.now }
    requires once { first_below (repeated_time rows.now) (length rows.now) ≡ None }
    requires few { length keys.now ≤ most_stop_times }
    ensures size { IfOk result (λ visits. length visits ≡ trips) }
    ensures each { IfOk result (λ visits. (trip : ℕ) → trip < trips
        → AreStopTimes rows.now trip (slice_index_or visits trip [])) }
    ensures few { IfOk result (λ visits. (trip : ℕ) → trip < trips
        → length (slice_index_or visits trip []) ≤ most_stop_times) }
{
    let bounds = bounds_of(alloc, keys, trips)?;
    let visits = visits_by(alloc, rows, keys)?;
    Ok(StopTimes::new(visits, bounds))
}
