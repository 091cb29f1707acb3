//! The stop times of a feed.
ghost use Rattle.std.specs.Prelude.{◌≡◌, ◌≢◌, ◌<◌, ◌≤◌, ℕ, length, slice_index_or, [], true, false, None, Ok, Err, IfOk, IfErr, OnOk};
ghost use Rattle.csv_rows.specs.declared.feed_tables.Table.TheVariants.{StopTimes as StopTimesTable};
ghost use Rattle.csv_rows.specs.Lists.{first_below};
ghost use Rattle.csv_rows.specs.FeedTables.{unread_table, IsFaultOf};
ghost use Rattle.csv_rows.specs.RowFaults.{ReportsFirst};
ghost use Rattle.table_files.specs.Loading.{loaded_from, IsOfSomeTable};
ghost use Rattle.csv_rows.specs.Tables.{table_of};
ghost use Rattle.stop_times.specs.StopTimeBounds.{most_stop_times};
ghost use Rattle.stop_times.specs.StopTimeKeys.{AreKeysOf, AreRowsRising};
ghost use Rattle.stop_times.specs.Timetables.{stop_times_from, AreVisits};
ghost use Rattle.stop_times.specs.StopTimes.{named_by, repeated_time, order_fault, stop_times_fault, timed_rows};
ghost use Rattle.stop_times.specs.Visits.{AreStopTimes};

use crate::by_trip::StopTimes;
use crate::keys::{are_rising, first_backward, kept_keys, sorted_keys};
use crate::named::Named;
use crate::stored_row::StoredRow;
use crate::table_rows::read_timed_rows;
use crate::visits::visits_of;
use csv_rows::{FeedFault, Ids, Key, Limits, Table, first_repeat};
use std::alloc::Global;
use text_index::TextIndex;

/// The first row that has the trip and the sequence of an earlier one, by the keys of all rows in their order. Of rows that
/// rise none has.
fn check_once(rows: &[StoredRow], keys: &[Key], rise: bool) -> Result<(), FeedFault>
    requires keys { AreKeysOf false rows.now keys.now }
    requires rise { rise ≡ true → AreRowsRising rows.now }
    ensures { ReportsFirst StopTimesTable (first_below (repeated_time rows.now) (length rows.now)) result }
{
    if rise {
        return Ok(());
    }
    match first_repeat(keys) {
        None => Ok(()),
        Some(row) => Err(FeedFault::DuplicateKey(Table::StopTimes, u64::from(row) + 2)),
    }
}

/// The kept rows of each trip, or the first fault of the rows beside each other.
fn in_order(alloc: Global, rows: &[StoredRow], trips: u32) -> Result<StopTimes, FeedFault>
    requires { length rows.now ≤ most_stop_times }
    ensures size { IfOk result (λ visits. length visits ≡ trips) }
    ensures each { IfOk result (λ visits. (trip : ℕ) → trip < trips
        → AreStopTimes rows.now trip (slice_index_or visits trip [])) }
    ensures few { IfOk result (λ visits. (trip : ℕ) → trip < trips
        → length (slice_index_or visits trip []) ≤ most_stop_times) }
    ensures reports { ReportsFirst StopTimesTable (order_fault rows.now) result }
{
    let rise = are_rising(rows);
    let keys = sorted_keys(alloc, rows, rise)?;
    check_once(rows, keys.as_slice(), rise)?;
    let keys = kept_keys(rows, keys);
    if let Some(fault) = first_backward(rows, keys.as_slice()) {
        return Err(fault);
    }
    let visits = visits_of(alloc, rows, keys.as_slice(), trips)?;
    Ok(visits)
}

/// The rows of the stop times with this text, or the first of its faults, as `read_timed_rows` says. The indexes of the trips
/// and of the stops are dropped after that.
fn rows_of(
    alloc: Global,
    bytes: &[u8],
    trips: &Ids,
    stops: &Ids,
    places: &[u32],
    limits: &Limits,
) -> Result<Vec<StoredRow>, FeedFault>
    requires { length places.now ≡ length stops.now }
    ensures rows { IfOk result (λ timed. timed.items
        ≡ timed_rows (named_by trips.now stops.now places.now) (table_of bytes.now)) }
    ensures few { IfOk result (λ timed. length timed.items ≤ limits.now.stop_times) }
    ensures header { OnOk result (0 < length (table_of bytes.now)) }
    ensures rest { OnOk result (stop_times_fault (named_by trips.now stops.now places.now) (table_of bytes.now)
        ≡ order_fault (timed_rows (named_by trips.now stops.now places.now) (table_of bytes.now))) }
    ensures fault { IfErr result (λ f. f ≢ FeedFault.NoMemory
        → stop_times_from (loaded_from StopTimesTable limits.now.stop_times (table_of bytes.now))
        (named_by trips.now stops.now places.now) ≡ Err f) }
    ensures content { IfErr result (λ f. unread_table f ≡ None) }
    ensures own { IfErr result (IsFaultOf StopTimesTable) }
{
    let trip_index = TextIndex::of(alloc, trips.key(), trips.texts())?;
    let stop_index = TextIndex::of(alloc, stops.key(), stops.texts())?;
    let named = Named {
        trips: trip_index,
        stops: stop_index,
        places,
    };
    read_timed_rows(alloc, bytes, &named, limits)
}

/// The kept rows of each trip, in rising order of their sequences, or the first fault of the stop times with this text, which
/// may have as many rows as the limits say. The faults come in this order: `TooManyRows`; `MissingColumn`; fields that are not
/// of their form and keys that no table has, by line and column; repeated keys, by line; times that go back, by line. A text
/// without a record has no first column. The text is dropped before the rows are put in order, so that both are not in memory
/// at once.
pub fn read_stop_times(
    alloc: Global,
    bytes: Vec<u8>,
    trips: &Ids,
    stops: &Ids,
    places: &[u32],
    limits: &Limits,
) -> Result<StopTimes, FeedFault>
    requires { length places.now ≡ length stops.now }
    ensures few { IfOk result (λ visits. (trip : ℕ) → trip < length trips.now
        → length (slice_index_or visits trip []) ≤ most_stop_times) }
    ensures size { IfOk result (λ visits. length visits ≡ length trips.now) }
    ensures visits { IfOk result (λ visits. AreVisits (named_by trips.now stops.now places.now)
        (stop_times_from (loaded_from StopTimesTable limits.now.stop_times (table_of bytes.items))
        (named_by trips.now stops.now places.now)) visits) }
    ensures sound { IfOk result (λ visits.
        IsOfSomeTable (stop_times_fault (named_by trips.now stops.now places.now))
        (λ t. AreVisits (named_by trips.now stops.now places.now) (Ok t) visits)) }
    ensures fault { IfErr result (λ f. f ≢ FeedFault.NoMemory
        → stop_times_from (loaded_from StopTimesTable limits.now.stop_times (table_of bytes.items))
        (named_by trips.now stops.now places.now) ≡ Err f) }
    ensures content { IfErr result (λ f. unread_table f ≡ None) }
    ensures own { IfErr result (IsFaultOf StopTimesTable) }
{
    let timed = rows_of(alloc, bytes.as_slice(), trips, stops, places, limits)?;
    drop(bytes);
    // The proof has the two cases apart.
    match in_order(alloc, timed.as_slice(), trips.len()) {
        Ok(visits) => Ok(visits),
        Err(fault) => Err(fault),
    }
}
