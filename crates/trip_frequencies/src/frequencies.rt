//! The rows of frequencies.
ghost use Rattle.std.specs.Prelude.{◌≡◌, ◌<◌, ◌≤◌, ◌^◌, ℕ, length, true, Ok, IfOk};
ghost use Rattle.std.specs.Result.{result_err};
ghost use Rattle.csv_rows.specs.declared.feed_tables.Table.TheVariants.{Frequencies as FrequenciesTable};
ghost use Rattle.csv_rows.specs.Lists.{first_below};
ghost use Rattle.csv_rows.specs.Keys.{AreSorted};
ghost use Rattle.csv_rows.specs.RowFaults.{ReportsFirst};
ghost use Rattle.csv_rows.specs.Tables.{row_count};
ghost use Rattle.trip_frequencies.specs.FrequencyBounds.{most_frequencies};
ghost use Rattle.trip_frequencies.specs.Frequencies.{frequency_columns, frequency_in, bad_frequency, frequency_rows, trip_of_row, start_of_row, repeated_start};

use crate::forms::{read_headway, read_is_exact};
use clock_text::read_time;
use csv_rows::{Column, FeedFault, Ids, Key, Rows, Table, first_repeat, in_order, read_name};
use plan_model::NoMemory;
use std::alloc::Global;
use text_index::TextIndex;

/// How a trip repeats: it departs from its first stop at `first`, each `headway` later, and last before `end`. By the GTFS
/// Schedule reference, `frequencies.txt`.
#[derive(Clone, Copy, Debug, PartialEq, Eq)]
pub struct FrequencyRow {
    /// The first departure, in seconds of the service day.
    pub first: u32,
    /// No departure is at this second of the service day or later.
    pub end: u32,
    /// The seconds from one departure to the next.
    pub headway: u32,
    /// The line of the row.
    pub line: u64,
}

/// A row beside the number of its trip.
#[derive(Clone, Copy)]
pub struct TripFrequency {
    /// The number of the trip.
    pub trip: u32,
    /// The row.
    pub row: FrequencyRow,
}

/// The indexes of the columns.
#[derive(Clone, Copy)]
pub(crate) struct FrequencyColumns {
    trip: Option<usize>,
    start: Option<usize>,
    end: Option<usize>,
    headway: Option<usize>,
    exact: Option<usize>,
}

/// The indexes of the columns of the frequencies.
fn frequency_columns(rows: &Rows) -> FrequencyColumns
    ensures { result ≡ frequency_columns rows.now }
{
    FrequencyColumns {
        trip: rows.index_of(Column::TripId),
        start: rows.index_of(Column::StartTime),
        end: rows.index_of(Column::EndTime),
        headway: rows.index_of(Column::HeadwaySecs),
        exact: rows.index_of(Column::ExactTimes),
    }
}

/// A row, or the first field that is not of its form or names no trip.
fn read_frequency(
    rows: &Rows,
    columns: FrequencyColumns,
    trips: &TextIndex<'_>,
    row: usize,
) -> Result<TripFrequency, FeedFault>
    requires { row < row_count rows.now }
    ensures row { IfOk result (λ r. frequency_in trips.now rows.now columns row ≡ Ok r) }
    ensures reports { ReportsFirst FrequenciesTable
        (result_err (frequency_in trips.now rows.now columns row)) result }
{
    let line = rows.line(row);
    let bad = |column: Column| FeedFault::BadField(Table::Frequencies, line, column);
    let unknown = FeedFault::UnknownKey(Table::Frequencies, line, Column::TripId);
    let trip_id = read_name(rows.field_at(row, columns.trip)).ok_or(bad(Column::TripId))?;
    let trip = trips.number(trip_id).ok_or(unknown)?;
    let first = read_time(rows.field_at(row, columns.start)).ok_or(bad(Column::StartTime))?;
    let end = read_time(rows.field_at(row, columns.end)).ok_or(bad(Column::EndTime))?;
    let headway = rows.field_at(row, columns.headway);
    let headway = read_headway(headway).ok_or(bad(Column::HeadwaySecs))?;
    read_is_exact(rows.field_at(row, columns.exact)).ok_or(bad(Column::ExactTimes))?;
    Ok(TripFrequency {
        trip,
        row: FrequencyRow {
            first,
            end,
            headway,
            line,
        },
    })
}

/// The rows, or the first fault of one by itself.
pub(crate) fn read_frequency_rows(
    alloc: Global,
    rows: &Rows,
    trips: &Ids,
) -> Result<Vec<TripFrequency>, FeedFault>
    ensures rows { IfOk result (λ found. found.items ≡ frequency_rows trips.now rows.now) }
    ensures reports { ReportsFirst FrequenciesTable
        (first_below (bad_frequency trips.now rows.now) (row_count rows.now)) result }
{
    let columns = frequency_columns(rows);
    let index = TextIndex::of(alloc, trips.key(), trips.texts())?;
    let mut found: Vec<TripFrequency> = Vec::new(alloc);
    for i in 0..rows.count() {
        let row = read_frequency(rows, columns, &index, i)?;
        found.push(row)?;
    }
    Ok(found)
}

/// The rows in the order of trip, start and row number in the file.
fn keys_by_start(alloc: Global, rows: &[TripFrequency]) -> Result<Vec<Key>, NoMemory>
    requires { length rows.now < 2 ^ 32 }
    ensures { IfOk result (λ keys.
        AreSorted (λ i. true) (trip_of_row rows.now) (start_of_row rows.now) (length rows.now) keys.items) }
{
    let mut keys: Vec<Key> = Vec::new(alloc);
    for i in 0..rows.len() {
        keys.push(Key {
            group: rows[i].trip,
            order: rows[i].row.first,
            row: i as u32,
        })?;
    }
    Ok(in_order(keys))
}

/// The first row that has the trip and the start of an earlier one.
pub(crate) fn check_once(alloc: Global, rows: &[TripFrequency]) -> Result<(), FeedFault>
    requires { length rows.now ≤ most_frequencies }
    ensures { ReportsFirst FrequenciesTable
        (first_below (repeated_start rows.now) (length rows.now)) result }
{
    let keys = keys_by_start(alloc, rows)?;
    match first_repeat(keys.as_slice()) {
        None => Ok(()),
        Some(row) => Err(FeedFault::DuplicateKey(Table::Frequencies, u64::from(row) + 2)),
    }
}
