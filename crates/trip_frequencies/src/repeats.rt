//! How the trips of a feed repeat.
ghost use Rattle.std.specs.Prelude.{◌≡◌, ◌≤◌, ℕ, List, [], length, map, Ok, IfOk};
ghost use Rattle.std.specs.List.Sorted.{IsNonDecreasing, IsNonDecreasingBy};
ghost use Rattle.csv_rows.specs.declared.feed_tables.Table.TheVariants.{Frequencies as FrequenciesTable};
ghost use Rattle.csv_rows.specs.RowFaults.{ReportsFirst};
ghost use Rattle.table_files.specs.Loading.{HasAtMost};
ghost use Rattle.csv_rows.specs.Tables.{row_count};
ghost use Rattle.trip_frequencies.specs.FrequencyBounds.{most_frequencies};
ghost use Rattle.trip_frequencies.specs.Frequencies.{AreFrequencies, frequency_rows, frequencies_fault, fault_of_frequencies, repeats_of, all_repeats_of};
ghost use Rattle.trip_frequencies.specs.Repeats.{IsTripSpan, repeats_in, all_repeats_in};

use crate::frequencies::{FrequencyRow, TripFrequency, check_once, read_frequency_rows};
use csv_rows::{Column, FeedFault, Ids, Rows, Table, check_columns};
use plan_model::NoMemory;
use std::alloc::Global;
use table_files::Loaded;

/// The rows of all trips that repeat, by trip, and of one trip in the order of the file; and beside them the trip of each.
pub struct Repeats {
    /// The number of the trip of each row; the numbers do not fall.
    pub trips: Vec<u32>,
    /// The rows, those of one trip in the order of the file.
    pub rows: Vec<FrequencyRow>,
}

impl Drop for Repeats {
    /// Drops its parts here, so that a caller drops one value.
    fn drop(self) {
        let Repeats { trips, rows } = self;
    }
}

impl Repeats {
    /// The rows of a trip.
    pub fn rows_of(&self, trip: u32) -> &[FrequencyRow]
        requires ordered { IsNonDecreasing self.now.trips.items }
        requires paired { length self.now.rows.items ≡ length self.now.trips.items }
        ensures { result.now ≡ repeats_in self.now.trips.items self.now.rows.items trip }
    {
        let (start, end) = span_of(self.trips.as_slice(), trip);
        &self.rows.as_slice()[start..end]
    }
}

/// Where a trip begins and ends among trips that do not fall.
fn span_of(trips: &[u32], trip: u32) -> (usize, usize)
    requires { IsNonDecreasing trips.now }
    ensures { IsTripSpan trips.now trip result.0 result.1 }
{
    let start = trips.partition_point(|t| *t < trip);
    let end = trips.partition_point(|t| *t <= trip);
    (start, end)
}

/// The rows by trip, and of one trip in the order that they have.
fn by_trip(mut rows: Vec<TripFrequency>) -> Result<Vec<TripFrequency>, NoMemory>
    ensures ordered { IfOk result (λ sorted. IsNonDecreasingBy (λ r. r.trip) sorted.items) }
    ensures kept { IfOk result (λ sorted. (trip : ℕ)
        → repeats_of sorted.items trip ≡ repeats_of rows.items trip) }
    ensures size { IfOk result (λ sorted. length sorted.items ≡ length rows.items) }
{
    rows.sort_by_key(|r| r.trip)?;
    Ok(rows)
}

/// The trips of these rows, and the rows without them.
fn parted(alloc: Global, rows: &[TripFrequency]) -> Result<Repeats, NoMemory>
    ensures trips { IfOk result (λ r. r.trips.items ≡ map (λ x. x.trip) rows.now) }
    ensures rows { IfOk result (λ r. r.rows.items ≡ map (λ x. x.row) rows.now) }
{
    let trips = rows.iter().map(|r| r.trip).collect(alloc)?;
    let rows = rows.iter().map(|r| r.row).collect(alloc)?;
    Ok(Repeats { trips, rows })
}

/// How trips repeat by these rows.
fn repeats_by(alloc: Global, rows: Vec<TripFrequency>) -> Result<Repeats, NoMemory>
    ensures ordered { IfOk result (λ r. IsNonDecreasing r.trips.items) }
    ensures paired { IfOk result (λ r. length r.rows.items ≡ length r.trips.items) }
    ensures repeats { IfOk result (λ r. (count : ℕ)
        → all_repeats_in r.trips.items r.rows.items count ≡ all_repeats_of rows.items count) }
    ensures size { IfOk result (λ r. length r.rows.items ≡ length rows.items) }
{
    let sorted = by_trip(rows)?;
    parted(alloc, sorted.as_slice())
}

/// How these trips repeat by the rows of a table, or the first of its faults.
#[tactic(auto, using(table_files::proofs::ReadSteps::read_steps), unfolding(crate::specs::Frequencies::frequencies_fault))]
fn read_frequencies(alloc: Global, rows: &Rows, trips: &Ids) -> Result<Repeats, FeedFault>
    requires { row_count rows.now ≤ most_frequencies }
    ensures ordered { IfOk result (λ r. IsNonDecreasing r.trips.items) }
    ensures paired { IfOk result (λ r. length r.rows.items ≡ length r.trips.items) }
    ensures repeats { IfOk result (λ r. (count : ℕ) → all_repeats_in r.trips.items r.rows.items count
        ≡ all_repeats_of (frequency_rows trips.now rows.now) count) }
    ensures few { IfOk result (λ r. length r.rows.items ≤ most_frequencies) }
    ensures reports { ReportsFirst FrequenciesTable (frequencies_fault trips.now rows.now) result }
{
    check_columns(
        rows,
        Table::Frequencies,
        &[
            Column::TripId,
            Column::StartTime,
            Column::EndTime,
            Column::HeadwaySecs,
        ],
    )?;
    let found = read_frequency_rows(alloc, rows, trips)?;
    check_once(alloc, found.as_slice())?;
    Ok(repeats_by(alloc, found)?)
}

/// No trip repeats, as by a table with no row.
fn no_repeats(alloc: Global) -> Repeats
    ensures trips { result.trips.items ≡ [] }
    ensures rows { result.rows.items ≡ [] }
    ensures repeats { (trips : List (List ℕ)) (count : ℕ)
        → all_repeats_in result.trips.items result.rows.items count
        ≡ all_repeats_of (frequency_rows trips []) count }
{
    Repeats {
        trips: Vec::new(alloc),
        rows: Vec::new(alloc),
    }
}

/// How these trips repeat by the table that is loaded, or the first of its faults. One that is absent has no row, and
/// neither has one whose file has no record.
pub(crate) fn repeats_from(
    alloc: Global,
    loaded: &Loaded,
    trips: &Ids,
) -> Result<Repeats, FeedFault>
    requires { HasAtMost most_frequencies loaded.now }
    ensures ordered { IfOk result (λ r. IsNonDecreasing r.trips.items) }
    ensures paired { IfOk result (λ r. length r.rows.items ≡ length r.trips.items) }
    ensures repeats { IfOk result (λ r. AreFrequencies trips.now (Ok loaded.now)
        (all_repeats_in r.trips.items r.rows.items (length trips.now))) }
    ensures few { IfOk result (λ r. length r.rows.items ≤ most_frequencies) }
    ensures reports { ReportsFirst FrequenciesTable (fault_of_frequencies trips.now loaded.now) result }
{
    match loaded {
        Loaded::Found(rows) => read_frequencies(alloc, rows, trips),
        Loaded::Absent => Ok(no_repeats(alloc)),
        Loaded::NoRecord => Ok(no_repeats(alloc)),
    }
}
