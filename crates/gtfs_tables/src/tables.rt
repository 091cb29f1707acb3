//! The table of stop times, loaded and read.
ghost use Rattle.std.specs.Prelude.{◌≡◌, ◌<◌, ◌≤◌, ℕ, [], length, slice_index_or, Ok, IfOk};
ghost use Rattle.csv_rows.specs.declared.columns.Column.TheVariants.{TripId};
ghost use Rattle.csv_rows.specs.declared.feed_tables.Table.TheVariants.{StopTimes as StopTimesTable};
ghost use Rattle.csv_rows.specs.Limits.{rows_of};
ghost use Rattle.table_files.specs.Loading.{loaded_from, required, IsOfSomeTable};
ghost use Rattle.table_files.specs.Reading.{ReadsTable};
ghost use Rattle.csv_rows.specs.Tables.{table_of};
ghost use Rattle.stop_times.specs.StopTimeBounds.{most_stop_times};
ghost use Rattle.stop_times.specs.Timetables.{stop_times_from, AreVisits};
ghost use Rattle.stop_times.specs.StopTimes.{stop_times_fault};
ghost use Rattle.gtfs_tables.specs.Parts.{named_with};

use csv_rows::{FeedFault, Ids, Limits, Table};
use feed_lists::Stops;
use file_ports::Files;
use std::alloc::Global;
use stop_times::{StopTimes, read_stop_times};
use table_files::read_file;

/// The text of the stop times.
fn load_times_text<F: Files>(
    alloc: Global,
    files: &mut F,
    folder: &str,
    limits: &Limits,
) -> Result<Vec<u8>, FeedFault>
    ensures { ReadsTable StopTimesTable folder.now limits.now (F.state files.old) (F.state files.new)
        (required StopTimesTable TripId) (λ read text. read ≡ required StopTimesTable TripId
        (loaded_from StopTimesTable (rows_of limits.now StopTimesTable) (table_of text.items))) result }
{
    match read_file(alloc, files, folder, Table::StopTimes, limits)? {
        Some(text) => Ok(text),
        None => Err(FeedFault::MissingTable(Table::StopTimes)),
    }
}

/// The kept rows of these trips, which stop at these stops.
pub(crate) fn load_stop_times<F: Files>(
    alloc: Global,
    files: &mut F,
    folder: &str,
    limits: &Limits,
    trips: &Ids,
    stops: &Stops,
) -> Result<StopTimes, FeedFault>
    ensures reads { ReadsTable StopTimesTable folder.now limits.now (F.state files.old) (F.state files.new)
        (λ loaded. stop_times_from loaded (named_with trips.now stops.now))
        (AreVisits (named_with trips.now stops.now)) result }
    ensures sound { IfOk result (λ v. IsOfSomeTable (stop_times_fault (named_with trips.now stops.now))
        (λ t. AreVisits (named_with trips.now stops.now) (Ok t) v)) }
    ensures few { IfOk result (λ v. (trip : ℕ) → trip < length trips.now
        → length (slice_index_or v trip []) ≤ most_stop_times) }
    ensures sized { IfOk result (λ v. length v ≡ length trips.now) }
{
    let text = load_times_text(alloc, files, folder, limits)?;
    read_stop_times(
        alloc,
        text,
        trips,
        &stops.ids,
        stops.places.as_slice(),
        limits,
    )
}
