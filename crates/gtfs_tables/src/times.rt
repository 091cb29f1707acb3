//! When the trips of a feed run.
ghost use Rattle.std.specs.Prelude.{None, IfOk};
ghost use Rattle.table_files.specs.Loading.{load_in};
ghost use Rattle.table_files.specs.Reading.{Reads};
ghost use Rattle.gtfs_tables.specs.Feeds.{IsFeedTableFault, IsFirstOfTables};
ghost use Rattle.gtfs_tables.specs.Parts.{AreLists, AreTripTimes, AreSoundTimes};

use crate::lists::FeedLists;
use crate::tables::load_stop_times;
use csv_rows::{FeedFault, Limits};
use file_ports::Files;
use std::alloc::Global;
use stop_times::StopTimes;
use trip_frequencies::{Repeats, load_frequencies};

/// The kept rows of the stop times of each trip, and how the trips repeat.
pub(crate) struct TripTimes {
    pub(crate) visits: StopTimes,
    pub(crate) repeats: Repeats,
}

impl Drop for TripTimes {
    /// Drops its parts here, so that a caller drops one value.
    fn drop(self) {
        let TripTimes { visits, repeats } = self;
    }
}

/// When the trips of these lists run, or the first fault of the two tables.
pub(crate) fn load_times<F: Files>(
    alloc: Global,
    files: &mut F,
    folder: &str,
    limits: &Limits,
    lists: &FeedLists,
) -> Result<TripTimes, FeedFault>
    ensures reads { Reads folder.now (F.state files.old) (F.state files.new)
        (λ m. AreTripTimes (load_in m folder.now limits.now None) lists.now)
        (λ m f. AreLists (load_in m folder.now limits.now None) lists.now
        → IsFirstOfTables folder.now limits.now m f) IsFeedTableFault result }
    ensures sound { IfOk result (AreSoundTimes lists.now) }
{
    let trips = &lists.trips.ids;
    let visits = load_stop_times(alloc, files, folder, limits, trips, &lists.stops)?;
    let repeats = load_frequencies(alloc, files, folder, limits, trips)?;
    Ok(TripTimes { visits, repeats })
}
