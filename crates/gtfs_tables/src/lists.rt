//! The stops, the routes and the trips of a feed.
ghost use Rattle.std.specs.Prelude.{None, IfOk};
ghost use Rattle.table_files.specs.Loading.{load_in};
ghost use Rattle.table_files.specs.Reading.{Reads};
ghost use Rattle.gtfs_tables.specs.Feeds.{IsFeedTableFault, IsFirstOfTables};
ghost use Rattle.gtfs_tables.specs.Parts.{AreLists, AreSoundLists};

use csv_rows::{FeedFault, Limits};
use feed_lists::{Routes, Stops, Trips, load_routes, load_stops, load_trips};
use file_ports::Files;
use std::alloc::Global;

/// The stops, the routes and the trips of a feed.
pub(crate) struct FeedLists {
    pub(crate) stops: Stops,
    pub(crate) routes: Routes,
    pub(crate) trips: Trips,
}

impl Drop for FeedLists {
    /// Drops its parts here, so that a caller drops one value.
    fn drop(self) {
        let FeedLists {
            stops,
            routes,
            trips,
        } = self;
    }
}

/// The stops, the routes and the trips of the feed, or the first fault of their tables.
pub(crate) fn load_lists<F: Files>(
    alloc: Global,
    files: &mut F,
    folder: &str,
    limits: &Limits,
) -> Result<FeedLists, FeedFault>
    ensures reads { Reads folder.now (F.state files.old) (F.state files.new)
        (λ m. AreLists (load_in m folder.now limits.now None))
        (IsFirstOfTables folder.now limits.now) IsFeedTableFault result }
    ensures sound { IfOk result AreSoundLists }
{
    let stops = load_stops(alloc, files, folder, limits)?;
    let routes = load_routes(alloc, files, folder, limits)?;
    let trips = load_trips(alloc, files, folder, limits, &routes)?;
    Ok(FeedLists {
        stops,
        routes,
        trips,
    })
}
