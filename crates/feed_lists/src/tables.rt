//! The tables of stops, routes and trips, each loaded and read.
ghost use Rattle.std.specs.Prelude.{IfOk};
ghost use Rattle.csv_rows.specs.declared.feed_tables.Table.TheVariants.{Stops as StopsTable, Routes as RoutesTable, Trips as TripsTable};
ghost use Rattle.table_files.specs.Reading.{ReadsTable};
ghost use Rattle.feed_lists.specs.Lists.{stops_from, routes_from, trips_from, HasStops, HasRoutes, HasTrips, AreSoundStops, AreSoundRoutes, AreSoundTrips};

use crate::routes::Routes;
use crate::stops::Stops;
use crate::trips::{Trips, read_trips};
use csv_rows::{Column, FeedFault, Limits, Table};
use file_ports::Files;
use std::alloc::Global;
use table_files::read_required;

/// The stops of the feed in this folder, or the first fault of `stops.txt`. The faults come in this order: those of
/// `read_required`; `MissingColumn`; `BadField`, by line and column; `DuplicateKey`, by line; `UnknownKey` of a
/// `parent_station` that is no stop, by line.
pub fn load_stops<F: Files>(
    alloc: Global,
    files: &mut F,
    folder: &str,
    limits: &Limits,
) -> Result<Stops, FeedFault>
    ensures reads { ReadsTable StopsTable folder.now limits.now (F.state files.old) (F.state files.new)
        stops_from HasStops result }
    ensures sound { IfOk result AreSoundStops }
{
    let rows = read_required(alloc, files, folder, Table::Stops, Column::StopId, limits)?;
    Stops::read(alloc, &rows)
}

/// The routes of the feed in this folder, or the first fault of `routes.txt`. The faults come in this order: those of
/// `read_required`; `MissingColumn`; `BadField`, by line and column; `DuplicateKey`, by line.
pub fn load_routes<F: Files>(
    alloc: Global,
    files: &mut F,
    folder: &str,
    limits: &Limits,
) -> Result<Routes, FeedFault>
    ensures reads { ReadsTable RoutesTable folder.now limits.now (F.state files.old) (F.state files.new)
        routes_from HasRoutes result }
    ensures sound { IfOk result AreSoundRoutes }
{
    let rows = read_required(alloc, files, folder, Table::Routes, Column::RouteId, limits)?;
    Routes::read(alloc, &rows)
}

/// The trips of the feed in this folder, each with one of these routes, or the first fault of `trips.txt`. The faults come
/// in this order: those of `read_required`; `MissingColumn`; `BadField`, and `UnknownKey` of a route that is none of these,
/// by line and column; `DuplicateKey`, by line.
pub fn load_trips<F: Files>(
    alloc: Global,
    files: &mut F,
    folder: &str,
    limits: &Limits,
    routes: &Routes,
) -> Result<Trips, FeedFault>
    ensures reads { ReadsTable TripsTable folder.now limits.now (F.state files.old) (F.state files.new)
        (λ loaded. trips_from loaded routes.now.ids) (HasTrips routes.now) result }
    ensures sound { IfOk result (AreSoundTrips routes.now) }
{
    let rows = read_required(alloc, files, folder, Table::Trips, Column::RouteId, limits)?;
    read_trips(alloc, &rows, routes)
}
