//! The trips of a feed.
ghost use Rattle.std.specs.Prelude.{◌≡◌, ◌<◌, ◌≤◌, ◌++◌, ◌∷◌, [], Ok, IfOk, OnOk, length, slice_index, All};
ghost use Rattle.std.specs.Result.{result_err};
ghost use Rattle.csv_rows.specs.declared.feed_tables.Table.TheVariants.{Trips as TripsTable};
ghost use Rattle.csv_rows.specs.Lists.{first_below};
ghost use Rattle.csv_rows.specs.Tables.{row_count};
ghost use Rattle.plan_model.specs.NameLists.{texts};
ghost use Rattle.csv_rows.specs.RowFaults.{ReportsFirst};
ghost use Rattle.feed_lists.specs.Lists.{HasTrips, AreSoundTrips};
ghost use Rattle.feed_lists.specs.Trips.{trip_columns, trip_in, bad_trip, trip_routes, trip_services, trip_types, trips_fault};
ghost use Rattle.feed_lists.specs.ListBounds.{most_trips};

use crate::routes::Routes;
use csv_rows::{Column, FeedFault, Ids, Rows, Table, check_columns, read_ids, read_name};
use plan_model::NoMemory;
use std::alloc::Global;
use text_index::TextIndex;

/// The ids of the trips, and the service, the route and the route type of each.
pub struct Trips {
    /// The ids of the trips, in the order of the file.
    pub ids: Ids,
    /// What else is known of each.
    pub of_trips: OfTrips,
}

impl Drop for Trips {
    /// Drops its parts here, so that a caller drops one value.
    fn drop(self) {
        let Trips { ids, of_trips } = self;
    }
}

/// The service, the route type and the number of the route of each trip.
pub struct OfTrips {
    /// The id of the service of each trip.
    pub services: Vec<String>,
    /// The route type of each.
    pub types: Vec<u16>,
    /// The number of the route of each.
    pub routes: Vec<u32>,
}

impl Drop for OfTrips {
    /// Drops its parts here, so that a caller drops one value.
    fn drop(self) {
        let OfTrips {
            services,
            types,
            routes,
        } = self;
    }
}

/// The indexes of the columns.
#[derive(Clone, Copy)]
pub(crate) struct TripColumns {
    route: Option<usize>,
    service: Option<usize>,
    id: Option<usize>,
}

/// A trip by the number of its route, its service and its id.
#[derive(Clone, Copy)]
struct Trip<'a> {
    route: u32,
    service: &'a str,
    id: &'a str,
}

/// The indexes of the columns of the trips.
fn trip_columns(rows: &Rows) -> TripColumns
    ensures { result ≡ trip_columns rows.now }
{
    TripColumns {
        route: rows.index_of(Column::RouteId),
        service: rows.index_of(Column::ServiceId),
        id: rows.index_of(Column::TripId),
    }
}

/// The trip of a row, or the first field that is not of its form or names no route.
fn read_trip<'a>(
    rows: &'a Rows,
    columns: TripColumns,
    routes: &TextIndex<'_>,
    row: usize,
) -> Result<Trip<'a>, FeedFault>
    requires { row < row_count rows.now }
    ensures trip { IfOk result (λ r. trip_in routes.now rows.now columns row
        ≡ Ok (record { route = r.route; service = r.service.now; id = r.id.now })) }
    ensures reports { ReportsFirst TripsTable
        (result_err (trip_in routes.now rows.now columns row)) result }
    ensures route { IfOk result (λ r. r.route < length routes.now) }
{
    let line = rows.line(row);
    let bad = |column: Column| FeedFault::BadField(Table::Trips, line, column);
    let unknown = FeedFault::UnknownKey(Table::Trips, line, Column::RouteId);
    let route = read_name(rows.field_at(row, columns.route)).ok_or(bad(Column::RouteId))?;
    let number = routes.number(route).ok_or(unknown)?;
    let service = read_name(rows.field_at(row, columns.service)).ok_or(bad(Column::ServiceId))?;
    let id = read_name(rows.field_at(row, columns.id)).ok_or(bad(Column::TripId))?;
    Ok(Trip {
        route: number,
        service,
        id,
    })
}

/// Adds the service, the route type and the route of a trip.
fn add_trip(
    alloc: Global,
    of_trips: &mut OfTrips,
    trip: Trip<'_>,
    routes: &Routes,
) -> Result<(), NoMemory>
    requires { trip.route < length routes.now.types.items }
    ensures services { OnOk result (texts of_trips.new.services.items
        ≡ texts of_trips.old.services.items ++ trip.entry.service.now ∷ []) }
    ensures types { OnOk result (of_trips.new.types.items
        ≡ of_trips.old.types.items ++ slice_index routes.now.types.items trip.entry.route ∷ []) }
    ensures routes { OnOk result (of_trips.new.routes.items
        ≡ of_trips.old.routes.items ++ trip.entry.route ∷ []) }
{
    let service = String::from_str(alloc, trip.service)?;
    of_trips.services.push(service)?;
    of_trips.types.push(routes.types[trip.route as usize])?;
    of_trips.routes.push(trip.route)?;
    Ok(())
}

/// The service, the route type and the route of each trip, or the first fault of a row.
fn read_of_trips(alloc: Global, rows: &Rows, routes: &Routes) -> Result<OfTrips, FeedFault>
    ensures services { IfOk result (λ o. texts o.services.items
        ≡ trip_services routes.now.ids rows.now) }
    ensures types { IfOk result (λ o. o.types.items
        ≡ trip_types routes.now.ids routes.now.types.items rows.now) }
    ensures routes { IfOk result (λ o. o.routes.items ≡ trip_routes routes.now.ids rows.now) }
    ensures known { IfOk result (λ o. All (λ route. route < length routes.now.ids) o.routes.items) }
    ensures reports { ReportsFirst TripsTable
        (first_below (bad_trip routes.now.ids rows.now) (row_count rows.now)) result }
{
    let columns = trip_columns(rows);
    let index = TextIndex::of(alloc, routes.ids.key(), routes.ids.texts())?;
    let mut of_trips = OfTrips {
        services: Vec::new(alloc),
        types: Vec::new(alloc),
        routes: Vec::new(alloc),
    };
    for i in 0..rows.count() {
        let trip = read_trip(rows, columns, &index, i)?;
        add_trip(alloc, &mut of_trips, trip, routes)?;
    }
    Ok(of_trips)
}

/// The trips of a table, or the first of its faults.
#[tactic(auto, using(table_files::proofs::ReadSteps::read_steps), unfolding(crate::specs::Trips::trips_fault))]
pub(crate) fn read_trips(alloc: Global, rows: &Rows, routes: &Routes) -> Result<Trips, FeedFault>
    requires { row_count rows.now ≤ most_trips }
    ensures trips { IfOk result (HasTrips routes.now (Ok rows.now)) }
    ensures sound { IfOk result (AreSoundTrips routes.now) }
    ensures reports { ReportsFirst TripsTable (trips_fault routes.now.ids rows.now) result }
{
    check_columns(
        rows,
        Table::Trips,
        &[Column::RouteId, Column::ServiceId, Column::TripId],
    )?;
    let of_trips = read_of_trips(alloc, rows, routes)?;
    let ids = read_ids(alloc, rows, Table::Trips, Column::TripId)?;
    Ok(Trips { ids, of_trips })
}
