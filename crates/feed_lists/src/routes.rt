//! The routes of a feed.
ghost use Rattle.std.specs.Prelude.{◌≡◌, ◌<◌, ◌≤◌, Ok, IfOk, length};
ghost use Rattle.std.specs.Result.{result_err};
ghost use Rattle.clock_text.specs.Digits.{whole_of};
ghost use Rattle.csv_rows.specs.declared.feed_tables.Table.TheVariants.{Routes as RoutesTable};
ghost use Rattle.csv_rows.specs.Lists.{first_below};
ghost use Rattle.csv_rows.specs.Tables.{row_count};
ghost use Rattle.csv_rows.specs.RowFaults.{ReportsFirst};
ghost use Rattle.feed_lists.specs.ListBounds.{most_routes};
ghost use Rattle.feed_lists.specs.Routes.{route_columns, route_in, bad_route, route_types, routes_fault};

use clock_text::read_whole;
use csv_rows::{Column, FeedFault, Ids, Rows, Table, check_columns, read_ids, read_name};
use std::alloc::Global;

/// The ids of the routes, and the type of each.
pub struct Routes {
    /// The ids of the routes, in the order of the file.
    pub ids: Ids,
    /// The route type of each.
    pub types: Vec<u16>,
    pub ghost typed: { length types.items ≡ length ids },
}

impl Drop for Routes {
    /// Drops its parts here, so that a caller drops one value.
    fn drop(self) {
        let Routes { ids, types } = self;
    }
}

/// The indexes of the columns.
#[derive(Clone, Copy)]
pub(crate) struct RouteColumns {
    id: Option<usize>,
    kind: Option<usize>,
}

/// A route by its id and its type.
#[derive(Clone, Copy)]
struct Route<'a> {
    id: &'a str,
    kind: u16,
}

/// The indexes of the columns of the routes.
fn route_columns(rows: &Rows) -> RouteColumns
    ensures { result ≡ route_columns rows.now }
{
    RouteColumns {
        id: rows.index_of(Column::RouteId),
        kind: rows.index_of(Column::RouteType),
    }
}

/// A route type, which leaves a class of delays for all other types.
#[tactic(auto, using(clock_text::proofs::DigitLemmas::whole_bound))]
fn read_route_type(text: &[u8]) -> Option<u16>
    ensures { result ≡ whole_of 65534 text.now }
{
    let kind = read_whole(text, 65_534)?;
    Some(kind as u16)
}

/// The route of a row, or the first field that is not of its form.
fn read_route(rows: &Rows, columns: RouteColumns, row: usize) -> Result<Route<'_>, FeedFault>
    requires { row < row_count rows.now }
    ensures route { IfOk result (λ r. route_in rows.now columns row
        ≡ Ok (record { id = r.id.now; kind = r.kind })) }
    ensures reports { ReportsFirst RoutesTable (result_err (route_in rows.now columns row)) result }
{
    let line = rows.line(row);
    let bad = |column: Column| FeedFault::BadField(Table::Routes, line, column);
    let id = read_name(rows.field_at(row, columns.id)).ok_or(bad(Column::RouteId))?;
    let kind = read_route_type(rows.field_at(row, columns.kind)).ok_or(bad(Column::RouteType))?;
    Ok(Route { id, kind })
}

/// The type of each route, or the first field that is not of its form.
#[tactic(auto, using(crate::proofs::RouteLemmas::route_steps))]
fn read_types(alloc: Global, rows: &Rows) -> Result<Vec<u16>, FeedFault>
    ensures types { IfOk result (λ types. types.items ≡ route_types rows.now) }
    ensures reports { ReportsFirst RoutesTable (first_below (bad_route rows.now) (row_count rows.now)) result }
{
    let columns = route_columns(rows);
    let mut types: Vec<u16> = Vec::new(alloc);
    for i in 0..rows.count() {
        let route = read_route(rows, columns, i)?;
        types.push(route.kind)?;
    }
    Ok(types)
}

impl Routes {
    ghost use Rattle.feed_lists.specs.Lists.{HasRoutes, AreSoundRoutes};

    /// The routes of a table, or the first of its faults.
    #[tactic(auto, using(table_files::proofs::ReadSteps::read_steps), unfolding(crate::specs::Routes::routes_fault))]
    pub(crate) fn read(alloc: Global, rows: &Rows) -> Result<Routes, FeedFault>
        requires { row_count rows.now ≤ most_routes }
        ensures routes { IfOk result (HasRoutes (Ok rows.now)) }
        ensures sound { IfOk result AreSoundRoutes }
        ensures reports { ReportsFirst RoutesTable (routes_fault rows.now) result }
    {
        check_columns(rows, Table::Routes, &[Column::RouteId, Column::RouteType])?;
        let types = read_types(alloc, rows)?;
        let ids = read_ids(alloc, rows, Table::Routes, Column::RouteId)?;
        Ok(Routes { ids, types })
    }
}
