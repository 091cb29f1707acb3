//! The stops of a feed.
ghost use Rattle.std.specs.Prelude.{◌≡◌, ◌<◌, ◌≤◌, Ok, IfOk, length, map};
ghost use Rattle.std.specs.Result.{result_err};
ghost use Rattle.csv_rows.specs.declared.feed_tables.Table.TheVariants.{Stops as StopsTable};
ghost use Rattle.csv_rows.specs.Lists.{first_below};
ghost use Rattle.csv_rows.specs.RowFaults.{ReportsFirst};
ghost use Rattle.csv_rows.specs.Tables.{row_count};
ghost use Rattle.feed_lists.specs.Stops.{stop_columns, stop_in, bad_stop, stop_ids, stop_parents, unknown_in, unknown_parent, place_from, stop_places, stops_fault};
ghost use Rattle.feed_lists.specs.ListBounds.{most_stops};

use crate::forms::{read_is_stop, read_parent};
use csv_rows::{Column, FeedFault, Ids, Rows, Table, check_columns, read_ids, read_name};
use std::alloc::Global;
use text_index::TextIndex;

/// The ids of the stops, and the place of each: the number of its parent station or its own.
pub struct Stops {
    /// The ids of the stops, in the order of the file.
    pub ids: Ids,
    /// The number of the place of each: that of its parent station, or its own.
    pub places: Vec<u32>,
    pub ghost placed: { length places.items ≡ length ids },
}

impl Drop for Stops {
    /// Drops its parts here, so that a caller drops one value.
    fn drop(self) {
        let Stops { ids, places } = self;
    }
}

/// The indexes of the columns.
#[derive(Clone, Copy)]
pub(crate) struct StopColumns {
    id: Option<usize>,
    kind: Option<usize>,
    parent: Option<usize>,
}

/// A stop by its id and its parent station, which is empty if it has none.
#[derive(Clone, Copy)]
struct Stop<'a> {
    id: &'a str,
    parent: &'a str,
}

/// The indexes of the columns of the stops.
fn stop_columns(rows: &Rows) -> StopColumns
    ensures { result ≡ stop_columns rows.now }
{
    StopColumns {
        id: rows.index_of(Column::StopId),
        kind: rows.index_of(Column::LocationType),
        parent: rows.index_of(Column::ParentStation),
    }
}

/// The stop of a row, or the first field that is not of its form.
fn read_stop(rows: &Rows, columns: StopColumns, row: usize) -> Result<Stop<'_>, FeedFault>
    requires { row < row_count rows.now }
    ensures stop { IfOk result (λ s. stop_in rows.now columns row
        ≡ Ok (record { id = s.id.now; parent = s.parent.now })) }
    ensures reports { ReportsFirst StopsTable (result_err (stop_in rows.now columns row)) result }
{
    let line = rows.line(row);
    let bad = |column: Column| FeedFault::BadField(Table::Stops, line, column);
    let id = read_name(rows.field_at(row, columns.id)).ok_or(bad(Column::StopId))?;
    let is_stop = read_is_stop(rows.field_at(row, columns.kind)).ok_or(bad(Column::LocationType))?;
    let parent = rows.field_at(row, columns.parent);
    let parent = read_parent(is_stop, parent).ok_or(bad(Column::ParentStation))?;
    Ok(Stop { id, parent })
}

/// The parent station of each stop, empty if it has none, or the first field that is not of its form.
fn read_parents(alloc: Global, rows: &Rows) -> Result<Vec<&str>, FeedFault>
    ensures parents { IfOk result (λ parents. map (λ p. p.now) parents.items ≡ stop_parents rows.now) }
    ensures reports { ReportsFirst StopsTable (first_below (bad_stop rows.now) (row_count rows.now)) result }
{
    let columns = stop_columns(rows);
    let mut parents: Vec<&str> = Vec::new(alloc);
    for i in 0..rows.count() {
        let stop = read_stop(rows, columns, i)?;
        parents.push(stop.parent)?;
    }
    Ok(parents)
}

/// The place of the stop of a row with this parent; or `UnknownKey` if its parent is none of these.
fn read_place(rows: &Rows, parent: &str, ids: &TextIndex<'_>, row: usize) -> Result<u32, FeedFault>
    requires inside { row < row_count rows.now }
    requires few { row_count rows.now ≤ most_stops }
    ensures place { IfOk result (λ p. place_from ids.now parent.now row ≡ p) }
    ensures reports { ReportsFirst StopsTable (unknown_in ids.now parent.now row) result }
{
    if parent.is_empty() {
        return Ok(row as u32);
    }
    match ids.number(parent) {
        Some(place) => Ok(place),
        None => Err(FeedFault::UnknownKey(Table::Stops, rows.line(row), Column::ParentStation)),
    }
}

/// The place of each stop by its parent, or the first stop whose parent is no stop.
fn read_places(
    alloc: Global,
    rows: &Rows,
    parents: &[&str],
    ids: &Ids,
) -> Result<Vec<u32>, FeedFault>
    requires few { row_count rows.now ≤ most_stops }
    requires ids { ids.now ≡ stop_ids rows.now }
    requires parents { map (λ p. p.now) parents.now ≡ stop_parents rows.now }
    ensures places { IfOk result (λ places. places.items ≡ stop_places rows.now) }
    ensures reports { ReportsFirst StopsTable
        (first_below (unknown_parent rows.now) (row_count rows.now)) result }
{
    let index = TextIndex::of(alloc, ids.key(), ids.texts())?;
    let mut places: Vec<u32> = Vec::new(alloc);
    for i in 0..rows.count() {
        let place = read_place(rows, parents[i], &index, i)?;
        places.push(place)?;
    }
    Ok(places)
}

impl Stops {
    ghost use Rattle.feed_lists.specs.Lists.{HasStops, AreSoundStops};

    /// The stops of a table, or the first of its faults.
    #[tactic(auto, using(table_files::proofs::ReadSteps::read_steps), unfolding(crate::specs::Stops::stops_fault))]
    pub(crate) fn read(alloc: Global, rows: &Rows) -> Result<Stops, FeedFault>
        requires { row_count rows.now ≤ most_stops }
        ensures stops { IfOk result (HasStops (Ok rows.now)) }
        ensures sound { IfOk result AreSoundStops }
        ensures reports { ReportsFirst StopsTable (stops_fault rows.now) result }
    {
        check_columns(rows, Table::Stops, &[Column::StopId])?;
        let parents = read_parents(alloc, rows)?;
        let ids = read_ids(alloc, rows, Table::Stops, Column::StopId)?;
        let places = read_places(alloc, rows, parents.as_slice(), &ids)?;
        Ok(Stops { ids, places })
    }
}
