//! The rows of `transfers.txt`.
ghost use Rattle.std.specs.Prelude.{◌≡◌, ◌<◌, ◌≤◌, length, None, Ok, Err, IfOk, IfErr, IfSome};
ghost use Rattle.std.specs.Result.{result_err};
ghost use Rattle.plan_model.specs.Bounds.{seconds_per_day};
ghost use Rattle.csv_rows.specs.declared.feed_tables.Table.TheVariants.{Transfers as TransfersTable};
ghost use Rattle.csv_rows.specs.FeedTables.{unread_table, IsFaultOf};
ghost use Rattle.csv_rows.specs.RowFaults.{ReportsFirst};
ghost use Rattle.csv_rows.specs.Tables.{row_count};
ghost use Rattle.change_times.specs.Transfers.{place_named_by, transfer_between, transfer_columns, is_general_in, transfer_in};

use crate::forms::read_is_timed;
use crate::stops::FeedStops;
use clock_text::read_optional_seconds;
use csv_rows::{Column, FeedFault, Rows, Table, read_name};
use plan_model::PlaceId;

/// A transfer between two places, which may be one, and the seconds that it takes at least.
#[derive(Clone, Copy)]
pub(crate) struct Transfer {
    pub(crate) from: u32,
    pub(crate) to: u32,
    pub(crate) seconds: u32,
}

/// The indexes of the columns.
#[derive(Clone, Copy)]
pub(crate) struct TransferColumns {
    from: Option<usize>,
    to: Option<usize>,
    kind: Option<usize>,
    seconds: Option<usize>,
    from_route: Option<usize>,
    to_route: Option<usize>,
    from_trip: Option<usize>,
    to_trip: Option<usize>,
}

/// The indexes of the columns of the transfers.
pub(crate) fn transfer_columns(rows: &Rows) -> TransferColumns
    ensures { result ≡ transfer_columns rows.now }
{
    TransferColumns {
        from: rows.index_of(Column::FromStopId),
        to: rows.index_of(Column::ToStopId),
        kind: rows.index_of(Column::TransferType),
        seconds: rows.index_of(Column::MinTransferTime),
        from_route: rows.index_of(Column::FromRouteId),
        to_route: rows.index_of(Column::ToRouteId),
        from_trip: rows.index_of(Column::FromTripId),
        to_trip: rows.index_of(Column::ToTripId),
    }
}

/// The place of the stop that a field of this line names.
fn read_place(
    feed: &FeedStops<'_>,
    text: &[u8],
    line: u64,
    column: Column,
) -> Result<PlaceId, FeedFault>
    ensures place { IfOk result (λ p. place_named_by feed.now line column text.now ≡ Ok p.0) }
    ensures in_range { IfOk result (λ p. p.0 < length feed.now.stop_ids) }
    ensures fault { IfErr result (λ f. place_named_by feed.now line column text.now ≡ Err f) }
    ensures content { IfErr result (λ f. unread_table f ≡ None) }
    ensures own { IfErr result (IsFaultOf TransfersTable) }
{
    let id = read_name(text).ok_or(FeedFault::BadField(Table::Transfers, line, column))?;
    let unknown = FeedFault::UnknownKey(Table::Transfers, line, column);
    feed.place_of(id).ok_or(unknown)
}

/// The transfer from one place to another, if it has seconds.
fn transfer_between(from: PlaceId, to: PlaceId, seconds: Option<u32>) -> Option<Transfer>
    ensures { result ≡ transfer_between from.0 to.0 seconds }
{
    match seconds {
        Some(seconds) => Some(Transfer {
            from: from.0,
            to: to.0,
            seconds,
        }),
        None => None,
    }
}

/// Whether a row is for all routes and trips.
fn is_general(rows: &Rows, columns: TransferColumns, row: usize) -> bool
    requires { row < row_count rows.now }
    ensures { result ≡ is_general_in rows.now columns row }
{
    rows.field_at(row, columns.from_route).is_empty()
        && rows.field_at(row, columns.to_route).is_empty()
        && rows.field_at(row, columns.from_trip).is_empty()
        && rows.field_at(row, columns.to_trip).is_empty()
}

/// The transfer of a row, or the first of its faults. A row of another type than 2, or for some routes or trips, has none, and
/// its other fields are not looked at.
pub(crate) fn read_transfer(
    feed: &FeedStops<'_>,
    rows: &Rows,
    columns: TransferColumns,
    row: usize,
) -> Result<Option<Transfer>, FeedFault>
    requires { row < row_count rows.now }
    ensures transfer { IfOk result (λ t. transfer_in feed.now rows.now columns row ≡ Ok t) }
    ensures from { IfOk result (λ t. IfSome t (λ transfer. transfer.from < length feed.now.stop_ids)) }
    ensures short { IfOk result (λ t. IfSome t (λ transfer. transfer.seconds ≤ seconds_per_day)) }
    ensures reports { ReportsFirst TransfersTable
        (result_err (transfer_in feed.now rows.now columns row)) result }
{
    let line = rows.line(row);
    let bad = |column: Column| FeedFault::BadField(Table::Transfers, line, column);
    let kind = rows.field_at(row, columns.kind);
    let is_timed = read_is_timed(kind).ok_or(bad(Column::TransferType))?;
    if !is_timed || !is_general(rows, columns, row) {
        return Ok(None);
    }
    let from = rows.field_at(row, columns.from);
    let from = read_place(feed, from, line, Column::FromStopId)?;
    let to = rows.field_at(row, columns.to);
    let to = read_place(feed, to, line, Column::ToStopId)?;
    let seconds = rows.field_at(row, columns.seconds);
    let seconds = read_optional_seconds(seconds).ok_or(bad(Column::MinTransferTime))?;
    Ok(transfer_between(from, to, seconds))
}
