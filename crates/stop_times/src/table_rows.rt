//! The rows of the stop times with a text.
ghost use Rattle.std.specs.Prelude.{◌≡◌, ◌≢◌, ◌<◌, ◌≤◌, ◌+◌, ◌^◌, ◌∷◌, ◌++◌, [], length, None, Some, Ok, Err, Result, IfOk, IfErr, OnOk};
ghost use Rattle.csv_rows.specs.declared.feed_tables.Table.TheVariants.{StopTimes as StopTimesTable};
ghost use Rattle.csv_rows.specs.Lists.{first_below};
ghost use Rattle.csv_rows.specs.FeedTables.{unread_table, IsFaultOf};
ghost use Rattle.table_files.specs.Loading.{loaded_from};
ghost use Rattle.csv_rows.specs.Tables.{table_of};
ghost use Rattle.csv_rows.specs.declared.feed_tables.FeedFault.{FeedFault};
ghost use Rattle.stop_times.specs.declared.rows.TimedRow.{TimedRow};
ghost use Rattle.stop_times.specs.Timetables.{stop_times_from};
ghost use Rattle.stop_times.specs.StopTimes.{columns_of, named_of, timed_of, bad_time, counted_fault, timed_rows, order_fault, stop_times_fault, IsKnownIn};

use crate::named::Named;
use crate::records::{Record, Records};
use crate::rows::{
    KnownTrip, TimeColumns, columns_of, keep_trip, missing_column, named_trip, read_timed_row,
};
use crate::stop_order::StopOrder;
use crate::stored_row::StoredRow;
use csv_rows::{Column, FeedFault, Limits, Table};
use plan_model::NoMemory;
use std::alloc::Global;

/// How many bytes a row of a text is assumed to take, when room for the rows is reserved.
const BYTES_OF_A_ROW: usize = 32;

/// Takes the row of a record after those that were taken, and keeps its trip, or gives its fault.
fn take_row(
    timed: &mut Vec<StoredRow>,
    row: &Record,
    columns: TimeColumns,
    named: &Named<'_>,
    known: &mut KnownTrip,
    order: &mut StopOrder,
) -> Result<(), FeedFault>
    requires { IsKnownIn named.now.trips known.old }
    ensures row { OnOk result ((r : TimedRow)
        × (timed_of (named_of named.now) (length timed.old.items + 2) columns row.now ≡ Ok r)
        × (timed.new.items ≡ timed.old.items ++ r ∷ [])) }
    ensures known { OnOk result (IsKnownIn named.now.trips known.new) }
    ensures fault { IfErr result (λ f. f ≢ FeedFault.NoMemory
        → timed_of (named_of named.now) (length timed.old.items + 2) columns row.now ≡ Err f) }
    ensures content { IfErr result (λ f. unread_table f ≡ None) }
    ensures own { IfErr result (IsFaultOf StopTimesTable) }
{
    let line = timed.len() as u64 + 2;
    let expected = order.expected();
    let taken = read_timed_row(row, columns, named, line, named_trip(known), expected)?;
    if let Some(visit) = taken.visit {
        order.keep(visit.stop);
    }
    keep_trip(known, row, columns, taken.trip)?;
    timed.push(StoredRow::of(taken))?;
    Ok(())
}

/// The fault of a table that has this one, with `taken` rows before the remaining records: if there are too many in all,
/// that comes first.
fn counted_fault(
    records: &mut Records<'_>,
    row: &mut Record,
    taken: u64,
    most: u64,
    fault: FeedFault,
) -> FeedFault
    requires { taken ≤ 2 ^ 32 }
    ensures fault { result ≢ FeedFault.NoMemory
        → counted_fault most (taken + length records.old) (Some fault) ≡ Some result }
    ensures content { unread_table fault ≡ None → unread_table result ≡ None }
    ensures own { IsFaultOf StopTimesTable fault → IsFaultOf StopTimesTable result }
{
    match records.count(row) {
        Ok(remaining) => {
            let count = taken + remaining;
            if most < count {
                FeedFault::TooManyRows(Table::StopTimes, count)
            } else {
                fault
            }
        }
        Err(_) => FeedFault::NoMemory,
    }
}

/// Room for the rows of a text of `bytes` bytes, and for at most `most` rows. Most rows take more bytes than are assumed for
/// one; if they take fewer, the room grows.
fn room_for(alloc: Global, bytes: usize, most: u64) -> Result<Vec<StoredRow>, NoMemory>
    ensures { IfOk result (λ timed. timed.items ≡ []) }
{
    let rows = (bytes / BYTES_OF_A_ROW).min(most as usize);
    let timed = Vec::with_capacity(alloc, rows)?;
    Ok(timed)
}

/// The rows of the records after a header, or their first fault: that there are too many, and then the first of one by itself.
/// The text has `bytes` bytes.
fn rows_after(
    alloc: Global,
    bytes: usize,
    records: &mut Records<'_>,
    row: &mut Record,
    columns: TimeColumns,
    named: &Named<'_>,
    limits: &Limits,
) -> Result<Vec<StoredRow>, FeedFault>
    requires { columns ≡ columns_of row.old }
    ensures rows { IfOk result (λ timed. timed.items ≡ timed_rows (named_of named.now) (row.old ∷ records.old)) }
    ensures few { IfOk result (λ timed. length timed.items ≤ limits.now.stop_times) }
    ensures none { OnOk result
        (first_below (bad_time (named_of named.now) (row.old ∷ records.old)) (length records.old) ≡ None) }
    ensures fault { IfErr result (λ f. f ≢ FeedFault.NoMemory → counted_fault limits.now.stop_times (length records.old)
        (first_below (bad_time (named_of named.now) (row.old ∷ records.old)) (length records.old)) ≡ Some f) }
    ensures content { IfErr result (λ f. unread_table f ≡ None) }
    ensures own { IfErr result (IsFaultOf StopTimesTable) }
{
    let most = limits.stop_times;
    let mut timed = room_for(alloc, bytes, most)?;
    let mut known = KnownTrip {
        id: Vec::new(alloc),
        trip: None,
    };
    let mut order = StopOrder::new(alloc, &named.stops)?;
    loop {
        let found = records.next(row)?;
        if !found {
            return Ok(timed);
        }
        let taken = timed.len() as u64 + 1;
        if most < taken {
            let fault = FeedFault::TooManyRows(Table::StopTimes, taken);
            return Err(counted_fault(records, row, taken, most, fault));
        }
        match take_row(&mut timed, row, columns, named, &mut known, &mut order) {
            Ok(()) => {}
            Err(fault) => return Err(counted_fault(records, row, taken, most, fault)),
        }
    }
}

/// The rows of the stop times with this text, or the first of its faults: that it has no record, that it has too many rows,
/// that a required column is missing, and then the first fault of a row by itself.
pub(crate) fn read_timed_rows(
    alloc: Global,
    bytes: &[u8],
    named: &Named<'_>,
    limits: &Limits,
) -> Result<Vec<StoredRow>, FeedFault>
    ensures rows { IfOk result (λ timed. timed.items ≡ timed_rows (named_of named.now) (table_of bytes.now)) }
    ensures few { IfOk result (λ timed. length timed.items ≤ limits.now.stop_times) }
    ensures header { OnOk result (0 < length (table_of bytes.now)) }
    ensures rest { OnOk result (stop_times_fault (named_of named.now) (table_of bytes.now)
        ≡ order_fault (timed_rows (named_of named.now) (table_of bytes.now))) }
    ensures fault { IfErr result (λ f. f ≢ FeedFault.NoMemory
        → stop_times_from (loaded_from StopTimesTable limits.now.stop_times (table_of bytes.now)) (named_of named.now)
        ≡ Err f) }
    ensures content { IfErr result (λ f. unread_table f ≡ None) }
    ensures own { IfErr result (IsFaultOf StopTimesTable) }
{
    let mut records = Records::of(alloc, bytes);
    let mut row = Record::new(alloc);
    let found = records.next(&mut row)?;
    if !found {
        return Err(FeedFault::MissingColumn(Table::StopTimes, Column::TripId));
    }
    let columns = columns_of(&row);
    if let Some(fault) = missing_column(columns) {
        let most = limits.stop_times;
        return Err(counted_fault(&mut records, &mut row, 0, most, fault));
    }
    rows_after(
        alloc,
        bytes.len(),
        &mut records,
        &mut row,
        columns,
        named,
        limits,
    )
}
