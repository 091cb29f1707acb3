//! The rows of stop times.
ghost use Rattle.std.specs.Prelude.{◌≡◌, ◌<◌, ℕ, List, length, Option, None, Some, Ok, Err, Result, IfOk, IfErr, IfSome, OnOk};
ghost use Rattle.csv_rows.specs.declared.feed_tables.Table.TheVariants.{StopTimes as StopTimesTable};
ghost use Rattle.csv_rows.specs.FeedTables.{unread_table, IsFaultOf};
ghost use Rattle.csv_rows.specs.Tables.{field_of};
ghost use Rattle.csv_rows.specs.declared.feed_tables.FeedFault.{FeedFault};
ghost use Rattle.stop_times.specs.declared.rows.TimedRow.{TimedRow};
ghost use Rattle.stop_times.specs.StopTimes.{stop_number_in, times_of, visit_of, columns_of, timed_of, named_of, missing_time_column, row_from_trip, row_from_stop, IsTripOf, IsStopOf, IsKnownIn, time_in};

use crate::forms::{read_allows, read_time_or_none};
use crate::named::Named;
use crate::records::Record;
use clock_text::read_whole;
use csv_rows::{Column, FeedFault, Table, lack, read_name, read_text};
use plan_model::{NoMemory, PlaceId};
use std::alloc::Global;
use text_index::TextIndex;

/// A stop of a trip, with its times in seconds from noon minus twelve hours of the service day.
#[derive(Clone, Copy, Debug, PartialEq, Eq)]
pub struct StopRow {
    /// The number of the stop.
    pub stop: u32,
    /// The place of the stop.
    pub place: PlaceId,
    /// When the trip arrives, in seconds of the service day.
    pub arrival: u32,
    /// When the trip departs, in seconds of the service day.
    pub departure: u32,
    /// Whether one may board.
    pub can_board: bool,
    /// Whether one may alight.
    pub can_exit: bool,
}

/// A row by the number of its trip and its sequence. It is kept if it has a stop and a time.
#[derive(Clone, Copy)]
pub(crate) struct TimedRow {
    pub(crate) trip: u32,
    pub(crate) sequence: u32,
    pub(crate) visit: Option<StopRow>,
}

/// The greatest `stop_sequence`: nine digits.
const MOST_SEQUENCE: u32 = 999_999_999;

/// The indexes of the columns; `None` of a column that is absent.
#[derive(Clone, Copy)]
pub(crate) struct TimeColumns {
    pub(crate) trip: Option<usize>,
    stop: Option<usize>,
    sequence: Option<usize>,
    arrival: Option<usize>,
    departure: Option<usize>,
    pickup: Option<usize>,
    drop_off: Option<usize>,
}

/// The indexes of the columns of a header.
pub(crate) fn columns_of(header: &Record) -> TimeColumns
    ensures { result ≡ columns_of header.now }
{
    TimeColumns {
        trip: header.index_of(Column::TripId),
        stop: header.index_of(Column::StopId),
        sequence: header.index_of(Column::StopSequence),
        arrival: header.index_of(Column::ArrivalTime),
        departure: header.index_of(Column::DepartureTime),
        pickup: header.index_of(Column::PickupType),
        drop_off: header.index_of(Column::DropOffType),
    }
}

/// The first required column that the header does not have.
pub(crate) fn missing_column(columns: TimeColumns) -> Option<FeedFault>
    ensures fault { result ≡ missing_time_column columns }
    ensures own { IfSome result (IsFaultOf StopTimesTable) }
{
    if let Some(fault) = lack(Table::StopTimes, Column::TripId, columns.trip) {
        return Some(fault);
    }
    if let Some(fault) = lack(Table::StopTimes, Column::StopId, columns.stop) {
        return Some(fault);
    }
    if let Some(fault) = lack(Table::StopTimes, Column::StopSequence, columns.sequence) {
        return Some(fault);
    }
    if let Some(fault) = lack(Table::StopTimes, Column::ArrivalTime, columns.arrival) {
        return Some(fault);
    }
    lack(Table::StopTimes, Column::DepartureTime, columns.departure)
}

/// The number of a stop, or none if the text is empty.
fn number_of(stops: &TextIndex<'_>, text: &str) -> Option<Option<u32>>
    ensures number { result ≡ stop_number_in stops.now text.now }
    ensures inside { IfSome result (λ o. IfSome o (λ k. k < length stops.now)) }
{
    if text.is_empty() {
        return Some(None);
    }
    let stop = stops.number(text)?;
    Some(Some(stop))
}

/// The number of the stop that a field names, or none if it is empty. It is looked up only if it is not the expected one.
fn read_stop_number(
    stops: &TextIndex<'_>,
    line: u64,
    id: &[u8],
    expected: u32,
) -> Result<Option<u32>, FeedFault>
    ensures stop { IfOk result (IsStopOf stops.now id.now) }
    ensures inside { IfOk result (λ o. IfSome o (λ k. k < length stops.now)) }
    ensures fault { IfErr result (λ f. (rest : Option ℕ → Result TimedRow FeedFault)
        → row_from_stop stops.now line id.now rest ≡ Err f) }
    ensures content { IfErr result (λ f. unread_table f ≡ None) }
    ensures own { IfErr result (IsFaultOf StopTimesTable) }
{
    if !id.is_empty() && expected < stops.len() && stops.get(expected).as_bytes() == id {
        return Ok(Some(expected));
    }
    let Some(text) = read_text(id) else {
        return Err(FeedFault::BadField(Table::StopTimes, line, Column::StopId));
    };
    match number_of(stops, text) {
        Some(stop) => Ok(stop),
        None => Err(FeedFault::UnknownKey(Table::StopTimes, line, Column::StopId)),
    }
}

/// The time of a field, or none if it is empty. It is read only if the field is not one that was read.
fn read_time_beside(text: &[u8], known_text: &[u8], known: Option<u32>) -> Option<Option<u32>>
    requires { time_in known_text.now ≡ Some known }
    ensures { result ≡ time_in text.now }
{
    if text == known_text {
        return Some(known);
    }
    read_time_or_none(text)
}

/// The times of a row: one that has one time has it for both.
fn times_of(arrival: Option<u32>, departure: Option<u32>) -> Option<(u32, u32)>
    ensures { result ≡ times_of arrival departure }
{
    match (arrival, departure) {
        (None, None) => None,
        (None, Some(time)) | (Some(time), None) => Some((time, time)),
        (Some(arrival), Some(departure)) => Some((arrival, departure)),
    }
}

/// The kept row of a stop and times, if both are there.
fn visit_of(
    places: &[u32],
    stop: Option<u32>,
    times: Option<(u32, u32)>,
    can_board: bool,
    can_exit: bool,
) -> Option<StopRow>
    requires { IfSome stop (λ k. k < length places.now) }
    ensures { result ≡ visit_of places.now stop times can_board can_exit }
{
    let stop = stop?;
    let times = times?;
    Some(StopRow {
        stop,
        place: PlaceId(places[stop as usize]),
        arrival: times.0,
        departure: times.1,
        can_board,
        can_exit,
    })
}

/// A field that names a trip, and the number of that trip.
#[derive(Clone, Copy)]
pub(crate) struct NamedTrip<'a> {
    id: &'a [u8],
    trip: u32,
}

/// The number of the trip that a field names. It is looked up only if the field is not that of a trip that is known.
fn read_trip_number(
    trips: &TextIndex<'_>,
    line: u64,
    id: &[u8],
    known: Option<NamedTrip<'_>>,
) -> Result<u32, FeedFault>
    requires { IfSome known (λ k. IsTripOf trips.now k.id.now k.trip) }
    ensures trip { IfOk result (IsTripOf trips.now id.now) }
    ensures fault { IfErr result (λ f. (rest : ℕ → Result TimedRow FeedFault)
        → row_from_trip trips.now line id.now rest ≡ Err f) }
    ensures content { IfErr result (λ f. unread_table f ≡ None) }
    ensures own { IfErr result (IsFaultOf StopTimesTable) }
{
    if let Some(known) = known {
        if known.id == id {
            return Ok(known.trip);
        }
    }
    let Some(name) = read_name(id) else {
        return Err(FeedFault::BadField(Table::StopTimes, line, Column::TripId));
    };
    match trips.number(name) {
        Some(trip) => Ok(trip),
        None => Err(FeedFault::UnknownKey(Table::StopTimes, line, Column::TripId)),
    }
}

/// The trip of a row, kept for the rows after it: its id and its number, if there was a row.
#[derive(Drop)]
pub(crate) struct KnownTrip {
    pub(crate) id: Vec<u8>,
    pub(crate) trip: Option<u32>,
}

/// The trip that is known.
pub(crate) fn named_trip(known: &KnownTrip) -> Option<NamedTrip<'_>>
    ensures { (trips : List (List ℕ)) → IsKnownIn trips known.now
        → IfSome result (λ k. IsTripOf trips k.id.now k.trip) }
{
    match known.trip {
        Some(trip) => Some(NamedTrip {
            id: known.id.as_slice(),
            trip,
        }),
        None => None,
    }
}

/// Keeps the trip of a row, if it is not the one that is known. Its id is copied, since the next record replaces the fields.
pub(crate) fn keep_trip(
    known: &mut KnownTrip,
    row: &Record,
    columns: TimeColumns,
    trip: u32,
) -> Result<(), NoMemory>
    ensures { OnOk result ((trips : List (List ℕ)) → IsTripOf trips (field_of row.now columns.trip) trip
        → IsKnownIn trips known.old → IsKnownIn trips known.new) }
{
    if let Some(last) = known.trip {
        if last == trip {
            return Ok(());
        }
    }
    known.id.clear();
    known.id.extend_from_slice(row.field_at(columns.trip))?;
    known.trip = Some(trip);
    Ok(())
}

/// The row of a record, or the first field that is not of its form or names nothing.
pub(crate) fn read_timed_row(
    row: &Record,
    columns: TimeColumns,
    named: &Named<'_>,
    line: u64,
    known: Option<NamedTrip<'_>>,
    expected: u32,
) -> Result<TimedRow, FeedFault>
    requires { IfSome known (λ k. IsTripOf named.now.trips k.id.now k.trip) }
    ensures row { IfOk result (λ r. timed_of (named_of named.now) line columns row.now ≡ Ok r) }
    ensures trip { IfOk result (λ r. IsTripOf named.now.trips (field_of row.now columns.trip) r.trip) }
    ensures fault { IfErr result (λ f. timed_of (named_of named.now) line columns row.now ≡ Err f) }
    ensures content { IfErr result (λ f. unread_table f ≡ None) }
    ensures own { IfErr result (IsFaultOf StopTimesTable) }
{
    let trip = read_trip_number(&named.trips, line, row.field_at(columns.trip), known)?;
    let stop = read_stop_number(&named.stops, line, row.field_at(columns.stop), expected)?;
    let Some(sequence) = read_whole(row.field_at(columns.sequence), MOST_SEQUENCE) else {
        return Err(FeedFault::BadField(Table::StopTimes, line, Column::StopSequence));
    };
    let arrival_text = row.field_at(columns.arrival);
    let Some(arrival) = read_time_or_none(arrival_text) else {
        return Err(FeedFault::BadField(Table::StopTimes, line, Column::ArrivalTime));
    };
    let departure_text = row.field_at(columns.departure);
    let Some(departure) = read_time_beside(departure_text, arrival_text, arrival) else {
        return Err(FeedFault::BadField(Table::StopTimes, line, Column::DepartureTime));
    };
    let Some(can_board) = read_allows(row.field_at(columns.pickup)) else {
        return Err(FeedFault::BadField(Table::StopTimes, line, Column::PickupType));
    };
    let Some(can_exit) = read_allows(row.field_at(columns.drop_off)) else {
        return Err(FeedFault::BadField(Table::StopTimes, line, Column::DropOffType));
    };
    let visit = visit_of(
        named.places,
        stop,
        times_of(arrival, departure),
        can_board,
        can_exit,
    );
    Ok(TimedRow {
        trip,
        sequence,
        visit,
    })
}
