//! The rows of stop times as they are stored.
ghost use Rattle.std.specs.Prelude.{◌≡◌, true, is_some};
ghost use Rattle.stop_times.specs.StopTimes.{times_in};
ghost use Rattle.stop_times.specs.StopTimeKeys.{IsRowBefore};

use crate::rows::{StopRow, TimedRow};
use plan_model::PlaceId;
use std::marker::Model;

/// A row of stop times, with the fields of its stop beside its own: a stop that is there or not would take four bytes more.
#[derive(Drop)]
pub(crate) struct StoredRow {
    trip: u32,
    sequence: u32,
    stop: u32,
    place: u32,
    arrival: u32,
    departure: u32,
    can_board: bool,
    can_exit: bool,
    is_kept: bool,
}

impl Model for StoredRow {
    ghost use Rattle.stop_times.specs.declared.rows.TimedRow.{TimedRow};

    ghost Value = { TimedRow };

    ghost use Rattle.stop_times.specs.StoredRows.{row_of};

    ghost view = { row_of };
}

impl StoredRow {
    /// That of a row.
    pub(crate) fn of(row: TimedRow) -> StoredRow
        ensures { result ≡ row }
    {
        let visit = row.visit.unwrap_or(NO_VISIT);
        StoredRow {
            trip: row.trip,
            sequence: row.sequence,
            stop: visit.stop,
            place: visit.place.0,
            arrival: visit.arrival,
            departure: visit.departure,
            can_board: visit.can_board,
            can_exit: visit.can_exit,
            is_kept: row.visit.is_some(),
        }
    }

    /// The number of its trip.
    pub(crate) fn trip(&self) -> u32
        ensures { result ≡ self.now.trip }
    {
        self.trip
    }

    /// Its order in the trip.
    pub(crate) fn sequence(&self) -> u32
        ensures { result ≡ self.now.sequence }
    {
        self.sequence
    }

    /// Whether it comes before another row, by trip and then by sequence.
    pub(crate) fn is_before(&self, other: &StoredRow) -> bool
        ensures { result ≡ true → IsRowBefore self.now other.now }
    {
        if self.trip == other.trip {
            self.sequence < other.sequence
        } else {
            self.trip < other.trip
        }
    }

    /// Whether it has a stop and times.
    pub(crate) fn is_kept(&self) -> bool
        ensures { result ≡ is_some self.now.visit }
    {
        self.is_kept
    }

    /// When it arrives and departs, if it is kept.
    pub(crate) fn times(&self) -> (u32, u32)
        ensures { result ≡ times_in self.now.visit }
    {
        if self.is_kept {
            (self.arrival, self.departure)
        } else {
            (0, 0)
        }
    }

    /// Its stop and times, if it has both.
    pub(crate) fn visit(&self) -> Option<StopRow>
        ensures { result ≡ self.now.visit }
    {
        if !self.is_kept {
            return None;
        }
        Some(StopRow {
            stop: self.stop,
            place: PlaceId(self.place),
            arrival: self.arrival,
            departure: self.departure,
            can_board: self.can_board,
            can_exit: self.can_exit,
        })
    }
}

/// What is stored if there is no stop.
const NO_VISIT: StopRow = StopRow {
    stop: 0,
    place: PlaceId(0),
    arrival: 0,
    departure: 0,
    can_board: false,
    can_exit: false,
};
