//! The kept rows of all trips.

use crate::rows::StopRow;
use std::marker::Model;

/// The kept rows of each trip, those of one trip after those of the trip before, and the bounds between them. The rows of a
/// trip are those from its bound to the next one.
#[derive(Drop)]
pub struct StopTimes {
    visits: Vec<StopRow>,
    bounds: Vec<u32>,
}

impl Model for StopTimes {
    ghost use Rattle.std.specs.Prelude.{List};
    ghost use Rattle.stop_times.specs.declared.rows.StopRow.{StopRow};

    ghost Value = { List (List StopRow) };

    ghost use Rattle.stop_times.specs.ByTrip.{trips_of, AreBounded};

    ghost view = { trips_of };

    ghost invariant = { AreBounded };
}

impl StopTimes {
    ghost use Rattle.std.specs.Prelude.{◌≡◌, ◌<◌, length, slice_index_or, []};
    ghost use Rattle.stop_times.specs.ByTrip.{IsBounded, parted};

    /// These rows, between these bounds.
    pub(crate) fn new(visits: Vec<StopRow>, bounds: Vec<u32>) -> StopTimes
        requires { IsBounded visits.items bounds.items }
        ensures { result ≡ parted visits.items bounds.items }
    {
        StopTimes { visits, bounds }
    }

    /// The kept rows of a trip, in rising order of `stop_sequence`.
    pub fn of_trip(&self, trip: u32) -> &[StopRow]
        requires { trip < length self.now }
        ensures { result.now ≡ slice_index_or self.now trip [] }
    {
        let start = self.bounds[trip as usize] as usize;
        let end = self.bounds[trip as usize + 1] as usize;
        &self.visits.as_slice()[start..end]
    }
}
