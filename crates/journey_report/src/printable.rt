//! What can be printed: moments that have texts, queries whose places have names too, and trips.
ghost use Rattle.std.specs.Prelude.{◌≡◌, ◌≤◌, ◌<◌, All, length};
ghost use Rattle.printed_rows.specs.Records.{place_name};
ghost use Rattle.journey_model.specs.Sites.{last_printable};
ghost use Rattle.trip_replay.specs.Rides.{IsRidden};

use journey_model::Problem;
use plan_model::{Moment, Query, Timetable};
use trip_replay::Trace;

/// A moment that has a text.
#[derive(Clone, Copy)]
pub struct Printable {
    /// The moment.
    pub moment: Moment,
    /// That it is before the year 10000.
    pub ghost early: { moment.0 ≤ last_printable },
}

/// A query over a timetable. Its places have names there, and its moments have texts.
#[derive(Clone, Copy)]
pub struct NamedQuery<'a> {
    /// The timetable.
    pub timetable: &'a Timetable,
    /// The query.
    pub query: Query,
    /// That its source has a name.
    pub ghost source_named: { query.source.0 < length timetable.now.names.places },
    /// That its target has one.
    pub ghost target_named: { query.target.0 < length timetable.now.names.places },
    /// That its start has a text.
    pub ghost start: { query.start.0 ≤ last_printable },
    /// That its deadline has one.
    pub ghost deadline: { query.deadline.0 ≤ last_printable },
}

impl<'a> NamedQuery<'a> {
    /// The name of its source.
    pub fn source(&self) -> &'a str
        ensures { result.now ≡ place_name self.now.timetable.now.names self.now.query.source.0 }
    {
        self.timetable.names.place_name(self.query.source)
    }

    /// The name of its target.
    pub fn target(&self) -> &'a str
        ensures { result.now ≡ place_name self.now.timetable.now.names self.now.query.target.0 }
    {
        self.timetable.names.place_name(self.query.target)
    }
}

/// A trip over the network of a problem, which arrives at a moment that has a text.
#[derive(Clone, Copy)]
pub struct PrintableTrip<'a> {
    /// The problem.
    pub problem: &'a Problem,
    /// The trip.
    pub trace: &'a Trace,
    /// That its rides are of the network.
    pub ghost rides: { All (IsRidden problem.now.timetable.network) trace.now.rides },
    /// That its arrival has a text.
    pub ghost arrival: { trace.now.arrival.0 ≤ last_printable },
}
