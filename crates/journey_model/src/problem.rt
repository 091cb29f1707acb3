//! A timetable that a command asks about, and the ends of a journey in it.
ghost use Rattle.std.specs.Prelude.{◌≡◌, ◌<◌, length};

use plan_model::{PlaceId, Timetable};

/// A timetable with its delays, and the ends of a journey in it.
pub struct Problem {
    /// The connections, the change times and the classes of delays, with the names of places and runs.
    pub timetable: Timetable,
    /// Where the journey begins.
    pub source: PlaceId,
    /// Where the journey ends.
    pub target: PlaceId,
    /// That the source is a place of the timetable.
    pub ghost source_in: { source.0 < length timetable.network.change },
    /// That the target is a place of the timetable.
    pub ghost target_in: { target.0 < length timetable.network.change },
}

impl Drop for Problem {
    /// Drops its parts here, so that a caller drops one value.
    fn drop(self) {
        let Problem {
            timetable,
            source,
            target,
        } = self;
    }
}

/// The ends of a journey.
#[derive(Clone, Copy)]
pub struct Ends {
    /// Where it begins.
    pub source: PlaceId,
    /// Where it ends.
    pub target: PlaceId,
}

impl Problem {
    /// The problem of a journey between these ends.
    pub fn between(ends: Ends, timetable: Timetable) -> Problem
        requires source { ends.source.0 < length timetable.network.change }
        requires target { ends.target.0 < length timetable.network.change }
        ensures timetable { result.timetable ≡ timetable }
        ensures source { result.source ≡ ends.source }
        ensures target { result.target ≡ ends.target }
    {
        Problem {
            timetable,
            source: ends.source,
            target: ends.target,
        }
    }
}
