//! Lines between hubs, and when their runs are at their places.
ghost use Rattle.std.specs.Prelude.{◌≡◌, ◌*◌, ◌<◌, ◌≤◌};
ghost use Rattle.feed_maker.specs.Names.{hop_of, seconds_at, name_at, stop_name};

use crate::names::{Stop, Trip};

/// The hubs.
pub const HUBS: u32 = 10;

/// The places of a line: the hubs at its ends, and the stops of its own.
pub const PLACES: u32 = 21;

/// The last place of a line, counted from 0.
pub const LAST: u32 = 20;

/// The runs of a line on a day.
pub const RUNS: u32 = 96;

/// As many lines as a made timetable has.
#[derive(Clone, Copy)]
pub struct Lines {
    pub count: u32,
    pub ghost few: { count ≤ 400 },
}

/// A line, by its number.
#[derive(Clone, Copy)]
pub struct Line {
    pub number: u32,
    pub ghost few: { number ≤ 400 },
}

/// A place of a line, counted from 0.
#[derive(Clone, Copy)]
pub struct Place {
    pub number: u32,
    pub ghost inside: { number ≤ 20 },
}

/// The stop at a position of a line.
#[tactic(auto, unfolding(crate::specs::Names::name_at))]
pub fn stop_at(line: Line, place: Place) -> Stop
    ensures { stop_name result ≡ name_at line.number place.number }
{
    let line = line.number;
    let place = place.number;
    if place == 0 {
        Stop::Hub(line % HUBS)
    } else if place == LAST {
        Stop::Hub((line + 1 + line / 10 % 3) % HUBS)
    } else {
        Stop::Own(line, place)
    }
}

/// The seconds from one place of a line to the next.
#[tactic(auto, unfolding(crate::specs::Names::hop_of))]
fn hop_of(line: u32) -> u32
    ensures value { result ≡ hop_of line }
    ensures bound { result ≤ 90 }
{
    60 + 5 * (line % 7)
}

/// The seconds that a run takes to a place of its line.
fn ride_to(line: u32, place: Place) -> u32
    ensures value { result ≡ place.number * hop_of line }
    ensures bound { result ≤ 1800 }
{
    place.number * hop_of(line)
}

/// The seconds of the service day at which a run is at a position of its line.
#[tactic(auto, unfolding(crate::specs::Names::seconds_at))]
pub fn seconds_at(trip: Trip, place: Place) -> u32
    ensures value { result ≡ seconds_at trip.line.number trip.run place.number }
    ensures bound { result < 90000 }
{
    let line = trip.line.number;
    900 * trip.run + 35 * line % 900 + ride_to(line, place)
}
