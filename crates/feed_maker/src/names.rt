//! What is written for stops, routes, trips and times.
ghost use Rattle.std.specs.Prelude.{◌≡◌, ◌+◌, ◌<◌, ◌++◌, Some, codes};
ghost use Rattle.feed_maker.specs.Names.{route_name, trip_name, time_text};

use crate::lines::Line;
use std::fmt;

/// A stop of the feed.
#[derive(Clone, Copy)]
pub enum Stop {
    /// A hub, by its number.
    Hub(u32),
    /// A stop of a line's own, by the line and the place on it.
    Own(u32, u32),
}

impl fmt::Display for Stop {
    ghost use Rattle.feed_maker.specs.Names.{stop_name};

    ghost output = { λ stop. Some (stop_name stop) };

    fn fmt<W: fmt::Write>(&self, f: &mut fmt::Formatter<W>) -> fmt::Result {
        match *self {
            Stop::Hub(hub) => write!(f, "H{hub}"),
            Stop::Own(line, place) => write!(f, "L{line}_{place}"),
        }
    }
}

/// The route of a line.
#[derive(Clone, Copy)]
pub struct Route(pub u32);

impl fmt::Display for Route {
    ghost output = { λ route. Some (route_name route.0) };

    fn fmt<W: fmt::Write>(&self, f: &mut fmt::Formatter<W>) -> fmt::Result {
        let line = self.0;
        write!(f, "R{line}")
    }
}

/// A run of a line.
#[derive(Clone, Copy)]
pub struct Trip {
    pub line: Line,
    pub run: u32,
    pub ghost daily: { run < 96 },
}

impl fmt::Display for Trip {
    ghost output = { λ trip. Some (trip_name trip.line.number trip.run) };

    fn fmt<W: fmt::Write>(&self, f: &mut fmt::Formatter<W>) -> fmt::Result {
        let line = self.line.number;
        let run = self.run;
        write!(f, "T{line}_{run}")
    }
}

/// A digit, as text.
fn digit(number: u32) -> u8
    requires { number < 10 }
    ensures { result ≡ 48 + number }
{
    b'0' + number as u8
}

/// A time of the service day, in seconds, below 100 hours, and a comma after it.
pub fn clock(seconds: u32) -> [u8; 9]
    requires { seconds < 360000 }
    ensures { result ≡ time_text seconds ++ codes "," }
{
    let hours = seconds / 3600;
    let minutes = seconds / 60 % 60;
    let seconds = seconds % 60;
    [
        digit(hours / 10),
        digit(hours % 10),
        b':',
        digit(minutes / 10),
        digit(minutes % 10),
        b':',
        digit(seconds / 10),
        digit(seconds % 10),
        b',',
    ]
}
