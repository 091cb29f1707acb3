//! The moments from which the times of runs count.
ghost use Rattle.std.specs.Prelude.{◌≡◌};
ghost use Rattle.connections.specs.Origins.{origin_of_day, moment_of};

use plan_model::SECONDS_PER_DAY;

/// The seconds of a day.
const DAY: i64 = SECONDS_PER_DAY as i64;

/// A service day.
#[derive(Clone, Copy)]
pub(crate) struct ServiceDay {
    /// Its number, which counts from 1970-01-01 and is negative before it.
    pub(crate) number: i32,
}

/// The moment from which the times of a run count: this many seconds after the start of a service day.
#[derive(Clone, Copy)]
pub(crate) struct Origin {
    /// The service day.
    pub(crate) day: ServiceDay,
    /// The seconds after the start of the service day.
    pub(crate) shift: i32,
}

impl Origin {
    /// The start of a service day.
    pub(crate) fn of_day(day: ServiceDay) -> Origin
        ensures { result ≡ origin_of_day day }
    {
        Origin { day, shift: 0 }
    }

    /// This many seconds later, in seconds since 1970-01-01.
    pub(crate) fn plus(self, seconds: u32) -> i64
        ensures { result ≡ moment_of self seconds }
    {
        DAY * i64::from(self.day.number) + i64::from(self.shift) + i64::from(seconds)
    }
}
