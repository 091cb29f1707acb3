//! A window of time.
ghost use Rattle.std.specs.Prelude.{◌≡◌, ◌≤◌, pos, int_lt};
ghost use Rattle.plan_model.specs.Bounds.{first_start, last_start};
ghost use Rattle.connections.specs.Window.{window_of, holds, most_hours};

use plan_model::SECONDS_PER_HOUR;

/// A number of hours from a start on, at which a journey may start.
#[derive(Clone, Copy)]
pub(crate) struct Horizon {
    /// The start, in seconds since 1970-01-01.
    pub(crate) start: u64,
    /// How many hours it has: 72 at most.
    pub(crate) hours: u32,
    pub(crate) ghost early: { first_start ≤ start },
    pub(crate) ghost late: { start ≤ last_start },
    pub(crate) ghost few: { hours ≤ most_hours },
}

impl Horizon {
    /// The window.
    pub(crate) fn window(self) -> Window
        ensures { result ≡ window_of self.start self.hours }
    {
        Window {
            start: self.start,
            end: self.start + SECONDS_PER_HOUR * u64::from(self.hours),
        }
    }
}

/// The moments from a start to an end, both included, in seconds since 1970-01-01.
#[derive(Clone, Copy)]
pub(crate) struct Window {
    pub(crate) start: u64,
    pub(crate) end: u64,
}

impl Window {
    /// Whether a moment lies in the window, which may be one before 1970.
    pub(crate) fn holds(self, moment: i64) -> bool
        ensures { result ≡ holds self moment }
    {
        if moment < 0 {
            return false;
        }
        let moment = moment.unsigned_abs();
        self.start <= moment && moment <= self.end
    }

    /// Whether the window is over before a moment.
    pub(crate) fn ends_before(self, moment: i64) -> bool
        ensures { result ≡ int_lt (pos self.end) moment }
    {
        moment >= 0 && self.end < moment.unsigned_abs()
    }

    /// Whether the window begins after a moment.
    pub(crate) fn starts_after(self, moment: i64) -> bool
        ensures { result ≡ int_lt moment (pos self.start) }
    {
        moment < 0 || moment.unsigned_abs() < self.start
    }
}
