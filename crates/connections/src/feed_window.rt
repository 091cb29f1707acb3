//! The trips of a feed in a window of time.
ghost use Rattle.std.proofs.Props.{props};
ghost use Rattle.std.specs.Prelude.{◌≡◌, ℕ, ◌<◌, ◌≤◌, ◌^◌, length, IfSome};
ghost use Rattle.csv_rows.specs.Ids.{AreIds};
ghost use Rattle.plan_model.specs.Network.{AreLinksInto};
ghost use Rattle.csv_rows.specs.Limits.{standard};
ghost use Rattle.change_times.specs.Changes.{links_of};
ghost use Rattle.gtfs_tables.specs.Timed.{AreRepeats, AreRepeating, IsSmall, IsTimed, rows_of};
ghost use Rattle.connections.specs.Window.{IsWindow, window_of, day_at};
ghost use Rattle.connections.specs.Steps.{DepartOnDay, is_active_trip};
ghost use Rattle.connections.specs.TripRuns.{frequencies_of};
ghost use Rattle.connections.specs.FeedRuns.{AreOverBy};

use crate::origins::ServiceDay;
use crate::reach::latest_of;
use crate::trip_days::TripDays;
use crate::window::{Horizon, Window};
use change_times::Changes;
use gtfs_tables::{Feed, FrequencyRow, StopRow};
use plan_model::{PlaceId, SECONDS_PER_DAY};

/// How many service days a window has: from 14 before the date of its start to 3 after it.
pub(crate) const DAYS: u8 = 18;

/// How many of them are before the date of its start.
const DAYS_BEFORE: i32 = 14;

/// The trips of a feed with the days on which their services are active and the changes at its places, and the window in which
/// their runs are looked for.
#[derive(Clone, Copy)]
pub(crate) struct FeedWindow<'a> {
    /// The feed.
    pub(crate) feed: &'a Feed,
    /// The same feed with the days of its services.
    pub(crate) days: &'a TripDays<'a>,
    /// The change times and links of its places.
    pub(crate) changes: &'a Changes,
    /// The window.
    pub(crate) window: Window,
    /// How many stops there are.
    pub(crate) stops: u32,
    /// How many trips there are.
    pub(crate) trips: u32,
    /// The second of the service day after which no trip departs; `None` if some trip repeats.
    pub(crate) latest: Option<u32>,
    pub(crate) ghost same: { days.now.feed ≡ feed.now },
    pub(crate) ghost bounds: { IsWindow window },
    pub(crate) ghost stops_counted: { stops ≡ length feed.now.stop_ids },
    pub(crate) ghost stop_ids: { AreIds feed.now.stop_ids },
    pub(crate) ghost counted: { trips ≡ length feed.now.trip_ids },
    pub(crate) ghost over: { IfSome latest (AreOverBy feed.now (length feed.now.trip_ids)) } by { Prim.hlevel props },
    pub(crate) ghost few: { trips ≤ standard.trips },
    pub(crate) ghost small: { IsSmall feed.now },
    pub(crate) ghost trip_ids: { AreIds feed.now.trip_ids },
    pub(crate) ghost timed: { IsTimed feed.now },
    pub(crate) ghost repeating: { AreRepeating feed.now },
    pub(crate) ghost linked: { (to : ℕ) → AreLinksInto (2 ^ 32) to (links_of changes.now to) },
}

/// A trip of a feed.
#[derive(Clone, Copy)]
pub(crate) struct FeedTrip<'a> {
    /// The trips of the feed.
    pub(crate) trips: &'a FeedWindow<'a>,
    /// The number of the trip.
    pub(crate) number: u32,
    pub(crate) ghost inside: { number < length trips.now.feed.now.trip_ids },
}

/// A trip of a feed on a service day, and the window in which its runs are looked for.
#[derive(Clone, Copy)]
pub(crate) struct TripWindow<'a> {
    /// The kept rows of the trip.
    pub(crate) rows: &'a [StopRow],
    /// The rows of frequencies by which it repeats.
    pub(crate) frequencies: &'a [FrequencyRow],
    /// The service day.
    pub(crate) day: ServiceDay,
    /// The window.
    pub(crate) window: Window,
    pub(crate) ghost bounds: { IsWindow window },
    pub(crate) ghost departures: { DepartOnDay rows.now },
    pub(crate) ghost repeats: { AreRepeats frequencies.now },
}

impl<'a> FeedWindow<'a> {
    /// The trips of a feed in a window.
    pub(crate) fn new(
        days: &'a TripDays<'a>,
        changes: &'a Changes,
        horizon: Horizon,
    ) -> FeedWindow<'a>
        ensures feed { result.feed.now ≡ days.now.feed }
        ensures days { result.days.now ≡ days.now }
        ensures changes { result.changes.now ≡ changes.now }
        ensures window { result.window ≡ window_of horizon.start horizon.hours }
    {
        let feed = days.feed();
        let _links = changes.links_into(PlaceId(0));
        FeedWindow {
            feed,
            days,
            changes,
            window: horizon.window(),
            stops: feed.stop_count(),
            trips: feed.trip_count(),
            latest: latest_of(feed),
        }
    }

    /// The service day at an index, counted from the 14th day before the date of the start. The trips of those below
    /// `DAYS` may depart in the window.
    pub(crate) fn day(&self, d: u8) -> ServiceDay
        ensures { result ≡ day_at self.now.window d }
    {
        let start = (self.window.start / u64::from(SECONDS_PER_DAY)) as i32;
        ServiceDay {
            number: start + i32::from(d) - DAYS_BEFORE,
        }
    }
}

impl<'a> FeedTrip<'a> {
    /// Whether its service is active on a day.
    pub(crate) fn is_active(&self, day: ServiceDay) -> bool
        ensures { result ≡ is_active_trip self.now.trips.now.feed.now self.now.trips.now.days.now.services day
            self.now.number }
    {
        self.trips.days.is_active(self.number, day)
    }

    /// The trip on a service day.
    pub(crate) fn on(&self, day: ServiceDay) -> TripWindow<'a>
        ensures rows { result.rows.now ≡ rows_of self.now.trips.now.feed.now self.now.number }
        ensures frequencies { result.frequencies.now ≡ frequencies_of self.now.trips.now.feed.now self.now.number }
        ensures day { result.day ≡ day }
        ensures window { result.window ≡ self.now.trips.now.window }
    {
        let feed = self.trips.feed;
        TripWindow {
            rows: feed.stop_times(self.number),
            frequencies: feed.frequencies(self.number),
            day,
            window: self.trips.window,
        }
    }
}
