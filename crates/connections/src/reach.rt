//! The service days on which trips may run in a window.
ghost use Rattle.std.specs.Prelude.{◌≡◌, ℕ, ◌<◌, ◌≤◌, length, false, IfSome};
ghost use Rattle.gtfs_tables.specs.Timed.{kept_at};
ghost use Rattle.connections.specs.Steps.{DepartOnDay};
ghost use Rattle.connections.specs.FeedRuns.{AreOverBy, NoneRuns};

use crate::feed_window::FeedWindow;
use crate::origins::{Origin, ServiceDay};
use gtfs_tables::{Feed, StopRow};

/// The last departure of a trip with these kept rows, in seconds of the service day; 0 if it has none.
fn last_departure(rows: &[StopRow]) -> u32
    requires { DepartOnDay rows.now }
    ensures { (k : ℕ) → k < length rows.now → (kept_at rows.now k).departure ≤ result }
{
    let count = rows.len();
    if count == 0 {
        return 0;
    }
    rows[count - 1].departure
}

/// The second of the service day after which no trip departs; `None` if some trip repeats.
pub(crate) fn latest_of(feed: &Feed) -> Option<u32>
    ensures { IfSome result (AreOverBy feed.now (length feed.now.trip_ids)) }
{
    let mut latest = 0;
    for trip in 0..feed.trip_count() {
        if !feed.frequencies(trip).is_empty() {
            return None;
        }
        latest = last_departure(feed.stop_times(trip)).max(latest);
    }
    Some(latest)
}

/// Whether some trip may run in the window on a service day: not if the window ends before that day, or begins after the last
/// departure of all trips then, and no trip repeats.
pub(crate) fn may_run_on(trips: &FeedWindow<'_>, day: ServiceDay) -> bool
    ensures { result ≡ false → NoneRuns trips.now.feed.now trips.now.window day }
{
    let Some(latest) = trips.latest else {
        return true;
    };
    let origin = Origin::of_day(day);
    !trips.window.ends_before(origin.plus(0)) && !trips.window.starts_after(origin.plus(latest))
}
