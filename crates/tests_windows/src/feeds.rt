//! The window of a feed from some files.
ghost use Rattle.std.specs.Prelude.{◌<◌, ◌≤◌, length, IfSome};
ghost use Rattle.plan_model.specs.Bounds.{first_start, last_start, most_connections};
ghost use Rattle.change_times.specs.Changes.{LinksComeFrom};

use change_times::Changes;
use connections::{WindowFault, cut};
use csv_rows::{Limits, Rows};
use delay_table::DelayTable;
use file_ports::SteadyFiles;
use gtfs_tables::Feed;
use plan_model::{Moment, Names, Network};
use service_days::Services;
use std::alloc::Global;

/// 1970-01-08T00:00:00, from which the seconds of the tests count.
pub(crate) const FIRST_START: u64 = 7 * 86_400;

/// 2024-06-03T00:00:00, a Monday.
pub(crate) const MONDAY: u32 = 19_870 * 86_400;

fn changes_of(alloc: Global, files: &mut SteadyFiles, feed: &Feed) -> Option<Changes>
    ensures { IfSome result (LinksComeFrom (length feed.now.stop_ids)) }
{
    Changes::read(alloc, files, "feed", feed, &Limits::standard()).ok()
}

fn delays_of(alloc: Global) -> Option<DelayTable> {
    let rows = Rows::read(alloc, b"class,delay,weight\n*,0,10000\n").ok()?;
    DelayTable::read(alloc, &rows).ok()
}

/// The window of a feed with its services and changes from a start on.
fn window_with(
    alloc: Global,
    feed: &Feed,
    services: &Services,
    changes: &Changes,
    start: Moment,
    horizon: u32,
    limits: &Limits,
) -> Option<Result<(Network, Names), WindowFault>>
    requires early { first_start ≤ start.0 }
    requires late { start.0 ≤ last_start }
    requires horizon { horizon ≤ 72 }
    requires most { limits.now.connections ≤ most_connections }
    requires links { LinksComeFrom (length feed.now.stop_ids) changes.now }
{
    let delays = delays_of(alloc)?;
    Some(cut(
        alloc, feed, services, changes, &delays, start, horizon, limits,
    ))
}

/// The window of a feed from a start on, if its other tables are read.
fn window_of(
    alloc: Global,
    files: &mut SteadyFiles,
    feed: &Feed,
    start: Moment,
    horizon: u32,
    most: u64,
) -> Option<Result<(Network, Names), WindowFault>>
    requires early { first_start ≤ start.0 }
    requires late { start.0 ≤ last_start }
    requires horizon { horizon ≤ 72 }
    requires most { most ≤ most_connections }
{
    let mut limits = Limits::standard();
    limits.connections = most;
    let services = Services::read(alloc, files, "feed", &Limits::standard()).ok()?;
    let changes = changes_of(alloc, files, feed)?;
    window_with(alloc, feed, &services, &changes, start, horizon, &limits)
}

/// The window of a feed from this many seconds after 1970-01-08T00:00:00 on, if its tables are read.
pub(crate) fn window(
    alloc: Global,
    files: &mut SteadyFiles,
    seconds: u32,
    horizon: u32,
    most: u64,
) -> Option<Result<(Network, Names), WindowFault>>
    requires { most ≤ most_connections }
{
    let feed = Feed::read(alloc, files, "feed", &Limits::standard()).ok()?;
    let start = Moment(FIRST_START + u64::from(seconds));
    window_of(alloc, files, &feed, start, horizon.min(72), most)
}
