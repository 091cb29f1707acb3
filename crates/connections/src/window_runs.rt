//! The runs of a window, with the feed that they are of.
ghost use Rattle.std.specs.Prelude.{◌≤◌, length};
ghost use Rattle.plan_model.specs.Bounds.{most_connections};
ghost use Rattle.delay_table.specs.DelayLists.{DelayLists};
ghost use Rattle.connections.specs.FeedRuns.{IsRunOfFeed, AreRunsOf, HaveConnections};
ghost use Rattle.connections.specs.FeedNetworks.{connections_below};

use crate::feed_window::FeedWindow;
use crate::runs::Run;
use gtfs_tables::Feed;

/// A run of a feed.
#[derive(Clone, Copy)]
pub(crate) struct FeedRun<'a> {
    /// The feed.
    pub(crate) feed: &'a Feed,
    /// The run.
    pub(crate) run: Run,
    pub(crate) ghost of_feed: { IsRunOfFeed feed.now run },
}

/// Runs of a feed, none of them twice, each of which has a connection in a window. With any delays, their connections are no
/// more than a network may have.
#[derive(Clone, Copy)]
pub(crate) struct WindowRuns<'a> {
    /// The feed and the window.
    pub(crate) trips: &'a FeedWindow<'a>,
    /// The runs.
    pub(crate) list: &'a [Run],
    pub(crate) ghost apart: { AreRunsOf trips.now.feed.now list.now },
    pub(crate) ghost some: { HaveConnections trips.now.feed.now trips.now.window list.now },
    pub(crate) ghost few: { length list.now ≤ most_connections },
    pub(crate) ghost few_connections: { (delays : DelayLists) → length (connections_below trips.now.feed.now delays
        trips.now.window list.now (length list.now)) ≤ most_connections },
}
