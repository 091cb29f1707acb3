//! What a folder of GTFS tables holds.
ghost use Rattle.std.specs.Prelude.{length};
ghost use Rattle.change_times.specs.Changes.{LinksComeFrom};

use change_times::Changes;
use gtfs_tables::Feed;
use service_days::Services;

/// When the services of a feed run, and how one changes at its places.
#[derive(Drop)]
pub(crate) struct FeedRules {
    pub services: Services,
    pub changes: Changes,
}

/// What a folder of GTFS tables holds.
pub(crate) struct FeedTables {
    pub feed: Feed,
    pub rules: FeedRules,
    pub ghost links: { LinksComeFrom (length feed.stop_ids) rules.changes },
}

impl Drop for FeedTables {
    /// Drops its parts here, so that a caller drops one value.
    fn drop(self) {
        let FeedTables { feed, rules } = self;
    }
}
