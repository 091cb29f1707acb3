//! The stops of a feed, found by their ids.
ghost use Rattle.std.specs.Prelude.{◌≡◌, ◌<◌, length, slice_index, option_map, IfOk, IfSome};
ghost use Rattle.csv_rows.specs.Tables.{number_in};

use gtfs_tables::Feed;
use plan_model::{NoMemory, PlaceId};
use std::alloc::Global;
use std::marker::Model;
use text_index::TextIndex;

/// A feed, and the numbers of its stops by their ids.
#[derive(Drop)]
pub(crate) struct FeedStops<'a> {
    feed: &'a Feed,
    numbers: TextIndex<'a>,
}

impl<'a> Model for FeedStops<'a> {
    ghost use Rattle.std.specs.Prelude.{◌≡◌};
    ghost use Rattle.gtfs_tables.specs.Feeds.{FeedParts};

    ghost Value = { FeedParts };

    ghost view = { λ s. s.feed.now };

    ghost invariant = { λ s. s.numbers ≡ s.feed.now.stop_ids };
}

impl<'a> FeedStops<'a> {
    /// The stops of a feed.
    pub(crate) fn of(alloc: Global, feed: &'a Feed) -> Result<FeedStops<'a>, NoMemory>
        ensures { IfOk result (λ stops. stops ≡ feed.now) }
    {
        let numbers = TextIndex::of(alloc, feed.hash_key(), feed.stops())?;
        Ok(FeedStops { feed, numbers })
    }

    /// The place of the stop with this id: its parent station, or else itself.
    pub(crate) fn place_of(&self, id: &str) -> Option<PlaceId>
        ensures place { option_map (λ p. p.0) result
            ≡ option_map (λ stop. slice_index self.now.places stop) (number_in id.now self.now.stop_ids) }
        ensures in_range { IfSome result (λ p. p.0 < length self.now.stop_ids) }
    {
        let stop = self.numbers.number(id)?;
        Some(self.feed.place(stop))
    }
}
