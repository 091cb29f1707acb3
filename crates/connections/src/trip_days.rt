//! The trips of a feed, and the days on which the service of each is active.
ghost use Rattle.std.specs.Prelude.{◌≡◌, ◌<◌, length, IfOk};
ghost use Rattle.connections.specs.Steps.{is_active_trip};
ghost use Rattle.connections.specs.TripDays.{service_numbers};

use crate::origins::ServiceDay;
use gtfs_tables::Feed;
use plan_model::NoMemory;
use service_days::Services;
use std::alloc::Global;
use std::marker::Model;
use text_index::TextIndex;

/// A feed and its services, which are found by name once: the number of the service of each trip, where it is named.
#[derive(Drop)]
pub(crate) struct TripDays<'a> {
    feed: &'a Feed,
    services: &'a Services,
    numbers: Vec<Option<u32>>,
}

impl<'a> Model for TripDays<'a> {
    ghost use Rattle.std.specs.Prelude.{◌≡◌};
    ghost use Rattle.connections.specs.TripDays.{FeedDays, service_numbers};

    ghost Value = { FeedDays };

    ghost view = { λ s. record { feed = s.feed.now; services = s.services.now } };

    ghost invariant = { λ s. s.numbers.items ≡ service_numbers s.feed.now s.services.now };
}

/// The number of the service of each trip.
#[tactic(auto, using(crate::proofs::JoinLemmas::list_steps))]
fn numbers_of(alloc: Global, feed: &Feed, services: &Services) -> Result<Vec<Option<u32>>, NoMemory>
    ensures { IfOk result (λ numbers. numbers.items ≡ service_numbers feed.now services.now) }
{
    let index = TextIndex::of(alloc, feed.hash_key(), services.services())?;
    let mut numbers: Vec<Option<u32>> = Vec::new(alloc);
    for trip in 0..feed.trip_count() {
        numbers.push(index.number(feed.service_of(trip)))?;
    }
    Ok(numbers)
}

impl<'a> TripDays<'a> {
    /// The trips of a feed with these services.
    pub(crate) fn of(
        alloc: Global,
        feed: &'a Feed,
        services: &'a Services,
    ) -> Result<TripDays<'a>, NoMemory>
        ensures feed { IfOk result (λ days. days.feed ≡ feed.now) }
        ensures services { IfOk result (λ days. days.services ≡ services.now) }
    {
        let numbers = numbers_of(alloc, feed, services)?;
        Ok(TripDays {
            feed,
            services,
            numbers,
        })
    }

    /// The feed.
    pub(crate) fn feed(&self) -> &'a Feed
        ensures { result.now ≡ self.now.feed }
    {
        self.feed
    }

    /// Whether the service of a trip is active on a day.
    pub(crate) fn is_active(&self, trip: u32, day: ServiceDay) -> bool
        requires { trip < length self.now.feed.trip_ids }
        ensures { result ≡ is_active_trip self.now.feed self.now.services day trip }
    {
        self.services
            .runs_at(self.numbers[trip as usize], day.number)
    }
}
