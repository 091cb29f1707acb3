//! A feed.
ghost use Rattle.std.specs.Prelude.{◌≡◌};
ghost use Rattle.feed_lists.specs.ListBounds.{most_stops, most_trips};

use crate::lists::{FeedLists, load_lists};
use crate::times::{TripTimes, load_times};
use csv_rows::{FeedFault, Limits};
use file_ports::Files;
use plan_model::{HashKey, PlaceId, TextList};
use std::alloc::Global;
use std::marker::Model;
use stop_times::StopRow;
use trip_frequencies::FrequencyRow;

/// The stops, trips, stop times and frequencies of a feed (GTFS Schedule reference). A time counts in seconds from noon
/// minus twelve hours of the service day.
pub struct Feed {
    lists: FeedLists,
    times: TripTimes,
}

impl Drop for Feed {
    /// Drops its parts here, so that a caller drops one value.
    fn drop(self) {
        let Feed { lists, times } = self;
    }
}

impl Model for Feed {
    ghost use Rattle.gtfs_tables.specs.Feeds.{FeedParts};

    ghost Value = { FeedParts };

    ghost use Rattle.gtfs_tables.specs.FeedInside.{feed_parts_of, IsWholeFeed};

    ghost view = { feed_parts_of };

    ghost invariant = { IsWholeFeed };
}

impl Feed {
    ghost use Rattle.std.specs.Prelude.{◌≡◌, ◌<◌, ◌≤◌, Some, IfSome, length, slice_get, slice_index, slice_index_or, option_map, []};
    ghost use Rattle.csv_rows.specs.Ids.{AreIds};
    ghost use Rattle.table_files.specs.Reading.{ReadsWanted};
    ghost use Rattle.csv_rows.specs.Tables.{number_in};
    ghost use Rattle.gtfs_tables.specs.Feeds.{tables_in, IsFeedOf, IsFeedTableFault, IsSoundFeed};
    ghost use Rattle.gtfs_tables.specs.Timed.{AreRepeating, IsSmall, IsTimed};

    /// Reads the tables `stops.txt`, `routes.txt`, `trips.txt`, `stop_times.txt` and `frequencies.txt` of a folder, in this
    /// order, or the first of their faults. `load_stops`, `load_routes`, `load_trips`, `read_stop_times` and
    /// `load_frequencies` say which faults a table may have and in which order they come. The files stay as they are.
    pub fn read<F: Files>(
        alloc: Global,
        files: &mut F,
        folder: &str,
        limits: &Limits,
    ) -> Result<Feed, FeedFault>
        ensures { ReadsWanted folder.now (F.state files.old) (F.state files.new)
            (λ m. tables_in m folder.now limits.now) IsFeedOf IsFeedTableFault result }
    {
        let lists = load_lists(alloc, files, folder, limits)?;
        let times = load_times(alloc, files, folder, limits, &lists)?;
        Ok(Feed { lists, times })
    }

    /// How many stops there are.
    pub fn stop_count(&self) -> u32
        ensures count { result ≡ length self.now.stop_ids }
        ensures names { AreIds self.now.stop_ids }
        ensures few { length self.now.stop_ids ≤ most_stops }
        ensures sound { IsSoundFeed self.now }
    {
        self.lists.stops.ids.len()
    }

    /// The key by which the ids of the stops are hashed.
    pub fn hash_key(&self) -> HashKey {
        self.lists.stops.ids.key()
    }

    /// The id of a stop.
    pub fn stop_id(&self, stop: u32) -> &str
        requires { stop < length self.now.stop_ids }
        ensures { slice_get self.now.stop_ids stop ≡ Some result.now }
    {
        self.lists.stops.ids.get(stop)
    }

    /// The ids of the stops, in the order of their numbers.
    pub fn stops(&self) -> &TextList
        ensures { result.now ≡ self.now.stop_ids }
    {
        self.lists.stops.ids.texts()
    }

    /// The place of a stop: its parent station, or else itself.
    pub fn place(&self, stop: u32) -> PlaceId
        requires { stop < length self.now.stop_ids }
        ensures place { result.0 ≡ slice_index self.now.places stop }
        ensures in_range { result.0 < length self.now.stop_ids }
    {
        PlaceId(self.lists.stops.places[stop as usize])
    }

    /// The stop with this id; `None` if no row of `stops.txt` has it. Each id is looked at in turn.
    pub fn stop_of(&self, id: &str) -> Option<u32>
        ensures { result ≡ number_in id.now self.now.stop_ids }
    {
        self.lists.stops.ids.number(id)
    }

    /// The place of the stop with this id: its parent station, or else itself; `None` if no row of `stops.txt` has the id.
    /// Each id is looked at in turn.
    pub fn place_of(&self, id: &str) -> Option<PlaceId>
        ensures place { option_map (λ p. p.0) result
            ≡ option_map (λ stop. slice_index self.now.places stop) (number_in id.now self.now.stop_ids) }
        ensures in_range { IfSome result (λ p. p.0 < length self.now.stop_ids) }
    {
        let stop = self.lists.stops.ids.number(id)?;
        Some(self.place(stop))
    }

    /// How many trips there are.
    pub fn trip_count(&self) -> u32
        ensures count { result ≡ length self.now.trip_ids }
        ensures names { AreIds self.now.trip_ids }
        ensures few { length self.now.trip_ids ≤ most_trips }
        ensures sound { IsSoundFeed self.now }
        ensures timed { IsTimed self.now }
        ensures repeats { AreRepeating self.now }
        ensures small { IsSmall self.now }
    {
        self.lists.trips.ids.len()
    }

    /// The id of a trip.
    pub fn trip_id(&self, trip: u32) -> &str
        requires { trip < length self.now.trip_ids }
        ensures { slice_get self.now.trip_ids trip ≡ Some result.now }
    {
        self.lists.trips.ids.get(trip)
    }

    /// The service of a trip.
    pub fn service_of(&self, trip: u32) -> &str
        requires { trip < length self.now.trip_ids }
        ensures { slice_get self.now.services trip ≡ Some result.now }
    {
        self.lists.trips.of_trips.services[trip as usize].as_str()
    }

    /// The route type of a trip.
    pub fn route_type(&self, trip: u32) -> u16
        requires { trip < length self.now.trip_ids }
        ensures { result ≡ slice_index self.now.route_types trip }
    {
        self.lists.trips.of_trips.types[trip as usize]
    }

    /// The ids of the routes, in the order of their numbers.
    pub fn routes(&self) -> &TextList
        ensures { result.now ≡ self.now.route_ids }
    {
        self.lists.routes.ids.texts()
    }

    /// The number of the route of a trip.
    pub fn route(&self, trip: u32) -> u32
        requires { trip < length self.now.trip_ids }
        ensures number { result ≡ slice_index self.now.routes trip }
        ensures inside { result < length self.now.route_ids }
    {
        self.lists.trips.of_trips.routes[trip as usize]
    }

    /// The id of the route of a trip.
    pub fn route_id(&self, trip: u32) -> &str
        requires { trip < length self.now.trip_ids }
        ensures { result.now ≡ slice_index_or self.now.route_ids (slice_index self.now.routes trip) [] }
    {
        self.lists.routes.ids.get(self.route(trip))
    }

    /// The kept rows of a trip, in rising order of `stop_sequence`.
    pub fn stop_times(&self, trip: u32) -> &[StopRow]
        requires { trip < length self.now.trip_ids }
        ensures { result.now ≡ slice_index_or self.now.stop_times trip [] }
    {
        self.times.visits.of_trip(trip)
    }

    /// The rows of `frequencies.txt` by which a trip repeats, in the order of the file. A trip that does not repeat has none.
    pub fn frequencies(&self, trip: u32) -> &[FrequencyRow]
        requires { trip < length self.now.trip_ids }
        ensures { result.now ≡ slice_index_or self.now.frequencies trip [] }
    {
        self.times.repeats.rows_of(trip)
    }
}
