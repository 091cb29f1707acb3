//! The network of a feed in a window of time.
ghost use Rattle.std.specs.Prelude.{◌≡◌, ◌≢◌, ◌<◌, ◌≤◌, [], length, true, Some, None, OnOk, IfOk, IfErr};
ghost use Rattle.std.specs.Result.{result_err};
ghost use Rattle.csv_rows.specs.Lists.{list_below};
ghost use Rattle.change_times.specs.Changes.{place_seconds, links_of, LinksComeFrom};
ghost use Rattle.plan_model.specs.Bounds.{first_start, last_start, most_connections};
ghost use Rattle.plan_model.specs.NameLists.{NamesFit};
ghost use Rattle.connections.specs.Window.{most_hours};
ghost use Rattle.connections.specs.FeedNetworks.{connections_below, AreChanges, AreRunNames, IsNetworkOf};
ghost use Rattle.connections.specs.Cut.{IsNetworkFrom, connection_count, fault_from, window_fault};
ghost use Rattle.connections.specs.Counts.{count_in, entries_in};

use crate::counts::{Counted, most_ways, sum_window};
use crate::feed_window::FeedWindow;
use crate::names::names_of;
use crate::runs::runs_of;
use crate::trip_days::TripDays;
use crate::window::Horizon;
use crate::window_connections::connections_of;
use crate::window_runs::WindowRuns;
use change_times::Changes;
use csv_rows::Limits;
use delay_table::DelayTable;
use gtfs_tables::Feed;
use plan_model::{List, Moment, Names, Network, NoMemory, PlaceId, Way};
use service_days::Services;
use std::alloc::Global;

/// Why a window has no network.
#[derive(Clone, Copy, Debug, PartialEq, Eq)]
pub enum WindowFault {
    /// The count of connections, which passes the limit.
    TooMany(u64),
    /// The count of entries, which passes its limit: the pairs of a connection and a way into the place that it leaves.
    TooManyEntries(u64),
    /// There was no memory.
    NoMemory,
}

/// A window with the count of its connections, no more than a network may have.
#[derive(Clone, Copy)]
struct CountedWindow<'a> {
    trips: &'a FeedWindow<'a>,
    count: u64,
    ghost exact: { count ≡ count_in trips.now.feed.now trips.now.days.now.services trips.now.window },
    ghost few: { count ≤ most_connections },
}

/// How many connections a window has.
fn connections_within(trips: &FeedWindow<'_>) -> u64
    ensures { result ≡ count_in trips.now.feed.now trips.now.days.now.services trips.now.window }
{
    sum_window(trips, Counted::Connections)
}

impl<'a> CountedWindow<'a> {
    /// How many entries it has.
    fn entries(&self) -> u64
        ensures { result ≡ entries_in self.now.trips.now.feed.now self.now.trips.now.days.now.services
            self.now.trips.now.changes.now self.now.trips.now.window }
    {
        sum_window(self.trips, Counted::Entries)
    }

    /// Whether it cannot have too many entries, since few ways lead into each place.
    fn has_few_entries(&self, limits: &Limits) -> bool
        ensures { result ≡ true → entries_in self.now.trips.now.feed.now self.now.trips.now.days.now.services
            self.now.trips.now.changes.now self.now.trips.now.window ≤ limits.now.entries }
    {
        let most = most_ways(self.trips.changes, self.trips.stops);
        self.count.saturating_mul(most) <= limits.entries
    }
}

/// A window with the count of its connections, or its first fault.
fn count_within<'a>(
    trips: &'a FeedWindow<'a>,
    limits: &Limits,
) -> Result<CountedWindow<'a>, WindowFault>
    ensures trips { IfOk result (λ counted. counted.trips.now ≡ trips.now) }
    ensures fault { result_err result ≡ window_fault limits.now
        (count_in trips.now.feed.now trips.now.days.now.services trips.now.window)
        (entries_in trips.now.feed.now trips.now.days.now.services trips.now.changes.now trips.now.window) }
{
    let count = connections_within(trips);
    if limits.connections < count {
        return Err(WindowFault::TooMany(count));
    }
    let counted = CountedWindow { trips, count };
    if counted.has_few_entries(limits) {
        return Ok(counted);
    }
    let entries = counted.entries();
    if limits.entries < entries {
        return Err(WindowFault::TooManyEntries(entries));
    }
    Ok(counted)
}

/// The change seconds of each place.
#[tactic(auto, using(crate::proofs::JoinLemmas::list_steps))]
fn changes_of(alloc: Global, changes: &Changes, places: u32) -> Result<List<u32>, NoMemory>
    ensures seconds { IfOk result (λ change. change ≡ list_below (place_seconds changes.now) places) }
    ensures fit { IfOk result AreChanges }
{
    let mut change: List<u32> = List::new(alloc);
    for place in 0..places {
        change.push(changes.seconds(PlaceId(place)))?;
    }
    Ok(change)
}

/// The links into each place.
#[tactic(auto, using(crate::proofs::JoinLemmas::list_steps))]
fn links_of(alloc: Global, changes: &Changes, places: u32) -> Result<List<List<Way>>, NoMemory>
    ensures { IfOk result (λ links. links ≡ list_below (links_of changes.now) places) }
{
    let mut links: List<List<Way>> = List::new(alloc);
    for place in 0..places {
        let ways = Vec::from_slice(alloc, changes.links_into(PlaceId(place)))?;
        links.push(List::from_vec(ways))?;
    }
    Ok(links)
}

/// The network of the connections of these runs, without links, and its names.
fn network_of_runs(
    alloc: Global,
    runs: &WindowRuns<'_>,
    delays: &DelayTable,
    room: u64,
) -> Result<(Network, Names), NoMemory>
    ensures connections { IfOk result (λ r. r.0.connections ≡ connections_below runs.now.trips.now.feed.now
        delays.now runs.now.trips.now.window runs.now.list.now (length runs.now.list.now)) }
    ensures change { IfOk result (λ r. r.0.change ≡ list_below (place_seconds runs.now.trips.now.changes.now)
        (length runs.now.trips.now.feed.now.stop_ids)) }
    ensures classes { IfOk result (λ r. r.0.classes ≡ delays.now.classes) }
    ensures links { IfOk result (λ r. r.0.links ≡ []) }
    ensures places { IfOk result (λ r. r.1.places ≡ runs.now.trips.now.feed.now.stop_ids) }
    ensures runs { IfOk result (λ r.
        AreRunNames runs.now.trips.now.feed.now runs.now.list.now (length runs.now.list.now) r.1.runs) }
    ensures fit { IfOk result (λ r. NamesFit r.1 r.0) }
{
    let change = changes_of(alloc, runs.trips.changes, runs.trips.stops)?;
    let classes = delays.classes(alloc)?;
    let names = names_of(alloc, runs)?;
    let connections = connections_of(alloc, runs, delays, room)?;
    Ok((Network::from_parts(connections, change, classes), names))
}

/// The network of the connections that depart in the window, and the names of its places and runs. Room for all
/// connections is taken at once.
#[tactic(auto, using(crate::proofs::JoinLemmas::list_steps))]
fn network_of(
    alloc: Global,
    counted: &CountedWindow<'_>,
    delays: &DelayTable,
) -> Result<(Network, Names), NoMemory>
    requires { LinksComeFrom (length counted.now.trips.now.feed.now.stop_ids) counted.now.trips.now.changes.now }
    ensures network { IfOk result (λ r. IsNetworkOf counted.now.trips.now.feed.now
        counted.now.trips.now.days.now.services
        (list_below (place_seconds counted.now.trips.now.changes.now) (length counted.now.trips.now.feed.now.stop_ids))
        (list_below (links_of counted.now.trips.now.changes.now) (length counted.now.trips.now.feed.now.stop_ids))
        delays.now counted.now.trips.now.window r.0 r.1) }
    ensures fit { IfOk result (λ r. NamesFit r.1 r.0) }
    ensures count { IfOk result (λ r. length r.0.connections ≡ counted.now.count) }
{
    let trips = counted.trips;
    let found = runs_of(alloc, trips)?;
    let links = links_of(alloc, trips.changes, trips.stops)?;
    let list = found.as_slice();
    let runs = WindowRuns { trips, list };
    let (network, names) = network_of_runs(alloc, &runs, delays, counted.count)?;
    Ok((network.with_links(links), names))
}

/// The network of the connections of a feed that depart from the start to this many hours later, both ends included, over
/// the service days from 14 before the date of the start to 3 after it, and the names of its places and runs. A connection
/// goes with a run from one kept row of its trip to the next, on a day on which the trip's service is active. A trip
/// with no rows of frequencies has one run on such a day. One with such rows has a run for each of them and each departure
/// by it, from its start on, each headway later and before its end; the run leaves the first kept row then, and its other
/// times are as much sooner or later. It has no other run. Runs are numbered by service day, position of the trip, departure
/// from the first kept row and line of the row of frequencies. The name of a run is its service date as YYYYMMDD, a colon and
/// the id of the trip; if a row of frequencies starts it, an at sign, its departure from the first kept row in seconds of
/// the service day, a point and the line of the row come before the colon. The name of a place is the id of its stop. The
/// change seconds and the links are those of the changes.
/// `TooMany` carries the count of all connections, and comes if it exceeds `limits.connections`; otherwise `TooManyEntries`
/// carries that of the pairs of a connection and a way into the place that it leaves, and comes if it exceeds
/// `limits.entries`. Both are counted before anything is made.
pub fn cut(
    alloc: Global,
    feed: &Feed,
    services: &Services,
    changes: &Changes,
    delays: &DelayTable,
    start: Moment,
    horizon: u32,
    limits: &Limits,
) -> Result<(Network, Names), WindowFault>
    requires early { first_start ≤ start.0 }
    requires late { start.0 ≤ last_start }
    requires horizon { horizon ≤ most_hours }
    requires links { LinksComeFrom (length feed.now.stop_ids) changes.now }
    ensures network { IfOk result (λ r. IsNetworkFrom feed.now services.now changes.now delays.now
        start.0 horizon r.0 r.1) }
    ensures fit { IfOk result (λ r. NamesFit r.1 r.0) }
    ensures count { IfOk result (λ r. length r.0.connections
        ≡ connection_count feed.now services.now start.0 horizon) }
    ensures none { OnOk result
        (fault_from limits.now feed.now services.now changes.now start.0 horizon ≡ None) }
    ensures fault { IfErr result (λ f. f ≢ WindowFault.NoMemory
        → fault_from limits.now feed.now services.now changes.now start.0 horizon ≡ Some f) }
{
    let days = TripDays::of(alloc, feed, services)?;
    let hours = Horizon {
        start: start.0,
        hours: horizon,
    };
    let trips = FeedWindow::new(&days, changes, hours);
    let counted = count_within(&trips, limits)?;
    Ok(network_of(alloc, &counted, delays)?)
}

impl From<NoMemory> for WindowFault {
    ghost use Rattle.std.specs.Prelude.{◌≡◌};
    ghost use Rattle.connections.specs.declared.cuts.WindowFault.TheVariants.{NoMemory as NoMemoryFault};

    ghost from_gives = { λ _ fault. fault ≡ NoMemoryFault };

    fn from(_: NoMemory) -> Self {
        WindowFault::NoMemory
    }
}
