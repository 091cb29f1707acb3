//! A small feed, and what becomes of it where a table is another.

use csv_rows::{Column, FeedFault, Limits, Table};
use file_ports::SteadyFiles;
use gtfs_tables::{Feed, StopRow};
use plan_model::{NoMemory, PlaceId};
use std::alloc::Global;
use std::test::Fail;

const STOPS: &str = "\u{FEFF}stop_name,stop_id,parent_station,location_type
\"Old Town, Square\",\"S,1\",,1
Platform 1,S1a,\"S,1\",0
Platform 2,S1b,\"S,1\",
Airport,AIR,,
Mill,MIL,,0
Halfway,HLF,,0
";

const ROUTES: &str = "route_id,route_short_name,route_type\nT1,1,0\nB7,7,3\n";

const TRIPS: &str = "route_id,service_id,trip_id\nT1,WK,t100\nB7,WK,b200\nB7,WK,b201\n";

const STOP_TIMES: &str = "trip_id,stop_sequence,stop_id,arrival_time,departure_time,pickup_type
t100,10,MIL,8:00:00,8:00:00,0
t100,15,HLF,,,
t100,20,S1a,8:20:00,8:21:00,0
b200,1,S1b,08:24:00,08:24:00,
b200,2,AIR,08:50:00,08:50:00,
b201,1,S1b,08:40:00,08:40:00,
b201,2,AIR,09:06:00
";

/// The files of the feed, with another text at a path.
fn feed_with(alloc: Global, path: &str, text: &str) -> Result<SteadyFiles, NoMemory> {
    let mut files = SteadyFiles::new(alloc, 64);
    files.add("feed/stops.txt", STOPS.as_bytes())?;
    files.add("feed/routes.txt", ROUTES.as_bytes())?;
    files.add("feed/trips.txt", TRIPS.as_bytes())?;
    files.add("feed/stop_times.txt", STOP_TIMES.as_bytes())?;
    files.add(path, text.as_bytes())?;
    Ok(files)
}

/// The limits with which the largest feed is read.
fn limits() -> Limits {
    Limits::standard()
}

fn read_in(alloc: Global, files: &mut SteadyFiles) -> Result<Feed, FeedFault> {
    Feed::read(alloc, files, "feed", &limits())
}

/// The feed with another text at a path.
fn read_with(alloc: Global, path: &str, text: &str) -> Result<Feed, FeedFault> {
    match feed_with(alloc, path, text) {
        Ok(mut files) => read_in(alloc, &mut files),
        Err(_) => Err(FeedFault::NoMemory),
    }
}

fn fault_with(alloc: Global, path: &str, text: &str) -> Option<FeedFault> {
    read_with(alloc, path, text).err()
}

/// The feed, with a table of frequencies that has no row.
fn small_feed(alloc: Global) -> Result<Feed, FeedFault> {
    let header = "trip_id,start_time,end_time,headway_secs\n";
    read_with(alloc, "feed/frequencies.txt", header)
}

/// The id of a stop, where there is one of this number.
fn stop_at(feed: &Feed, stop: u32) -> Option<&str> {
    if stop < feed.stop_count() {
        Some(feed.stop_id(stop))
    } else {
        None
    }
}

/// Ids with the stop and the place that they name.
const IDS: [(&str, Option<u32>, Option<PlaceId>); 5] = [
    ("S,1", Some(0), Some(PlaceId(0))),
    ("S1a", Some(1), Some(PlaceId(0))),
    ("S1b", Some(2), Some(PlaceId(0))),
    ("AIR", Some(3), Some(PlaceId(3))),
    ("t100", None, None),
];

/// The stop and the place that an id names.
fn named(feed: &Feed, id: &str) -> (Option<u32>, Option<PlaceId>) {
    (feed.stop_of(id), feed.place_of(id))
}

/// How many stops there are, and how many trips.
fn counts(feed: &Feed) -> (u32, u32) {
    (feed.stop_count(), feed.trip_count())
}

fn named_in(alloc: Global, id: &str) -> Result<(Option<u32>, Option<PlaceId>), FeedFault> {
    let feed = small_feed(alloc)?;
    Ok(named(&feed, id))
}

#[test]
fn reads_stops(rt: HostRuntime) {
    for (id, stop, place) in IDS {
        assert_eq!(rt; named_in(rt.alloc(), id), Ok((stop, place)), "{id}");
    }
}

/// How many stops and trips there are, and whether this is the id of the last stop.
fn counts_in(alloc: Global, last: &str) -> Result<((u32, u32), bool), FeedFault> {
    let feed = small_feed(alloc)?;
    Ok((counts(&feed), stop_at(&feed, 5) == Some(last)))
}

#[test]
fn counts_stops_and_trips(rt: HostRuntime) {
    assert_eq!(rt; counts_in(rt.alloc(), "HLF"), Ok(((6, 3), true)));
}

/// The id of a trip, its service, the type of its route and the id of its route, where there is one of
/// this number.
fn trip_at(feed: &Feed, trip: u32) -> Option<(&str, &str, u16, &str)> {
    if trip < feed.trip_count() {
        Some((
            feed.trip_id(trip),
            feed.service_of(trip),
            feed.route_type(trip),
            feed.route_id(trip),
        ))
    } else {
        None
    }
}

const TOLD: [(u32, &str, &str, u16, &str); 3] = [
    (0, "t100", "WK", 0, "T1"),
    (1, "b200", "WK", 3, "B7"),
    (2, "b201", "WK", 3, "B7"),
];

#[test]
fn reads_trips(rt: HostRuntime) -> Result<(), Fail> {
    let feed = small_feed(rt.alloc())?;
    for (trip, id, service, route_type, route) in TOLD {
        let reported = Some((id, service, route_type, route));
        assert_eq!(rt; trip_at(&feed, trip), reported, "{trip}");
    }
    Ok(())
}

/// The stops of a trip, where there is one of this number.
fn visits_of(feed: &Feed, trip: u32) -> Option<&[StopRow]> {
    if trip < feed.trip_count() {
        Some(feed.stop_times(trip))
    } else {
        None
    }
}

/// A stop where one may board and alight.
fn visit(stop: u32, place: u32, arrival: u32, departure: u32) -> StopRow {
    StopRow {
        stop,
        place: PlaceId(place),
        arrival,
        departure,
        can_board: true,
        can_exit: true,
    }
}

/// A copy of the stops of a trip.
fn copied_visits(alloc: Global, feed: &Feed, trip: u32) -> Result<Vec<StopRow>, Fail> {
    match visits_of(feed, trip) {
        Some(visits) => Ok(visits.to_vec(alloc)?),
        None => Err("no such trip".into()),
    }
}

fn visits_in(alloc: Global, trip: u32) -> Result<Vec<StopRow>, Fail> {
    let feed = small_feed(alloc)?;
    copied_visits(alloc, &feed, trip)
}

#[test]
fn reads_the_stops_of_a_tram(rt: HostRuntime) -> Result<(), Fail> {
    let visits = visits_in(rt.alloc(), 0)?;
    let want = [visit(4, 4, 28_800, 28_800), visit(1, 0, 30_000, 30_060)];
    assert_eq!(rt; visits.as_slice(), want.as_slice());
    Ok(())
}

#[test]
fn reads_the_stops_of_a_bus(rt: HostRuntime) -> Result<(), Fail> {
    let visits = visits_in(rt.alloc(), 2)?;
    let want = [visit(2, 0, 31_200, 31_200), visit(3, 3, 32_760, 32_760)];
    assert_eq!(rt; visits.as_slice(), want.as_slice());
    Ok(())
}

const STOPS_PATH: &str = "feed/stops.txt";

const TRIPS_PATH: &str = "feed/trips.txt";

const TIMES_PATH: &str = "feed/stop_times.txt";

const REPEATS_PATH: &str = "feed/frequencies.txt";

/// Tables with which the feed is read: an empty one, stops and stations, and late times in any order.
const ACCEPTED: [(&str, &str); 5] = [
    (REPEATS_PATH, ""),
    (
        STOPS_PATH,
        "stop_id,parent_station\nMIL,MIL\nHLF,\nS1a,MIL\nS1b,S1a\nAIR,\n",
    ),
    (
        STOPS_PATH,
        "stop_id,parent_station,location_type\nMIL,X,2\nHLF,X,3\nS1a,X,4\nS1b,X,1\nAIR\n",
    ),
    (
        TIMES_PATH,
        "trip_id,stop_id,stop_sequence,arrival_time,departure_time\nt100,MIL,1,,167:59:59\n",
    ),
    (
        TIMES_PATH,
        "trip_id,stop_id,stop_sequence,arrival_time,departure_time\nt100,MIL,2,25:00:00,\nt100,AIR,1,24:00:00\n",
    ),
];

#[test]
fn accepts_tables(rt: HostRuntime) {
    for (path, text) in ACCEPTED {
        assert_eq!(rt; fault_with(rt.alloc(), path, text), None, "{text}");
    }
}

/// Tables with their first fault: by table, by line and column, and keys after fields.
const REFUSED: [(&str, &str, FeedFault); 13] = [
    (
        TRIPS_PATH,
        "",
        FeedFault::MissingColumn(Table::Trips, Column::RouteId),
    ),
    (
        "feed/routes.txt",
        "route_id\n,\n",
        FeedFault::MissingColumn(Table::Routes, Column::RouteType),
    ),
    (
        REPEATS_PATH,
        "trip_id\nx\n",
        FeedFault::MissingColumn(Table::Frequencies, Column::StartTime),
    ),
    (
        STOPS_PATH,
        "stop_id,location_type\nA,02\n\"\",\n",
        FeedFault::BadField(Table::Stops, 2, Column::LocationType),
    ),
    (
        TIMES_PATH,
        "trip_id,stop_id,stop_sequence,arrival_time,departure_time\nt999,MIL,1,8:60:00,\n",
        FeedFault::UnknownKey(Table::StopTimes, 2, Column::TripId),
    ),
    (
        TIMES_PATH,
        "trip_id,stop_id,stop_sequence,arrival_time,departure_time\nt100,MIL,1,8:60:00,\n",
        FeedFault::BadField(Table::StopTimes, 2, Column::ArrivalTime),
    ),
    (
        TIMES_PATH,
        "trip_id,stop_id,stop_sequence,arrival_time,departure_time\nt100,,x,,\n",
        FeedFault::BadField(Table::StopTimes, 2, Column::StopSequence),
    ),
    (
        TRIPS_PATH,
        "route_id,service_id,trip_id\nT1,WK,t100\nB7,WK,b200\nB7,WK,b201\nB7,WK,b200\n",
        FeedFault::DuplicateKey(Table::Trips, 5),
    ),
    (
        STOPS_PATH,
        "stop_id,parent_station\nA,Z\nB,\nB,\n",
        FeedFault::DuplicateKey(Table::Stops, 4),
    ),
    (
        STOPS_PATH,
        "stop_id,parent_station\nA,\nB,Z\n",
        FeedFault::UnknownKey(Table::Stops, 3, Column::ParentStation),
    ),
    (
        TIMES_PATH,
        "trip_id,stop_id,stop_sequence,arrival_time,departure_time\nt100,,1,,\nt100,MIL,001,8:00:00,\n",
        FeedFault::DuplicateKey(Table::StopTimes, 3),
    ),
    (
        // Past a row that is not kept.
        TIMES_PATH,
        "trip_id,stop_id,stop_sequence,arrival_time,departure_time\nt100,AIR,9,7:59:00,\nt100,MIL,1,8:00:00,\nt100,HLF,5,,\n",
        FeedFault::BackwardTime(2),
    ),
    (
        TIMES_PATH,
        "trip_id,stop_id,stop_sequence,arrival_time,departure_time\nt100,AIR,9,9:00:00,8:59:59\n",
        FeedFault::BackwardTime(2),
    ),
];

#[test]
fn refuses_tables(rt: HostRuntime) {
    for (path, text, fault) in REFUSED {
        assert_eq!(rt; fault_with(rt.alloc(), path, text), Some(fault), "{text}");
    }
}

/// The limits with which two stops are read.
fn two_stops() -> Limits {
    let mut limits = Limits::standard();
    limits.stops = 2;
    limits
}

fn read_two(alloc: Global, files: &mut SteadyFiles, folder: &str) -> Result<Feed, FeedFault> {
    Feed::read(alloc, files, folder, &two_stops())
}

/// The fault of a folder of which two stops are read at most.
fn fault_within(alloc: Global, files: &mut SteadyFiles, folder: &str) -> Option<FeedFault> {
    read_two(alloc, files, folder).err()
}

fn fault_in(alloc: Global, folder: &str) -> Option<FeedFault> {
    match feed_with(alloc, REPEATS_PATH, "") {
        Ok(mut files) => fault_within(alloc, &mut files, folder),
        Err(_) => Some(FeedFault::NoMemory),
    }
}

#[test]
fn wants_its_tables_and_limits(rt: HostRuntime) {
    for (folder, fault) in [
        ("feed", FeedFault::TooManyRows(Table::Stops, 6)),
        ("elsewhere", FeedFault::MissingTable(Table::Stops)),
    ] {
        assert_eq!(rt; fault_in(rt.alloc(), folder), Some(fault), "{folder}");
    }
}
