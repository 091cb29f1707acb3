//! Windows of small feeds, and the scan order of one of them.
ghost use Rattle.std.specs.Prelude.{◌≤◌};
ghost use Rattle.plan_model.specs.Bounds.{most_connections};

use crate::feeds::{FIRST_START, MONDAY, window};
use connections::WindowFault;
use file_ports::SteadyFiles;
use merged_runs::MergedRuns;
use plan_model::{
    BackwardOrder, ConnectionId, Moment, Names, Network, NoMemory, PlaceId, RunId, SortedOrder,
};
use std::alloc::Global;
use std::test::Fail;

const CALENDAR: &str =
    "service_id,monday,tuesday,wednesday,thursday,friday,saturday,sunday,start_date,end_date\n\
    WK,1,1,1,1,1,0,0,20240101,20241231\n";

/// The tables of a feed with one route, of weekdays.
#[derive(Clone, Copy)]
struct Tables<'a> {
    stops: &'a str,
    trips: &'a str,
    stop_times: &'a str,
    dates: &'a str,
    transfers: &'a str,
}

/// A trip at ten past one in the night, but not for the service day 2024-06-04.
const NIGHT: Tables<'_> = Tables {
    stops: "stop_id\nA\nT\n",
    trips: "route_id,service_id,trip_id\nR,WK,n1\n",
    stop_times: "trip_id,arrival_time,departure_time,stop_id,stop_sequence\n\
        n1,25:10:00,25:10:00,A,1\nn1,25:40:00,25:40:00,T,2\n",
    dates: "service_id,date,exception_type\nWK,20240604,2\n",
    transfers: "",
};

/// A tram to a station, of which two buses leave, and a stop with no times.
const MILL: Tables<'_> = Tables {
    stops: "\u{FEFF}stop_name,stop_id,parent_station,location_type\n\
        \"Old Town, Square\",\"S,1\",,1\nPlatform 1,S1a,\"S,1\",0\nPlatform 2,S1b,\"S,1\",\n\
        Airport,AIR,,\nMill,MIL,,0\nHalfway,HLF,,0\n",
    trips: "route_id,service_id,trip_id\nR,WK,t100\nR,WK,b200\nR,WK,b201\n",
    stop_times: "trip_id,stop_sequence,stop_id,arrival_time,departure_time,pickup_type\n\
        t100,10,MIL,8:00:00,8:00:00,0\nt100,15,HLF,,,\nt100,20,S1a,8:20:00,8:21:00,0\n\
        b200,1,S1b,08:24:00,08:24:00,\nb200,2,AIR,08:50:00,08:50:00,\n\
        b201,1,S1b,08:40:00,08:40:00,\nb201,2,AIR,09:06:00\n",
    dates: "",
    transfers: "",
};

/// Two trips that meet at two platforms of one station.
const PLATFORMS: Tables<'_> = Tables {
    stops: "stop_id,location_type,parent_station\nA,,\nX,1,\nX1,0,X\nX2,0,X\nT,,\n",
    trips: "route_id,service_id,trip_id\nR,WK,t1\nR,WK,t2\n",
    stop_times: "trip_id,arrival_time,departure_time,stop_id,stop_sequence\n\
        t1,08:00:00,08:00:00,A,1\nt1,08:20:00,08:20:00,X1,2\n\
        t2,08:20:01,08:20:01,X2,1\nt2,08:40:00,08:40:00,T,2\n",
    dates: "",
    transfers: "from_stop_id,to_stop_id,transfer_type,min_transfer_time\nX1,X2,2,0\n",
};

/// Three trips with equal departures, the last of which has two at once.
const LEVEL: Tables<'_> = Tables {
    stops: "stop_id\nA\nB\nC\n",
    trips: "route_id,service_id,trip_id\nR,WK,a\nR,WK,b\nR,WK,c\n",
    stop_times: "trip_id,arrival_time,departure_time,stop_id,stop_sequence\n\
        a,08:00:00,08:00:00,A,1\na,08:10:00,08:10:00,B,2\na,08:20:00,08:20:00,C,3\n\
        b,08:00:00,08:00:00,A,1\nb,08:10:00,08:10:00,B,2\nb,08:20:00,08:20:00,C,3\n\
        c,08:10:00,08:10:00,A,1\nc,08:10:00,08:10:00,B,2\nc,08:20:00,08:20:00,C,3\n",
    dates: "",
    transfers: "",
};

fn files_of(alloc: Global, tables: &Tables<'_>) -> Result<SteadyFiles, NoMemory> {
    let mut files = SteadyFiles::new(alloc, 64);
    for (path, text) in [
        ("feed/stops.txt", tables.stops),
        ("feed/routes.txt", "route_id,route_type\nR,3\n"),
        ("feed/trips.txt", tables.trips),
        ("feed/stop_times.txt", tables.stop_times),
        ("feed/calendar.txt", CALENDAR),
        ("feed/calendar_dates.txt", tables.dates),
        ("feed/transfers.txt", tables.transfers),
    ] {
        files.add(path, text.as_bytes())?;
    }
    Ok(files)
}

/// The window of a feed from this many seconds after Monday's begin on, if its tables are read.
fn window_from(
    alloc: Global,
    tables: &Tables<'_>,
    seconds: u32,
    horizon: u32,
    most: u64,
) -> Option<Result<(Network, Names), WindowFault>>
    requires { most ≤ most_connections }
{
    let mut files = files_of(alloc, tables).ok()?;
    let seconds = MONDAY.saturating_add(seconds);
    window(alloc, &mut files, seconds, horizon, most)
}

/// The network of a window of a feed, and its names.
fn window_of(
    alloc: Global,
    tables: &Tables<'_>,
    seconds: u32,
    horizon: u32,
) -> Result<(Network, Names), Fail> {
    match window_from(alloc, tables, seconds, horizon, 8) {
        None => Err("no feed".into()),
        Some(Err(_)) => Err("no window".into()),
        Some(Ok(parts)) => Ok(parts),
    }
}

/// How many connections a window of the feed of a night has.
fn night_count(alloc: Global, seconds: u32, horizon: u32) -> Result<u32, Fail> {
    let parts = window_of(alloc, &NIGHT, seconds, horizon)?;
    Ok(parts.0.count())
}

#[test]
fn both_ends_of_a_window(rt: HostRuntime) -> Result<(), Fail> {
    // The trip of Monday leaves on Tuesday at 01:10:00.
    for (seconds, count) in [
        (86_400 + 4200, 1),
        (86_400 + 4201, 0),
        (86_400 + 600, 1),
        (86_400 + 599, 0),
    ] {
        assert_eq!(rt; night_count(rt.alloc(), seconds, 1)?, count, "{seconds}");
    }
    Ok(())
}

#[test]
fn days_of_a_window(rt: HostRuntime) -> Result<(), Fail> {
    // The trips of Sunday and Tuesday do not ride, and that of Wednesday leaves on Thursday.
    for (seconds, horizon, count) in [
        (86_400 + 3600, 24, 1),
        (2 * 86_400 + 1800, 24, 0),
        (0, 72, 1),
        (2 * 86_400, 72, 2),
    ] {
        let found = night_count(rt.alloc(), seconds, horizon)?;
        assert_eq!(rt; found, count, "{seconds}");
    }
    Ok(())
}

#[test]
fn counts_all_connections(rt: HostRuntime) -> Result<(), Fail> {
    for (most, fault) in [(4, None), (3, Some(WindowFault::TooMany(4)))] {
        let Some(found) = window_from(rt.alloc(), &MILL, 8 * 3600, 24, most) else {
            return Err("no feed".into());
        };
        assert_eq!(rt; found.err(), fault);
    }
    Ok(())
}

#[test]
fn names_places_and_runs(rt: HostRuntime) -> Result<(), Fail> {
    let parts = window_of(rt.alloc(), &MILL, 8 * 3600, 24)?;
    for (name, place) in [("S,1", 0), ("AIR", 3), ("HLF", 5)] {
        assert_eq!(rt; parts.1.place(name), Some(PlaceId(place)), "{name}");
    }
    for (name, run) in [
        ("20240603:t100", Some(RunId(0))),
        ("20240603:b201", Some(RunId(2))),
        ("20240604:t100", Some(RunId(3))),
        ("20240604:b200", None),
    ] {
        assert_eq!(rt; parts.1.run(name), run, "{name}");
    }
    Ok(())
}

#[test]
fn platforms_are_one_place(rt: HostRuntime) -> Result<(), Fail> {
    let parts = window_of(rt.alloc(), &PLATFORMS, 8 * 3600, 24)?;
    assert!(rt; parts.0.count() == 3);
    assert!(rt; parts.0.places() == 5);
    for (i, from, to) in [(0, 0, 1), (1, 1, 4), (2, 0, 1)] {
        let ride = parts.0.get(ConnectionId(i));
        assert_eq!(rt; (ride.from.0, ride.to.0), (from, to), "{i}");
    }
    assert_eq!(rt; parts.0.change(PlaceId(1)), 1);
    assert_eq!(rt; parts.0.change(PlaceId(0)), 120);
    Ok(())
}

/// What an order gives until it gives nothing.
fn given<O: BackwardOrder>(
    alloc: Global,
    network: &Network,
    order: &mut O,
) -> Result<Vec<u32>, NoMemory>
    requires { O.fits order.old network.now }
    ensures { O.fits order.new network.now }
{
    let mut ids = Vec::new(alloc);
    for _ in 0..=network.count() {
        if let Some(id) = order.next(network) {
            ids.push(id.0)?;
        }
    }
    Ok(ids)
}

/// Whether the sorted order gives these connections.
fn sorted_gives(alloc: Global, network: &Network, ids: &[u32]) -> Result<bool, NoMemory> {
    let mut order = SortedOrder::new(alloc, network)?;
    Ok(given(alloc, network, &mut order)?.as_slice() == ids)
}

/// Whether the merged order gives them, after a rewind of what it gave before.
fn merged_gives(alloc: Global, network: &Network, ids: &[u32]) -> Result<bool, NoMemory> {
    let mut order = MergedRuns::new(alloc, network)?;
    let first = given(alloc, network, &mut order)?.as_slice() == ids;
    order.rewind(network);
    Ok(first && given(alloc, network, &mut order)?.as_slice() == ids)
}

#[test]
fn merges_runs(rt: HostRuntime) -> Result<(), Fail> {
    for (tables, seconds, ids) in [
        (&LEVEL, 8 * 3600, [5, 4, 3, 1, 2, 0].as_slice()),
        (&MILL, 8 * 3600, [2, 1, 0].as_slice()),
        (&NIGHT, 86_400, [0].as_slice()),
        (&NIGHT, 0, [].as_slice()),
    ] {
        let parts = window_of(rt.alloc(), tables, seconds, 2)?;
        assert!(rt; sorted_gives(rt.alloc(), &parts.0, ids)?, "{ids:?}");
        assert!(rt; merged_gives(rt.alloc(), &parts.0, ids)?, "{ids:?}");
    }
    Ok(())
}

/// What an order gives of the connections that depart by a moment.
fn given_by<O: BackwardOrder>(
    alloc: Global,
    network: &Network,
    order: &mut O,
    last: Moment,
) -> Result<Vec<u32>, NoMemory>
    requires { O.fits order.old network.now }
{
    order.skip_after(network, last);
    given(alloc, network, order)
}

/// Whether the sorted order and the merged one give these connections of those that depart by a moment.
fn give_by(
    alloc: Global,
    network: &Network,
    last: Moment,
    ids: &[u32],
) -> Result<(bool, bool), NoMemory> {
    let mut order = SortedOrder::new(alloc, network)?;
    let sorted = given_by(alloc, network, &mut order, last)?.as_slice() == ids;
    let mut order = MergedRuns::new(alloc, network)?;
    let merged = given_by(alloc, network, &mut order, last)?.as_slice() == ids;
    Ok((sorted, merged))
}

/// 2024-06-03T08:00:00.
const EIGHT: u64 = FIRST_START + MONDAY as u64 + 8 * 3600;

#[test]
fn skips_what_departs_later(rt: HostRuntime) -> Result<(), Fail> {
    let parts = window_of(rt.alloc(), &LEVEL, 8 * 3600, 2)?;
    // Two depart at 08:00, and four at 08:10.
    for (last, ids) in [
        (Moment(EIGHT - 1), [].as_slice()),
        (Moment(EIGHT), [2, 0].as_slice()),
        (Moment(EIGHT + 599), [2, 0].as_slice()),
        (Moment(EIGHT + 600), [5, 4, 3, 1, 2, 0].as_slice()),
    ] {
        let given = give_by(rt.alloc(), &parts.0, last, ids)?;
        assert_eq!(rt; given, (true, true), "{ids:?}");
    }
    Ok(())
}
