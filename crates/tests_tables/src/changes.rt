//! A feed with a station of two platforms, and what its transfers mean.

use change_times::Changes;
use csv_rows::{Column, FeedFault, Limits, Table};
use file_ports::SteadyFiles;
use gtfs_tables::Feed;
use plan_model::{NoMemory, PlaceId, Way};
use std::alloc::Global;
use std::test::Fail;

const STOPS: &str = "stop_id,location_type,parent_station\nA,,\nX,1,\nX1,0,X\nX2,0,X\nT,,\n";

const STOP_TIMES: &str =
    "trip_id,arrival_time,departure_time,stop_id,stop_sequence\nt1,08:00:00,08:00:00,A,1\n";

/// The files of the feed, with this table of transfers.
fn files_with(alloc: Global, transfers: &str) -> Result<SteadyFiles, NoMemory> {
    let mut files = SteadyFiles::new(alloc, 64);
    for (path, text) in [
        ("feed/stops.txt", STOPS),
        ("feed/routes.txt", "route_id,route_type\nR,1\n"),
        ("feed/trips.txt", "route_id,service_id,trip_id\nR,WK,t1\n"),
        ("feed/stop_times.txt", STOP_TIMES),
        ("feed/transfers.txt", transfers),
    ] {
        files.add(path, text.as_bytes())?;
    }
    Ok(files)
}

fn feed_in(alloc: Global, files: &mut SteadyFiles) -> Result<Feed, FeedFault> {
    Feed::read(alloc, files, "feed", &Limits::standard())
}

fn changes_in(alloc: Global, files: &mut SteadyFiles, feed: &Feed) -> Result<Changes, FeedFault> {
    Changes::read(alloc, files, "feed", feed, &Limits::standard())
}

fn read_in(alloc: Global, files: &mut SteadyFiles) -> Result<Changes, FeedFault> {
    let feed = feed_in(alloc, files)?;
    changes_in(alloc, files, &feed)
}

/// What the transfers mean.
fn read(alloc: Global, transfers: &str) -> Result<Changes, FeedFault> {
    match files_with(alloc, transfers) {
        Ok(mut files) => read_in(alloc, &mut files),
        Err(_) => Err(FeedFault::NoMemory),
    }
}

/// The change times of the station and of a stop, and how many rows were passed over.
fn times_of(changes: &Changes) -> (u32, u32, u64) {
    (
        changes.seconds(PlaceId(1)),
        changes.seconds(PlaceId(0)),
        changes.passed(),
    )
}

fn times(alloc: Global, transfers: &str) -> Result<(u32, u32, u64), FeedFault> {
    let changes = read(alloc, transfers)?;
    Ok(times_of(&changes))
}

/// Transfers with the change time of the station that they set, and how many of them are passed over.
const TIMES: [(&str, u32, u64); 7] = [
    ("", 120, 0),
    ("from_stop_id,to_stop_id,transfer_type\n", 120, 0),
    (
        "from_stop_id,to_stop_id,transfer_type,min_transfer_time\nX1,X2,2,0\n",
        1,
        0,
    ),
    (
        "from_stop_id,to_stop_id,transfer_type,min_transfer_time\nX1,X2,2,0\nX2,X1,2,30\n",
        30,
        0,
    ),
    (
        "from_stop_id,to_stop_id,transfer_type,min_transfer_time\nX1,X2,2,0\nX2,X1,1,30\n",
        1,
        1,
    ),
    (
        "from_stop_id,to_stop_id,transfer_type,min_transfer_time\nX1,X,2,90\nX,X,2,30\nX1,A,2,95\n",
        90,
        0,
    ),
    (
        "from_stop_id,to_stop_id,transfer_type,min_transfer_time,to_trip_id\nX1,X2,2,300,t1\nX1,X2,2\n",
        120,
        2,
    ),
];

#[test]
fn reports_change_times(rt: HostRuntime) {
    for (transfers, station, passed) in TIMES {
        assert_eq!(rt;
            times(rt.alloc(), transfers),
            Ok((station, 120, passed)),
            "{transfers}"
        );
    }
}

const LINKS: &str = "from_stop_id,to_stop_id,transfer_type,min_transfer_time\n\
    X,T,2,7\nX1,A,2,95\nX2,A,2,300\nX1,A,2,40\nA,X2,2,0\nA,T,2,9\nT,T,2,3\nT,A,1,5\nT,A,2,\n";

/// The links into a place.
fn links_into(changes: &Changes, place: u32) -> &[Way] {
    changes.links_into(PlaceId(place))
}

/// Each place, with the links into it.
const WAYS: [(u32, &[Way]); 6] = [
    (
        0,
        &[Way {
            from: PlaceId(1),
            seconds: 300,
        }],
    ),
    (
        1,
        &[Way {
            from: PlaceId(0),
            seconds: 1,
        }],
    ),
    (2, &[]),
    (3, &[]),
    (
        4,
        &[
            Way {
                from: PlaceId(0),
                seconds: 9,
            },
            Way {
                from: PlaceId(1),
                seconds: 7,
            },
        ],
    ),
    (5, &[]),
];

#[test]
fn reports_links(rt: HostRuntime) -> Result<(), Fail> {
    let changes = read(rt.alloc(), LINKS)?;
    for (place, links) in WAYS {
        assert_eq!(rt; links_into(&changes, place), links, "{place}");
    }
    Ok(())
}

/// The change time at the last stop, and how many rows were passed over.
fn last_time(alloc: Global, transfers: &str) -> Result<(u32, u64), FeedFault> {
    let changes = read(alloc, transfers)?;
    Ok((changes.seconds(PlaceId(4)), changes.passed()))
}

#[test]
fn reports_a_change_time_beside_links(rt: HostRuntime) {
    assert_eq!(rt; last_time(rt.alloc(), LINKS), Ok((3, 2)));
}

/// The fault of the transfers.
fn fault_of(alloc: Global, transfers: &str) -> Option<FeedFault> {
    read(alloc, transfers).err()
}

/// Transfers with their first fault.
const FAULTS: [(&str, Option<FeedFault>); 6] = [
    (
        "from_stop_id,transfer_type\nX1,6\n",
        Some(FeedFault::MissingColumn(Table::Transfers, Column::ToStopId)),
    ),
    (
        "from_stop_id,to_stop_id,transfer_type,min_transfer_time\nZ,,1,x\n,Z,,x\n",
        None,
    ),
    (
        "from_stop_id,to_stop_id,transfer_type,min_transfer_time\nA,A,0,\nZ,Z,02,x\n",
        Some(FeedFault::BadField(Table::Transfers, 3, Column::TransferType)),
    ),
    (
        "from_stop_id,to_stop_id,transfer_type,min_transfer_time\nA,,2,x\nZ,A,2,\n",
        Some(FeedFault::BadField(Table::Transfers, 2, Column::ToStopId)),
    ),
    (
        "from_stop_id,to_stop_id,transfer_type,min_transfer_time\nZ,,2,x\n",
        Some(FeedFault::UnknownKey(Table::Transfers, 2, Column::FromStopId)),
    ),
    (
        "from_stop_id,to_stop_id,transfer_type,min_transfer_time\nA,T,2,86401\n",
        Some(FeedFault::BadField(Table::Transfers, 2, Column::MinTransferTime)),
    ),
];

#[test]
fn refuses_the_first_fault(rt: HostRuntime) {
    for (transfers, fault) in FAULTS {
        assert_eq!(rt; fault_of(rt.alloc(), transfers), fault, "{transfers}");
    }
}
