//! From where one can be at a target by a deadline, over folders: stations, walks and trips that repeat, with every number
//! worked by hand.
use std::alloc::Global;
use std::test::Fail;
use test_runs::{Source, USUAL_DELAYS, answers, old_town, refuses};

const OLD_TOWN: &str =
    "reach --feed f --delays d --to AIR --at 2024-06-03T08:00:00 --until 2024-06-03T10:42:00";

#[test]
fn has_a_row_for_a_station_in_the_order_of_stops(rt: HostRuntime) -> Result<(), Fail> {
    answers(
        rt.alloc(),
        &old_town(USUAL_DELAYS),
        OLD_TOWN,
        "reach,1,AIR,2024-06-03T08:00:00,2024-06-03T10:42:00,2\nfrom,\"S,1\",2024-06-03T08:40:00,2024-06-03T08:51:30.000000000,2024-06-03T08:51:30.000000000\nfrom,MIL,2024-06-03T08:00:00,2024-06-03T08:54:42.000000000,2024-06-03T08:54:42.000000000\n",
    )
}

#[test]
fn knows_no_other_target(rt: HostRuntime) -> Result<(), Fail> {
    refuses(
        rt.alloc(),
        &old_town(USUAL_DELAYS),
        "reach --feed f --delays d --to NONE --at 2024-06-03T08:00:00 --until 2024-06-03T10:42:00",
        5,
        "meat: unknown stop of --to\n",
    )
}

/// A feed with these trips and stop times, and with one more table.
fn feed<'a>(trips: &'a str, times: &'a str, delays: &'a str, more: Source<'a>) -> [Source<'a>; 7] {
    [
        ("f/stops.txt", "stop_id\nA\nX1\nX2\nT\n"),
        ("f/routes.txt", "route_id,route_type\nR,1\n"),
        ("f/trips.txt", trips),
        ("f/stop_times.txt", times),
        (
            "f/calendar.txt",
            "service_id,monday,tuesday,wednesday,thursday,friday,saturday,sunday,start_date,end_date\nWK,1,1,1,1,1,0,0,20240101,20241231\n",
        ),
        ("d", delays),
        more,
    ]
}

/// A trip that ends at X1, and a second one that begins at X2 300 seconds later, never late; with these walks.
fn walked<'a>(transfers: &'a str) -> [Source<'a>; 7] {
    feed(
        "route_id,service_id,trip_id\nR,WK,t1\nR,WK,t2\n",
        "trip_id,arrival_time,departure_time,stop_id,stop_sequence\nt1,08:00:00,08:00:00,A,1\nt1,08:20:00,08:20:00,X1,2\nt2,08:25:00,08:25:00,X2,1\nt2,08:40:00,08:40:00,T,2\n",
        "class,delay,weight\n*,0,10000\n",
        ("f/transfers.txt", transfers),
    )
}

/// Fails unless this is printed for the target T from eight on, by a deadline.
fn reaches(alloc: Global, files: &[Source], until: &str, out: &str) -> Result<(), Fail> {
    let line = format!(in alloc;
        "reach --feed f --delays d --to T --at 2024-06-03T08:00:00 --until 2024-06-03T{until}"
    )?;
    answers(alloc, files, line.as_str(), out)
}

/// A walk is between two rides. So a traveller who sets out at X1, where no trip begins, has none.
#[test]
fn walks_between_rides_alone(rt: HostRuntime) -> Result<(), Fail> {
    reaches(
        rt.alloc(),
        &walked("from_stop_id,to_stop_id,transfer_type,min_transfer_time\nX1,X2,2,300\n"),
        "08:40:00",
        "reach,1,T,2024-06-03T08:00:00,2024-06-03T08:40:00,2\nfrom,A,2024-06-03T08:00:00,2024-06-03T08:40:00.000000000,2024-06-03T08:40:00.000000000\nfrom,X2,2024-06-03T08:25:00,2024-06-03T08:40:00.000000000,2024-06-03T08:40:00.000000000\n",
    )
}

#[test]
fn misses_a_ride_by_a_second_of_walking(rt: HostRuntime) -> Result<(), Fail> {
    reaches(
        rt.alloc(),
        &walked("from_stop_id,to_stop_id,transfer_type,min_transfer_time\nX1,X2,2,301\n"),
        "08:40:00",
        "reach,1,T,2024-06-03T08:00:00,2024-06-03T08:40:00,1\nfrom,X2,2024-06-03T08:25:00,2024-06-03T08:40:00.000000000,2024-06-03T08:40:00.000000000\n",
    )
}

/// Of the runs at 08:05 and 08:20 the first arrives at 08:36:30 on average, and by 08:50; the second by 09:05.
#[test]
fn takes_the_last_run_that_is_safe(rt: HostRuntime) -> Result<(), Fail> {
    let files = feed(
        "route_id,service_id,trip_id\nR,WK,f1\n",
        "trip_id,arrival_time,departure_time,stop_id,stop_sequence\nf1,00:00:00,00:00:00,A,1\nf1,00:30:00,00:30:00,T,2\n",
        USUAL_DELAYS,
        (
            "f/frequencies.txt",
            "trip_id,start_time,end_time,headway_secs\nf1,08:05:00,08:35:00,900\n",
        ),
    );
    for (until, out) in [
        (
            "09:05:00",
            "reach,1,T,2024-06-03T08:00:00,2024-06-03T09:05:00,1\nfrom,A,2024-06-03T08:20:00,2024-06-03T08:36:30.000000000,2024-06-03T08:36:30.000000000\n",
        ),
        (
            "09:04:59",
            "reach,1,T,2024-06-03T08:00:00,2024-06-03T09:04:59,1\nfrom,A,2024-06-03T08:05:00,2024-06-03T08:36:30.000000000,2024-06-03T08:36:30.000000000\n",
        ),
    ] {
        reaches(rt.alloc(), &files, until, out)?;
    }
    Ok(())
}
