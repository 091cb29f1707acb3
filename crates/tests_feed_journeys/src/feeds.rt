//! Journeys over feeds, trips by their graphs, and made timetables, through the top call.
use std::test::Fail;
use test_runs::{
    CALENDAR, FOLDER_PLAN, FOLDER_PLAN_WORDS, ROUTES, STOP_TIMES, STOPS, Source, TRIPS,
    USUAL_DELAYS, answers, cannot_read, old_town, refuses, source_of,
};

const SAFE: &str = "safe --feed f --delays d --from MIL --to AIR --at 2024-06-03T08:00:00";

/// The tram is never late.
const SURE_TRAM: &str =
    "class,delay,weight,route_id\n*,0,8000,\n*,300,1500,\n*,900,500,\n*,0,10000,T1\n";

const SURE_TRAM_PLAN: &str =
    "graph,1,MIL,AIR,2024-06-03T08:00:00,2024-06-03T10:10:00,2024-06-03T08:51:30.000000000,2024-06-03T08:51:30.000000000\nstart,2024-06-03T08:00:00,20240603:t100,0,2024-06-03T08:00:00,0,\"S,1\",2024-06-03T08:20:00\nplace,\"S,1\",120,1,,,,\nleg,2024-06-03T08:22:00,20240603:b200,0,2024-06-03T08:24:00,0,AIR,2024-06-03T08:50:00\n";

/// Delays by the hour after midnight, with the least worst arrival of a bus that leaves at ten to one.
const BY_HOUR: [(&str, &str); 2] = [
    (
        "class,delay,weight,hour\n*,0,8000,\n*,300,1500,\n*,900,500,\n*,0,10000,1\n",
        "safe,MIL,AIR,2024-06-04T00:40:00,2024-06-04T01:10:00,2024-06-04T01:40:00\n",
    ),
    (
        "class,delay,weight,hour\n*,0,8000,\n*,300,1500,\n*,900,500,\n*,0,10000,0\n",
        "safe,MIL,AIR,2024-06-04T00:40:00,2024-06-04T01:25:00,2024-06-04T02:10:00\n",
    ),
];

/// Trips by the graph of the plan, with the line by which their delays are refused.
const DELAYS_THAT_DO_NOT_FIT: [(&str, &str); 3] = [
    (
        "replay --feed f --delays d --from MIL --to AIR --at 2024-06-03T08:00:00 --graph g --late 0,1",
        "meat: late 2 is not a delay\n",
    ),
    (
        "replay --feed f --delays d --from MIL --to AIR --at 2024-06-03T08:00:00 --graph g --late none",
        "meat: too few delays: 0 ridden\n",
    ),
    (
        "replay --feed f --delays d --from MIL --to AIR --at 2024-06-03T08:00:00 --graph g --late 0,0,0",
        "meat: too many delays: 2 ridden\n",
    ),
];

#[test]
fn plans_over_a_small_folder(rt: HostRuntime) -> Result<(), Fail> {
    answers(
        rt.alloc(),
        &old_town(USUAL_DELAYS),
        FOLDER_PLAN_WORDS,
        FOLDER_PLAN,
    )
}

#[test]
fn plans_with_the_delays_of_a_route(rt: HostRuntime) -> Result<(), Fail> {
    let files = old_town(SURE_TRAM);
    answers(
        rt.alloc(),
        files.as_slice(),
        SAFE,
        "safe,MIL,AIR,2024-06-03T08:00:00,2024-06-03T09:05:00,2024-06-03T10:10:00\n",
    )?;
    answers(
        rt.alloc(),
        files.as_slice(),
        FOLDER_PLAN_WORDS,
        SURE_TRAM_PLAN,
    )
}

#[test]
fn plans_as_before_with_groups_that_no_trip_has(rt: HostRuntime) -> Result<(), Fail> {
    for delays in [
        "class,delay,weight,route_id,hour\n*,0,8000,,\n*,300,1500,,\n*,900,500,,\n",
        "class,delay,weight,route_id\n*,0,8000,\n*,300,1500,\n*,900,500,\n*,0,10000,T9\n",
        "class,delay,weight,hour\n*,0,8000,\n*,300,1500,\n*,900,500,\n*,0,10000,10\n",
    ] {
        let files = old_town(delays);
        answers(rt.alloc(), files.as_slice(), FOLDER_PLAN_WORDS, FOLDER_PLAN)?;
    }
    Ok(())
}

const NIGHT_STOPS: Source<'static> = ("f/stops.txt", "stop_id\nMIL\nAIR\n");

const NIGHT_ROUTES: Source<'static> = ("f/routes.txt", "route_id,route_type\nN,3\n");

const NIGHT_TRIPS: Source<'static> = ("f/trips.txt", "route_id,service_id,trip_id\nN,WK,n1\n");

const NIGHT_TIMES: Source<'static> = (
    "f/stop_times.txt",
    "trip_id,stop_sequence,stop_id,arrival_time,departure_time\nn1,1,MIL,24:50:00,24:50:00\nn1,2,AIR,25:10:00,25:10:00\n",
);

/// A bus after midnight, of the day before, and a file of delays.
fn night_bus<'a>(delays: &'a str) -> [Source<'a>; 6] {
    [
        NIGHT_STOPS,
        NIGHT_ROUTES,
        NIGHT_TRIPS,
        NIGHT_TIMES,
        source_of(CALENDAR),
        ("d", delays),
    ]
}

#[test]
fn is_sure_in_the_first_hour_of_the_next_day(rt: HostRuntime) -> Result<(), Fail> {
    for (delays, safe) in BY_HOUR {
        answers(
            rt.alloc(),
            night_bus(delays).as_slice(),
            "safe --feed f --delays d --from MIL --to AIR --at 2024-06-04T00:40:00",
            safe,
        )?;
    }
    Ok(())
}

#[test]
fn refuses_stops_that_a_feed_lacks(rt: HostRuntime) -> Result<(), Fail> {
    refuses(
        rt.alloc(),
        old_town(USUAL_DELAYS).as_slice(),
        "safe --feed f --delays d --from MIL --to XXX --at 2024-06-03T08:00:00",
        5,
        "meat: unknown stop of --to\n",
    )
}

#[test]
fn reports_the_line_of_an_unknown_trip(rt: HostRuntime) -> Result<(), Fail> {
    let times =
        "trip_id,arrival_time,departure_time,stop_id,stop_sequence\nt100,8:00:00,8:00:00,MIL,1\nt999,8:20:00,8:20:00,AIR,2\n";
    refuses(
        rt.alloc(),
        [
            source_of(STOPS),
            source_of(ROUTES),
            source_of(TRIPS),
            ("f/stop_times.txt", times),
            source_of(CALENDAR),
            ("d", USUAL_DELAYS),
        ]
        .as_slice(),
        SAFE,
        3,
        "meat: stop_times.txt line 3: unknown trip_id\n",
    )
}

#[test]
fn reports_a_table_that_cannot_be_read(rt: HostRuntime) -> Result<(), Fail> {
    cannot_read(
        rt.alloc(),
        old_town(USUAL_DELAYS).as_slice(),
        ("f/stop_times.txt", 1),
        SAFE,
        "meat: cannot read stop_times.txt\n",
    )
}

/// The feed of Old Town with the graph of its plan.
fn with_plan() -> [Source<'static>; 7] {
    [
        source_of(STOPS),
        source_of(ROUTES),
        source_of(TRIPS),
        source_of(STOP_TIMES),
        source_of(CALENDAR),
        ("d", USUAL_DELAYS),
        ("g", FOLDER_PLAN),
    ]
}

#[test]
fn replays_a_missed_connection(rt: HostRuntime) -> Result<(), Fail> {
    answers(
        rt.alloc(),
        with_plan().as_slice(),
        "replay --feed f --delays d --from MIL --to AIR --at 2024-06-03T08:00:00 --graph g --late 300,900",
        "ride,20240603:t100,MIL,2024-06-03T08:00:00,\"S,1\",2024-06-03T08:20:00,300,2024-06-03T08:25:00\nride,20240603:b201,\"S,1\",2024-06-03T08:40:00,AIR,2024-06-03T09:06:00,900,2024-06-03T09:21:00\narrived,AIR,2024-06-03T09:21:00\n",
    )
}

#[test]
fn refuses_delays_that_do_not_fit(rt: HostRuntime) -> Result<(), Fail> {
    for (line, err) in DELAYS_THAT_DO_NOT_FIT {
        refuses(rt.alloc(), with_plan().as_slice(), line, 11, err)?;
    }
    Ok(())
}

#[test]
fn samples_a_made_timetable(rt: HostRuntime) -> Result<(), Fail> {
    answers(
        rt.alloc(),
        [].as_slice(),
        "sample --size 10",
        "sample,10,19200,12,2024-06-03T10:50:45.000000000,2024-06-03T10:50:45.000000000\n",
    )
}
