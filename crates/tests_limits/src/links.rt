//! Journeys that walk from one place to another between two rides, through the top call.
use crate::limits::{answers_within, changed, ends_within};
use csv_rows::Limits;
use meat_engine::{Fault, LimitKind};
use std::alloc::Global;
use std::test::Fail;
use test_runs::{Source, answers, refuses};

/// A walk that takes just the time between the two trips.
const JUST_TIME: &str = "from_stop_id,to_stop_id,transfer_type,min_transfer_time\nX1,X2,2,300\n";

/// A walk that takes a second longer.
const NO_TIME: &str = "from_stop_id,to_stop_id,transfer_type,min_transfer_time\nX1,X2,2,301\n";

/// A walk in the other direction.
const BACK: &str = "from_stop_id,to_stop_id,transfer_type,min_transfer_time\nX2,X1,2,300\n";

const WORDS: &str = "plan --feed f --delays d --from A --to T --at 2024-06-03T08:00:00";

const PLAN: &str =
    "graph,2,A,T,2024-06-03T08:00:00,2024-06-03T09:20:00,2024-06-03T08:40:00.000000000,2024-06-03T08:40:00.000000000,\nstart,2024-06-03T08:00:00,20240603:t1,0,2024-06-03T08:00:00,0,X1,2024-06-03T08:20:00,A\nplace,X1,120,1,,,,,\nleg,2024-06-03T08:20:00,20240603:t2,0,2024-06-03T08:25:00,0,T,2024-06-03T08:40:00,X2\n";

/// A feed whose first trip ends at one place and whose second trip begins at another, 300 seconds later, with these
/// transfers.
fn feed<'a>(transfers: &'a str) -> [Source<'a>; 7] {
    [
        ("f/stops.txt", "stop_id\nA\nX1\nX2\nT\n"),
        ("f/routes.txt", "route_id,route_type\nR,1\n"),
        (
            "f/trips.txt",
            "route_id,service_id,trip_id\nR,WK,t1\nR,WK,t2\n",
        ),
        (
            "f/stop_times.txt",
            "trip_id,arrival_time,departure_time,stop_id,stop_sequence\nt1,08:00:00,08:00:00,A,1\nt1,08:20:00,08:20:00,X1,2\nt2,08:25:00,08:25:00,X2,1\nt2,08:40:00,08:40:00,T,2\n",
        ),
        (
            "f/calendar.txt",
            "service_id,monday,tuesday,wednesday,thursday,friday,saturday,sunday,start_date,end_date\nWK,1,1,1,1,1,0,0,20240101,20241231\n",
        ),
        ("d", "class,delay,weight\n*,0,10000\n"),
        ("f/transfers.txt", transfers),
    ]
}

/// Fails unless there is no way with these transfers.
fn has_no_way(alloc: Global, transfers: &str) -> Result<(), Fail> {
    refuses(
        alloc,
        feed(transfers).as_slice(),
        WORDS,
        1,
        "meat: no safe strategy\n",
    )
}

#[test]
fn walks_from_one_place_to_another(rt: HostRuntime) -> Result<(), Fail> {
    answers(rt.alloc(), feed(JUST_TIME).as_slice(), WORDS, PLAN)
}

#[test]
fn misses_a_ride_by_a_second_of_walking(rt: HostRuntime) -> Result<(), Fail> {
    has_no_way(rt.alloc(), NO_TIME)
}

#[test]
fn walks_in_one_direction(rt: HostRuntime) -> Result<(), Fail> {
    has_no_way(rt.alloc(), BACK)
}

#[test]
fn counts_a_connection_for_each_way_to_it(rt: HostRuntime) -> Result<(), Fail> {
    ends_within(
        &rt,
        rt.alloc(),
        &feed(JUST_TIME),
        WORDS,
        &changed(|limits: &mut Limits| limits.entries = 2),
        6,
        Fault::Limit(LimitKind::Entries, 4),
        "meat: too many entries: 4\n",
    )
}

#[test]
fn plans_with_just_so_many_ways(rt: HostRuntime) -> Result<(), Fail> {
    answers_within(
        &rt,
        rt.alloc(),
        &feed(JUST_TIME),
        WORDS,
        &changed(|limits: &mut Limits| limits.entries = 4),
        PLAN,
    )
}
