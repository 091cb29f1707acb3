//! Journeys with delays by the hour and by the route, through the top call.
use std::alloc::Global;
use std::test::Fail;
use test_runs::{answers, begins, refuses};

const SURE_AT_NINE: &str =
    "class,delay,weight,hour\n*,0,8000,\n*,300,1500,\n*,900,500,\n*,0,10000,9\n";

/// A ride that is sure by its route.
const SURE_BY_ROUTE: &str =
    "class,delay,weight,route_id\n*,0,8000,\n*,300,1500,\n*,900,500,\n*,0,10000,r1\n";

const SAFE: &str = "safe --cut c --delays d --from A --to T --at 2024-06-03T08:00:00";

const PLAN: &str = "plan --cut c --delays d --from A --to T --at 2024-06-03T08:00:00";

/// A ride that arrives at nine.
const AT_NINE: &str =
    "run,step,from,to,dep,arr\nr1,1,A,T,2024-06-03T08:00:00,2024-06-03T09:00:00\n";

/// Fails unless a ride that is sure at nine arrives by this moment, and on average at that one.
fn is_there(alloc: Global, cut: &str, safe: &str, plan: &str) -> Result<(), Fail> {
    let sources = [("c", cut), ("d", SURE_AT_NINE)];
    answers(alloc, sources.as_slice(), SAFE, safe)?;
    begins(alloc, sources.as_slice(), PLAN, plan)
}

#[test]
fn is_sure_in_the_hour_of_its_arrival(rt: HostRuntime) -> Result<(), Fail> {
    is_there(
        rt.alloc(),
        AT_NINE,
        "safe,A,T,2024-06-03T08:00:00,2024-06-03T09:00:00,2024-06-03T10:00:00\n",
        "graph,1,A,T,2024-06-03T08:00:00,2024-06-03T10:00:00,2024-06-03T09:00:00.000000000,2024-06-03T09:00:00.000000000\n",
    )
}

#[test]
fn is_late_a_second_before_that_hour(rt: HostRuntime) -> Result<(), Fail> {
    is_there(
        rt.alloc(),
        "run,step,from,to,dep,arr\nr1,1,A,T,2024-06-03T08:00:00,2024-06-03T08:59:59\n",
        "safe,A,T,2024-06-03T08:00:00,2024-06-03T09:14:59,2024-06-03T10:29:58\n",
        "graph,1,A,T,2024-06-03T08:00:00,2024-06-03T10:29:58,2024-06-03T09:01:29.000000000,2024-06-03T09:01:29.000000000\n",
    )
}

#[test]
fn is_of_no_route_in_a_cut_file(rt: HostRuntime) -> Result<(), Fail> {
    answers(
        rt.alloc(),
        [("c", AT_NINE), ("d", SURE_BY_ROUTE)].as_slice(),
        SAFE,
        "safe,A,T,2024-06-03T08:00:00,2024-06-03T09:15:00,2024-06-03T10:30:00\n",
    )
}

/// Delay files with the line by which a group of each is refused.
const GROUP_FAULTS: [(&str, &str); 2] = [
    (
        "class,delay,weight,hour\n*,0,8000,\n*,300,1500,\n*,900,500,\n*,0,9000,9\n",
        "meat: delay file line 5: group weights sum to 9000\n",
    ),
    (
        "class,delay,weight,route_id\n*,0,8000,\n*,300,1500,\n*,900,500,\n3,0,10000,T1\n",
        "meat: delay file line 5: bad field\n",
    ),
];

#[test]
fn reports_the_line_of_a_group(rt: HostRuntime) -> Result<(), Fail> {
    for (delays, line) in GROUP_FAULTS {
        let sources = [("c", AT_NINE), ("d", delays)];
        refuses(rt.alloc(), sources.as_slice(), SAFE, 4, line)?;
    }
    Ok(())
}

/// The text of a row with a number in it.
fn row_of(alloc: Global, start: &str, number: u32, end: &str) -> Result<String, Fail> {
    Ok(format!(in alloc; "{start}{number}{end}")?)
}

/// A file with this many rows, each with its number.
fn with_rows(
    alloc: Global,
    head: &str,
    start: &str,
    end: &str,
    count: u32,
) -> Result<String, Fail> {
    let mut text = String::from_str(alloc, head)?;
    for number in 0..count {
        let row = row_of(alloc, start, number, end)?;
        text.push_str(row.as_str())?;
    }
    Ok(text)
}

#[test]
fn refuses_more_rows_and_groups_than_there_may_be(rt: HostRuntime) -> Result<(), Fail> {
    for (head, start, end, count, line) in [
        (
            "class,delay,weight\n",
            "3,",
            ",100\n",
            65,
            "meat: delay class 3 has more than 64 rows\n",
        ),
        (
            "class,delay,weight,route_id\n*,0,10000,\n",
            "*,0,10000,T",
            "\n",
            65_536,
            "meat: too many delay classes: 65537\n",
        ),
    ] {
        let delays = with_rows(rt.alloc(), head, start, end, count)?;
        let sources = [("c", AT_NINE), ("d", delays.as_str())];
        refuses(rt.alloc(), sources.as_slice(), SAFE, 4, line)?;
    }
    Ok(())
}
