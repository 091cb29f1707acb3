//! Windows of small feeds whose trips repeat, against runs worked by hand.
ghost use Rattle.std.specs.Prelude.{◌≤◌};
ghost use Rattle.plan_model.specs.Bounds.{most_connections};

use crate::feeds::{FIRST_START, MONDAY, window};
use connections::WindowFault;
use file_ports::SteadyFiles;
use plan_model::{ConnectionId, Names, Network, NoMemory};
use std::alloc::Global;
use std::test::Fail;

/// A trip of a day of weekdays in 2024 and of each day around the new year of 1970.
fn files_of<'a>(
    alloc: Global,
    stop_times: &'a str,
    frequencies: &'a str,
) -> Result<SteadyFiles, NoMemory> {
    let mut files = SteadyFiles::new(alloc, 64);
    for (path, text) in [
        ("feed/stops.txt", "stop_id\nA\nB\nT\n"),
        ("feed/routes.txt", "route_id,route_type\nR,3\n"),
        ("feed/trips.txt", "route_id,service_id,trip_id\nR,WK,f1\n"),
        ("feed/stop_times.txt", stop_times),
        ("feed/frequencies.txt", frequencies),
        (
            "feed/calendar.txt",
            "service_id,monday,tuesday,wednesday,thursday,friday,saturday,sunday,start_date,end_date\nWK,1,1,1,1,1,0,0,20240101,20241231\n",
        ),
        (
            "feed/calendar_dates.txt",
            "service_id,date,exception_type\nWK,19691226,1\n",
        ),
    ] {
        files.add(path, text.as_bytes())?;
    }
    Ok(files)
}

/// The window of a feed from a start on, if its tables are read.
fn window_from(
    alloc: Global,
    stop_times: &str,
    frequencies: &str,
    seconds: u32,
    horizon: u32,
    most: u64,
) -> Option<Result<(Network, Names), WindowFault>>
    requires { most ≤ most_connections }
{
    let mut files = files_of(alloc, stop_times, frequencies).ok()?;
    window(alloc, &mut files, seconds, horizon, most)
}

const HALF_HOUR: &str = "trip_id,arrival_time,departure_time,stop_id,stop_sequence\n\
    f1,00:00:00,00:00:00,A,1\nf1,00:30:00,00:30:00,T,2\n";

const TO_SIX: &str = "trip_id,start_time,end_time,headway_secs\nf1,08:05:00,08:35:00,900\n";

const TWO_ROWS: &str = "trip_id,start_time,end_time,headway_secs\n\
    f1,08:05:00,08:10:00,900\nf1,08:00:00,08:10:00,300\n";

const EACH_SECOND: &str = "trip_id,start_time,end_time,headway_secs\nf1,00:00:00,24:00:00,1\n";

/// A trip whose stop times are two hours later than its first row.
const AT_TEN: &str = "trip_id,arrival_time,departure_time,stop_id,stop_sequence\n\
    f1,09:59:00,10:00:00,A,1\nf1,10:30:00,10:30:00,T,2\n";

const LONG: &str = "trip_id,arrival_time,departure_time,stop_id,stop_sequence\n\
    f1,00:00:00,00:00:00,A,1\nf1,167:00:00,167:00:00,B,2\nf1,167:30:00,167:30:00,T,3\n";

const LATE: &str = "trip_id,start_time,end_time,headway_secs\nf1,167:00:00,167:00:01,1\n";

const EIGHT: u32 = MONDAY + 8 * 3600;

/// The departure and the arrival of each connection, in seconds after the first start.
fn times_of(alloc: Global, network: &Network) -> Result<Vec<(u64, u64)>, Fail> {
    let mut times = Vec::new(alloc);
    for i in 0..network.count() {
        let ride = network.get(ConnectionId(i));
        let dep = ride.dep.0.saturating_sub(FIRST_START);
        let arr = ride.arr.0.saturating_sub(FIRST_START);
        times.push((dep, arr))?;
    }
    Ok(times)
}

/// Whether the runs have these names, by their numbers.
fn has_runs(names: &Names, runs: &[&str]) -> bool {
    for i in 0..runs.len() {
        if names.run(runs[i]).map(|run| run.0 as usize) != Some(i) {
            return false;
        }
    }
    true
}

/// The times of a window of a feed, if its runs have these names.
fn times_from(
    alloc: Global,
    stop_times: &str,
    frequencies: &str,
    seconds: u32,
    horizon: u32,
    runs: &[&str],
) -> Result<Vec<(u64, u64)>, Fail> {
    match window_from(alloc, stop_times, frequencies, seconds, horizon, 64) {
        Some(Ok(parts)) if has_runs(&parts.1, runs) => times_of(alloc, &parts.0),
        Some(Ok(_)) => Err("another run".into()),
        Some(Err(_)) => Err("no window".into()),
        None => Err("no feed".into()),
    }
}

/// Whether the rides depart at these seconds, and take half an hour each.
fn are_half_hours(times: &[(u64, u64)], departures: &[u64]) -> bool {
    if times.len() != departures.len() {
        return false;
    }
    for i in 0..times.len() {
        if times[i].0 != departures[i] || times[i].1 != departures[i].saturating_add(1800) {
            return false;
        }
    }
    true
}

#[test]
fn runs_of_rows(rt: HostRuntime) -> Result<(), Fail> {
    let eight = u64::from(EIGHT);
    let two_runs = ["20240603@29100.2:f1", "20240603@30000.2:f1"];
    let two_departures = [eight + 300, eight + 1200];
    for (stop_times, rows, seconds, horizon, runs, deps) in [
        (
            HALF_HOUR,
            TO_SIX,
            EIGHT,
            1,
            two_runs.as_slice(),
            two_departures.as_slice(),
        ),
        (
            HALF_HOUR,
            TO_SIX,
            EIGHT + 2100,
            1,
            [].as_slice(),
            [].as_slice(),
        ),
        (
            HALF_HOUR,
            TWO_ROWS,
            EIGHT,
            1,
            [
                "20240603@28800.3:f1",
                "20240603@29100.2:f1",
                "20240603@29100.3:f1",
            ]
            .as_slice(),
            [eight, eight + 300, eight + 300].as_slice(),
        ),
        (
            AT_TEN,
            TO_SIX,
            EIGHT,
            1,
            two_runs.as_slice(),
            two_departures.as_slice(),
        ),
        // The run of Monday leaves B at 334:00:00, which is 22:00:00 on Sunday, 13 days later.
        (
            LONG,
            LATE,
            MONDAY + 334 * 3600,
            0,
            ["20240603@601200.2:f1"].as_slice(),
            [u64::from(MONDAY) + 334 * 3600].as_slice(),
        ),
        // The run of 1969-12-26 leaves B at 334:00:00, which is 22:00:00 on 1970-01-08.
        (
            LONG,
            LATE,
            0,
            24,
            ["19691226@601200.2:f1"].as_slice(),
            [22 * 3600].as_slice(),
        ),
    ] {
        let times = times_from(rt.alloc(), stop_times, rows, seconds, horizon, runs)?;
        assert!(rt; are_half_hours(&times, deps), "{times:?}");
    }
    Ok(())
}

#[test]
fn counts_each_second(rt: HostRuntime) -> Result<(), Fail> {
    let Some(found) = window_from(rt.alloc(), HALF_HOUR, EACH_SECOND, MONDAY, 12, 100) else {
        return Err("no feed".into());
    };
    assert_eq!(rt; found.err(), Some(WindowFault::TooMany(43_201)));
    Ok(())
}
