//! Limits, each passed by a run within smaller ones, and none of them anything.
use csv_rows::{Limits, Table};
use meat_engine::{Fault, Input, LimitKind, Which, run_limited};
use memory_ports::{MemoryFiles, MemorySink};
use plan_model::List;
use std::alloc::Global;
use std::process::Abort;
use std::test::Fail;
use test_runs::{
    CHANGE, CHANGE_PLAN, FOLDER_PLAN, FOLDER_PLAN_WORDS, Output, ROOM, Source, USUAL_DELAYS,
    files_of, is_output, old_town, output_by, words_of,
};

/// The standard limits after a change.
pub(crate) fn changed<F: Fn(&mut Limits)>(change: F) -> Limits
    requires { F.IsAlwaysCallable change }
{
    let mut limits = Limits::standard();
    change(&mut limits);
    limits
}

/// The status and the fault that a run within limits ended with.
fn end_within(
    alloc: Global,
    words: &[String],
    files: &mut MemoryFiles,
    out: &mut MemorySink,
    err: &mut MemorySink,
    limits: &Limits,
) -> (u8, Option<Fault>) {
    let report = run_limited(alloc, words, files, out, err, limits);
    (report.status.0, report.fault)
}

/// What a line of words printed within limits over some files.
fn output_by_limits(
    alloc: Global,
    files: &mut MemoryFiles,
    line: &str,
    limits: &Limits,
) -> Result<Output, Fail> {
    let words = words_of(alloc, line)?;
    let mut out = MemorySink::new(alloc, 64, ROOM, List::new(alloc))?;
    let mut err = MemorySink::new(alloc, 64, ROOM, List::new(alloc))?;
    let end = end_within(alloc, words.as_slice(), files, &mut out, &mut err, limits);
    output_by(alloc, end, &out, &err)
}

/// What a line of words prints within limits over files with these texts.
fn output_within(
    alloc: Global,
    sources: &[Source],
    line: &str,
    limits: &Limits,
) -> Result<Output, Fail> {
    let mut files = files_of(alloc, sources)?;
    output_by_limits(alloc, &mut files, line, limits)
}

/// Stops where a line of words within limits is not answered like this.
pub(crate) fn answers_within(
    rt: &impl Abort,
    alloc: Global,
    sources: &[Source],
    line: &str,
    limits: &Limits,
    out: &str,
) -> Result<(), Fail> {
    let output = output_within(alloc, sources, line, limits)?;
    assert_eq!(rt; output.fault, None, "{line}");
    is_output(alloc, line, &output, 0, out, "")?;
    Ok(())
}

/// Stops where a line of words within limits does not end with this fault, its status and its line.
pub(crate) fn ends_within(
    rt: &impl Abort,
    alloc: Global,
    sources: &[Source],
    line: &str,
    limits: &Limits,
    status: u8,
    fault: Fault,
    err: &str,
) -> Result<(), Fail> {
    let output = output_within(alloc, sources, line, limits)?;
    assert_eq!(rt; output.fault, Some(fault), "{err}");
    is_output(alloc, err, &output, status, "", err)?;
    Ok(())
}

fn rows(table: Table, count: u64) -> Fault {
    Fault::Limit(LimitKind::Rows(table), count)
}

fn bytes(table: Table, count: u64) -> Fault {
    Fault::Limit(LimitKind::Bytes(Input::Feed(table)), count)
}

const DATES: Source<'static> = (
    "f/calendar_dates.txt",
    "service_id,date,exception_type\nWK,20240605,2\n",
);

const TRANSFERS: Source<'static> = (
    "f/transfers.txt",
    "from_stop_id,to_stop_id,transfer_type,min_transfer_time\nS1a,S1b,2,120\nS1b,S1a,2,120\n",
);

/// The feed of Old Town with a removed date and a transfer.
fn with_dates() -> [Source<'static>; 8] {
    let [stops, routes, trips, stop_times, calendar, delays] = old_town(USUAL_DELAYS);
    [
        stops, routes, trips, stop_times, calendar, delays, DATES, TRANSFERS,
    ]
}

/// Stops where a plan over that feed within limits does not end with this fault and its line.
fn refuses_feed(
    rt: &impl Abort,
    alloc: Global,
    limits: &Limits,
    fault: Fault,
    err: &str,
) -> Result<(), Fail> {
    ends_within(
        rt,
        alloc,
        with_dates().as_slice(),
        FOLDER_PLAN_WORDS,
        limits,
        6,
        fault,
        err,
    )
}

#[test]
fn refuses_a_feed_above_its_limits(rt: HostRuntime) -> Result<(), Fail> {
    for (limits, fault, line) in [
        (
            changed(|limits: &mut Limits| limits.stops = 2),
            rows(Table::Stops, 6),
            "meat: stops.txt has too many rows: 6\n",
        ),
        (
            changed(|limits: &mut Limits| limits.bytes = 100),
            bytes(Table::Stops, 101),
            "meat: stops.txt is too long\n",
        ),
        (
            changed(|limits: &mut Limits| limits.connections = 3),
            Fault::Limit(LimitKind::Connections, 4),
            "meat: too many connections: 4\n",
        ),
    ] {
        refuses_feed(&rt, rt.alloc(), &limits, fault, line)?;
    }
    Ok(())
}

/// The limits where no row of a table is taken.
fn none_of(table: Table) -> Limits {
    let mut limits = Limits::standard();
    match table {
        Table::Stops => limits.stops = 0,
        Table::Routes => limits.routes = 0,
        Table::Trips => limits.trips = 0,
        Table::StopTimes => limits.stop_times = 0,
        Table::Frequencies => limits.frequencies = 0,
        Table::Calendar => limits.calendar = 0,
        Table::CalendarDates => limits.calendar_dates = 0,
        Table::Transfers => limits.transfers = 0,
    }
    limits
}

#[test]
fn refuses_any_row_where_a_limit_is_none(rt: HostRuntime) -> Result<(), Fail> {
    for (table, count, line) in [
        (Table::Stops, 6, "meat: stops.txt has too many rows: 6\n"),
        (Table::Routes, 2, "meat: routes.txt has too many rows: 2\n"),
        (Table::Trips, 3, "meat: trips.txt has too many rows: 3\n"),
        (
            Table::StopTimes,
            7,
            "meat: stop_times.txt has too many rows: 7\n",
        ),
        (
            Table::Calendar,
            1,
            "meat: calendar.txt has too many rows: 1\n",
        ),
        (
            Table::CalendarDates,
            1,
            "meat: calendar_dates.txt has too many rows: 1\n",
        ),
        (
            Table::Transfers,
            2,
            "meat: transfers.txt has too many rows: 2\n",
        ),
    ] {
        refuses_feed(&rt, rt.alloc(), &none_of(table), rows(table, count), line)?;
    }
    Ok(())
}

const REPEATS: Source<'static> = (
    "f/frequencies.txt",
    "trip_id,start_time,end_time,headway_secs\nt100,08:00:00,09:00:00,600\n",
);

#[test]
fn refuses_any_repeat_where_the_limit_is_none(rt: HostRuntime) -> Result<(), Fail> {
    let [stops, routes, trips, stop_times, calendar, delays] = old_town(USUAL_DELAYS);
    ends_within(
        &rt,
        rt.alloc(),
        [stops, routes, trips, stop_times, calendar, delays, REPEATS].as_slice(),
        FOLDER_PLAN_WORDS,
        &none_of(Table::Frequencies),
        6,
        rows(Table::Frequencies, 1),
        "meat: frequencies.txt has too many rows: 1\n",
    )
}

#[test]
fn refuses_any_byte_where_the_limit_is_none(rt: HostRuntime) -> Result<(), Fail> {
    let none = changed(|limits: &mut Limits| limits.bytes = 0);
    let fault = bytes(Table::Stops, 1);
    refuses_feed(
        &rt,
        rt.alloc(),
        &none,
        fault,
        "meat: stops.txt is too long\n",
    )
}

#[test]
fn refuses_any_connection_where_the_limit_is_none(rt: HostRuntime) -> Result<(), Fail> {
    let none = changed(|limits: &mut Limits| limits.connections = 0);
    let fault = Fault::Limit(LimitKind::Connections, 4);
    refuses_feed(
        &rt,
        rt.alloc(),
        &none,
        fault,
        "meat: too many connections: 4\n",
    )
}

/// Limits at which that feed is just not too much.
fn just_enough() -> Limits {
    let mut limits = Limits::standard();
    limits.stops = 6;
    limits.routes = 2;
    limits.trips = 3;
    limits.stop_times = 7;
    limits.calendar = 1;
    limits.calendar_dates = 1;
    limits.transfers = 2;
    limits.cut_rows = 0;
    limits.connections = 4;
    limits
}

#[test]
fn plans_over_a_feed_at_its_limits(rt: HostRuntime) -> Result<(), Fail> {
    answers_within(
        &rt,
        rt.alloc(),
        with_dates().as_slice(),
        FOLDER_PLAN_WORDS,
        &just_enough(),
        FOLDER_PLAN,
    )
}

#[test]
fn looks_up_stops_before_the_window_is_counted(rt: HostRuntime) -> Result<(), Fail> {
    let few = changed(|limits: &mut Limits| limits.connections = 3);
    ends_within(
        &rt,
        rt.alloc(),
        with_dates().as_slice(),
        "plan --feed f --delays d --from MIL --to XXX --at 2024-06-03T08:00:00",
        &few,
        5,
        Fault::UnknownStop(Which::To),
        "meat: unknown stop of --to\n",
    )
}

const PLAN_CUT: &str = "plan --cut c --delays d --from A --to T --at 2024-06-03T08:00:00";

#[test]
fn refuses_a_cut_file_above_its_limits(rt: HostRuntime) -> Result<(), Fail> {
    let long = "meat: cut file is too long\n";
    let many = "meat: cut file has too many rows: 3\n";
    for (limits, kind, count, line) in [
        (
            changed(|limits: &mut Limits| limits.bytes = 8),
            LimitKind::Bytes(Input::Cut),
            9,
            long,
        ),
        (
            changed(|limits: &mut Limits| limits.bytes = 0),
            LimitKind::Bytes(Input::Cut),
            1,
            long,
        ),
        (
            changed(|limits: &mut Limits| {
                limits.bytes = 8;
                limits.cut_rows = 3;
            }),
            LimitKind::Bytes(Input::Cut),
            9,
            long,
        ),
        (
            changed(|limits: &mut Limits| {
                limits.bytes = 1 << 20;
                limits.cut_rows = 1;
            }),
            LimitKind::CutRows,
            3,
            many,
        ),
        (
            changed(|limits: &mut Limits| limits.cut_rows = 1),
            LimitKind::CutRows,
            3,
            many,
        ),
        (
            changed(|limits: &mut Limits| limits.cut_rows = 0),
            LimitKind::CutRows,
            3,
            many,
        ),
    ] {
        let fault = Fault::Limit(kind, count);
        ends_within(
            &rt,
            rt.alloc(),
            CHANGE.as_slice(),
            PLAN_CUT,
            &limits,
            6,
            fault,
            line,
        )?;
    }
    Ok(())
}

/// The limits of a feed are none of a cut file.
#[test]
fn plans_over_a_cut_file_at_its_limits(rt: HostRuntime) -> Result<(), Fail> {
    let enough = changed(|limits: &mut Limits| {
        limits.cut_rows = 3;
        limits.connections = 0;
        limits.stops = 0;
    });
    answers_within(
        &rt,
        rt.alloc(),
        CHANGE.as_slice(),
        PLAN_CUT,
        &enough,
        CHANGE_PLAN,
    )
}
