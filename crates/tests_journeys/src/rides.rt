//! Rides by hand, and faults of the outside, through the top call.
use std::alloc::Global;
use std::test::Fail;
use test_runs::{
    CHANGE, CHANGE_PLAN, Output, Source, USUAL_DELAYS, answers, cannot_read, files_of, is_output,
    output_where, refuses,
};

/// A ride with no change.
const DIRECT: Source<'static> = (
    "c",
    "run,step,from,to,dep,arr\nr1,1,A,T,2024-06-03T08:00:00,2024-06-03T09:00:00\n",
);

const DELAYS: Source<'static> = ("d", USUAL_DELAYS);

/// The rides of `CHANGE` without the last one.
const NO_SECOND_BUS: [Source<'static>; 2] = [
    (
        "c",
        "run,step,from,to,dep,arr\nr1,1,A,B,2024-06-03T08:00:00,2024-06-03T08:20:00\nr2,1,B,T,2024-06-03T08:24:00,2024-06-03T08:50:00\n",
    ),
    DELAYS,
];

const SAFE: &str = "safe --cut c --delays d --from A --to T --at 2024-06-03T08:00:00";

const PLAN: &str = "plan --cut c --delays d --from A --to T --at 2024-06-03T08:00:00";

#[test]
fn reports_the_least_worst_arrival(rt: HostRuntime) -> Result<(), Fail> {
    let direct = [DIRECT, DELAYS];
    for (files, line, out) in [
        (
            direct.as_slice(),
            SAFE,
            "safe,A,T,2024-06-03T08:00:00,2024-06-03T09:15:00,2024-06-03T10:30:00\n",
        ),
        (
            CHANGE.as_slice(),
            SAFE,
            "safe,A,T,2024-06-03T08:00:00,2024-06-03T09:21:00,2024-06-03T10:42:00\n",
        ),
        (
            direct.as_slice(),
            "safe --cut c --delays d --from A --to A --at 2024-06-03T08:00:00",
            "safe,A,A,2024-06-03T08:00:00,2024-06-03T08:00:00,2024-06-03T08:00:00\n",
        ),
    ] {
        answers(rt.alloc(), files, line, out)?;
    }
    Ok(())
}

#[test]
fn reports_that_there_is_none(rt: HostRuntime) -> Result<(), Fail> {
    let direct = [DIRECT, DELAYS];
    for (files, line, status, err) in [
        (
            NO_SECOND_BUS.as_slice(),
            SAFE,
            1,
            "meat: no safe strategy\n",
        ),
        (
            NO_SECOND_BUS.as_slice(),
            PLAN,
            1,
            "meat: no safe strategy\n",
        ),
        (
            direct.as_slice(),
            "safe --cut c --delays d --from A --to X --at 2024-06-03T08:00:00",
            5,
            "meat: unknown stop of --to\n",
        ),
    ] {
        refuses(rt.alloc(), files, line, status, err)?;
    }
    Ok(())
}

/// Lines about the rides of `CHANGE`, and the graphs that they print.
const GRAPHS: [(&str, &str); 3] = [
    (
        "expand --cut c --delays d --from A --to T --at 2024-06-03T08:00:00",
        "expanded,1,A,T,2024-06-03T08:00:00,2024-06-03T10:42:00,2024-06-03T08:54:42.000000000,2024-06-03T08:54:42.000000000\nstart,2024-06-03T08:00:00,r1,1,2024-06-03T08:00:00,1,B,2024-06-03T08:20:00\nride,3,r1,1,2024-06-03T08:00:00,1,B,2024-06-03T08:20:00\nnext,2024-06-03T08:20:00,r2,1,2024-06-03T08:24:00,1,T,2024-06-03T08:50:00\nnext,2024-06-03T08:25:00,r3,1,2024-06-03T08:40:00,1,T,2024-06-03T09:06:00\nnext,2024-06-03T08:35:00,r3,1,2024-06-03T08:40:00,1,T,2024-06-03T09:06:00\nride,0,r2,1,2024-06-03T08:24:00,1,T,2024-06-03T08:50:00\nride,0,r3,1,2024-06-03T08:40:00,1,T,2024-06-03T09:06:00\n",
    ),
    (PLAN, CHANGE_PLAN),
    (
        "expand --cut c --delays d --from A --to A --at 2024-06-03T08:00:00",
        "expanded,1,A,A,2024-06-03T08:00:00,2024-06-03T08:00:00,2024-06-03T08:00:00.000000000,2024-06-03T08:00:00.000000000\n",
    ),
];

#[test]
fn prints_decision_graphs(rt: HostRuntime) -> Result<(), Fail> {
    for (line, out) in GRAPHS {
        answers(rt.alloc(), CHANGE.as_slice(), line, out)?;
    }
    Ok(())
}

#[test]
fn reports_that_the_delay_file_is_missing(rt: HostRuntime) -> Result<(), Fail> {
    refuses(
        rt.alloc(),
        [DIRECT].as_slice(),
        PLAN,
        4,
        "meat: delay file is missing\n",
    )
}

/// The output of a plan whose second write fails.
fn output_unwritten(alloc: Global) -> Result<Output, Fail> {
    let mut files = files_of(alloc, [DIRECT, DELAYS].as_slice())?;
    output_where(alloc, &mut files, PLAN, 64, &[2], &[])
}

#[test]
fn reports_that_it_cannot_write(rt: HostRuntime) -> Result<(), Fail> {
    let output = output_unwritten(rt.alloc())?;
    is_output(
        rt.alloc(),
        PLAN,
        &output,
        8,
        "graph,1,A,T,2024-06-03T08:00:00,2024-06-03T10:30:00,2024-06-03T0",
        "meat: cannot write\n",
    )?;
    Ok(())
}

#[test]
fn reports_that_it_cannot_read(rt: HostRuntime) -> Result<(), Fail> {
    cannot_read(
        rt.alloc(),
        [DIRECT, DELAYS].as_slice(),
        ("c", 2),
        PLAN,
        "meat: cannot read cut file\n",
    )
}
