//! Two runs over small files in memory.
use crate::pairs::{Host, run_both};
use csv_rows::Limits;
use journey_report::Report;
use memory_ports::{MemoryFiles, MemorySink};
use plan_model::List;
use std::alloc::Global;
use std::test::Fail;

/// A host in memory.
type MemoryHost = Host<MemoryFiles, MemorySink, MemorySink>;

/// More bytes than any text here has.
const ROOM: usize = 1 << 10;

/// A ride that is followed by one of two others.
const CONNECTIONS: &str =
    "run,step,from,to,dep,arr\nr1,1,A,B,2024-06-03T08:00:00,2024-06-03T08:20:00\nr2,1,B,T,2024-06-03T08:24:00,2024-06-03T08:50:00\nr3,1,B,T,2024-06-03T08:40:00,2024-06-03T09:06:00\n";

const DELAYS: &str = "class,delay,weight\n*,0,8000\n*,300,1500\n*,900,500\n";

/// What `plan` prints of them, from A at 08:00:00 to T.
const PLAN: &str =
    "graph,1,A,T,2024-06-03T08:00:00,2024-06-03T10:42:00,2024-06-03T08:54:42.000000000,2024-06-03T08:54:42.000000000\nstart,2024-06-03T08:00:00,r1,1,2024-06-03T08:00:00,1,B,2024-06-03T08:20:00\nplace,B,120,2,,,,\nleg,2024-06-03T08:22:00,r2,1,2024-06-03T08:24:00,1,T,2024-06-03T08:50:00\nleg,2024-06-03T08:38:00,r3,1,2024-06-03T08:40:00,1,T,2024-06-03T09:06:00\n";

const PLANS: &str = "plan --cut c --delays d --from A --to T --at 2024-06-03T08:00:00";

const CHECKS: &str = "check --cut c --delays d --from A --to T --at 2024-06-03T08:00:00 --graph g";

/// The words of a line.
fn words_of(alloc: Global, line: &str) -> Result<Vec<String>, Fail> {
    let mut words = Vec::new(alloc);
    for word in line.split(' ') {
        words.push(String::from_str(alloc, word)?)?;
    }
    Ok(words)
}

/// A host with the connections and the delays.
fn host_of(alloc: Global) -> Result<MemoryHost, Fail> {
    let mut files = MemoryFiles::new(alloc, 64);
    files.add("c", CONNECTIONS.as_bytes())?;
    files.add("d", DELAYS.as_bytes())?;
    Ok(Host {
        files,
        out: MemorySink::new(alloc, 4096, ROOM, List::new(alloc))?,
        err: MemorySink::new(alloc, 4096, ROOM, List::new(alloc))?,
    })
}

/// The reports of two runs by the words of two lines, both with status 0.
fn run_lines(
    alloc: Global,
    line: &str,
    other: &str,
    first: &mut MemoryHost,
    second: &mut MemoryHost,
) -> Result<(Report, Report), Fail> {
    let words = words_of(alloc, line)?;
    let others = words_of(alloc, other)?;
    let (report, other) = run_both(
        alloc,
        words.as_slice(),
        others.as_slice(),
        first,
        second,
        &Limits::standard(),
    );
    if report.status.0 != 0 || other.status.0 != 0 {
        return Err("a run has a fault".into());
    }
    Ok((report, other))
}

#[test]
fn a_plan_is_planned_again(rt: HostRuntime) -> Result<(), Fail> {
    let alloc = rt.alloc();
    let (mut first, mut second) = (host_of(alloc)?, host_of(alloc)?);
    let _reports = run_lines(alloc, PLANS, PLANS, &mut first, &mut second)?;
    assert!(&rt; first.out.bytes() == PLAN.as_bytes());
    assert!(&rt; second.out.bytes() == PLAN.as_bytes());
    Ok(())
}

/// A host in which what `plan` printed over another is saved.
fn host_with_plan(alloc: Global) -> Result<MemoryHost, Fail> {
    let (mut before, mut after) = (host_of(alloc)?, host_of(alloc)?);
    let words = words_of(alloc, PLANS)?;
    let report = before.run(alloc, words.as_slice(), &Limits::standard());
    if report.status.0 != 0 {
        return Err("the plan has a fault".into());
    }
    after.files.add("g", before.out.bytes())?;
    Ok(after)
}

#[test]
fn a_plan_is_accepted_once_it_is_saved(rt: HostRuntime) -> Result<(), Fail> {
    let alloc = rt.alloc();
    let (mut first, mut second) = (host_of(alloc)?, host_with_plan(alloc)?);
    let (report, other) = run_lines(alloc, PLANS, CHECKS, &mut first, &mut second)?;
    let (Some(planned), Some(checked)) = (report.bounds, other.bounds) else {
        return Err("no bounds".into());
    };
    assert!(&rt; planned.hi() == checked.hi());
    Ok(())
}

#[test]
fn a_host_plans_again(rt: HostRuntime) -> Result<(), Fail> {
    let alloc = rt.alloc();
    let (mut first, mut second) = (host_of(alloc)?, host_with_plan(alloc)?);
    let _checked = run_lines(alloc, PLANS, CHECKS, &mut first, &mut second)?;
    let _planned = run_lines(alloc, PLANS, PLANS, &mut first, &mut second)?;
    assert!(&rt; first.out.bytes().ends_with(PLAN.as_bytes()));
    assert!(&rt; second.out.bytes().ends_with(PLAN.as_bytes()));
    Ok(())
}
