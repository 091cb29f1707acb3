//! Each call on a file fails in turn: its opening and each of its reads.
use crate::checks::*;
use meat_engine::Fault;
use memory_ports::MemoryFiles;
use std::alloc::Global;
use std::process::Abort;
use std::test::Fail;

/// More calls than there are on any file here.
const MOST_CALLS: u32 = 40;

/// Stops where a run over these files does not give the whole text of the scene.
fn gives_all(
    rt: &impl Abort,
    alloc: Global,
    scene: Scene,
    files: &mut MemoryFiles,
    name: &str,
    call: u32,
) -> Result<(), Fail> {
    let call = u64::from(call);
    let output = output_over(alloc, files, scene.words)?;
    same_text(rt, name, call, output.out.as_str(), scene.text);
    same_text(rt, name, call, output.err.as_str(), "");
    same_number(rt, name, call, u64::from(output.status), 0);
    Ok(())
}

/// Fails unless the fault is that this file cannot be read.
fn is_refused(
    rt: &impl Abort,
    alloc: Global,
    source: SceneFile,
    call: u32,
    output: &Output,
) -> Result<(), Fail> {
    let call = u64::from(call);
    let name = source.name;
    let line = format!(in alloc; "meat: cannot read {name}\n")?;
    same_fault(
        rt,
        source.name,
        call,
        output.fault,
        Some(Fault::Read(source.input)),
    );
    same_number(rt, source.name, call, u64::from(output.status), 7);
    same_text(rt, source.name, call, output.out.as_str(), "");
    same_text(rt, source.name, call, output.err.as_str(), line.as_str());
    Ok(())
}

/// Lets one call on a file fail, and answers whether a run meets it. Then the fault names the file and is counted
/// once; nothing is written, and after the files have healed all is.
fn meets(
    rt: &impl Abort,
    alloc: Global,
    scene: Scene,
    files: &mut MemoryFiles,
    source: SceneFile,
    call: u32,
) -> Result<bool, Fail> {
    let before = files.fault_count();
    files.fail(source.path, call)?;
    let output = output_over(alloc, files, scene.words)?;
    let after = files.fault_count();
    let is_met = output.fault.is_some();
    if is_met {
        is_refused(rt, alloc, source, call, &output)?;
        same_number(
            rt,
            source.name,
            u64::from(call),
            after,
            before.saturating_add(1),
        );
        files.heal();
    } else {
        same_number(rt, source.name, u64::from(call), after, before);
    }
    gives_all(rt, alloc, scene, files, source.name, call)?;
    Ok(is_met)
}

/// Lets each call on a file fail in turn, until a run meets none, and counts those that were met: the opening, a
/// read for each piece, and one that finds the end.
fn all_fail(rt: &impl Abort, alloc: Global, scene: Scene, source: SceneFile) -> Result<u32, Fail> {
    let mut files = files_of(alloc, scene)?;
    let calls = source.text.len().div_ceil(PIECE) as u64 + 2;
    for call in 0..MOST_CALLS {
        if !meets(rt, alloc, scene, &mut files, source, call)? {
            same_number(rt, source.name, u64::from(call), u64::from(call), calls);
            return Ok(call);
        }
    }
    Err("more calls than any file here has".into())
}

#[test]
fn calls_on_the_stops(rt: HostRuntime) -> Result<(), Fail> {
    let cases = all_fail(&rt, rt.alloc(), PLAN, STOPS)?;
    println!(rt; "stops.txt: {cases} calls that fail")?;
    Ok(())
}

#[test]
fn calls_on_the_routes(rt: HostRuntime) -> Result<(), Fail> {
    let cases = all_fail(&rt, rt.alloc(), PLAN, ROUTES)?;
    println!(rt; "routes.txt: {cases} calls that fail")?;
    Ok(())
}

#[test]
fn calls_on_the_trips(rt: HostRuntime) -> Result<(), Fail> {
    let cases = all_fail(&rt, rt.alloc(), PLAN, TRIPS)?;
    println!(rt; "trips.txt: {cases} calls that fail")?;
    Ok(())
}

#[test]
fn calls_on_the_stop_times(rt: HostRuntime) -> Result<(), Fail> {
    let cases = all_fail(&rt, rt.alloc(), PLAN, STOP_TIMES)?;
    println!(rt; "stop_times.txt: {cases} calls that fail")?;
    Ok(())
}

#[test]
fn calls_on_the_frequencies(rt: HostRuntime) -> Result<(), Fail> {
    let cases = all_fail(&rt, rt.alloc(), PLAN, FREQUENCIES)?;
    println!(rt; "frequencies.txt: {cases} calls that fail")?;
    Ok(())
}

#[test]
fn calls_on_the_calendar(rt: HostRuntime) -> Result<(), Fail> {
    let cases = all_fail(&rt, rt.alloc(), PLAN, CALENDAR)?;
    println!(rt; "calendar.txt: {cases} calls that fail")?;
    Ok(())
}

#[test]
fn calls_on_the_calendar_dates(rt: HostRuntime) -> Result<(), Fail> {
    let cases = all_fail(&rt, rt.alloc(), PLAN, CALENDAR_DATES)?;
    println!(rt; "calendar_dates.txt: {cases} calls that fail")?;
    Ok(())
}

#[test]
fn calls_on_the_transfers(rt: HostRuntime) -> Result<(), Fail> {
    let cases = all_fail(&rt, rt.alloc(), PLAN, TRANSFERS)?;
    println!(rt; "transfers.txt: {cases} calls that fail")?;
    Ok(())
}

#[test]
fn calls_on_the_delays(rt: HostRuntime) -> Result<(), Fail> {
    for scene in [PLAN, SAFE] {
        let cases = all_fail(&rt, rt.alloc(), scene, DELAYS)?;
        println!(rt; "delay file: {cases} calls that fail")?;
    }
    Ok(())
}

#[test]
fn calls_on_the_graph(rt: HostRuntime) -> Result<(), Fail> {
    let cases = all_fail(&rt, rt.alloc(), REPLAY, GRAPH)?;
    println!(rt; "graph file: {cases} calls that fail")?;
    Ok(())
}

#[test]
fn calls_on_the_cut(rt: HostRuntime) -> Result<(), Fail> {
    let cases = all_fail(&rt, rt.alloc(), SAFE, CUT)?;
    println!(rt; "cut file: {cases} calls that fail")?;
    Ok(())
}

#[test]
fn calls_on_the_certificate(rt: HostRuntime) -> Result<(), Fail> {
    let cases = all_fail(&rt, rt.alloc(), CHECK, CERTIFICATE)?;
    println!(rt; "proof file: {cases} calls that fail")?;
    Ok(())
}
