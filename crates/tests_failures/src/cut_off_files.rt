//! Files that are cut off at each of their lengths.
use crate::checks::*;
use memory_ports::MemoryFiles;
use std::alloc::Global;
use std::process::Abort;
use std::test::Fail;

/// Whether a text is whole: by a plan the same files give a trip, and else it is as long as that of the scene.
fn is_whole(
    alloc: Global,
    files: &mut MemoryFiles,
    scene: Scene,
    text: &str,
) -> Result<bool, Fail> {
    if !scene.text.starts_with("graph,") {
        return Ok(text.len() == scene.text.len() && text.ends_with('\n'));
    }
    files.add(GRAPH.path, text.as_bytes())?;
    let trip = output_over(alloc, files, REPLAY.words)?;
    Ok(text.starts_with("graph,") && (trip.status == 0 || trip.status == 11))
}

/// Stops where a run over these files ends neither with the whole text nor with one of these statuses and nothing
/// in `out`.
fn is_whole_or_refused(
    rt: &impl Abort,
    alloc: Global,
    scene: Scene,
    files: &mut MemoryFiles,
    name: &str,
    length: u64,
    statuses: &[u8],
) -> Result<(), Fail> {
    let output = output_over(alloc, files, scene.words)?;
    if output.status == 0 {
        let whole = is_whole(alloc, files, scene, output.out.as_str())?;
        is_so(rt, name, length, whole, output.out.as_str());
        return Ok(());
    }
    let known = statuses.iter().any(|status| *status == output.status);
    is_so(rt, name, length, known, output.err.as_str());
    same_text(rt, name, length, output.out.as_str(), "");
    Ok(())
}

/// Cuts a file off at each of its lengths of a range. A run ends with the whole text, or with one of these statuses
/// and nothing in `out`.
fn lengths_in(
    rt: &impl Abort,
    alloc: Global,
    scene: Scene,
    source: SceneFile,
    from: usize,
    to: usize,
    statuses: &[u8],
) -> Result<(), Fail> {
    let bytes = source.text.as_bytes();
    let mut files = files_of(alloc, scene)?;
    for length in from..to.min(bytes.len()) {
        files.add(source.path, &bytes[..length])?;
        is_whole_or_refused(
            rt,
            alloc,
            scene,
            &mut files,
            source.name,
            length as u64,
            statuses,
        )?;
    }
    Ok(())
}

/// Cuts a file off at each of its lengths, and counts them.
fn all_lengths(
    rt: &impl Abort,
    alloc: Global,
    scene: Scene,
    source: SceneFile,
    statuses: &[u8],
) -> Result<usize, Fail> {
    let cases = source.text.len();
    lengths_in(rt, alloc, scene, source, 0, cases, statuses)?;
    Ok(cases)
}

/// Fails unless an empty file has this status and line.
fn is_refused_empty(
    rt: &impl Abort,
    alloc: Global,
    scene: Scene,
    source: SceneFile,
    status: u8,
    line: &str,
) -> Result<(), Fail> {
    let mut files = files_of(alloc, scene)?;
    files.add(source.path, b"")?;
    let output = output_over(alloc, &mut files, scene.words)?;
    same_text(rt, source.name, 0, output.err.as_str(), line);
    same_number(
        rt,
        source.name,
        0,
        u64::from(output.status),
        u64::from(status),
    );
    Ok(())
}

#[test]
fn lengths_of_the_stops(rt: HostRuntime) -> Result<(), Fail> {
    let cases = all_lengths(&rt, rt.alloc(), PLAN, STOPS, &[3])?;
    println!(rt; "stops.txt: {cases} lengths")?;
    Ok(())
}

#[test]
fn lengths_of_the_routes(rt: HostRuntime) -> Result<(), Fail> {
    let cases = all_lengths(&rt, rt.alloc(), PLAN, ROUTES, &[3])?;
    println!(rt; "routes.txt: {cases} lengths")?;
    Ok(())
}

#[test]
fn lengths_of_the_trips(rt: HostRuntime) -> Result<(), Fail> {
    let cases = all_lengths(&rt, rt.alloc(), PLAN, TRIPS, &[3])?;
    println!(rt; "trips.txt: {cases} lengths")?;
    Ok(())
}

#[test]
fn lengths_of_the_stop_times(rt: HostRuntime) -> Result<(), Fail> {
    let cases = all_lengths(&rt, rt.alloc(), PLAN, STOP_TIMES, &[1, 3])?;
    println!(rt; "stop_times.txt: {cases} lengths")?;
    Ok(())
}

#[test]
fn lengths_of_the_frequencies(rt: HostRuntime) -> Result<(), Fail> {
    let cases = all_lengths(&rt, rt.alloc(), PLAN, FREQUENCIES, &[3])?;
    println!(rt; "frequencies.txt: {cases} lengths")?;
    Ok(())
}

#[test]
fn lengths_of_the_calendar(rt: HostRuntime) -> Result<(), Fail> {
    let cases = all_lengths(&rt, rt.alloc(), PLAN, CALENDAR, &[1, 3])?;
    println!(rt; "calendar.txt: {cases} lengths")?;
    Ok(())
}

#[test]
fn lengths_of_the_calendar_dates(rt: HostRuntime) -> Result<(), Fail> {
    let cases = all_lengths(&rt, rt.alloc(), PLAN, CALENDAR_DATES, &[3])?;
    println!(rt; "calendar_dates.txt: {cases} lengths")?;
    Ok(())
}

#[test]
fn lengths_of_the_transfers(rt: HostRuntime) -> Result<(), Fail> {
    let cases = all_lengths(&rt, rt.alloc(), PLAN, TRANSFERS, &[3])?;
    println!(rt; "transfers.txt: {cases} lengths")?;
    Ok(())
}

#[test]
fn lengths_of_the_delays(rt: HostRuntime) -> Result<(), Fail> {
    let cases = all_lengths(&rt, rt.alloc(), PLAN, DELAYS, &[4])?;
    println!(rt; "delay file: {cases} lengths")?;
    Ok(())
}

#[test]
fn lengths_of_the_cut(rt: HostRuntime) -> Result<(), Fail> {
    let cases = all_lengths(&rt, rt.alloc(), SAFE, CUT, &[1, 3, 5])?;
    println!(rt; "cut file: {cases} lengths")?;
    Ok(())
}

#[test]
fn lengths_of_the_certificate(rt: HostRuntime) -> Result<(), Fail> {
    let cases = all_lengths(&rt, rt.alloc(), CHECK, CERTIFICATE, &[14])?;
    println!(rt; "proof file: {cases} lengths")?;
    Ok(())
}

/// Cuts the graph off at some of its lengths. It takes several tests.
fn graph_part(rt: &impl Abort, alloc: Global, from: usize, to: usize) -> Result<(), Fail> {
    lengths_in(rt, alloc, REPLAY, GRAPH, from, to, &[10, 11])
}

#[test]
fn lengths_of_the_first_quarter_of_the_graph(rt: HostRuntime) -> Result<(), Fail> {
    graph_part(&rt, rt.alloc(), 0, 100)?;
    println!(rt; "graph file: lengths 0 to 99")?;
    Ok(())
}

#[test]
fn lengths_of_the_second_quarter_of_the_graph(rt: HostRuntime) -> Result<(), Fail> {
    graph_part(&rt, rt.alloc(), 100, 200)?;
    println!(rt; "graph file: lengths 100 to 199")?;
    Ok(())
}

#[test]
fn lengths_of_the_third_quarter_of_the_graph(rt: HostRuntime) -> Result<(), Fail> {
    graph_part(&rt, rt.alloc(), 200, 300)?;
    println!(rt; "graph file: lengths 200 to 299")?;
    Ok(())
}

#[test]
fn lengths_of_the_last_quarter_of_the_graph(rt: HostRuntime) -> Result<(), Fail> {
    graph_part(&rt, rt.alloc(), 300, 400)?;
    assert_eq!(rt; GRAPH.text.len(), 400);
    println!(rt; "graph file: lengths 300 to 399")?;
    Ok(())
}

/// An optional table counts as absent if it is empty: so does a calendar beside exceptions.
#[test]
fn empty_files(rt: HostRuntime) -> Result<(), Fail> {
    for (scene, source, status, line) in [
        (PLAN, STOPS, 3, "meat: stops.txt has no column stop_id\n"),
        (PLAN, ROUTES, 3, "meat: routes.txt has no column route_id\n"),
        (PLAN, TRIPS, 3, "meat: trips.txt has no column route_id\n"),
        (
            PLAN,
            STOP_TIMES,
            3,
            "meat: stop_times.txt has no column trip_id\n",
        ),
        (SMALL_PLAN, CALENDAR, 3, "meat: calendar.txt is missing\n"),
        (PLAN, CALENDAR, 1, "meat: no safe strategy\n"),
        (PLAN, FREQUENCIES, 0, ""),
        (PLAN, CALENDAR_DATES, 0, ""),
        (PLAN, TRANSFERS, 0, ""),
        (PLAN, DELAYS, 4, "meat: delay file has no column class\n"),
        (REPLAY, GRAPH, 10, "meat: graph file line 1: bad row\n"),
        (SAFE, CUT, 3, "meat: cut file has no column run\n"),
        (SAFE, DELAYS, 4, "meat: delay file has no column class\n"),
        (CHECK, CERTIFICATE, 14, "meat: proof file line 1: bad row\n"),
    ] {
        is_refused_empty(&rt, rt.alloc(), scene, source, status, line)?;
    }
    Ok(())
}
