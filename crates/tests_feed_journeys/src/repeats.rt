//! Journeys over a feed whose one trip repeats, through the top call.
use memory_ports::MemoryFiles;
use std::alloc::Global;
use std::test::Fail;
use test_runs::{Output, PIECE, USUAL_DELAYS, is_output, output_over};

const REPEATS: &[u8] = b"trip_id,start_time,end_time,headway_secs\nf1,08:05:00,08:35:00,900\n";

/// A ride of half an hour from A to T, with these frequencies.
fn files_with(alloc: Global, frequencies: &[u8]) -> Result<MemoryFiles, Fail> {
    let mut files = MemoryFiles::new(alloc, PIECE);
    files.add("f/stops.txt", b"stop_id\nA\nT\n")?;
    files.add("f/routes.txt", b"route_id,route_type\nR,3\n")?;
    files.add("f/trips.txt", b"route_id,service_id,trip_id\nR,WK,f1\n")?;
    files.add(
        "f/stop_times.txt",
        b"trip_id,arrival_time,departure_time,stop_id,stop_sequence
f1,00:00:00,00:00:00,A,1
f1,00:30:00,00:30:00,T,2
",
    )?;
    files.add("f/frequencies.txt", frequencies)?;
    files.add(
        "f/calendar.txt",
        b"service_id,monday,tuesday,wednesday,thursday,friday,saturday,sunday,start_date,end_date
WK,1,1,1,1,1,0,0,20240101,20241231
",
    )?;
    files.add("d", USUAL_DELAYS.as_bytes())?;
    Ok(files)
}

/// What a plan from A to T prints, from a moment on.
fn plan_at(alloc: Global, frequencies: &[u8], at: &str) -> Result<Output, Fail> {
    let mut files = files_with(alloc, frequencies)?;
    let line = format!(in alloc; "plan --feed f --delays d --from A --to T --at {at}")?;
    output_over(alloc, &mut files, line.as_str())
}

/// Fails unless a plan from A to T, from a moment on, prints this.
fn plans(alloc: Global, at: &str, out: &str) -> Result<(), Fail> {
    let output = plan_at(alloc, REPEATS, at)?;
    is_output(alloc, at, &output, 0, out, "")
}

#[test]
fn takes_the_first_run(rt: HostRuntime) -> Result<(), Fail> {
    plans(
        rt.alloc(),
        "2024-06-03T08:00:00",
        "graph,1,A,T,2024-06-03T08:00:00,2024-06-03T09:40:00,2024-06-03T08:36:30.000000000,2024-06-03T08:36:30.000000000\nstart,2024-06-03T08:05:00,20240603@29100.2:f1,0,2024-06-03T08:05:00,0,T,2024-06-03T08:35:00\n",
    )
}

#[test]
fn takes_the_second_run(rt: HostRuntime) -> Result<(), Fail> {
    plans(
        rt.alloc(),
        "2024-06-03T08:06:00",
        "graph,1,A,T,2024-06-03T08:06:00,2024-06-03T10:04:00,2024-06-03T08:51:30.000000000,2024-06-03T08:51:30.000000000\nstart,2024-06-03T08:20:00,20240603@30000.2:f1,0,2024-06-03T08:20:00,0,T,2024-06-03T08:50:00\n",
    )
}

/// No run leaves at 08:35, the end itself.
#[test]
fn waits_for_the_next_day_at_the_end(rt: HostRuntime) -> Result<(), Fail> {
    plans(
        rt.alloc(),
        "2024-06-03T08:21:00",
        "graph,1,A,T,2024-06-03T08:21:00,2024-06-05T09:19:00,2024-06-04T08:36:30.000000000,2024-06-04T08:36:30.000000000\nstart,2024-06-04T08:05:00,20240604@29100.2:f1,0,2024-06-04T08:05:00,0,T,2024-06-04T08:35:00\n",
    )
}

#[test]
fn names_the_line_of_a_headway_of_zero(rt: HostRuntime) -> Result<(), Fail> {
    let frequencies = b"trip_id,start_time,end_time,headway_secs\nf1,08:05:00,08:35:00,0\n";
    let output = plan_at(rt.alloc(), frequencies, "2024-06-03T08:00:00")?;
    assert_eq!(rt;
        output.err.as_str(),
        "meat: frequencies.txt line 2: bad headway_secs\n"
    );
    assert_eq!(rt; output.status, 3);
    Ok(())
}
