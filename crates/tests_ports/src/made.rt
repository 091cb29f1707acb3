//! Made timetables, against rows worked out by hand.
use feed_maker::{MadeFiles, make};
use file_ports::{Files, load};
use std::alloc::Global;
use std::process::Abort;
use std::test::Fail;

fn bytes_of<F: Files>(alloc: Global, files: &mut F, path: &str) -> Result<Vec<u8>, &'static str> {
    match load(alloc, files, path, 1_000_000_000) {
        Ok(Some(bytes)) => Ok(bytes),
        Ok(None) => Err("absent"),
        Err(_) => Err("cannot load"),
    }
}

/// Fails unless the bytes of a made file have this many lines, and begin and end like this.
fn is_made(rt: &impl Abort, path: &str, bytes: &[u8], rows: usize, front: &str, end: &str) {
    let lines = bytes.iter().filter(|byte| **byte == b'\n').count();
    assert_eq!(rt; lines, rows, "{path}");
    assert!(rt; bytes.starts_with(front.as_bytes()), "{path}");
    assert!(rt; bytes.ends_with(end.as_bytes()), "{path}");
}

/// Whether a file of these holds these bytes.
fn holds<F: Files>(
    alloc: Global,
    files: &mut F,
    path: &str,
    bytes: &[u8],
) -> Result<bool, &'static str> {
    let found = bytes_of(alloc, files, path)?;
    Ok(found.as_slice() == bytes)
}

/// Stops where a made file is another, or where it is another in the folder that is made at once.
fn is_in_both<F: Files, W: Files>(
    rt: &impl Abort,
    alloc: Global,
    files: &mut F,
    whole: &mut W,
    path: &str,
    rows: usize,
    front: &str,
    end: &str,
) -> Result<(), Fail> {
    let bytes = bytes_of(alloc, files, path)?;
    is_made(rt, path, bytes.as_slice(), rows, front, end);
    let same = holds(alloc, whole, path, bytes.as_slice())?;
    assert!(rt; same, "{path}");
    Ok(())
}

/// Stops where one of the files of ten lines is another.
fn are_ten_lines<F: Files, W: Files>(
    rt: &impl Abort,
    alloc: Global,
    files: &mut F,
    whole: &mut W,
) -> Result<(), Fail> {
    for (path, rows, front, end) in [
        (
            "feed/stops.txt",
            201,
            "stop_id\nH0\nH1\nH2\nH3\nH4\nH5\nH6\nH7\nH8\nH9\nL0_1\nL0_2\n",
            "\nL8_19\nL9_1\nL9_2\nL9_3\nL9_4\nL9_5\nL9_6\nL9_7\nL9_8\nL9_9\nL9_10\nL9_11\n\
             L9_12\nL9_13\nL9_14\nL9_15\nL9_16\nL9_17\nL9_18\nL9_19\n",
        ),
        (
            "feed/routes.txt",
            11,
            "route_id,route_type\nR0,0\nR1,1\nR2,2\nR3,3\nR4,0\n",
            "\nR4,0\nR5,1\nR6,2\nR7,3\nR8,0\nR9,1\n",
        ),
        (
            "feed/trips.txt",
            961,
            "route_id,service_id,trip_id\nR0,D,T0_0\nR0,D,T0_1\n",
            "\nR9,D,T9_94\nR9,D,T9_95\n",
        ),
        (
            "feed/stop_times.txt",
            20161,
            "trip_id,arrival_time,departure_time,stop_id,stop_sequence\n\
             T0_0,00:00:00,00:00:00,H0,1\nT0_0,00:01:00,00:01:00,L0_1,2\n",
            "\nT9_95,24:12:25,24:12:25,L9_19,20\nT9_95,24:13:35,24:13:35,H0,21\n",
        ),
        (
            "feed/calendar.txt",
            2,
            "service_id,monday,tuesday,wednesday,thursday,friday,saturday,sunday,start_date,end_date\n",
            "\nD,1,1,1,1,1,1,1,20240101,20241231\n",
        ),
        (
            "delays.csv",
            9,
            "class,delay,weight\n*,0,8000\n*,300,1500\n*,900,500\n1,0,9000\n",
            "\n1,0,9000\n1,60,1000\n2,0,7000\n2,120,2000\n2,600,1000\n",
        ),
    ] {
        is_in_both(rt, alloc, files, whole, path, rows, front, end)?;
    }
    Ok(())
}

#[test]
fn ten_lines(rt: HostRuntime) -> Result<(), Fail> {
    let mut files = MadeFiles::new(rt.alloc(), 10)?;
    let mut whole = make(rt.alloc(), 10)?;
    are_ten_lines(&rt, rt.alloc(), &mut files, &mut whole)
}

/// The stop times of this many lines more than ten.
fn stop_times_of(alloc: Global, more: u32) -> Result<Vec<u8>, Fail> {
    let mut files = MadeFiles::new(alloc, 10 + more % 391)?;
    Ok(bytes_of(alloc, &mut files, "feed/stop_times.txt")?)
}

#[test]
fn last_times(rt: HostRuntime) -> Result<(), Fail> {
    for (more, end) in [
        (1, "\nT10_95,24:15:50,24:15:50,H2,21\n"),
        (21, "\nT30_95,24:10:50,24:10:50,H1,21\n"),
        (95, "\nT104_95,24:15:40,24:15:40,H6,21\n"),
    ] {
        let bytes = stop_times_of(rt.alloc(), more)?;
        assert!(rt; bytes.ends_with(end.as_bytes()), "{more}");
    }
    Ok(())
}
