//! The rows of frequencies of a feed, and their faults.

use csv_rows::{Column, FeedFault, Limits, Table};
use file_ports::SteadyFiles;
use gtfs_tables::{Feed, FrequencyRow};
use plan_model::NoMemory;
use std::alloc::Global;
use std::test::Fail;

/// A feed of three trips that stop nowhere, with these frequencies.
fn files_with(alloc: Global, frequencies: &[u8]) -> Result<SteadyFiles, NoMemory> {
    let mut files = SteadyFiles::new(alloc, 64);
    files.add("f/stops.txt", b"stop_id\nA\n")?;
    files.add("f/routes.txt", b"route_id,route_type\nR,3\n")?;
    files.add(
        "f/trips.txt",
        b"route_id,service_id,trip_id\nR,WK,f1\nR,WK,f2\nR,WK,f3\n",
    )?;
    files.add(
        "f/stop_times.txt",
        b"trip_id,stop_id,stop_sequence,arrival_time,departure_time\n",
    )?;
    files.add("f/frequencies.txt", frequencies)?;
    Ok(files)
}

/// The fault of the feed with these frequencies.
fn fault_with(alloc: Global, frequencies: &[u8], limits: &Limits) -> Option<FeedFault> {
    let Ok(mut files) = files_with(alloc, frequencies) else {
        return Some(FeedFault::NoMemory);
    };
    Feed::read(alloc, &mut files, "f", limits).err()
}

fn fault_of(alloc: Global, frequencies: &[u8]) -> Option<FeedFault> {
    fault_with(alloc, frequencies, &Limits::standard())
}

fn row(first: u32, end: u32, headway: u32, line: u64) -> FrequencyRow {
    FrequencyRow {
        first,
        end,
        headway,
        line,
    }
}

const FREQUENCIES: &[u8] = b"headway_secs,trip_id,exact_times,end_time,start_time
900,f3,,08:35:00,08:05:00
600,f1,1,9:00:00,8:00:00
1,f3,0,00:00:00,007:59:59
";

#[test]
fn reads_the_rows_of_each_trip(rt: HostRuntime) -> Result<(), Fail> {
    let Ok(mut files) = files_with(rt.alloc(), FREQUENCIES) else {
        return Err("no files".into());
    };
    let Ok(feed) = Feed::read(rt.alloc(), &mut files, "f", &Limits::standard()) else {
        return Err("no feed".into());
    };
    assert_eq!(rt; feed.trip_count(), 3);
    if feed.trip_count() == 3 {
        assert_eq!(rt;
            feed.frequencies(0),
            [row(28_800, 32_400, 600, 3)].as_slice()
        );
        assert!(rt; feed.frequencies(1).is_empty());
        assert_eq!(rt;
            feed.frequencies(2),
            [row(29_100, 30_900, 900, 2), row(28_799, 0, 1, 4)].as_slice()
        );
    }
    Ok(())
}

#[test]
fn refuses_a_table_by_its_header_and_its_length(rt: HostRuntime) {
    let alloc = rt.alloc();
    assert_eq!(rt; fault_of(alloc, b""), None);
    assert_eq!(rt;
        fault_of(alloc, b"trip_id,start_time,headway_secs\n"),
        Some(FeedFault::MissingColumn(Table::Frequencies, Column::EndTime))
    );
    let mut limits = Limits::standard();
    limits.frequencies = 2;
    assert_eq!(rt;
        fault_with(alloc, FREQUENCIES, &limits),
        Some(FeedFault::TooManyRows(Table::Frequencies, 3))
    );
    limits.frequencies = 3;
    assert_eq!(rt; fault_with(alloc, FREQUENCIES, &limits), None);
}

const HEADER: &[u8] = b"trip_id,start_time,end_time,headway_secs,exact_times\n";

fn under_header(alloc: Global, rows: &[u8]) -> Result<Vec<u8>, NoMemory> {
    let mut text = Vec::from_slice(alloc, HEADER)?;
    text.extend_from_slice(rows)?;
    Ok(text)
}

/// The fault of the feed with these rows of frequencies.
fn fault_of_rows(alloc: Global, rows: &[u8]) -> Option<FeedFault> {
    match under_header(alloc, rows) {
        Ok(text) => fault_of(alloc, text.as_slice()),
        Err(_) => Some(FeedFault::NoMemory),
    }
}

fn bad(line: u64, column: Column) -> Option<FeedFault> {
    Some(FeedFault::BadField(Table::Frequencies, line, column))
}

#[test]
fn refuses_fields_that_are_not_of_their_form(rt: HostRuntime) {
    let alloc = rt.alloc();
    for (rows, fault) in [
        (
            b"f1,08:05:00,08:35:00,0\n".as_slice(),
            bad(2, Column::HeadwaySecs),
        ),
        (
            b"f1,08:05:00,08:35:00,86401\n".as_slice(),
            bad(2, Column::HeadwaySecs),
        ),
        (
            b"f1,08:05:00,08:35:00,86400,2\n".as_slice(),
            bad(2, Column::ExactTimes),
        ),
        (
            b"f1,08:05:00,08:35:00,600\nf1,,08:35:00,0\n".as_slice(),
            bad(3, Column::StartTime),
        ),
        (
            b"f1,08:05:00,168:00:00,600\n".as_slice(),
            bad(2, Column::EndTime),
        ),
        (b",,,\n".as_slice(), bad(2, Column::TripId)),
    ] {
        assert_eq!(rt; fault_of_rows(alloc, rows), fault);
    }
}

#[test]
fn refuses_trips_that_are_none_and_starts_that_repeat(rt: HostRuntime) {
    let alloc = rt.alloc();
    let unknown = FeedFault::UnknownKey(Table::Frequencies, 2, Column::TripId);
    assert_eq!(rt; fault_of_rows(alloc, b"f9,x,y,0\n"), Some(unknown));
    let twice = FeedFault::DuplicateKey(Table::Frequencies, 4);
    let rows = b"f1,08:05:00,08:35:00,900\nf2,08:05:00,08:35:00,900\nf1,8:05:00,09:00:00,60\n";
    assert_eq!(rt; fault_of_rows(alloc, rows), Some(twice));
}
