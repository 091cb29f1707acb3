use csv_rows::{Column, FeedFault, Limits, Table};
use memory_ports::MemoryFiles;
use plan_model::{List, NoMemory};
use service_days::Services;
use std::alloc::Global;
use std::test::Fail;

const CALENDAR: &str =
    "service_id,monday,tuesday,wednesday,thursday,friday,saturday,sunday,start_date,end_date\n\
    WK,1,1,1,1,1,0,0,20240101,20241231\n";

/// Adds a file, where there is a text of it.
fn put(files: &mut MemoryFiles, path: &str, text: Option<&str>) -> Result<(), NoMemory> {
    match text {
        Some(text) => files.add(path, text.as_bytes()),
        None => Ok(()),
    }
}

fn files_with(
    alloc: Global,
    calendar: Option<&str>,
    dates: Option<&str>,
) -> Result<MemoryFiles, NoMemory> {
    let mut files = MemoryFiles::new(alloc, 64);
    put(&mut files, "feed/calendar.txt", calendar)?;
    put(&mut files, "feed/calendar_dates.txt", dates)?;
    Ok(files)
}

/// The limits with which the largest feed is read.
fn limits() -> Limits {
    Limits::standard()
}

fn read_in(alloc: Global, files: &mut MemoryFiles) -> Result<Services, FeedFault> {
    Services::read(alloc, files, "feed", &limits())
}

fn read(alloc: Global, calendar: Option<&str>, dates: Option<&str>) -> Result<Services, FeedFault> {
    match files_with(alloc, calendar, dates) {
        Ok(mut files) => read_in(alloc, &mut files),
        Err(_) => Err(FeedFault::NoMemory),
    }
}

/// The fault of the tables.
fn fault_of(alloc: Global, calendar: Option<&str>, dates: Option<&str>) -> Option<FeedFault> {
    read(alloc, calendar, dates).err()
}

const DATES: &str = "service_id,date,exception_type\nWK,20240604,2\nWK,20240604,1\nSU,20240602,1\n";

/// The days of a service from a day to another.
fn days_of(alloc: Global, service: &str, first: i32, last: i32) -> Result<List<i32>, Fail> {
    let services = read(alloc, Some(CALENDAR), Some(DATES))?;
    Ok(services.days(alloc, service, first, last)?)
}

/// Services with the first and the last day that are asked, and the days.
const DAYS: [(&str, i32, i32, &[i32]); 4] = [
    ("WK", 19876, 19880, &[19877, 19879, 19880]),
    ("SU", 19870, 19880, &[19876]),
    ("WK", 19880, 19879, &[]),
    ("XX", 19876, 19880, &[]),
];

#[test]
fn days_of_a_service(rt: HostRuntime) -> Result<(), Fail> {
    for (service, first, last, days) in DAYS {
        let found = days_of(rt.alloc(), service, first, last)?;
        assert_eq!(rt; found.as_slice(), days, "{service}");
    }
    Ok(())
}

/// Calendars and dates with their first fault.
const FAULTS: [(Option<&str>, Option<&str>, FeedFault); 5] = [
    (None, None, FeedFault::MissingTable(Table::Calendar)),
    (
        Some("\n"),
        Some(""),
        FeedFault::MissingTable(Table::Calendar),
    ),
    (
        Some("service_id\n"),
        Some("x\n"),
        FeedFault::MissingColumn(Table::Calendar, Column::Monday),
    ),
    (
        None,
        Some("service_id,date\n"),
        FeedFault::MissingColumn(Table::CalendarDates, Column::ExceptionType),
    ),
    (
        None,
        Some("service_id,date,exception_type\nWK,20240604,3\n"),
        FeedFault::BadField(Table::CalendarDates, 2, Column::ExceptionType),
    ),
];

#[test]
fn first_fault(rt: HostRuntime) {
    for (calendar, dates, fault) in FAULTS {
        assert_eq!(rt; fault_of(rt.alloc(), calendar, dates), Some(fault));
    }
}
