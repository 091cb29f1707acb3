//! The calendars of a feed, each loaded and read.
ghost use Rattle.std.specs.Prelude.{◌≡◌, ◌≤◌, ◌^◌, [], length, IfOk, OnOk};
ghost use Rattle.csv_rows.specs.declared.feed_tables.Table.TheVariants.{Calendar as CalendarTable, CalendarDates as DatesTable};
ghost use Rattle.table_files.specs.Loading.{HasAtMost, loaded_rows};
ghost use Rattle.table_files.specs.Reading.{ReadsTable};
ghost use Rattle.csv_rows.specs.RowFaults.{ReportsFirst};
ghost use Rattle.csv_rows.specs.Tables.{row_count};
ghost use Rattle.service_days.specs.Periods.{service_ids, periods_of};
ghost use Rattle.service_days.specs.Calendars.{AreNumbered, has_no_record, fault_of_calendar, fault_of_dates, calendar_from, dates_from, IsCalendar, AreDates, IsOfCalendar, AreOfDates, AreDistinctRows};

use crate::exceptions::{Numbered, read_exceptions};
use crate::periods::{Calendar, read_calendar};
use csv_rows::{FeedFault, Ids, Limits, Table};
use file_ports::Files;
use plan_model::HashKey;
use std::alloc::Global;
use std::collections::HashSet;
use table_files::{Loaded, read_table};

/// The calendar, and whether its table is absent.
#[derive(Drop)]
pub(crate) struct LoadedCalendar {
    pub(crate) missing: bool,
    pub(crate) calendar: Calendar,
}

/// The exceptions, and whether their table is absent.
#[derive(Drop)]
pub(crate) struct LoadedDates {
    pub(crate) missing: bool,
    pub(crate) numbered: Numbered,
}

/// Whether a table is absent or has no record.
fn has_no_record(loaded: &Loaded) -> bool
    ensures { result ≡ has_no_record loaded.now }
{
    match loaded {
        Loaded::Found(_) => false,
        Loaded::Absent | Loaded::NoRecord => true,
    }
}

/// A calendar of no rows, whose services will be hashed by a key.
fn no_calendar(alloc: Global, key: HashKey) -> Calendar
    ensures ids { result.ids ≡ service_ids [] }
    ensures periods { result.periods.items ≡ periods_of [] }
    ensures distinct { AreDistinctRows [] }
    ensures few { length result.ids ≤ 2 ^ 20 }
{
    Calendar {
        ids: Ids::with_key(alloc, key),
        periods: Vec::new(alloc),
    }
}

/// These services, with no exceptions.
fn no_exceptions(alloc: Global, ids: Ids) -> Numbered
    ensures { AreNumbered [] 0 ids result.ids result.exceptions.keys }
{
    Numbered {
        ids,
        exceptions: HashSet::with_hasher(alloc, HashKey::fixed()),
    }
}

/// The calendar of what is loaded, with a key for the services if it has no rows.
fn calendar_of(alloc: Global, loaded: &Loaded, key: HashKey) -> Result<Calendar, FeedFault>
    requires { HasAtMost (2 ^ 20) loaded.now }
    ensures ids { IfOk result (λ c. c.ids ≡ service_ids (loaded_rows loaded.now)) }
    ensures periods { IfOk result (λ c. c.periods.items ≡ periods_of (loaded_rows loaded.now)) }
    ensures distinct { OnOk result (AreDistinctRows (loaded_rows loaded.now)) }
    ensures few { IfOk result (λ c. length c.ids ≤ 2 ^ 20) }
    ensures reports { ReportsFirst CalendarTable (fault_of_calendar loaded.now) result }
{
    match loaded {
        Loaded::Found(rows) => read_calendar(alloc, rows),
        Loaded::Absent => Ok(no_calendar(alloc, key)),
        Loaded::NoRecord => Ok(no_calendar(alloc, key)),
    }
}

/// The exceptions of what is loaded. The services that have a number keep it.
fn exceptions_of(alloc: Global, loaded: &Loaded, ids: Ids) -> Result<Numbered, FeedFault>
    requires rows { HasAtMost (2 ^ 24) loaded.now }
    requires ids { length ids ≤ 2 ^ 20 }
    ensures numbered { IfOk result (λ n. AreNumbered (loaded_rows loaded.now)
        (row_count (loaded_rows loaded.now)) ids n.ids n.exceptions.keys) }
    ensures reports { ReportsFirst DatesTable (fault_of_dates loaded.now) result }
{
    match loaded {
        Loaded::Found(rows) => read_exceptions(alloc, rows, ids),
        Loaded::Absent => Ok(no_exceptions(alloc, ids)),
        Loaded::NoRecord => Ok(no_exceptions(alloc, ids)),
    }
}

/// The calendar of the folder.
pub(crate) fn load_calendar<F: Files>(
    alloc: Global,
    files: &mut F,
    folder: &str,
    limits: &Limits,
) -> Result<LoadedCalendar, FeedFault>
    ensures reads { ReadsTable CalendarTable folder.now limits.now (F.state files.old) (F.state files.new)
        calendar_from (λ read c. IsCalendar read c.missing c.calendar.ids c.calendar.periods.items) result }
    ensures sound { IfOk result (λ c. IsOfCalendar c.missing c.calendar.ids c.calendar.periods.items) }
    ensures few { IfOk result (λ c. length c.calendar.ids ≤ 2 ^ 20) }
{
    let loaded = read_table(alloc, files, folder, Table::Calendar, limits)?;
    let missing = has_no_record(&loaded);
    let calendar = calendar_of(alloc, &loaded, files.hash_key())?;
    Ok(LoadedCalendar { missing, calendar })
}

/// The exceptions of the folder. The services that have a number keep it.
pub(crate) fn load_dates<F: Files>(
    alloc: Global,
    files: &mut F,
    folder: &str,
    limits: &Limits,
    ids: Ids,
) -> Result<LoadedDates, FeedFault>
    requires ids { length ids ≤ 2 ^ 20 }
    ensures reads { ReadsTable DatesTable folder.now limits.now (F.state files.old) (F.state files.new)
        dates_from (λ read d. AreDates read ids d.missing d.numbered.ids d.numbered.exceptions.keys)
        result }
    ensures sound { IfOk result (λ d.
        AreOfDates ids d.missing d.numbered.ids d.numbered.exceptions.keys) }
{
    let loaded = read_table(alloc, files, folder, Table::CalendarDates, limits)?;
    let missing = has_no_record(&loaded);
    let numbered = exceptions_of(alloc, &loaded, ids)?;
    Ok(LoadedDates { missing, numbered })
}
