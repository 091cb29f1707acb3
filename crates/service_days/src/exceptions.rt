//! Days that are added to services or removed, by the numbers of the services.
ghost use Rattle.std.specs.Prelude.{◌≡◌, ◌<◌, ◌+◌, ◌-◌, ◌^◌, ◌||◌, IfOk, OnOk, length, All};
ghost use Rattle.csv_rows.specs.declared.feed_tables.Table.TheVariants.{CalendarDates as DatesTable};
ghost use Rattle.csv_rows.specs.Lists.{first_below};
ghost use Rattle.csv_rows.specs.RowFaults.{ReportsFirst};
ghost use Rattle.csv_rows.specs.Tables.{row_count};
ghost use Rattle.plan_model.specs.NameLists.{IsTrimmed};
ghost use Rattle.service_days.specs.declared.exceptions.Exception.{Exception};
ghost use Rattle.service_days.specs.Dates.{bad_date, dates_fault};
ghost use Rattle.service_days.specs.Exceptions.{same, has};
ghost use Rattle.service_days.specs.Calendars.{AddsDate, AreNumbered};

use crate::dates::{ServiceDate, date_columns, read_exception};
use crate::row::Row;
use csv_rows::{Column, FeedFault, Ids, Rows, Table, check_columns};
use plan_model::{HashKey, NoMemory};
use std::alloc::Global;
use std::collections::HashSet;
use text_index::TextIndex;

/// A day that is added to a service or removed, by the number of the service.
#[derive(Clone, Copy, PartialEq, Eq, Hash)]
pub(crate) struct Exception {
    pub(crate) service: u32,
    pub(crate) day: i32,
    pub(crate) adds: bool,
}

/// Services by their numbers, and the days that are added to them or removed.
#[derive(Drop)]
pub(crate) struct Numbered {
    pub(crate) ids: Ids,
    pub(crate) exceptions: HashSet<Exception, HashKey>,
}

/// Whether there is this exception.
pub(crate) fn has(exceptions: &HashSet<Exception, HashKey>, exception: &Exception) -> bool
    ensures { result ≡ has exceptions.now.keys exception.now }
{
    // Without exceptions nothing is hashed.
    !exceptions.is_empty() && exceptions.contains(exception)
}

/// Adds an exception.
fn insert(
    exceptions: &mut HashSet<Exception, HashKey>,
    exception: Exception,
) -> Result<(), NoMemory>
    ensures { OnOk result ((e : Exception) → has exceptions.new.keys e
        ≡ (same exception e || has exceptions.old.keys e)) }
{
    exceptions.insert(exception)?;
    Ok(())
}

/// Adds the exception of a row, and its service if it is new.
fn add<'a>(
    services: &mut TextIndex<'a>,
    exceptions: &mut HashSet<Exception, HashKey>,
    date: ServiceDate<'a>,
) -> Result<(), NoMemory>
    requires { length services.old < 2 ^ 32 - 1 }
    ensures { OnOk result (AddsDate services.old services.new exceptions.old.keys exceptions.new.keys
        (record { service = date.entry.service.now; day = date.entry.day; adds = date.entry.adds })) }
{
    let service = services.add(date.service)?;
    insert(
        exceptions,
        Exception {
            service,
            day: date.day,
            adds: date.adds,
        },
    )
}

/// The exceptions of all rows, or the first field that is not of its form. Services that are new are numbered after those
/// that are there.
fn read_rows<'a>(
    alloc: Global,
    rows: &'a Rows,
    services: &mut TextIndex<'a>,
) -> Result<HashSet<Exception, HashKey>, FeedFault>
    requires few { length services.old + row_count rows.now < 2 ^ 32 - 1 }
    requires trimmed { All IsTrimmed services.old }
    ensures numbered { IfOk result (λ exceptions.
        AreNumbered rows.now (row_count rows.now) services.old services.new exceptions.keys) }
    ensures trimmed { OnOk result (All IsTrimmed services.new) }
    ensures reports { ReportsFirst DatesTable (first_below (bad_date rows.now) (row_count rows.now)) result }
{
    let columns = date_columns(rows);
    let mut exceptions = HashSet::with_hasher(alloc, rows.key());
    for i in 0..rows.count() {
        let date = read_exception(&Row { rows, index: i }, columns)?;
        add(services, &mut exceptions, date)?;
    }
    Ok(exceptions)
}

/// The exceptions of all rows by the numbers of their services, or the first field that is not of its form.
fn number_rows(alloc: Global, rows: &Rows, ids: &Ids) -> Result<Numbered, FeedFault>
    requires { length ids.now + row_count rows.now < 2 ^ 32 - 1 }
    ensures numbered { IfOk result (λ n.
        AreNumbered rows.now (row_count rows.now) ids.now n.ids n.exceptions.keys) }
    ensures reports { ReportsFirst DatesTable (first_below (bad_date rows.now) (row_count rows.now)) result }
{
    let _count = ids.len();
    let mut services = TextIndex::of(alloc, ids.key(), ids.texts())?;
    let exceptions = read_rows(alloc, rows, &mut services)?;
    let list = services.list(alloc)?;
    let ids = Ids::of(ids.key(), list);
    Ok(Numbered { ids, exceptions })
}

/// The exceptions of a table, or the first of its faults. The services that have a number keep it.
#[tactic(auto, using(table_files::proofs::ReadSteps::read_steps), unfolding(crate::specs::Dates::dates_fault))]
pub(crate) fn read_exceptions(alloc: Global, rows: &Rows, ids: Ids) -> Result<Numbered, FeedFault>
    requires { length ids + row_count rows.now < 2 ^ 32 - 1 }
    ensures numbered { IfOk result (λ n.
        AreNumbered rows.now (row_count rows.now) ids n.ids n.exceptions.keys) }
    ensures reports { ReportsFirst DatesTable (dates_fault rows.now) result }
{
    check_columns(
        rows,
        Table::CalendarDates,
        &[Column::ServiceId, Column::Date, Column::ExceptionType],
    )?;
    number_rows(alloc, rows, &ids)
}
