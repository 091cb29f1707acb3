//! The periods of `calendar.txt`.
ghost use Rattle.std.specs.Prelude.{◌≡◌, ◌≤◌, ◌+◌, ◌^◌, length, None, Some, Ok, Err, IfOk, IfErr, OnOk, OnErr};
ghost use Rattle.std.specs.Result.{result_err};
ghost use Rattle.csv_rows.specs.declared.feed_tables.Table.TheVariants.{Calendar as CalendarTable};
ghost use Rattle.csv_rows.specs.Lists.{first_below};
ghost use Rattle.csv_rows.specs.FeedTables.{unread_table, IsFaultOf};
ghost use Rattle.csv_rows.specs.RowFaults.{ReportsFirst};
ghost use Rattle.csv_rows.specs.Tables.{row_count, field_at};
ghost use Rattle.service_days.specs.CalendarForms.{weekday_flag_in};
ghost use Rattle.service_days.specs.Calendars.{AreDistinctRows};
ghost use Rattle.service_days.specs.Periods.{flag_of, runs_in_period, period_columns, week_in, period_in, bad_period, service_ids, periods_of, calendar_fault};

use crate::forms::read_flag;
use crate::row::Row;
use clock_text::{read_date, weekday};
use csv_rows::{Column, FeedFault, Ids, Rows, Table, check_columns, read_ids, read_name};
use std::alloc::Global;

/// The flags of the weekdays.
#[derive(Clone, Copy)]
pub(crate) struct Week {
    pub(crate) monday: bool,
    pub(crate) tuesday: bool,
    pub(crate) wednesday: bool,
    pub(crate) thursday: bool,
    pub(crate) friday: bool,
    pub(crate) saturday: bool,
    pub(crate) sunday: bool,
}

/// The weekdays on which a service runs, and the first and the last day of the range, as day numbers from 1970-01-01.
#[derive(Clone, Copy)]
pub(crate) struct Period {
    pub(crate) week: Week,
    pub(crate) first: i32,
    pub(crate) last: i32,
}

/// The services of a calendar, and the period of each.
#[derive(Drop)]
pub(crate) struct Calendar {
    pub(crate) ids: Ids,
    pub(crate) periods: Vec<Period>,
}

/// The indexes of the columns.
#[derive(Clone, Copy)]
pub(crate) struct PeriodColumns {
    service: Option<usize>,
    monday: Option<usize>,
    tuesday: Option<usize>,
    wednesday: Option<usize>,
    thursday: Option<usize>,
    friday: Option<usize>,
    saturday: Option<usize>,
    sunday: Option<usize>,
    first: Option<usize>,
    last: Option<usize>,
}

impl Week {
    /// The flag of a weekday, from 0 for Monday to 6 for Sunday.
    fn flag_of(&self, day: u8) -> bool
        ensures { result ≡ flag_of self.now day }
    {
        if day == 0 {
            self.monday
        } else if day == 1 {
            self.tuesday
        } else if day == 2 {
            self.wednesday
        } else if day == 3 {
            self.thursday
        } else if day == 4 {
            self.friday
        } else if day == 5 {
            self.saturday
        } else {
            self.sunday
        }
    }
}

impl Period {
    /// Whether the range holds the day and the flag of its weekday is 1.
    pub(crate) fn runs_on(&self, day: i32) -> bool
        ensures { result ≡ runs_in_period self.now day }
    {
        self.first <= day && day <= self.last && self.week.flag_of(weekday(day))
    }
}

/// The columns that have to be there.
const REQUIRED: [Column; 10] = [
    Column::ServiceId,
    Column::Monday,
    Column::Tuesday,
    Column::Wednesday,
    Column::Thursday,
    Column::Friday,
    Column::Saturday,
    Column::Sunday,
    Column::StartDate,
    Column::EndDate,
];

/// The indexes of the columns of the calendar.
fn period_columns(rows: &Rows) -> PeriodColumns
    ensures { result ≡ period_columns rows.now }
{
    PeriodColumns {
        service: rows.index_of(Column::ServiceId),
        monday: rows.index_of(Column::Monday),
        tuesday: rows.index_of(Column::Tuesday),
        wednesday: rows.index_of(Column::Wednesday),
        thursday: rows.index_of(Column::Thursday),
        friday: rows.index_of(Column::Friday),
        saturday: rows.index_of(Column::Saturday),
        sunday: rows.index_of(Column::Sunday),
        first: rows.index_of(Column::StartDate),
        last: rows.index_of(Column::EndDate),
    }
}

/// The fault that a field of a line is not of its form.
fn bad(line: u64, column: Column) -> FeedFault
    ensures { result ≡ FeedFault.BadField CalendarTable line column }
{
    FeedFault::BadField(Table::Calendar, line, column)
}

/// The flag of a row under a column at an index, or the fault that it is not of its form.
fn read_flag_at(row: &Row<'_>, index: Option<usize>, column: Column) -> Result<bool, FeedFault>
    ensures flag { IfOk result (λ flag. weekday_flag_in (field_at row.now.rows.now index row.now.index) ≡ Some flag) }
    ensures none { OnErr result (weekday_flag_in (field_at row.now.rows.now index row.now.index) ≡ None) }
    ensures fault { IfErr result (λ f. f ≡ FeedFault.BadField CalendarTable (row.now.index + 2) column) }
{
    match read_flag(row.field_at(index)) {
        Some(flag) => Ok(flag),
        None => Err(bad(row.line(), column)),
    }
}

/// The flags of a row, or the first that is not of its form.
fn read_week(row: &Row<'_>, columns: PeriodColumns) -> Result<Week, FeedFault>
    ensures week { IfOk result (λ w. week_in row.now.rows.now columns row.now.index ≡ Ok w) }
    ensures fault { IfErr result (λ f. week_in row.now.rows.now columns row.now.index ≡ Err f) }
    ensures content { IfErr result (λ f. unread_table f ≡ None) }
    ensures own { IfErr result (IsFaultOf CalendarTable) }
{
    let monday = read_flag_at(row, columns.monday, Column::Monday)?;
    let tuesday = read_flag_at(row, columns.tuesday, Column::Tuesday)?;
    let wednesday = read_flag_at(row, columns.wednesday, Column::Wednesday)?;
    let thursday = read_flag_at(row, columns.thursday, Column::Thursday)?;
    let friday = read_flag_at(row, columns.friday, Column::Friday)?;
    let saturday = read_flag_at(row, columns.saturday, Column::Saturday)?;
    let sunday = read_flag_at(row, columns.sunday, Column::Sunday)?;
    Ok(Week {
        monday,
        tuesday,
        wednesday,
        thursday,
        friday,
        saturday,
        sunday,
    })
}

/// The period of a row, or the first field that is not of its form.
fn read_period(row: &Row<'_>, columns: PeriodColumns) -> Result<Period, FeedFault>
    ensures period { IfOk result (λ p. period_in row.now.rows.now columns row.now.index ≡ Ok p) }
    ensures reports { ReportsFirst CalendarTable (result_err (period_in row.now.rows.now columns row.now.index)) result }
{
    let line = row.line();
    let Some(_name) = read_name(row.field_at(columns.service)) else {
        return Err(bad(line, Column::ServiceId));
    };
    let week = read_week(row, columns)?;
    let Some(first) = read_date(row.field_at(columns.first)) else {
        return Err(bad(line, Column::StartDate));
    };
    let Some(last) = read_date(row.field_at(columns.last)) else {
        return Err(bad(line, Column::EndDate));
    };
    Ok(Period { week, first, last })
}

/// The period of each row, or the first field that is not of its form.
fn read_periods(alloc: Global, rows: &Rows) -> Result<Vec<Period>, FeedFault>
    ensures periods { IfOk result (λ periods. periods.items ≡ periods_of rows.now) }
    ensures reports { ReportsFirst CalendarTable
        (first_below (bad_period rows.now) (row_count rows.now)) result }
{
    let columns = period_columns(rows);
    let mut periods: Vec<Period> = Vec::new(alloc);
    for i in 0..rows.count() {
        let period = read_period(&Row { rows, index: i }, columns)?;
        periods.push(period)?;
    }
    Ok(periods)
}

/// The calendar of a table, or the first of its faults.
#[tactic(auto, using(table_files::proofs::ReadSteps::read_steps), unfolding(crate::specs::Periods::calendar_fault))]
pub(crate) fn read_calendar(alloc: Global, rows: &Rows) -> Result<Calendar, FeedFault>
    requires { row_count rows.now ≤ 2 ^ 20 }
    ensures ids { IfOk result (λ calendar. calendar.ids ≡ service_ids rows.now) }
    ensures periods { IfOk result (λ calendar. calendar.periods.items ≡ periods_of rows.now) }
    ensures few { IfOk result (λ calendar. length calendar.ids ≤ 2 ^ 20) }
    ensures distinct { OnOk result (AreDistinctRows rows.now) }
    ensures reports { ReportsFirst CalendarTable (calendar_fault rows.now) result }
{
    check_columns(rows, Table::Calendar, &REQUIRED)?;
    let periods = read_periods(alloc, rows)?;
    let ids = read_ids(alloc, rows, Table::Calendar, Column::ServiceId)?;
    Ok(Calendar { ids, periods })
}
