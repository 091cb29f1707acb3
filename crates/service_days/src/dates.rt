//! The exceptions of `calendar_dates.txt`.
ghost use Rattle.std.specs.Prelude.{◌≡◌, Ok, IfOk};
ghost use Rattle.std.specs.Result.{result_err};
ghost use Rattle.csv_rows.specs.declared.feed_tables.Table.TheVariants.{CalendarDates as DatesTable};
ghost use Rattle.csv_rows.specs.RowFaults.{ReportsFirst};
ghost use Rattle.service_days.specs.Dates.{date_columns, date_in};

use crate::forms::read_adds;
use crate::row::Row;
use clock_text::read_date;
use csv_rows::{Column, FeedFault, Rows, Table, read_name};

/// A day that is added to a service, or removed.
#[derive(Clone, Copy)]
pub(crate) struct ServiceDate<'a> {
    pub(crate) service: &'a str,
    pub(crate) day: i32,
    pub(crate) adds: bool,
}

/// The indexes of the columns.
#[derive(Clone, Copy)]
pub(crate) struct DateColumns {
    service: Option<usize>,
    date: Option<usize>,
    kind: Option<usize>,
}

/// The indexes of the columns of the exceptions.
pub(crate) fn date_columns(rows: &Rows) -> DateColumns
    ensures { result ≡ date_columns rows.now }
{
    DateColumns {
        service: rows.index_of(Column::ServiceId),
        date: rows.index_of(Column::Date),
        kind: rows.index_of(Column::ExceptionType),
    }
}

/// The fault that a field of a line is not of its form.
fn bad(line: u64, column: Column) -> FeedFault
    ensures { result ≡ FeedFault.BadField DatesTable line column }
{
    FeedFault::BadField(Table::CalendarDates, line, column)
}

/// The exception of a row, or the first field that is not of its form.
pub(crate) fn read_exception<'a>(
    row: &Row<'a>,
    columns: DateColumns,
) -> Result<ServiceDate<'a>, FeedFault>
    ensures exception { IfOk result (λ e. date_in row.now.rows.now columns row.now.index
        ≡ Ok (record { service = e.service.now; day = e.day; adds = e.adds })) }
    ensures reports { ReportsFirst DatesTable (result_err (date_in row.now.rows.now columns row.now.index)) result }
{
    let line = row.line();
    let Some(service) = read_name(row.field_at(columns.service)) else {
        return Err(bad(line, Column::ServiceId));
    };
    let Some(day) = read_date(row.field_at(columns.date)) else {
        return Err(bad(line, Column::Date));
    };
    let Some(adds) = read_adds(row.field_at(columns.kind)) else {
        return Err(bad(line, Column::ExceptionType));
    };
    Ok(ServiceDate { service, day, adds })
}
