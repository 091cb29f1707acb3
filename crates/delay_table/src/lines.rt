//! One row of a delay file.
ghost use Rattle.std.specs.Prelude.{◌≡◌, ◌<◌, ◌≤◌, option_map, IfSome};
ghost use Rattle.csv_rows.specs.Tables.{row_count};
ghost use Rattle.clock_text.specs.Digits.{whole_of};
ghost use Rattle.plan_model.specs.Bounds.{seconds_per_day};
ghost use Rattle.plan_model.specs.declared.units.TheConstants.{WHOLE_WEIGHT};
ghost use Rattle.delay_table.specs.Delays.{delay_class_in, hour_in, not_zero, route_in, class_name, column_fault, line_from, line_at, missing_column};
ghost use Rattle.delay_table.specs.DelayColumns.{AreDelayColumns};

use crate::faults::{ClassName, DelayFault};
use clock_text::read_whole;
use csv_rows::{Column, Rows, read_name};
use plan_model::{Outcome, SECONDS_PER_DAY, WHOLE_WEIGHT};

/// The greatest route type.
const LAST_TYPE: u32 = 65_534;

/// The last hour of a day.
const LAST_HOUR: u32 = 23;

/// An outcome, and the class, the route and the hour of its group. The class is a route type, and none for `*`.
#[derive(Clone, Copy)]
pub(crate) struct DelayLine<'a> {
    pub(crate) class: Option<u16>,
    pub(crate) route: Option<&'a str>,
    pub(crate) hour: Option<u8>,
    pub(crate) outcome: Outcome,
}

/// The indexes of the columns.
#[derive(Clone, Copy)]
pub(crate) struct Columns {
    class: Option<usize>,
    delay: Option<usize>,
    weight: Option<usize>,
    route: Option<usize>,
    hour: Option<usize>,
}

/// The indexes of the columns in this table.
pub(crate) fn columns_of(rows: &Rows) -> Columns
    ensures { AreDelayColumns rows.now result }
{
    Columns {
        class: rows.index_of(Column::Class),
        delay: rows.index_of(Column::Delay),
        weight: rows.index_of(Column::Weight),
        route: rows.index_of(Column::RouteId),
        hour: rows.index_of(Column::Hour),
    }
}

/// The rows of a delay file, and the indexes of its columns.
#[derive(Clone, Copy)]
pub(crate) struct DelayRows<'a> {
    pub(crate) rows: &'a Rows,
    pub(crate) columns: Columns,
    ghost are: { AreDelayColumns rows.now columns },
}

/// `MissingColumn` of a column that is not in the header; `None` if it is.
fn column_fault(rows: &Rows, column: Column) -> Option<DelayFault>
    ensures { result ≡ column_fault rows.now column }
{
    if rows.index_of(column).is_none() {
        return Some(DelayFault::MissingColumn(column));
    }
    None
}

/// `MissingColumn` of the first required column that is not in the header; `None` if all are.
pub(crate) fn missing_column(rows: &Rows) -> Option<DelayFault>
    ensures { result ≡ missing_column rows.now }
{
    if let Some(fault) = column_fault(rows, Column::Class) {
        return Some(fault);
    }
    if let Some(fault) = column_fault(rows, Column::Delay) {
        return Some(fault);
    }
    column_fault(rows, Column::Weight)
}

/// A route type, and none for `*`.
fn read_class(text: &[u8]) -> Option<Option<u16>>
    ensures { result ≡ delay_class_in text.now }
{
    if text == b"*".as_slice() {
        return Some(None);
    }
    let route = read_whole(text, LAST_TYPE)?;
    Some(Some(route as u16))
}

/// A route, which only a row of the class `*` may have.
fn read_route(class: Option<u16>, text: &[u8]) -> Option<Option<&str>>
    ensures { option_map (option_map (λ s. s.now)) result ≡ route_in class text.now }
{
    if text.is_empty() {
        return Some(None);
    }
    if class.is_some() {
        return None;
    }
    let route = read_name(text)?;
    Some(Some(route))
}

/// An hour of the day, or nothing.
fn read_hour(text: &[u8]) -> Option<Option<u8>>
    ensures { result ≡ hour_in text.now }
{
    if text.is_empty() {
        return Some(None);
    }
    let hour = read_whole(text, LAST_HOUR)?;
    Some(Some(hour as u8))
}

/// A weight, which is 1 or more.
fn read_weight(text: &[u8]) -> Option<u16>
    ensures { result ≡ not_zero (whole_of WHOLE_WEIGHT text.now) }
{
    let weight = read_whole(text, WHOLE_WEIGHT)?;
    if weight == 0 {
        return None;
    }
    Some(weight as u16)
}

/// The row of these fields; `None` if one is not of its form.
fn read_line<'a>(
    class: &'a [u8],
    delay: &'a [u8],
    weight: &'a [u8],
    route: &'a [u8],
    hour: &'a [u8],
) -> Option<DelayLine<'a>>
    ensures { option_map (λ l. record {
      group = record { class = l.class; route = option_map (λ s. s.now) l.route; hour = l.hour };
      outcome = l.outcome;
    }) result ≡ line_from class.now delay.now weight.now route.now hour.now }
{
    let class = read_class(class)?;
    let delay = read_whole(delay, SECONDS_PER_DAY)?;
    let weight = read_weight(weight)?;
    let route = read_route(class, route)?;
    let hour = read_hour(hour)?;
    Some(DelayLine {
        class,
        route,
        hour,
        outcome: Outcome { delay, weight },
    })
}

/// The row at an index; `None` if one of its fields is not of its form.
#[tactic(auto, using(crate::proofs::LineFacts::field_is, crate::proofs::LineFacts::line_here, crate::proofs::LineFacts::line_is_formed))]
pub(crate) fn line_at<'a>(table: &DelayRows<'a>, row: usize) -> Option<DelayLine<'a>>
    requires { row < row_count table.now.rows.now }
    ensures line { option_map (λ l. record {
      group = record { class = l.class; route = option_map (λ s. s.now) l.route; hour = l.hour };
      outcome = l.outcome;
    }) result ≡ line_at table.now.rows.now row }
    ensures form { IfSome result (λ l. (l.outcome.delay ≤ seconds_per_day) × (1 ≤ l.outcome.weight)) }
{
    let DelayRows { rows, columns } = *table;
    let class = rows.field_at(row, columns.class);
    let delay = rows.field_at(row, columns.delay);
    let weight = rows.field_at(row, columns.weight);
    let route = rows.field_at(row, columns.route);
    let hour = rows.field_at(row, columns.hour);
    read_line(class, delay, weight, route, hour)
}

/// The name of a class.
pub(crate) fn class_name(class: Option<u16>) -> ClassName
    ensures { result ≡ class_name class }
{
    match class {
        None => ClassName::Any,
        Some(route) => ClassName::Route(route),
    }
}
