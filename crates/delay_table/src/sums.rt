//! The faults of the groups of a whole delay file.
ghost use Rattle.std.specs.Prelude.{◌≡◌, ◌≤◌, length};
ghost use Rattle.csv_rows.specs.Lists.{first_below};
ghost use Rattle.delay_table.specs.DelayLists.{end_of_types};
ghost use Rattle.delay_table.specs.declared.reading.TheConstants.{MOST_ROWS};
ghost use Rattle.delay_table.specs.Delays.{class_sum, group_sum_at, groups_fault, route_types_below, no_default_of, other_sum, too_many_classes, type_sum_at};
ghost use Rattle.delay_table.specs.Read.{line_at, read_outcomes};

use crate::faults::DelayFault;
use crate::lines::class_name;
use crate::reading::ReadRows;
use plan_model::{Outcome, WHOLE_WEIGHT};

/// How many groups there may be.
const MOST_GROUPS: u64 = 1 << 16;

/// The sum of the weights of a row, if there is one and it is not the whole.
fn other_sum(row: &[Outcome]) -> Option<u32>
    requires { length row.now ≤ MOST_ROWS }
    ensures { result ≡ other_sum row.now }
{
    if row.is_empty() {
        return None;
    }
    let mut sum = 0u32;
    for outcome in row {
        sum += u32::from(outcome.weight);
    }
    if sum == WHOLE_WEIGHT {
        return None;
    }
    Some(sum)
}

/// The fault of a class alone.
fn class_sum(read: &ReadRows<'_>, class: Option<u16>) -> Option<DelayFault>
    ensures { result ≡ class_sum (read_outcomes read.now.groups read.now.rows.items) class }
{
    let sum = other_sum(read.class_rows(class))?;
    Some(DelayFault::WeightSum(class_name(class), sum))
}

/// The first fault of these route types.
fn type_fault(read: &ReadRows<'_>, types: &[u16]) -> Option<DelayFault>
    ensures { result ≡ first_below (type_sum_at (read_outcomes read.now.groups read.now.rows.items) types.now)
        (length types.now) }
{
    for index in 0..types.len() {
        if let Some(fault) = class_sum(read, Some(types[index])) {
            return Some(fault);
        }
    }
    None
}

/// The first fault of the groups that name a route or an hour.
fn group_fault(read: &ReadRows<'_>) -> Option<DelayFault>
    ensures { result ≡ first_below (group_sum_at (read_outcomes read.now.groups read.now.rows.items)
        read.now.groups (line_at read.now.rows.items)) (length read.now.groups) }
{
    for index in 0..read.groups.len() {
        let group = read.groups.at(index);
        if group.is_plain() {
            continue;
        }
        let rows = read.rows_at(index);
        if let Some(sum) = other_sum(rows.outcomes.as_slice()) {
            return Some(DelayFault::GroupSum(rows.line, sum));
        }
    }
    None
}

/// The fault of a table without `*`.
fn no_default(row: &[Outcome]) -> Option<DelayFault>
    ensures { result ≡ no_default_of row.now }
{
    if row.is_empty() {
        return Some(DelayFault::NoDefault);
    }
    None
}

/// The fault of too many groups.
fn too_many(count: u64) -> Option<DelayFault>
    ensures { result ≡ too_many_classes count }
{
    if MOST_GROUPS < count {
        return Some(DelayFault::TooManyClasses(count));
    }
    None
}

/// The first fault of the groups; these are the route types that are named.
pub(crate) fn groups_fault(read: &ReadRows<'_>, types: &[u16]) -> Option<DelayFault>
    requires { types.now ≡ route_types_below (read_outcomes read.now.groups read.now.rows.items) end_of_types }
    ensures { result ≡ groups_fault (read_outcomes read.now.groups read.now.rows.items)
        read.now.groups (line_at read.now.rows.items) }
{
    if let Some(fault) = too_many(read.groups.len() as u64) {
        return Some(fault);
    }
    if let Some(fault) = class_sum(read, None) {
        return Some(fault);
    }
    if let Some(fault) = type_fault(read, types) {
        return Some(fault);
    }
    if let Some(fault) = group_fault(read) {
        return Some(fault);
    }
    no_default(read.class_rows(None))
}
