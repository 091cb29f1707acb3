//! The printed text of the places from which one can reach a target.
ghost use Rattle.std.specs.Prelude.{◌≡◌, All, IfOk};
ghost use Rattle.journey_report.specs.DepartureTexts.{IsPrintable, from_text, reach_head, reach_text};

use crate::printable::NamedQuery;
use crate::texts::row;
use clock_text::{write_moment, write_nanos};
use departure_table::ReachRow;
use itoa::Buffer;
use plan_model::{Names, NoMemory};
use std::alloc::Global;

/// The first row: from which moment on, by which deadline, and how many places follow.
fn reach_head(alloc: Global, named: &NamedQuery, count: u64) -> Result<Vec<u8>, NoMemory>
    ensures { IfOk result (λ text.
        text.items ≡ reach_head named.now.timetable.now.names named.now.query count) }
{
    let first = write_moment(named.query.start);
    let deadline = write_moment(named.query.deadline);
    let mut digits = Buffer::new();
    row(
        alloc,
        &[
            b"reach".as_slice(),
            b"1".as_slice(),
            named.target().as_bytes(),
            first.as_slice(),
            deadline.as_slice(),
            digits.format(count).as_bytes(),
        ],
    )
}

/// The row of a place.
fn from_text(alloc: Global, names: &Names, from: &ReachRow) -> Result<Vec<u8>, NoMemory>
    requires { IsPrintable names.now from.now }
    ensures { IfOk result (λ text. text.items ≡ from_text names.now from.now) }
{
    let latest = write_moment(from.latest);
    let lower = write_nanos(from.bounds.lo());
    let upper = write_nanos(from.bounds.hi());
    row(
        alloc,
        &[
            b"from".as_slice(),
            names.place_name(from.place).as_bytes(),
            latest.as_slice(),
            lower.as_slice(),
            upper.as_slice(),
        ],
    )
}

/// The text of the places from which one can reach the target of a query: a first row, and then a row for each.
pub fn reach_text(alloc: Global, named: &NamedQuery, rows: &[ReachRow]) -> Result<Vec<u8>, NoMemory>
    requires { All (IsPrintable named.now.timetable.now.names) rows.now }
    ensures { IfOk result (λ text.
        text.items ≡ reach_text named.now.timetable.now.names named.now.query rows.now) }
{
    let mut text = reach_head(alloc, named, rows.len() as u64)?;
    for from in rows {
        let row = from_text(alloc, &named.timetable.names, from)?;
        text.extend_from_slice(row.as_slice())?;
    }
    Ok(text)
}
