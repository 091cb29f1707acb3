//! The printed texts of departures, and of the latest moment at which one can leave.
ghost use Rattle.std.specs.Prelude.{◌≡◌, ◌++◌, map, All, IfOk};
ghost use Rattle.departure_table.specs.Departures.{IsDepartureRow};
ghost use Rattle.printed_rows.specs.Records.{place_name};
ghost use Rattle.journey_report.specs.DepartureTexts.{departures_head, departure_text, rows_text, departures_text, latest_text};

use crate::printable::{NamedQuery, Printable};
use crate::texts::{moments_row, row};
use clock_text::{write_moment, write_nanos};
use departure_table::DepartureRow;
use itoa::Buffer;
use plan_model::{NoMemory, Timetable};
use std::alloc::Global;

/// The first row of departures: between which moments, by which deadline, and how many follow.
fn departures_head(
    alloc: Global,
    named: &NamedQuery,
    last: Printable,
    count: u64,
) -> Result<Vec<u8>, NoMemory>
    ensures { IfOk result (λ text. text.items ≡ departures_head
        (place_name named.now.timetable.now.names named.now.query.source.0)
        (place_name named.now.timetable.now.names named.now.query.target.0)
        named.now.query last.moment.0 count) }
{
    let first = write_moment(named.query.start);
    let last = write_moment(last.moment);
    let deadline = write_moment(named.query.deadline);
    let mut digits = Buffer::new();
    row(
        alloc,
        &[
            b"departures".as_slice(),
            b"1".as_slice(),
            named.source().as_bytes(),
            named.target().as_bytes(),
            first.as_slice(),
            last.as_slice(),
            deadline.as_slice(),
            digits.format(count).as_bytes(),
        ],
    )
}

/// The row of a departure.
fn departure_text(
    alloc: Global,
    timetable: &Timetable,
    departure: &DepartureRow,
) -> Result<Vec<u8>, NoMemory>
    requires { IsDepartureRow timetable.now.network departure.now }
    ensures { IfOk result (λ text.
        text.items ≡ departure_text timetable.now.network timetable.now.names departure.now) }
{
    let enter = timetable.network.get(departure.leg.enter);
    let by = write_moment(departure.by);
    let mut digits = Buffer::new();
    let lower = write_nanos(departure.bounds.lo());
    let upper = write_nanos(departure.bounds.hi());
    row(
        alloc,
        &[
            b"row".as_slice(),
            by.as_slice(),
            timetable.names.run_name(enter.run).as_bytes(),
            digits.format(enter.step).as_bytes(),
            lower.as_slice(),
            upper.as_slice(),
        ],
    )
}

/// The text of departures up to a last moment: a first row, and then a row for each.
pub fn departures_text(
    alloc: Global,
    named: &NamedQuery,
    last: Printable,
    departures: &[DepartureRow],
) -> Result<Vec<u8>, NoMemory>
    requires { All (IsDepartureRow named.now.timetable.now.network) departures.now }
    ensures { IfOk result (λ text. text.items ≡ departures_text named.now.timetable.now.network
        named.now.timetable.now.names named.now.query last.moment.0 departures.now) }
{
    let count = departures.len() as u64;
    let mut text = departures_head(alloc, named, last, count)?;
    for departure in departures {
        let row = departure_text(alloc, named.timetable, departure)?;
        text.extend_from_slice(row.as_slice())?;
    }
    Ok(text)
}

/// The text of the latest moment at which one can leave.
#[tactic(auto, unfolding(crate::specs::DepartureTexts::latest_text))]
pub fn latest_text(
    alloc: Global,
    named: &NamedQuery,
    latest: Printable,
) -> Result<Vec<u8>, NoMemory>
    ensures { IfOk result (λ text. text.items ≡ latest_text
        (place_name named.now.timetable.now.names named.now.query.source.0)
        (place_name named.now.timetable.now.names named.now.query.target.0)
        named.now.query latest.moment) }
{
    let start = Printable {
        moment: named.query.start,
    };
    let deadline = Printable {
        moment: named.query.deadline,
    };
    moments_row(alloc, "latest", named, start, deadline, latest)
}
