//! The printed texts of the answers that are no graphs.
ghost use Rattle.std.specs.Prelude.{◌≡◌, ◌++◌, [], ◌∷◌, map, IfOk};
ghost use Rattle.printed_rows.specs.Records.{place_name, row_of_fields};
ghost use Rattle.clock_text.specs.Civil.{moment_text};
ghost use Rattle.trip_replay.specs.Rides.{IsRidden};
ghost use Rattle.journey_report.specs.AnswerTexts.{safe_text, ride_text, rides_text, arrived_text, trace_text, leg_count, sample_text, least_text, holds_text, encloses_text, punctual_row};

use crate::printable::{NamedQuery, Printable, PrintableTrip};
use clock_text::{write_moment, write_nanos};
use interval_fixed::Span;
use itoa::Buffer;
use late_chance::{LateChance, write_chance};
use plan_graph::PlanGraph;
use plan_model::{NoMemory, Timetable};
use printed_rows::put_row;
use std::alloc::Global;
use trip_replay::Ridden;

/// A row of fields, each quoted if it needs it, with its line end.
pub(crate) fn row(alloc: Global, fields: &[&[u8]]) -> Result<Vec<u8>, NoMemory>
    ensures { IfOk result (λ text.
        text.items ≡ row_of_fields (map (λ field. field.now) fields.now)) }
{
    put_row(Vec::new(alloc), fields)
}

/// A row of a kind, with the names of the ends of a query and three moments.
pub(crate) fn moments_row(
    alloc: Global,
    kind: &str,
    named: &NamedQuery,
    first: Printable,
    second: Printable,
    third: Printable,
) -> Result<Vec<u8>, NoMemory>
    ensures { IfOk result (λ text. text.items ≡ row_of_fields (kind.now
        ∷ place_name named.now.timetable.now.names named.now.query.source.0
        ∷ place_name named.now.timetable.now.names named.now.query.target.0
        ∷ moment_text first.moment.0 ∷ moment_text second.moment.0 ∷ moment_text third.moment.0 ∷ [])) }
{
    let first = write_moment(first.moment);
    let second = write_moment(second.moment);
    let third = write_moment(third.moment);
    row(
        alloc,
        &[
            kind.as_bytes(),
            named.source().as_bytes(),
            named.target().as_bytes(),
            first.as_slice(),
            second.as_slice(),
            third.as_slice(),
        ],
    )
}

/// The text of the least worst arrival and the deadline.
#[tactic(auto, unfolding(crate::specs::AnswerTexts::safe_text))]
pub fn safe_text(alloc: Global, named: &NamedQuery, worst: Printable) -> Result<Vec<u8>, NoMemory>
    ensures { IfOk result (λ text. text.items ≡ safe_text
        (place_name named.now.timetable.now.names named.now.query.source.0)
        (place_name named.now.timetable.now.names named.now.query.target.0)
        named.now.query worst.moment) }
{
    let start = Printable {
        moment: named.query.start,
    };
    let deadline = Printable {
        moment: named.query.deadline,
    };
    moments_row(alloc, "safe", named, start, worst, deadline)
}

/// The row of a ride.
fn ride_text(alloc: Global, timetable: &Timetable, ride: &Ridden) -> Result<Vec<u8>, NoMemory>
    requires { IsRidden timetable.now.network ride.now }
    ensures { IfOk result (λ text.
        text.items ≡ ride_text timetable.now.network timetable.now.names ride.now) }
{
    let network = &timetable.network;
    let names = &timetable.names;
    let enter = network.get(ride.leg.enter);
    let exit = network.get(ride.leg.exit);
    let dep = write_moment(enter.dep);
    let arr = write_moment(exit.arr);
    let arrival = write_moment(ride.arrival);
    let mut delay = Buffer::new();
    row(
        alloc,
        &[
            b"ride".as_slice(),
            names.run_name(enter.run).as_bytes(),
            names.place_name(enter.from).as_bytes(),
            dep.as_slice(),
            names.place_name(exit.to).as_bytes(),
            arr.as_slice(),
            delay.format(ride.delay).as_bytes(),
            arrival.as_slice(),
        ],
    )
}

/// The row of an arrival at the target.
fn arrived_text(alloc: Global, target: &str, arrival: Printable) -> Result<Vec<u8>, NoMemory>
    ensures { IfOk result (λ text. text.items ≡ arrived_text target.now arrival.moment) }
{
    let moment = write_moment(arrival.moment);
    row(
        alloc,
        &[b"arrived".as_slice(), target.as_bytes(), moment.as_slice()],
    )
}

/// The text of a trip: a row for each ride, and then the arrival at the target.
pub fn trace_text(alloc: Global, trip: &PrintableTrip) -> Result<Vec<u8>, NoMemory>
    ensures { IfOk result (λ text. text.items ≡ trace_text trip.now.problem.now.timetable.network
        trip.now.problem.now.timetable.names trip.now.problem.now.target.0 trip.now.trace.now) }
{
    let timetable = &trip.problem.timetable;
    let mut text: Vec<u8> = Vec::new(alloc);
    for ride in trip.trace.rides.as_slice() {
        let row = ride_text(alloc, timetable, ride)?;
        text.extend_from_slice(row.as_slice())?;
    }
    let target = timetable.names.place_name(trip.problem.target);
    let arrival = Printable {
        moment: trip.trace.arrival,
    };
    let row = arrived_text(alloc, target, arrival)?;
    text.extend_from_slice(row.as_slice())?;
    Ok(text)
}

/// How many legs a graph has: the start leg and the rows of its tables.
fn leg_count(graph: &PlanGraph) -> u128
    ensures { result ≡ leg_count graph.now }
{
    let mut legs = if graph.start.is_some() { 1 } else { 0 };
    for table in graph.tables.as_slice() {
        legs += table.rows.len() as u128;
    }
    legs
}

/// The text of a made timetable and the graph that was found in it.
pub fn sample_text(
    alloc: Global,
    size: u32,
    connections: u32,
    graph: &PlanGraph,
    bounds: Span,
) -> Result<Vec<u8>, NoMemory>
    ensures { IfOk result (λ text.
        text.items ≡ sample_text size connections (leg_count graph.now) bounds) }
{
    let legs = leg_count(graph);
    let mut size_digits = Buffer::new();
    let mut connection_digits = Buffer::new();
    let mut leg_digits = Buffer::new();
    let lower = write_nanos(bounds.lo());
    let upper = write_nanos(bounds.hi());
    row(
        alloc,
        &[
            b"sample".as_slice(),
            size_digits.format(size).as_bytes(),
            connection_digits.format(connections).as_bytes(),
            leg_digits.format(legs).as_bytes(),
            lower.as_slice(),
            upper.as_slice(),
        ],
    )
}

/// The least value of a certificate, or that it has none.
fn least_text(alloc: Global, least: Option<u64>) -> Result<Vec<u8>, NoMemory>
    ensures { IfOk result (λ text. text.items ≡ least_text least) }
{
    let mut text: Vec<u8> = Vec::new(alloc);
    match least {
        None => text.extend_from_slice(b"none")?,
        Some(value) => {
            let nanos = write_nanos(value);
            text.extend_from_slice(nanos.as_slice())?;
        }
    }
    Ok(text)
}

/// The text of a certificate that holds, with its least value at the start.
pub fn holds_text(
    alloc: Global,
    named: &NamedQuery,
    least: Option<u64>,
) -> Result<Vec<u8>, NoMemory>
    ensures { IfOk result (λ text. text.items ≡ holds_text
        (place_name named.now.timetable.now.names named.now.query.source.0)
        (place_name named.now.timetable.now.names named.now.query.target.0)
        named.now.query least) }
{
    let start = write_moment(named.query.start);
    let deadline = write_moment(named.query.deadline);
    let least = least_text(alloc, least)?;
    row(
        alloc,
        &[
            b"holds".as_slice(),
            named.source().as_bytes(),
            named.target().as_bytes(),
            start.as_slice(),
            deadline.as_slice(),
            least.as_slice(),
        ],
    )
}

/// The text of the bounds of a graph.
pub fn encloses_text(alloc: Global, named: &NamedQuery, bounds: Span) -> Result<Vec<u8>, NoMemory>
    ensures { IfOk result (λ text. text.items ≡ encloses_text
        (place_name named.now.timetable.now.names named.now.query.source.0)
        (place_name named.now.timetable.now.names named.now.query.target.0)
        named.now.query bounds) }
{
    let start = write_moment(named.query.start);
    let deadline = write_moment(named.query.deadline);
    let lower = write_nanos(bounds.lo());
    let upper = write_nanos(bounds.hi());
    row(
        alloc,
        &[
            b"encloses".as_slice(),
            named.source().as_bytes(),
            named.target().as_bytes(),
            start.as_slice(),
            deadline.as_slice(),
            lower.as_slice(),
            upper.as_slice(),
        ],
    )
}

/// The row of a promise and of the chance to arrive after it.
pub fn punctual_row(
    alloc: Global,
    promise: Printable,
    chance: LateChance,
) -> Result<Vec<u8>, NoMemory>
    ensures { IfOk result (λ text. text.items ≡ punctual_row promise.moment.0 chance) }
{
    let promise = write_moment(promise.moment);
    let lower = write_chance(chance.lo());
    let upper = write_chance(chance.hi());
    row(
        alloc,
        &[
            b"punctual".as_slice(),
            b"1".as_slice(),
            promise.as_slice(),
            lower.as_slice(),
            upper.as_slice(),
        ],
    )
}
