//! The departures from a place in a span of time, each with the best that can still be done by it,
//! and the latest moment at which one can still set out. A scan answers a traveller who has arrived at a
//! place, so the network is extended by gates, places from which one is at a source a second later:
//! there the departures are legs after an arrival, and one scan has a row for each.
//!
//! A call that takes an allocator may answer that there is no memory, as `NoMemory` or as the variant
//! of that name; then what it was lent is as it was, unless its own comment says otherwise.
#![tactic(auto)]

ghost use Rattle.std.specs.Prelude.{◌≡◌, ◌≢◌, ℕ, ◌+◌, ◌<◌, ◌≤◌, IfOk};
ghost use Rattle.plan_model.specs.Network.{NetworkModel};
ghost use Rattle.departure_table.specs.Departures.{SolvesArrivals, IsASecondAway, SafeAfter, IsExtendedFor, IsTable, IsGreatestMoment, SaysOfSource};
ghost use Rattle.departure_table.specs.Looked.{row_found, AreLooked};
ghost use Rattle.plan_model.specs.declared.model.Query.{Query as Asked};

use interval_fixed::Span;
use meat_scan::Scanned;
use plan_model::{Leg, List, Moment, Network, NoMemory, Query};
use std::alloc::Global;
use value_laws::MeanSpan;

mod gates;
mod laws;
mod reach_rows;

pub use gates::extended_by;
pub use laws::{
    finds_the_same_at_gates, greatest_moment_agrees_with_the_least_worst,
    greatest_moment_is_of_the_last_row, row_begins_the_departures,
};
pub use reach_rows::{ReachRow, reach, with_every_gate};

/// A row of the table: what is best for a traveller who sets out by its moment, and too late for the row before.
#[derive(Clone, Copy)]
pub struct DepartureRow {
    /// The departure of the leg: the last moment by which one sets out for it.
    pub by: Moment,
    /// Bounds on the least expected arrival of a traveller who sets out then, in nanoseconds since 1970-01-01.
    pub bounds: Span,
    /// The leg that is taken.
    pub leg: Leg,
}

/// The departures that are taken from the place to which the source of the query leads in a second,
/// from the first moment to the last one: each row's leg is the best to take for a traveller who sets out by
/// its moment and too late for the row before. Only the last row may be by the last moment or later. There is no row if
/// nobody is safe from the first moment on, or if that is after the last one.
pub fn table(
    alloc: Global,
    scanned: &Scanned<MeanSpan>,
    network: &Network,
    query: &Query,
    first: Moment,
    last: Moment,
) -> Result<List<DepartureRow>, NoMemory>
    requires first { 1 ≤ first.0 }
    requires solves { SolvesArrivals scanned.now network.now query.now }
    requires differ { query.now.source.0 ≢ query.now.target.0 }
    requires second { IsASecondAway network.now query.now.source.0 }
    ensures table { IfOk result (IsTable network.now (SafeAfter network.now query.now) first.0 last.0) }
    ensures looked { IfOk result (AreLooked (row_found network.now query.now scanned.now) last.0 first.0) }
{
    let mut rows = List::new(alloc);
    let mut next = first.0;
    while next <= last.0 {
        // Who is at the source a second before `next` can set out at `next`.
        let Some((value, leg)) = scanned.choice(query.source, Moment(next - 1)) else {
            return Ok(rows);
        };
        let by = network.get(leg.enter).dep;
        rows.push(DepartureRow {
            by,
            bounds: value.0,
            leg,
        })?;
        next = by.0 + 1;
    }
    Ok(rows)
}

/// The latest moment from the first one on at which a traveller who sets out from the place to which the
/// source of the query leads in a second is still safe; `None` if nobody is from the first moment on.
pub fn greatest(
    scanned: &Scanned<MeanSpan>,
    network: &Network,
    query: &Query,
    first: Moment,
) -> Option<Moment>
    requires first { 1 ≤ first.0 }
    requires solves { SolvesArrivals scanned.now network.now query.now }
    requires differ { query.now.source.0 ≢ query.now.target.0 }
    requires second { IsASecondAway network.now query.now.source.0 }
    ensures { IsGreatestMoment (SafeAfter network.now query.now) first.0 result }
{
    let (_, leg) = scanned.last(query.source)?;
    let by = network.get(leg.enter).dep;
    if by.0 < first.0 {
        return None;
    }
    Some(by)
}

/// A law, with no code: what the table and the greatest moment say of a gate, they say of its source in the
/// network.
pub fn says_of_source()
    ensures { (n : NetworkModel) (q : Asked) (m : NetworkModel) (source : ℕ) → IsExtendedFor n q m source → SaysOfSource n q m source }
{}
