//! What comes of leaving by each connection that a leg ends with, the last ones first.
ghost use Rattle.std.specs.Prelude.{◌≡◌, ◌+◌, ◌<◌, length, slice_index_or, All, IfOk, Some, None, Option as Maybe};
ghost use Rattle.plan_model.specs.Bounds.{end_of_time};
ghost use Rattle.plan_model.specs.Network.{count};
ghost use Rattle.plan_model.specs.DelayRows.{IsValidRow};
ghost use Rattle.interval_fixed.specs.Interval.{mean_of, end_of_nanos};
ghost use Rattle.plan_graph.specs.Unfold.{HasRisingTables};
ghost use Rattle.graph_score.specs.Legs.{IsFitLeg, legs_of};
ghost use Rattle.graph_score.specs.Steps.{no_outlook, is_sooner, sooner_failure, first_failure_of, spans_in, blend_of, arrived_outlook, outlook_at, outlook_of, AreOutlooks};

use crate::exits::exits_of;
use crate::legs::GraphLeg;
use arrayvec::ArrayVec;
use interval_fixed::Span;
use plan_graph::PlanGraph;
use plan_model::{ConnectionId, Moment, Network, NoMemory, Outcome, PlaceId, Query};
use std::alloc::Global;

/// A place where a traveller is stuck or too late, and since when.
#[derive(Clone, Copy)]
pub struct Failure {
    /// The arrival at the place.
    pub moment: Moment,
    /// The place.
    pub place: PlaceId,
}

/// What comes of what a traveller does.
#[derive(Clone, Copy)]
pub enum Outlook {
    /// The traveller reaches the target in time, whatever the delays, with these bounds on the expected
    /// arrival, in nanoseconds since 1970-01-01.
    Safe(Span),
    /// The traveller may fail, and this is the first failure that may come: the one at the least moment,
    /// and of these the one at the least place.
    Failing(Failure),
}

impl Default for Outlook {
    fn default() -> Outlook
        ensures { result ≡ no_outlook }
    {
        Outlook::Failing(Failure {
            moment: Moment(0),
            place: PlaceId(0),
        })
    }
}

/// A graph whose places and rows rise, with its legs.
#[derive(Clone, Copy)]
pub struct RisingGraph<'a> {
    pub graph: &'a PlanGraph,
    pub legs: &'a [GraphLeg],
    pub ghost rising: { HasRisingTables graph.now },
    pub ghost all_legs: { legs.now ≡ legs_of graph.now },
}

/// Whether one failure is before another: by moment, and then by place.
fn is_sooner(a: Failure, b: Failure) -> bool
    ensures { result ≡ is_sooner a b }
{
    a.moment.0 < b.moment.0 || a.moment.0 == b.moment.0 && a.place.0 < b.place.0
}

/// The sooner of two failures.
fn sooner(a: Option<Failure>, b: Failure) -> Failure
    ensures { result ≡ sooner_failure a b }
{
    match a {
        None => b,
        Some(a) => { if is_sooner(b, a) { b } else { a } }
    }
}

/// The first of the failures that may come.
fn first_failure(children: &[Outlook]) -> Option<Failure>
    ensures { result ≡ first_failure_of Maybe.None children.now }
{
    let mut first = None;
    for child in children {
        if let Outlook::Failing(failure) = child {
            first = Some(sooner(first, *failure));
        }
    }
    first
}

/// The mean of the bounds after the outcomes, rounded outward.
fn mean(row: &[Outcome], children: &[Outlook]) -> Span
    requires row { IsValidRow row.now }
    requires as_many { length row.now ≡ length (spans_in children.now) }
    ensures { result ≡ mean_of row.now (spans_in children.now) }
{
    let mut spans: ArrayVec<Span, 64> = ArrayVec::new();
    for child in children {
        if let Outlook::Safe(span) = child {
            spans.push(*span);
        }
    }
    Span::mean(row, &spans)
}

/// What comes of a ride, by what comes after each of its outcomes.
fn blend(row: &[Outcome], children: &[Outlook]) -> Outlook
    requires row { IsValidRow row.now }
    requires as_many { length row.now ≡ length children.now }
    ensures { result ≡ blend_of row.now children.now }
{
    match first_failure(children) {
        Some(failure) => Outlook::Failing(failure),
        None => Outlook::Safe(mean(row, children)),
    }
}

/// What comes of having arrived at the target.
pub fn arrived(deadline: Moment, place: PlaceId, moment: Moment) -> Outlook
    requires { moment.0 < end_of_nanos }
    ensures { result ≡ arrived_outlook deadline.0 place.0 moment.0 }
{
    if moment.0 <= deadline.0 {
        Outlook::Safe(Span::exact(moment))
    } else {
        Outlook::Failing(Failure { moment, place })
    }
}

/// What comes of leaving by a connection, if that is known.
pub fn reported(outlooks: &[Outlook], exit: ConnectionId) -> Outlook
    ensures { result ≡ slice_index_or outlooks.now exit.0 no_outlook }
{
    match outlooks.get(exit.0 as usize) {
        Some(outlook) => *outlook,
        None => Outlook::default(),
    }
}

/// What comes of an arrival at a place.
fn outlook_at(
    rising: &RisingGraph,
    query: &Query,
    outlooks: &[Outlook],
    place: PlaceId,
    moment: Moment,
) -> Outlook
    requires { moment.0 < end_of_time }
    ensures { result ≡ outlook_at rising.now.graph.now.tables query.now outlooks.now place.0 moment.0 }
{
    if place.0 == query.target.0 {
        return arrived(query.deadline, place, moment);
    }
    match rising.graph.pick_rising(place, moment) {
        None => Outlook::Failing(Failure { moment, place }),
        Some(leg) => reported(outlooks, leg.exit),
    }
}

/// What comes of leaving by a connection, by what comes of leaving by later ones.
fn outlook_of(
    rising: &RisingGraph,
    network: &Network,
    query: &Query,
    outlooks: &[Outlook],
    id: ConnectionId,
) -> Outlook
    requires { id.0 < count network.now }
    ensures { result ≡ outlook_of network.now rising.now.graph.now.tables query.now outlooks.now id.0 }
{
    let exit = network.get(id);
    let row = network.row(exit.class);
    let mut children: ArrayVec<Outlook, 64> = ArrayVec::new();
    for outcome in row {
        let moment = Moment(exit.arr.0 + u64::from(outcome.delay));
        children.push(outlook_at(rising, query, outlooks, exit.to, moment));
    }
    blend(row, &children)
}

/// What comes of leaving by each connection that a leg ends with. The last departure comes first, since
/// what comes of a ride follows from what comes of later ones.
pub fn outlooks_of(
    alloc: Global,
    rising: &RisingGraph,
    network: &Network,
    query: &Query,
) -> Result<Vec<Outlook>, NoMemory>
    requires fit { All (IsFitLeg network.now query.now) rising.now.legs.now }
    ensures { IfOk result (λ outlooks. AreOutlooks network.now query.now rising.now.graph.now outlooks.items) }
{
    let mut exits = exits_of(alloc, network, rising.legs)?;
    let mut outlooks: Vec<Outlook> = vec![in alloc; Outlook::default(); network.count() as usize]?;
    while let Some(exit) = exits.pop() {
        let outlook = outlook_of(rising, network, query, &outlooks, exit.id);
        outlooks[exit.id.0 as usize] = outlook;
    }
    Ok(outlooks)
}
