//! The legs of a graph, in their order, and the first that does not fit.
ghost use Rattle.std.specs.Prelude.{◌≡◌, ◌+◌, ◌++◌, ◌↔◌, map, IsTrue, IfOk, OnOk, IfSome, IfNone, All};
ghost use Rattle.plan_graph.specs.Ready.{IsLegOf};
ghost use Rattle.plan_graph.specs.Tidy.{IsFitStart, IsFitRow};
ghost use Rattle.graph_score.specs.Legs.{IsFitLeg, IsFirstWrong, legs_of};

use plan_graph::{GraphRow, PlanGraph};
use plan_model::{Leg, Network, NoMemory, PlaceId, Query};
use std::alloc::Global;

/// A leg of a graph.
#[derive(Clone, Copy)]
pub enum GraphLeg {
    /// The start leg.
    Start(Leg),
    /// The leg of a row of a place.
    Row(PlaceId, GraphRow),
}

/// Adds the legs of a table to the list.
fn push_rows(legs: &mut Vec<GraphLeg>, place: PlaceId, rows: &[GraphRow]) -> Result<(), NoMemory>
    ensures { OnOk result (legs.new.items ≡ legs.old.items ++ map (λ row. GraphLeg.Row place row) rows.now) }
{
    for row in rows {
        legs.push(GraphLeg::Row(place, *row))?;
    }
    Ok(())
}

/// The start leg, and then the rows of each table.
pub fn legs_of(alloc: Global, graph: &PlanGraph) -> Result<Vec<GraphLeg>, NoMemory>
    ensures { IfOk result (λ legs. legs.items ≡ legs_of graph.now) }
{
    let mut legs = Vec::new(alloc);
    if let Some(leg) = graph.start {
        legs.push(GraphLeg::Start(leg))?;
    }
    for table in graph.tables.as_slice() {
        push_rows(&mut legs, table.place, table.rows.as_slice())?;
    }
    Ok(legs)
}

/// Whether it is a leg of the network.
fn is_leg(network: &Network, leg: Leg) -> bool
    ensures { IsTrue result ↔ IsLegOf network.now leg }
{
    let count = network.count();
    if leg.enter.0 >= count || leg.exit.0 >= count {
        return false;
    }
    let enter = network.get(leg.enter);
    let exit = network.get(leg.exit);
    enter.run == exit.run && enter.step <= exit.step && enter.can_board && exit.can_exit
}

/// Whether it is a leg that is taken up to its limit.
fn is_fit_row(network: &Network, place: PlaceId, row: &GraphRow) -> bool
    ensures { IsTrue result ↔ IsFitRow network.now place.0 row.now }
{
    if place.0 >= network.places() || !is_leg(network, row.leg) {
        return false;
    }
    match network.limit(place, row.leg) {
        Some(limit) => limit == row.by,
        None => false,
    }
}

/// Whether it is a leg that leaves the source at the start or later.
fn is_fit_start(network: &Network, query: &Query, leg: Leg) -> bool
    ensures { IsTrue result ↔ IsFitStart network.now query.now leg }
{
    if query.source == query.target || !is_leg(network, leg) {
        return false;
    }
    let enter = network.get(leg.enter);
    enter.from == query.source && query.start <= enter.dep
}

/// Whether the leg fits.
fn fits(network: &Network, query: &Query, leg: &GraphLeg) -> bool
    ensures { IsTrue result ↔ IsFitLeg network.now query.now leg.now }
{
    match leg {
        GraphLeg::Start(leg) => is_fit_start(network, query, *leg),
        GraphLeg::Row(place, row) => {
            query.source != query.target && is_fit_row(network, *place, row)
        }
    }
}

/// The index of the first leg that does not fit; `None` if all do.
#[tactic(auto, using(crate::proofs::GraphLegs::first_wrong_is))]
pub fn first_wrong(network: &Network, query: &Query, legs: &[GraphLeg]) -> Option<usize>
    ensures wrong { IfSome result (λ at. IsFirstWrong network.now query.now legs.now (at + 1)) }
    ensures none { IfNone result (All (IsFitLeg network.now query.now) legs.now) }
{
    for at in 0..legs.len() {
        if !fits(network, query, &legs[at]) {
            return Some(at);
        }
    }
    None
}
