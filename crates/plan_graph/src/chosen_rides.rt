//! The rides that a choice of legs reaches from a start leg.
ghost use Rattle.std.specs.Prelude.{◌≡◌, ◌≢◌, ℕ, ◌<◌, ◌++◌, map, Some, IfOk, OnOk, MatchBool};
ghost use Rattle.std.specs.List.{AllByRecursion};
ghost use Rattle.std.specs.BTreeSet.{contains, IsOrdered};
ghost use Rattle.plan_model.specs.Network.{IsValid, count};
ghost use Rattle.plan_model.specs.Unfold.{unfolding_of};
ghost use Rattle.plan_graph.specs.Ready.{IsSafeForSome};
ghost use Rattle.plan_graph.specs.Unfold.{HasRisingRides};
ghost use Rattle.plan_graph.specs.RisingRides.{HasRisingRides-prop};
ghost use Rattle.plan_graph.specs.Walked.{table_after, ride_of_leg, leg_cmp, with_leg, IsReached, IsWalked};

use crate::{ExpandedGraph, GraphRow, Ride};
use plan_model::{Leg, List, Moment, Network, NoMemory, Query};
use std::alloc::Global;
use std::collections::BTreeSet;

/// A choice of the leg that is taken after each ride.
pub trait LegChoice {
    ghost use Rattle.std.specs.Prelude.{◌≡◌, ℕ, ◌<◌, Option};
    ghost use Rattle.plan_model.specs.declared.model.Leg.{Leg};
    ghost use Rattle.plan_model.specs.Network.{NetworkModel, count};

    /// The leg that it chooses after a leg that arrives at a moment.
    ghost chosen: { Self → NetworkModel → Leg → ℕ → Option Leg };

    /// The leg that is chosen after a leg that arrives at the moment; `None` if none is.
    fn choose(&self, network: &Network, leg: Leg, arrival: Moment) -> Option<Leg>
        requires { leg.exit.0 < count network.now }
        ensures { result ≡ chosen self.now network.now leg arrival.0 };
}

/// The choice by the rows of a graph whose rides rise.
#[derive(Drop)]
pub struct GraphChoice<'a> {
    /// The graph by ride.
    pub graph: &'a ExpandedGraph,
    /// That its rides rise.
    pub ghost rising: { HasRisingRides graph.now.rides } by { HasRisingRides-prop graph.now.rides },
}

impl<'a> LegChoice for GraphChoice<'a> {
    ghost use Rattle.plan_graph.specs.Unfold.{pick_after};

    ghost chosen = { λ choice n. pick_after choice.graph.now.rides };

    fn choose(&self, network: &Network, leg: Leg, arrival: Moment) -> Option<Leg> {
        let _ = network;
        self.graph.pick_rising(leg, arrival)
    }
}

// The legs that are chosen after a leg, one for each outcome.
fn table<C: LegChoice>(
    alloc: Global,
    choice: &C,
    network: &Network,
    query: &Query,
    leg: Leg,
) -> Result<Vec<GraphRow>, NoMemory>
    requires { leg.exit.0 < count network.now }
    ensures { IfOk result (λ rows. rows.items ≡ table_after network.now query.now.target.0
        (C.chosen choice.now network.now) leg) }
{
    let mut rows = Vec::new(alloc);
    let exit = network.get(leg.exit);
    if exit.to == query.target {
        return Ok(rows);
    }
    for outcome in network.row(exit.class) {
        let by = Moment(exit.arr.0 + u64::from(outcome.delay));
        if let Some(next) = choice.choose(network, leg, by) {
            rows.push(GraphRow { by, leg: next })?;
        }
    }
    Ok(rows)
}

// Adds the legs of a table to those that are still to be seen.
fn push_legs(todo: &mut Vec<Leg>, rows: &[GraphRow]) -> Result<(), NoMemory>
    ensures { OnOk result (todo.new.items ≡ todo.old.items ++ map (λ row. row.leg) rows.now) }
{
    for row in rows {
        todo.push(row.leg)?;
    }
    Ok(())
}

// Sees a leg. If it was not seen before, the legs that are chosen after it are still to be seen.
fn visit<C: LegChoice>(
    alloc: Global,
    choice: &C,
    network: &Network,
    query: &Query,
    leg: Leg,
    todo: &mut Vec<Leg>,
    seen: &mut BTreeSet<Leg>,
) -> Result<(), NoMemory>
    requires { leg.exit.0 < count network.now }
    ensures ordered { OnOk result (IsOrdered leg_cmp seen.new) }
    ensures seen { OnOk result (seen.new.keys ≡ with_leg seen.old.keys leg) }
    ensures todo { OnOk result (MatchBool (contains leg_cmp seen.old leg)
        (todo.new.items ≡ todo.old.items) (todo.new.items ≡ todo.old.items
        ++ map (λ row. row.leg) (table_after network.now query.now.target.0
        (C.chosen choice.now network.now) leg))) }
{
    if !seen.insert(leg)? {
        return Ok(());
    }
    let rows = table(alloc, choice, network, query, leg)?;
    push_legs(todo, &rows)
}

// The legs that are reached from the start leg.
fn reach<C: LegChoice>(
    alloc: Global,
    choice: &C,
    network: &Network,
    query: &Query,
    start: Leg,
) -> Result<BTreeSet<Leg>, NoMemory>
    requires differ { query.now.source.0 ≢ query.now.target.0 }
    requires safe { IsSafeForSome network.now query.now
        (unfolding_of network.now query.now (C.chosen choice.now network.now) (Some start)) }
    ensures { IfOk result (λ seen. IsReached network.now query.now.target.0
        (C.chosen choice.now network.now) (unfolding_of network.now query.now
        (C.chosen choice.now network.now) (Some start)) start seen.keys) }
{
    let mut seen = BTreeSet::new(alloc);
    let mut todo = Vec::new(alloc);
    todo.push(start)?;
    for _ in 0..u64::MAX {
        match todo.pop() {
            None => return Ok(seen),
            Some(leg) => visit(alloc, choice, network, query, leg, &mut todo, &mut seen)?,
        }
    }
    Err(NoMemory)
}

// The rides, with their tables.
fn rides_of<C: LegChoice>(
    alloc: Global,
    choice: &C,
    network: &Network,
    query: &Query,
    seen: &BTreeSet<Leg>,
) -> Result<List<Ride>, NoMemory>
    requires { AllByRecursion (λ leg. leg.exit.0 < count network.now) seen.now.keys }
    ensures { IfOk result (λ rides. rides ≡ map
        (ride_of_leg network.now query.now.target.0
        (C.chosen choice.now network.now)) seen.now.keys) }
{
    let mut rides = List::new(alloc);
    for leg in seen {
        let rows = table(alloc, choice, network, query, *leg)?;
        rides.push(Ride {
            leg: *leg,
            after: List::from_vec(rows),
        })?;
    }
    Ok(rides)
}

/// The rides that the choice reaches from the start leg, in rising order of entry and exit. The
/// table of each has a row for each outcome, by the arrival, and none at the target. It takes time in
/// the rides and their outcomes, with a search for each of these among the rides.
pub fn walk<C: LegChoice>(
    alloc: Global,
    choice: &C,
    network: &Network,
    query: &Query,
    start: Leg,
) -> Result<List<Ride>, NoMemory>
    requires differ { query.now.source.0 ≢ query.now.target.0 }
    requires safe { IsSafeForSome network.now query.now
        (unfolding_of network.now query.now (C.chosen choice.now network.now) (Some start)) }
    ensures walked { IfOk result (IsWalked network.now query.now (C.chosen choice.now network.now) start) }
    ensures valid { IfOk result (λ _. IsValid network.now) }
{
    let _count = network.count();
    let seen = reach(alloc, choice, network, query, start)?;
    rides_of(alloc, choice, network, query, &seen)
}
