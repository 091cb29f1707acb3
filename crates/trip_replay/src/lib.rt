//! A trip by a graph, with the delay of each ride given.
//!
//! A call that takes an allocator may answer that there is no memory, as `NoMemory` or as the variant
//! of that name; then what it was lent is as it was, unless its own comment says otherwise.
#![tactic(auto)]

ghost use Rattle.std.specs.Prelude.{◌≡◌, ◌+◌, ◌-◌, ◌<◌, ◌≤◌, [], All, Some, IfSome, IfOk, IfErr};
ghost use Rattle.std.specs.Option.{option_map};
ghost use Rattle.plan_model.specs.Network.{count, to_of};
ghost use Rattle.plan_model.specs.Strategy.{IsSafeFor};
ghost use Rattle.plan_model.specs.Unfold.{by_place, unfold_after};
ghost use Rattle.plan_graph.specs.Unfold.{pick_at, unfold_plan};
ghost use Rattle.plan_graph.specs.Ready.{IsLegOf};
ghost use Rattle.plan_graph.specs.Tidy.{IsFit};
ghost use Rattle.trip_replay.specs.Walk.{walk, IsAnswer, IsSafeAnswer};
ghost use Rattle.trip_replay.specs.Rides.{delayed_arrival, tree_at, IsRidden, arrival_after, IsStuckAfter};

mod laws;

pub use laws::{a_late_trip_arrives, a_safe_trip_arrives};
use plan_graph::PlanGraph;
use plan_model::{Leg, List, Moment, Network, NoMemory, PlaceId, Query};
use std::alloc::Global;
use std::fmt;

/// A ride, with its delay in seconds and its arrival.
#[derive(Clone, Copy, Debug, PartialEq, Eq)]
pub struct Ridden {
    /// The leg that was ridden.
    pub leg: Leg,
    /// Its delay in seconds.
    pub delay: u32,
    /// The arrival: the scheduled one of its exit, and the delay.
    pub arrival: Moment,
}

/// The rides of a trip, and its arrival at the target.
#[derive(Drop)]
pub struct Trace {
    /// The rides, one after the other; there are none if source and target are one place.
    pub rides: List<Ridden>,
    /// When the traveller is at the target: the arrival of the last ride, or the start if there is
    /// no ride.
    pub arrival: Moment,
}

/// Why there is no trip with these delays.
#[derive(Clone, Copy, Debug, PartialEq, Eq)]
pub enum ReplayFault {
    /// The delay with this number, from 1 on, is none of its leg's.
    NotADelay(u32),
    /// After this number of rides another leg is taken, and no delay remains.
    TooFew(u32),
    /// After this number of rides the traveller is at the target, and delays remain.
    TooMany(u32),
    /// At the place, with an arrival at the moment, no leg is taken: its table has no row for the
    /// arrival, or it has no table.
    Stuck(PlaceId, Moment),
    /// Memory ran out.
    NoMemory,
}

impl From<NoMemory> for ReplayFault {
    ghost use Rattle.trip_replay.specs.declared.ReplayFault.TheVariants.{NoMemory as NoMemoryFault};

    ghost from_gives = { λ _ e. e ≡ NoMemoryFault };

    fn from(_: NoMemory) -> ReplayFault {
        ReplayFault::NoMemory
    }
}

impl fmt::Display for ReplayFault {
    ghost use Rattle.trip_replay.specs.FaultTexts.{replay_fault_text};

    ghost output = { λ fault. Some (replay_fault_text fault) };

    /// Writes what is wrong, but not where in the timetable.
    fn fmt<W: fmt::Write>(&self, f: &mut fmt::Formatter<W>) -> fmt::Result {
        match *self {
            ReplayFault::NotADelay(number) => write!(f, "late {number} is not a delay"),
            ReplayFault::TooFew(ridden) => write!(f, "too few delays: {ridden} ridden"),
            ReplayFault::TooMany(ridden) => write!(f, "too many delays: {ridden} ridden"),
            ReplayFault::Stuck(_, _) => f.write_str("stuck"),
            ReplayFault::NoMemory => f.write_str("out of memory"),
        }
    }
}

/// The place where a traveller is, the arrival there, the leg that is taken next, and the number of rides
/// that may follow it.
#[derive(Clone, Copy)]
struct Position {
    place: PlaceId,
    moment: Moment,
    next: Option<Leg>,
    remaining: u32,
}

/// The arrival of a leg with a delay; `None` if it cannot have that delay.
fn arrival_of(network: &Network, leg: Leg, delay: u32) -> Option<Moment>
    requires { leg.exit.0 < count network.now }
    ensures { option_map (λ moment. moment.0) result ≡ delayed_arrival network.now leg delay }
{
    let exit = network.get(leg.exit);
    for outcome in network.row(exit.class) {
        if outcome.delay == delay {
            return Some(Moment(exit.arr.0 + u64::from(delay)));
        }
    }
    None
}

/// The position of the traveller after a leg.
fn position_after(
    graph: &PlanGraph,
    network: &Network,
    query: &Query,
    leg: Leg,
    arrival: Moment,
    remaining: u32,
) -> Position
    requires fit { IsFit network.now query.now graph.now }
    requires leg { IsLegOf network.now leg }
    ensures tree { tree_at network.now query.now.target.0
        (by_place network.now (pick_at graph.now.tables)) result
        ≡ unfold_after network.now query.now.target.0
        (by_place network.now (pick_at graph.now.tables)) remaining leg arrival.0 }
    ensures next { IfSome result.next (λ next. IsLegOf network.now next × (result.remaining < remaining)) }
    ensures remaining { result.remaining ≤ remaining }
    ensures place { result.place.0 ≡ to_of network.now leg.exit.0 }
    ensures moment { result.moment ≡ arrival }
{
    let place = network.get(leg.exit).to;
    if remaining == 0 {
        return Position {
            place,
            moment: arrival,
            next: None,
            remaining: 0,
        };
    }
    Position {
        place,
        moment: arrival,
        next: graph.pick_rising(place, arrival),
        remaining: remaining - 1,
    }
}

/// The trip by the graph with these delays, leg by leg.
fn follow(
    alloc: Global,
    graph: &PlanGraph,
    network: &Network,
    query: &Query,
    delays: &[u32],
) -> Result<Trace, ReplayFault>
    requires { IsFit network.now query.now graph.now }
    ensures walk { IsAnswer result (walk network.now
        (unfold_plan graph.now network.now query.now) delays.now []) }
    ensures rides { IfOk result (λ trace. All (IsRidden network.now) trace.rides) }
    ensures arrival { IfOk result (λ trace.
        trace.arrival.0 ≡ arrival_after query.now.start.0 trace.rides) }
    ensures stuck { IfErr result (IsStuckAfter network.now query.now) }
{
    let mut rides = List::new(alloc);
    let mut position = Position {
        place: query.source,
        moment: query.start,
        next: graph.start,
        remaining: network.count().saturating_sub(1),
    };
    for delay in delays {
        if position.place == query.target {
            return Err(ReplayFault::TooMany(rides.len() as u32));
        }
        let Some(leg) = position.next else {
            return Err(ReplayFault::Stuck(position.place, position.moment));
        };
        let Some(arrival) = arrival_of(network, leg, *delay) else {
            return Err(ReplayFault::NotADelay(rides.len() as u32 + 1));
        };
        let ridden = Ridden {
            leg,
            delay: *delay,
            arrival,
        };
        rides.push(ridden)?;
        position = position_after(graph, network, query, leg, arrival, position.remaining);
    }
    if position.place == query.target {
        return Ok(Trace {
            rides,
            arrival: position.moment,
        });
    }
    match position.next {
        Some(_) => Err(ReplayFault::TooFew(rides.len() as u32)),
        None => Err(ReplayFault::Stuck(position.place, position.moment)),
    }
}

/// The trip by the graph with these delays, leg by leg. A fault is that of the first ride at which the walk
/// cannot go on, as `ReplayFault` says. If the graph's tree is safe for the query, the traveller is never
/// stuck and arrives by the deadline.
#[tactic(auto, using(crate::proofs::Walks::safe_answer))]
pub fn replay(
    alloc: Global,
    graph: &PlanGraph,
    network: &Network,
    query: &Query,
    delays: &[u32],
) -> Result<Trace, ReplayFault>
    requires { IsFit network.now query.now graph.now }
    ensures walk { IsAnswer result (walk network.now
        (unfold_plan graph.now network.now query.now) delays.now []) }
    ensures safe { IsSafeFor network.now query.now (unfold_plan graph.now network.now query.now)
        → IsSafeAnswer query.now.deadline.0 result }
    ensures rides { IfOk result (λ trace. All (IsRidden network.now) trace.rides) }
    ensures arrival { IfOk result (λ trace.
        trace.arrival.0 ≡ arrival_after query.now.start.0 trace.rides) }
    ensures stuck { IfErr result (IsStuckAfter network.now query.now) }
{
    // That a safe graph is never stuck follows from the other promises of `follow`.
    follow(alloc, graph, network, query, delays)
}
