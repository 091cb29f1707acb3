//! The decision graph with the least chance of an arrival after a promised moment.
ghost use Rattle.std.specs.Prelude.{◌≡◌, ◌<◌, IfOk, MatchOption};
ghost use Rattle.plan_model.specs.Bounds.{end_of_time};
ghost use Rattle.plan_model.specs.Network.{IsValid};
ghost use Rattle.decision_graph.specs.Planned.{IsNoneSafe};
ghost use Rattle.late_chance.specs.Punctual.{IsPunctual, asked_for, seen_for};
ghost use Rattle.decision_graph.specs.LeastChances.{IsLeastChance, IsSeenLater};

use crate::found::Found;
use crate::planned::plan_by;
use late_chance::{
    LateChance, Promise, SECONDS_PER_WEEK, punctual_by_shift, shifted, sooner, unshifted,
};
use merged_runs::MergedRuns;
use plan_graph::PlanGraph;
use plan_model::{Network, NoMemory, Query};
use std::alloc::Global;

/// The decision graph of a query with the least chance of an arrival after the moment that represents a
/// promise; `None` if no strategy is safe for the query.
#[tactic(auto, using(crate::proofs::LeastChances::least_chance))]
fn least_chance_of(
    alloc: Global,
    network: &Network,
    query: &Query,
) -> Result<Option<Found<PlanGraph, LateChance>>, NoMemory>
    requires { query.now.source.0 ≡ query.now.target.0 → query.now.start.0 < end_of_time }
    ensures { IfOk result (λ found. MatchOption found (IsNoneSafe network.now query.now)
        (λ p. IsLeastChance network.now query.now p.graph p.value)) }
{
    let mut order = MergedRuns::new(alloc, network)?;
    plan_by(alloc, &mut order, network, query)
}

/// The same in the network as it is seen for a promise.
fn seen_plan(
    alloc: Global,
    network: &Network,
    promise: &Promise,
) -> Result<Option<Found<PlanGraph, LateChance>>, NoMemory>
    ensures plan { IfOk result (λ found. MatchOption found
        (IsNoneSafe (seen_for network.now promise.now.query promise.now.moment.0)
        (asked_for promise.now.query promise.now.moment.0))
        (λ p. IsLeastChance (seen_for network.now promise.now.query promise.now.moment.0)
        (asked_for promise.now.query promise.now.moment.0) p.graph p.value)) }
    ensures valid { IsValid network.now }
{
    let seen = shifted(alloc, network, promise.query.start, promise.moment)?;
    let sought = sooner(&promise.query, promise.moment.0 - SECONDS_PER_WEEK);
    least_chance_of(alloc, &seen, &sought)
}

/// The decision graph with the least chance of an arrival after the promised moment, and bounds on that
/// chance; `None` if no strategy is safe for the query.
pub fn punctual_plan(
    alloc: Global,
    network: &Network,
    promise: &Promise,
) -> Result<Option<Found<PlanGraph, LateChance>>, NoMemory>
    ensures { IfOk result (λ found. MatchOption found (IsNoneSafe network.now promise.now.query)
        (λ p. IsPunctual network.now promise.now.query promise.now.moment.0 p.graph p.value
        × IsSeenLater network.now promise.now.query promise.now.moment.0 p.graph p.value)) }
{
    punctual_by_shift();
    let Some(found) = seen_plan(alloc, network, promise)? else {
        return Ok(None);
    };
    let graph = unshifted(alloc, &found.graph, promise.moment.0 - SECONDS_PER_WEEK)?;
    let value = found.value;
    Ok(Some(Found { graph, value }))
}
