//! The least worst arrival, by the backward scan, and the deadline that follows from it.
#![tactic(auto)]

ghost use Rattle.std.specs.Prelude.{◌≡◌, ◌≢◌, ◌<◌, ◌≤◌, Some, IfOk, IfSome, MatchOption};
ghost use Rattle.plan_model.specs.Bounds.{end_of_time};
ghost use Rattle.plan_model.specs.Order.{IsScanOrder};
ghost use Rattle.plan_model.specs.Strategy.{IsSafeFor, IsLeastWorst, deadline_of};
ghost use Rattle.plan_model.specs.Network.{IsValid};
ghost use Rattle.plan_model.specs.Tree.{Tree};
ghost use Rattle.meat_scan.specs.ScanTables.{FitsTables, FitsTablesBy};

use meat_scan::{ScanTables, start_value};
use plan_model::{BackwardOrder, Moment, Network, NoMemory, PlaceId, Query, SECONDS_PER_HOUR};
use std::alloc::Global;
use value_laws::WorstMoment;

// A day after the last arrival that a network may have: whatever always arrives does so by then.
const LAST_MOMENT: Moment = Moment(13_601_174_400);

// The least worst arrival, if it is by the deadline of the query. The order is used up.
#[tactic(auto, using(crate::proofs::Least::least_from_value))]
fn least_worst_by<B: BackwardOrder>(
    tables: ScanTables<WorstMoment>,
    network: &Network,
    order: &mut B,
    query: &Query,
) -> Option<Moment>
    requires tables_fit { FitsTablesBy network.now query.now.deadline.0 tables }
    requires fits { B.fits order.old network.now }
    requires whole { IsScanOrder network.now (B.rest order.old network.now) }
    requires differ { query.now.source.0 ≢ query.now.target.0 }
    ensures least { let query = query.now in
        MatchOption result ((tree : Tree) → IsSafeFor network.now query tree → ⊥)
        (λ worst. IsLeastWorst network.now query.source.0 query.target.0 query.start.0 (Some worst)) }
    ensures valid { IsValid network.now }
    ensures fits { B.fits order.new network.now }
{
    let (_tables, worst) = start_value(tables, network, order, query);
    match worst {
        Some(worst) => Some(worst.0),
        None => None,
    }
}

/// The least worst arrival at the target of all strategies that always reach it, from the source at the
/// start; `None` if no strategy always reaches it. Whatever is answered, the order still fits the network.
pub fn least_worst<B: BackwardOrder>(
    tables: ScanTables<WorstMoment>,
    network: &Network,
    order: &mut B,
    source: PlaceId,
    target: PlaceId,
    start: Moment,
) -> Option<Moment>
    requires tables_fit { FitsTables network.now tables }
    requires fits { B.fits order.old network.now }
    requires whole { IsScanOrder network.now (B.rest order.old network.now) }
    requires start { start.0 < end_of_time }
    ensures least { IsLeastWorst network.now source.0 target.0 start.0 result }

    // It is not before the start, and no later than a day after the last arrival of a network.
    ensures order { IfSome result (λ worst. start.0 ≤ worst.0) }
    ensures early { IfSome result (λ worst. worst.0 < end_of_time) }
    ensures fits { B.fits order.new network.now }
{
    if source.0 == target.0 {
        return Some(start);
    }
    let query = Query {
        source,
        target,
        start,
        deadline: LAST_MOMENT,
    };
    least_worst_by(tables, network, order, &query)
}

// The least worst arrival, if it is by the deadline of the query, with tables that have room for the
// connections up to it. The order is used up.
fn reserved_worst_by<B: BackwardOrder>(
    alloc: Global,
    network: &Network,
    order: &mut B,
    query: &Query,
) -> Result<Option<Moment>, NoMemory>
    requires fits { B.fits order.old network.now }
    requires whole { IsScanOrder network.now (B.rest order.old network.now) }
    requires differ { query.now.source.0 ≢ query.now.target.0 }
    ensures least { let query = query.now in
        IfOk result (λ found. MatchOption found ((tree : Tree) → IsSafeFor network.now query tree → ⊥)
        (λ worst. IsLeastWorst network.now query.source.0 query.target.0 query.start.0 (Some worst))) }
    ensures valid { IfOk result (λ _. IsValid network.now) }
    ensures fits { B.fits order.new network.now }
{
    let tables: ScanTables<WorstMoment> = ScanTables::reserve_until(
        alloc,
        network,
        query.deadline,
    )?;
    Ok(least_worst_by(tables, network, order, query))
}

/// The least worst arrival, as `least_worst` gives it, for a long window in less time and memory. It is searched
/// for with a deadline of two hours, then of eight, and at last of all time, since most connections leave too late
/// to matter, and the tables have room for the connections up to each deadline in turn. Whatever is answered, the
/// order still fits the network.
pub fn reserved_worst<B: BackwardOrder>(
    alloc: Global,
    network: &Network,
    order: &mut B,
    source: PlaceId,
    target: PlaceId,
    start: Moment,
) -> Result<Option<Moment>, NoMemory>
    requires fits { B.fits order.old network.now }
    requires whole { IsScanOrder network.now (B.rest order.old network.now) }
    requires start { start.0 < end_of_time }
    ensures least { IfOk result (IsLeastWorst network.now source.0 target.0 start.0) }
    ensures order { IfOk result (λ found. IfSome found (λ worst. start.0 ≤ worst.0)) }
    ensures early { IfOk result (λ found. IfSome found (λ worst. worst.0 < end_of_time)) }
    ensures fits { B.fits order.new network.now }
{
    if source.0 == target.0 {
        return Ok(Some(start));
    }
    for hours in [2, 8] {
        let query = Query {
            source,
            target,
            start,
            deadline: Moment(start.0 + SECONDS_PER_HOUR * hours),
        };
        let found = reserved_worst_by(alloc, network, order, &query)?;
        if found.is_some() {
            return Ok(found);
        }
        order.rewind(network);
    }
    let query = Query {
        source,
        target,
        start,
        deadline: LAST_MOMENT,
    };
    // The proof takes two promises of the moment together, so it has a name.
    let worst = reserved_worst_by(alloc, network, order, &query)?;
    Ok(worst)
}

/// The deadline: the start, and `alpha` percent of the time from it to the least worst arrival, rounded
/// down to a second. `alpha` is from 100 to 1,000.
pub fn deadline(start: Moment, worst: Moment, alpha: u32) -> Moment
    requires order { start.0 ≤ worst.0 }
    requires early { worst.0 < end_of_time }
    requires low { 100 ≤ alpha }
    requires high { alpha ≤ 1000 }
    ensures value { result.0 ≡ deadline_of start.0 worst.0 alpha }
    ensures late { worst.0 ≤ result.0 }
{
    Moment(start.0 + (worst.0 - start.0) * u64::from(alpha) / 100)
}
