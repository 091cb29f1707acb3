//! The plain values against those of the scans and the plans.
ghost use Rattle.std.specs.Prelude.{◌<◌, ◌≤◌, ◌+◌, length};
ghost use Rattle.late_chance.specs.declared.shift.TheConstants.{SECONDS_PER_WEEK};
ghost use Rattle.plan_model.specs.Bounds.{end_of_time};

use crate::made::{FIRST, Numbers, cut_text, delay_text};
use crate::strategies::{Goal, best, scale_of};
use decision_graph::{expand, plan, punctual_plan};
use interval_fixed::Span;
use late_chance::{LateChance, Promise, SECONDS_PER_WEEK};
use meat_scan::ScanTables;
use merged_runs::MergedRuns;
use plan_model::{Moment, Network, PlaceId, Query, SortedOrder};
use safe_arrival::{least_worst, reserved_worst};
use std::alloc::Global;
use std::test::Fail;
use test_networks::network_with;

/// How many networks are made.
const NETWORKS: u64 = 300;

/// How many journeys of each are compared.
const JOURNEYS: u32 = 2;

/// No strategy arrives later than this in a network of one hour.
const NEVER: Moment = Moment(FIRST.0 + 100_000);

/// How many decimal digits a chance has, and the ten thousandths of one outcome.
const CHANCE_DIGITS: u32 = 18;

const WEIGHT_DIGITS: u32 = 4;

/// How many journeys between two places have a safe strategy, and how many have none.
#[derive(Clone, Copy)]
struct Counts {
    safe: u64,
    none: u64,
}

/// Whether bounds in nanoseconds enclose an expected arrival over this many rides, and are as near as
/// is promised.
pub(crate) fn encloses(bounds: Span, expected: u128, rides: u32) -> bool {
    let scale = scale_of(rides);
    let nanoseconds = expected.saturating_mul(1_000_000_000);
    u128::from(bounds.lo()).saturating_mul(scale) <= nanoseconds
        && nanoseconds <= u128::from(bounds.hi()).saturating_mul(scale)
        && bounds.hi().saturating_sub(bounds.lo()) <= u64::from(rides)
}

/// Ten, this many times.
fn power_of_ten(digits: u32) -> u128 {
    let mut power: u128 = 1;
    for _ in 0..digits {
        power = power.saturating_mul(10);
    }
    power
}

/// Whether bounds on a chance enclose an exact one over this many rides.
fn encloses_chance(chance: LateChance, exact: u128, rides: u32) -> bool {
    let weights = rides.saturating_mul(WEIGHT_DIGITS);
    let digits = weights.max(CHANCE_DIGITS);
    let exact = exact.saturating_mul(power_of_ten(digits.saturating_sub(weights)));
    let unit = power_of_ten(digits.saturating_sub(CHANCE_DIGITS));
    u128::from(chance.lo()).saturating_mul(unit) <= exact
        && exact <= u128::from(chance.hi()).saturating_mul(unit)
}

/// The bounds of the plan of a query, by the sorted order.
fn sorted_plan(alloc: Global, network: &Network, query: &Query) -> Result<Option<Span>, Fail>
    requires start { query.now.start.0 < end_of_time }
{
    let mut order = SortedOrder::new(alloc, network)?;
    match plan(alloc, &mut order, network, query)? {
        None => Ok(None),
        Some(found) => Ok(Some(found.value)),
    }
}

/// The bounds of the plan of a query, by the merged order, as the program makes it.
fn merged_plan(alloc: Global, network: &Network, query: &Query) -> Result<Option<Span>, Fail>
    requires start { query.now.start.0 < end_of_time }
{
    let mut order = MergedRuns::new(alloc, network)?;
    match plan(alloc, &mut order, network, query)? {
        None => Ok(None),
        Some(found) => Ok(Some(found.value)),
    }
}

/// The bounds of the plan ride by ride.
fn expanded_plan(alloc: Global, network: &Network, query: &Query) -> Result<Option<Span>, Fail>
    requires start { query.now.start.0 < end_of_time }
{
    let mut order = MergedRuns::new(alloc, network)?;
    match expand(alloc, &mut order, network, query)? {
        None => Ok(None),
        Some(found) => Ok(Some(found.value)),
    }
}

/// The bounds on the chance of being late of the plan for a promise.
fn least_chance(
    alloc: Global,
    network: &Network,
    promise: &Promise,
) -> Result<Option<LateChance>, Fail> {
    match punctual_plan(alloc, network, promise)? {
        None => Ok(None),
        Some(found) => Ok(Some(found.value)),
    }
}

/// Whether both have no bounds, or the same.
fn are_alike(one: Option<Span>, other: Option<Span>) -> bool {
    match (one, other) {
        (None, None) => true,
        (Some(a), Some(b)) => a.lo() == b.lo() && a.hi() == b.hi(),
        (None, Some(_)) | (Some(_), None) => false,
    }
}

/// Compares the plans of a query with the plain value and with each other, and returns whether a strategy is safe.
fn compare_plan(alloc: Global, network: &Network, query: &Query) -> Result<bool, Fail>
    requires start { query.now.start.0 < end_of_time }
{
    let found = merged_plan(alloc, network, query)?;
    if !are_alike(found, sorted_plan(alloc, network, query)?) {
        return Err("other bounds by the sorted order".into());
    }
    if !are_alike(found, expanded_plan(alloc, network, query)?) {
        return Err("other bounds ride by ride".into());
    }
    match (found, best(network, query, Goal::Expected)) {
        (None, None) => Ok(false),
        (None, Some(_)) => Err("no plan where something is safe".into()),
        (Some(_), None) => Err("a plan where nothing is safe".into()),
        (Some(bounds), Some(expected)) => {
            if encloses(bounds, expected, network.count()) {
                Ok(true)
            } else {
                Err("the bounds do not enclose the expected arrival".into())
            }
        }
    }
}

/// Compares the least chance of an arrival after a promised moment.
fn compare_chance(alloc: Global, network: &Network, promise: &Promise) -> Result<(), Fail> {
    let plain = best(network, &promise.query, Goal::Late(promise.moment));
    match (least_chance(alloc, network, promise)?, plain) {
        (None, None) => Ok(()),
        (Some(chance), Some(exact)) if encloses_chance(chance, exact, network.count()) => Ok(()),
        _ => Err("another least chance of being late".into()),
    }
}

/// Compares the least worst arrivals.
fn compare_worst(
    alloc: Global,
    network: &Network,
    source: PlaceId,
    target: PlaceId,
    start: Moment,
) -> Result<Option<Moment>, Fail>
    requires source { source.0 < length network.now.change }
    requires target { target.0 < length network.now.change }
    requires start { start.0 < end_of_time }
{
    let mut order = SortedOrder::new(alloc, network)?;
    let tables = ScanTables::reserve(alloc, network)?;
    let found = least_worst(tables, network, &mut order, source, target, start);
    let mut merged = MergedRuns::new(alloc, network)?;
    if reserved_worst(alloc, network, &mut merged, source, target, start)? != found {
        return Err("another least worst arrival by the merged order".into());
    }
    let query = Query {
        source,
        target,
        start,
        deadline: NEVER,
    };
    let plain = best(network, &query, Goal::Worst);
    if found.map(|moment| u128::from(moment.0)) != plain {
        return Err("another least worst arrival".into());
    }
    Ok(found)
}

/// A query with a promise half-way between its start and its deadline.
fn promise_half_way(query: &Query) -> Promise
    requires week { SECONDS_PER_WEEK ≤ query.now.start.0 }
    requires start { query.now.start.0 < end_of_time }
    requires order { query.now.start.0 ≤ query.now.deadline.0 }
{
    let half = (query.deadline.0 - query.start.0).min(SECONDS_PER_WEEK) / 2;
    let moment = Moment(query.start.0 + half);
    let query = *query;
    Promise { query, moment }
}

/// Compares a journey by several deadlines, of which one is too early for all.
fn compare(
    alloc: Global,
    network: &Network,
    source: PlaceId,
    target: PlaceId,
    start: Moment,
) -> Result<bool, Fail>
    requires source { source.0 < length network.now.change }
    requires target { target.0 < length network.now.change }
    requires week { SECONDS_PER_WEEK ≤ start.0 }
    requires start { start.0 < end_of_time }
{
    let found = compare_worst(alloc, network, source, target, start)?;
    let worst = found.unwrap_or(NEVER).0.max(start.0);
    let mut query = Query {
        source,
        target,
        start,
        deadline: Moment(worst),
    };
    let safe = compare_plan(alloc, network, &query)?;
    if safe != found.is_some() {
        return Err("the least worst arrival is not the first safe deadline".into());
    }
    query.deadline = Moment(worst.saturating_add(600));
    compare_plan(alloc, network, &query)?;
    compare_chance(alloc, network, &promise_half_way(&query))?;
    query.deadline = Moment(worst.saturating_sub(1).max(start.0));
    let early = compare_plan(alloc, network, &query)?;
    if early && worst > start.0 {
        return Err("a safe strategy by an earlier deadline".into());
    }
    Ok(safe)
}

/// Makes a network, and compares some of its journeys.
fn compare_made(alloc: Global, numbers: &mut Numbers, counts: Counts) -> Result<Counts, Fail> {
    let cut = cut_text(alloc, numbers)?;
    let delays = delay_text(alloc, numbers)?;
    let network = network_with(alloc, cut.as_str(), delays.as_str())?;
    let places = network.places();
    let mut counts = counts;
    for _ in 0..JOURNEYS {
        let (source, target) = (numbers.below(places), numbers.below(places));
        let start = Moment(FIRST.0 + u64::from(numbers.below(30).min(30)) * 60);
        if source >= places || target >= places {
            return Err("a place of another network".into());
        }
        let safe = compare(alloc, &network, PlaceId(source), PlaceId(target), start)?;
        if source == target {
            continue;
        }
        if safe {
            counts.safe = counts.safe.saturating_add(1);
        } else {
            counts.none = counts.none.saturating_add(1);
        }
    }
    Ok(counts)
}

#[test]
fn plans_are_best_over_made_networks(rt: HostRuntime) -> Result<(), Fail> {
    let mut counts = Counts { safe: 0, none: 0 };
    for seed in 0..NETWORKS {
        let mut numbers = Numbers::new(seed);
        counts = compare_made(rt.alloc(), &mut numbers, counts)?;
    }
    assert!(rt;
        counts.safe > NETWORKS / 4,
        "few journeys are safe: {}",
        counts.safe
    );
    assert!(rt;
        counts.none > NETWORKS / 4,
        "few journeys are not safe: {}",
        counts.none
    );
    Ok(())
}
