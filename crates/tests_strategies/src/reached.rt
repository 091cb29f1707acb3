//! The plain values of each place of a network against what one scan finds for all of them.
ghost use Rattle.std.specs.Prelude.{◌<◌, ◌≤◌, length};

use crate::compared::encloses;
use crate::made::{FIRST, Numbers, cut_text, delay_text};
use crate::strategies::{Goal, best};
use departure_table::{ReachRow, reach, with_every_gate};
use meat_scan::{ScanTables, scan};
use merged_runs::MergedRuns;
use plan_model::{ConnectionId, List, Moment, Network, PlaceId, Query};
use std::alloc::Global;
use std::test::Fail;
use test_networks::network_with;
use value_laws::MeanSpan;

/// How many networks are made.
const NETWORKS: u64 = 300;

/// How many places have a row, and how many have none.
#[derive(Clone, Copy)]
struct Counts {
    rows: u64,
    none: u64,
}

/// The rows of a query, from each place, as the program finds them.
fn rows_of(alloc: Global, network: &Network, query: &Query) -> Result<List<ReachRow>, Fail>
    requires start { 1 ≤ query.now.start.0 }
    requires target { query.now.target.0 < length network.now.change }
{
    let extended = with_every_gate(alloc, network)?;
    let from_gates = Query {
        source: PlaceId(network.places()),
        ..*query
    };
    let mut order = MergedRuns::new(alloc, &extended)?;
    let tables: ScanTables<MeanSpan> = ScanTables::reserve_until(alloc, &extended, query.deadline)?;
    let scanned = scan(tables, &extended, &mut order, &from_gates);
    Ok(reach(alloc, &scanned, &extended, network, &from_gates)?)
}

/// Whether some strategy from a place is safe for a query with this start.
fn is_safe_at(network: &Network, query: &Query, place: PlaceId, start: Moment) -> bool {
    let asked = Query {
        source: place,
        start,
        ..*query
    };
    best(network, &asked, Goal::Worst).is_some()
}

/// The latest departure from a place, from the start of a query on, from which some strategy is safe.
fn latest_of(network: &Network, query: &Query, place: PlaceId) -> Option<Moment> {
    let mut latest = None;
    for k in 0..network.count() {
        let connection = network.get(ConnectionId(k));
        let dep = connection.dep;
        if connection.from.0 == place.0
            && query.start.0 <= dep.0
            && is_safe_at(network, query, place, dep)
            && latest.is_none_or(|last: Moment| last.0 < dep.0)
        {
            latest = Some(dep);
        }
    }
    latest
}

/// Compares a place with its row, and returns whether it has one.
fn compare_place(
    network: &Network,
    query: &Query,
    place: PlaceId,
    row: Option<ReachRow>,
) -> Result<bool, Fail> {
    if place.0 == query.target.0 {
        return match row {
            None => Ok(false),
            Some(_) => Err("a row of the target".into()),
        };
    }
    let asked = Query {
        source: place,
        ..*query
    };
    let expected = best(network, &asked, Goal::Expected);
    match (row, latest_of(network, query, place), expected) {
        (None, None, None) => Ok(false),
        (Some(row), Some(latest), Some(expected)) => {
            if row.latest != latest {
                return Err("another latest moment".into());
            }
            if !encloses(row.bounds, expected, network.count()) {
                return Err("the bounds do not enclose the expected arrival".into());
            }
            Ok(true)
        }
        (None, ..) => Err("no row where something is safe".into()),
        _ => Err("a row where nothing is safe".into()),
    }
}

/// Compares each place of a network, for a query of which the source is of no account.
fn compare_places(
    alloc: Global,
    network: &Network,
    query: &Query,
    counts: Counts,
) -> Result<Counts, Fail>
    requires start { 1 ≤ query.now.start.0 }
    requires target { query.now.target.0 < length network.now.change }
{
    let rows = rows_of(alloc, network, query)?;
    let mut counts = counts;
    for place in 0..network.places() {
        let row = rows
            .as_slice()
            .iter()
            .copied()
            .find(|row| row.place.0 == place);
        if compare_place(network, query, PlaceId(place), row)? {
            counts.rows = counts.rows.saturating_add(1);
        } else {
            counts.none = counts.none.saturating_add(1);
        }
    }
    Ok(counts)
}

/// Makes a network, and compares its places.
fn compare_made(alloc: Global, numbers: &mut Numbers, counts: Counts) -> Result<Counts, Fail> {
    let cut = cut_text(alloc, numbers)?;
    let delays = delay_text(alloc, numbers)?;
    let network = network_with(alloc, cut.as_str(), delays.as_str())?;
    let target = numbers.below(network.places());
    if target >= network.places() {
        return Err("a place of another network".into());
    }
    let start = Moment(FIRST.0 + u64::from(numbers.below(30).min(30)) * 60);
    let query = Query {
        source: PlaceId(target),
        target: PlaceId(target),
        start,
        deadline: Moment(start.0 + u64::from(numbers.below(60).min(60)) * 60),
    };
    compare_places(alloc, &network, &query, counts)
}

#[test]
fn each_place_has_its_row_over_made_networks(rt: HostRuntime) -> Result<(), Fail> {
    let mut counts = Counts { rows: 0, none: 0 };
    for seed in 0..NETWORKS {
        let mut numbers = Numbers::new(seed);
        counts = compare_made(rt.alloc(), &mut numbers, counts)?;
    }
    assert!(rt;
        counts.rows > NETWORKS / 4,
        "few places have a row: {}",
        counts.rows
    );
    assert!(rt;
        counts.none > NETWORKS / 4,
        "few places have none: {}",
        counts.none
    );
    Ok(())
}
