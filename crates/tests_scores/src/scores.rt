//! Scores of graphs over three buses, and of one whose trips are many more than its legs.
ghost use Rattle.std.specs.Prelude.{◌≡◌, ◌≢◌, ◌<◌, ◌≤◌, Some, None, IfOk, IfSome, length};
ghost use Rattle.plan_graph.specs.Unfold.{HasRisingTables};
ghost use Rattle.plan_model.specs.Bounds.{end_of_time};

use graph_score::{ScoreFault, fit_is_scored, score};
use plan_graph::{GraphRow, PlaceTable, PlanGraph};
use plan_model::{Leg, List, Moment, PlaceId, Query};
use std::alloc::Global;
use std::test::Fail;
use test_networks::{BUSES, EIGHT, EXPECTED, leg, nanos, network_of, planned, row};

const SOURCE: PlaceId = PlaceId(0);

const MIDDLE: PlaceId = PlaceId(1);

const TARGET: PlaceId = PlaceId(2);

/// As many hops as there are in the chain. Each has three outcomes, and so there are 3 to the 30 trips.
const HOPS: u32 = 30;

const HALF_AN_HOUR: u64 = 1_800;

const FIVE_MINUTES: u64 = 300;

/// The mean of the usual delays, in seconds.
const MEAN_DELAY: u64 = 90;

/// A moment before the end of all time, or the first one in the place of one that is not.
fn early(moment: Moment) -> Moment
    ensures { result.0 < end_of_time }
{
    if moment.0 < 13_601_174_401 {
        moment
    } else {
        Moment(0)
    }
}

/// Eight o'clock.
pub(crate) fn eight() -> Moment
    ensures { result.0 < end_of_time }
{
    early(Moment(EIGHT))
}

/// This many seconds after a moment.
pub(crate) fn later(moment: Moment, seconds: u64) -> Moment
    ensures { moment.0 ≤ result.0 }
{
    Moment(moment.0.saturating_add(seconds).max(moment.0))
}

/// A graph with no table.
fn bare(alloc: Global, start: Option<Leg>) -> PlanGraph
    ensures { HasRisingTables result }
{
    PlanGraph {
        start,
        tables: List::new(alloc),
    }
}

/// A graph with one table, of B, with one row.
fn one_row(alloc: Global, start: Option<Leg>, row: GraphRow) -> Result<PlanGraph, Fail>
    ensures { IfOk result HasRisingTables }
{
    let mut rows = List::new(alloc);
    rows.push(row)?;
    let mut tables = List::new(alloc);
    tables.push(PlaceTable {
        place: MIDDLE,
        rows,
    })?;
    Ok(PlanGraph { start, tables })
}

/// The same with two rows.
fn two_rows(
    alloc: Global,
    start: Option<Leg>,
    first: GraphRow,
    second: GraphRow,
) -> Result<PlanGraph, Fail>
    requires { first.by.0 < second.by.0 }
    ensures { IfOk result HasRisingTables }
{
    let mut rows = List::new(alloc);
    rows.push(first)?;
    rows.push(second)?;
    let mut tables = List::new(alloc);
    tables.push(PlaceTable {
        place: MIDDLE,
        rows,
    })?;
    Ok(PlanGraph { start, tables })
}

/// A graph with a start leg over one connection, and with up to two rows of B: the limit of each, in seconds
/// after eight, and its connection.
fn graph_of(alloc: Global, start: Option<u32>, rows: &[(u32, u32)]) -> Result<PlanGraph, Fail>
    ensures { IfOk result HasRisingTables }
{
    let start = match start {
        Some(id) => Some(leg(id, id)),
        None => None,
    };
    if rows.len() == 0 {
        return Ok(bare(alloc, start));
    }
    let (by, id) = rows[0];
    if rows.len() == 1 {
        return one_row(alloc, start, row(by, id));
    }
    let (later, next) = rows[1];
    if rows.len() > 2 || later <= by {
        return Err("rows that are too many or do not rise".into());
    }
    two_rows(alloc, start, row(by, id), row(later, next))
}

/// What the score of such a graph over the three buses is, from A to T by this many seconds after eight.
fn scored(
    alloc: Global,
    start: Option<u32>,
    rows: &[(u32, u32)],
    seconds: u64,
) -> Result<Result<(u64, u64), ScoreFault>, Fail> {
    let network = network_of(alloc, BUSES, 3)?;
    let graph = graph_of(alloc, start, rows)?;
    let query = Query {
        source: SOURCE,
        target: TARGET,
        start: eight(),
        deadline: later(eight(), seconds),
    };
    Ok(match score(alloc, &graph, &network, &query) {
        Ok(span) => Ok(nanos(span)),
        Err(fault) => Err(fault),
    })
}

/// What the score of a graph with no table is, from A to A at eight o'clock by a moment.
fn scored_at_target(
    alloc: Global,
    start: Option<u32>,
    deadline: u64,
) -> Result<Result<(u64, u64), ScoreFault>, Fail> {
    let network = network_of(alloc, BUSES, 3)?;
    let graph = graph_of(alloc, start, &[])?;
    let query = Query {
        source: SOURCE,
        target: SOURCE,
        start: eight(),
        deadline: Moment(deadline),
    };
    Ok(match score(alloc, &graph, &network, &query) {
        Ok(span) => Ok(nanos(span)),
        Err(fault) => Err(fault),
    })
}

/// The score of the best graph over a cut file of this many places, from the first of them to the last, from eight
/// o'clock on by this many seconds later.
fn best_score(alloc: Global, cut: &str, places: u32, seconds: u64) -> Result<(u64, u64), Fail>
    requires { 0 < places }
{
    let network = network_of(alloc, cut, places)?;
    let start = eight();
    let query = Query {
        source: SOURCE,
        target: PlaceId(places - 1),
        start,
        deadline: later(start, seconds),
    };
    let plan = planned(alloc, &network, &query)?;
    fit_is_scored();
    match score(alloc, &plan.graph, &network, &query) {
        Ok(span) => Ok(nanos(span)),
        Err(_) => Err("no score".into()),
    }
}

/// A cut file of hops from place to place, half an hour after each other. Each takes five minutes.
fn chain(alloc: Global) -> Result<String, Fail> {
    let mut text = String::new(alloc);
    text.push_str("run,step,from,to,dep,arr\n")?;
    for hop in 0..HOPS {
        let next = hop + 1;
        let hour = 8 + hop / 2;
        let minute = 30 * (hop % 2);
        let later = minute + 5;
        let line = format!(in alloc;
            "r{hop:02},1,P{hop:02},P{next:02},2024-06-03T{hour:02}:{minute:02}:00,2024-06-03T{hour:02}:{later:02}:00\n"
        )?;
        text.push_str(line.as_str())?;
    }
    Ok(text)
}

#[test]
fn the_best_graph_has_the_least_expected_arrival(rt: HostRuntime) -> Result<(), Fail> {
    assert_eq!(rt;
        best_score(rt.alloc(), BUSES, 3, 9720)?,
        (EXPECTED, EXPECTED)
    );
    Ok(())
}

/// Where a traveller gets stuck, or is at a place too late, this many seconds after eight.
fn fails_at(place: PlaceId, seconds: u64) -> Result<(u64, u64), ScoreFault> {
    Err(ScoreFault::Unsafe(place, Moment(EIGHT.saturating_add(seconds))))
}

#[test]
fn graphs_are_scored_by_what_fails_first(rt: HostRuntime) -> Result<(), Fail> {
    for (case, start, rows, seconds, found) in [
        (
            "both ways on",
            Some(0),
            [(1320, 1), (2280, 2)].as_slice(),
            9720,
            Ok((EXPECTED, EXPECTED)),
        ),
        (
            "late at B",
            Some(0),
            [(1320, 1)].as_slice(),
            9720,
            fails_at(MIDDLE, 1500),
        ),
        (
            "no row",
            Some(0),
            [].as_slice(),
            9720,
            fails_at(MIDDLE, 1200),
        ),
        (
            "no start leg",
            None,
            [(1320, 1)].as_slice(),
            9720,
            fails_at(SOURCE, 0),
        ),
        (
            "after the deadline",
            Some(0),
            [(1320, 1), (2280, 2)].as_slice(),
            4000,
            fails_at(TARGET, 4260),
        ),
        (
            "a start leg from elsewhere",
            Some(1),
            [(1320, 1), (2280, 2)].as_slice(),
            9720,
            Err(ScoreFault::NoSuchLeg(1)),
        ),
        (
            "a row that is not by its limit",
            Some(0),
            [(1320, 1), (2279, 2)].as_slice(),
            9720,
            Err(ScoreFault::NoSuchLeg(3)),
        ),
        (
            "such a row and no start leg",
            None,
            [(1321, 1)].as_slice(),
            9720,
            Err(ScoreFault::NoSuchLeg(1)),
        ),
        (
            "a connection of no network",
            Some(0),
            [(1320, 9)].as_slice(),
            9720,
            Err(ScoreFault::NoSuchLeg(2)),
        ),
    ] {
        assert_eq!(rt; scored(rt.alloc(), start, rows, seconds)?, found, "{case}");
    }
    Ok(())
}

#[test]
fn who_is_at_the_target_has_arrived(rt: HostRuntime) -> Result<(), Fail> {
    let at = EIGHT * 1_000_000_000;
    for (start, deadline, found) in [
        (None, EIGHT, Ok((at, at))),
        (Some(0), EIGHT, Err(ScoreFault::NoSuchLeg(1))),
        (None, EIGHT - 1, fails_at(SOURCE, 0)),
    ] {
        assert_eq!(rt;
            scored_at_target(rt.alloc(), start, deadline)?,
            found,
            "{deadline}"
        );
    }
    Ok(())
}

#[test]
fn trips_are_not_walked_one_by_one(rt: HostRuntime) -> Result<(), Fail> {
    let text = chain(rt.alloc())?;
    let last = u64::from(HOPS - 1) * HALF_AN_HOUR;
    let expected = (EIGHT + last + FIVE_MINUTES + MEAN_DELAY) * 1_000_000_000;
    assert_eq!(rt;
        best_score(rt.alloc(), text.as_str(), HOPS + 1, 86_400)?,
        (expected, expected)
    );
    Ok(())
}
