//! What the scan and the least worst arrival find over small networks, against values that were
//! worked out by hand.
ghost use Rattle.std.specs.Prelude.{◌≡◌, ◌≢◌, ◌<◌, ◌≤◌, ◌+◌, length, IfOk, IfSome};
ghost use Rattle.plan_model.specs.Bounds.{end_of_time};

use meat_scan::{ScanTables, Scanned, scan};
use plan_model::{Leg, Moment, Network, PlaceId, Query, SortedOrder};
use safe_arrival::{deadline, least_worst};
use std::alloc::Global;
use std::test::Fail;
use test_networks::{BUSES, EIGHT, leg, network_of};
use value_laws::{MeanSpan, Score, WorstMoment};

// Staying seated is better than the change at the first stop.
const SEATED: &str =
    "run,step,from,to,dep,arr\nr0,0,A,B,2024-06-03T08:00:00,2024-06-03T08:20:00\nr0,1,B,C,2024-06-03T08:21:00,2024-06-03T08:40:00\nr1,0,B,D,2024-06-03T08:40:00,2024-06-03T09:30:00\nr2,0,C,D,2024-06-03T08:45:00,2024-06-03T09:00:00\nr3,0,C,D,2024-06-03T09:00:00,2024-06-03T09:15:00\n";

// A ride that takes no time.
const AT_ONCE: &str =
    "run,step,from,to,dep,arr\nr0,0,A,B,2024-06-03T08:00:00,2024-06-03T08:20:00\nr0,1,B,C,2024-06-03T08:20:00,2024-06-03T08:20:00\nr0,2,C,D,2024-06-03T08:20:00,2024-06-03T08:40:00\n";

// A run that passes a place twice.
const TWICE: &str =
    "run,step,from,to,dep,arr\nr0,0,A,B,2024-06-03T08:00:00,2024-06-03T08:10:00\nr0,1,B,C,2024-06-03T08:11:00,2024-06-03T08:15:00\nr0,2,C,B,2024-06-03T08:16:00,2024-06-03T08:20:00\nr0,3,B,D,2024-06-03T08:21:00,2024-06-03T08:40:00\n";

// Two equal runs.
const EQUAL: &str =
    "run,step,from,to,dep,arr\nr0,0,A,B,2024-06-03T08:00:00,2024-06-03T08:20:00\nr1,0,A,B,2024-06-03T08:00:00,2024-06-03T08:20:00\n";

// A ride from A to B, and two that go on to C, the first of them at a time.
fn two_ways_on(alloc: Global, dep: &str) -> Result<String, Fail> {
    let text = format!(in alloc;
        "run,step,from,to,dep,arr\nr0,0,A,B,2024-06-03T08:00:00,2024-06-03T08:20:00\nr1,0,B,C,2024-06-03T{dep},2024-06-03T08:50:00\nr2,0,B,C,2024-06-03T08:40:00,2024-06-03T09:06:00\n"
    )?;
    Ok(text)
}

// The least worst arrival in seconds, the bounds on the expected arrival in nanoseconds, both from
// eight o'clock, and the start leg.
pub(crate) type Planned = (u64, (u64, u64), Leg);

// A plan whose expected arrival is a whole second: both arrivals, and where the first ride enters and
// exits.
pub(crate) type Reported = Option<(u32, u32, u32, u32)>;

pub(crate) fn plan_at(reported: Reported) -> Option<Planned> {
    let (worst, expected, enter, exit) = reported?;
    let expected = u64::from(expected) * 1_000_000_000;
    Some((u64::from(worst), (expected, expected), leg(enter, exit)))
}

// What is asked, from a place to another, this many seconds after eight o'clock.
pub(crate) fn query(source: u32, target: u32, start: u32, deadline: Moment) -> Query
    ensures source { result.source.0 ≡ source }
    ensures target { result.target.0 ≡ target }
    ensures start { result.start.0 ≡ 1717401600 + start }
    ensures deadline { result.deadline.0 ≡ deadline.0 }
{
    Query {
        source: PlaceId(source),
        target: PlaceId(target),
        start: Moment(EIGHT + u64::from(start)),
        deadline,
    }
}

// What a scan finds, by any score.
pub(crate) fn solved<V: Score>(
    alloc: Global,
    network: &Network,
    query: &Query,
) -> Result<Scanned<V>, Fail>
    requires source { query.now.source.0 < length network.now.change }
    requires target { query.now.target.0 < length network.now.change }
    requires differ { query.now.source.0 ≢ query.now.target.0 }
    ensures places { IfOk result (λ found. length found.rows ≡ length network.now.change) }
    ensures target { IfOk result (λ found. found.target ≡ query.now.target.0) }
{
    let mut order = SortedOrder::new(alloc, network)?;
    let tables = ScanTables::reserve_until(alloc, network, query.deadline)?;
    Ok(scan(tables, network, &mut order, query))
}

// The least worst arrival.
fn worst_of(
    alloc: Global,
    network: &Network,
    source: u32,
    target: u32,
    start: u32,
) -> Result<Option<Moment>, Fail>
    requires source { source < length network.now.change }
    requires target { target < length network.now.change }
    ensures order { IfOk result (λ worst. IfSome worst (λ moment.
        1717401600 + start ≤ moment.0)) }
    ensures early { IfOk result (λ worst. IfSome worst (λ moment. moment.0 < end_of_time)) }
{
    let mut order = SortedOrder::new(alloc, network)?;
    let tables = ScanTables::reserve(alloc, network)?;
    let start = Moment(EIGHT + u64::from(start));
    Ok(least_worst(
        tables,
        network,
        &mut order,
        PlaceId(source),
        PlaceId(target),
        start,
    ))
}

// The bounds on the expected arrival and the start leg.
fn means_of(alloc: Global, network: &Network, query: &Query) -> Result<((u64, u64), Leg), Fail>
    requires source { query.now.source.0 < length network.now.change }
    requires target { query.now.target.0 < length network.now.change }
    requires differ { query.now.source.0 ≢ query.now.target.0 }
{
    let found: Scanned<MeanSpan> = solved(alloc, network, query)?;
    let Some((MeanSpan(span), leg)) = found.start() else {
        return Err("no safe strategy".into());
    };
    let from = EIGHT * 1_000_000_000;
    let lo = span.lo().saturating_sub(from);
    let hi = span.hi().saturating_sub(from);
    Ok(((lo, hi), leg))
}

// What is found between two places of a network.
pub(crate) fn best_plan(
    alloc: Global,
    network: &Network,
    source: u32,
    target: u32,
    start: u32,
) -> Result<Option<Planned>, Fail> {
    if source >= network.places() || target >= network.places() || source == target {
        return Err("no query of this network".into());
    }
    let Some(worst) = worst_of(alloc, network, source, target, start)? else {
        return Ok(None);
    };
    let begin = Moment(EIGHT + u64::from(start));
    let query = query(source, target, start, deadline(begin, worst, 200));
    let (bounds, leg) = means_of(alloc, network, &query)?;
    Ok(Some((worst.0 - EIGHT, bounds, leg)))
}

// The legs that are chosen at a place after these arrivals, in seconds from eight o'clock.
pub(crate) fn chosen<V: Score>(
    alloc: Global,
    found: &Scanned<V>,
    place: u32,
    arrivals: &[u32],
) -> Result<Vec<Option<Leg>>, Fail>
    requires there { place < length found.now.rows }
    requires away { place ≢ found.now.target }
{
    let mut legs = Vec::new(alloc);
    for arrival in arrivals {
        let choice = found.choice(PlaceId(place), Moment(EIGHT + u64::from(*arrival)));
        legs.push(choice.map(|found| found.1))?;
    }
    Ok(legs)
}

#[test]
fn reports_the_deadline(rt: HostRuntime) {
    let deadline = deadline(Moment(EIGHT), Moment(EIGHT + 4860), 200);
    assert_eq!(rt; deadline, Moment(EIGHT + 9720));
}

// What a scan finds of the three buses.
fn buses<V: Score>(alloc: Global) -> Result<Scanned<V>, Fail>
    ensures places { IfOk result (λ found. length found.rows ≡ 3) }
    ensures target { IfOk result (λ found. found.target ≡ 2) }
{
    let network = network_of(alloc, BUSES, 3)?;
    solved(alloc, &network, &query(0, 2, 0, Moment(EIGHT + 9720)))
}

// The latest arrival, and the start leg.
fn latest_start(alloc: Global) -> Result<Option<(Moment, Leg)>, Fail> {
    let found: Scanned<WorstMoment> = buses(alloc)?;
    Ok(found.start().map(|found| (found.0.0, found.1)))
}

#[test]
fn finds_the_latest_arrival(rt: HostRuntime) -> Result<(), Fail> {
    let found = latest_start(rt.alloc())?;
    assert_eq!(rt; found, Some((Moment(EIGHT + 4860), leg(0, 0))));
    Ok(())
}

// The legs that are chosen at B by a score.
fn chosen_at_b<V: Score>(alloc: Global) -> Result<Vec<Option<Leg>>, Fail> {
    let found: Scanned<V> = buses(alloc)?;
    chosen(alloc, &found, 1, &[0, 1320, 1321, 2280, 2281])
}

// The ride on is caught by its departure less the change, and the later one after that.
fn want_at_b() -> [Option<Leg>; 5] {
    let (sooner, later) = (Some(leg(1, 1)), Some(leg(2, 2)));
    [sooner, sooner, later, later, None]
}

#[test]
fn means_choose_by_arrival(rt: HostRuntime) -> Result<(), Fail> {
    let found = chosen_at_b::<MeanSpan>(rt.alloc())?;
    assert_eq!(rt; found.as_slice(), want_at_b().as_slice());
    Ok(())
}

#[test]
fn the_latest_chooses_by_arrival(rt: HostRuntime) -> Result<(), Fail> {
    let found = chosen_at_b::<WorstMoment>(rt.alloc())?;
    assert_eq!(rt; found.as_slice(), want_at_b().as_slice());
    Ok(())
}

// What is found over two ways on, of which the first goes at a time.
fn plan_with(alloc: Global, dep: &str, start: u32) -> Result<Option<Planned>, Fail> {
    let cut = two_ways_on(alloc, dep)?;
    plan_of(alloc, cut.as_str(), 3, 0, 2, start)
}

// When the first way on goes and when one starts, and what is found.
const CHANGES: [(&str, u32, Reported); 4] = [
    ("08:24:00", 0, Some((4860, 3282, 0, 0))),
    ("08:24:00", 1, None),
    ("08:22:00", 0, Some((4860, 3282, 0, 0))),
    ("08:21:59", 0, Some((4860, 4050, 0, 0))),
];

// A change takes two minutes to the second.
#[test]
fn plans_with_a_change(rt: HostRuntime) -> Result<(), Fail> {
    for (dep, start, reported) in CHANGES {
        let found = plan_with(rt.alloc(), dep, start)?;
        assert_eq!(rt; found, plan_at(reported), "{dep} {start}");
    }
    Ok(())
}

// Rides with this many places, what is asked of them, and what is found: in one run, and of two legs as
// good the one that the scan takes first.
const PLANS: [(&str, u32, u32, u32, u32, Reported); 4] = [
    (SEATED, 4, 0, 3, 0, Some((5400, 3870, 0, 1))),
    (AT_ONCE, 4, 1, 3, 1200, Some((3300, 2490, 1, 2))),
    (TWICE, 4, 1, 3, 600, Some((3300, 2490, 3, 3))),
    (EQUAL, 2, 0, 1, 0, Some((2100, 1290, 1, 1))),
];

// What is found over the rides of a cut file with this many places.
fn plan_of(
    alloc: Global,
    cut: &str,
    places: u32,
    source: u32,
    target: u32,
    start: u32,
) -> Result<Option<Planned>, Fail> {
    let network = network_of(alloc, cut, places)?;
    best_plan(alloc, &network, source, target, start)
}

#[test]
fn plans_in_one_run_and_with_a_tie(rt: HostRuntime) -> Result<(), Fail> {
    for (cut, places, source, target, start, reported) in PLANS {
        let found = plan_of(rt.alloc(), cut, places, source, target, start)?;
        assert_eq!(rt; found, plan_at(reported), "{cut}");
    }
    Ok(())
}
