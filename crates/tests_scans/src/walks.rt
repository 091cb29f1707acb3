//! What the scan finds over networks with links, against values that were worked out by hand.
ghost use Rattle.std.specs.Prelude.{◌≡◌, ◌≢◌, ◌<◌, length, IfOk};

use crate::scans::{Planned, Reported, best_plan, chosen, plan_at, query, solved};
use meat_scan::Scanned;
use plan_model::{ConnectionId, Leg, Moment, Network, PlaceId, Query};
use std::alloc::Global;
use std::test::Fail;
use test_networks::{EIGHT, Link, leg, links_of, walk};
use value_laws::MeanSpan;

// A bus from A to X, and two from Y to T. Another one goes to Z.
const APART: &str =
    "run,step,from,to,dep,arr\nr0,0,A,X,2024-06-03T08:00:00,2024-06-03T08:20:00\nr1,0,Y,T,2024-06-03T08:27:00,2024-06-03T08:50:00\nr2,0,Y,T,2024-06-03T08:40:00,2024-06-03T09:06:00\nr3,0,T,Z,2024-06-03T07:00:00,2024-06-03T07:10:00\n";

// Who is at X walks ten minutes to Y and one to Z, so that their departures are in time in another
// order than they leave.
const INTERLEAVED: &str =
    "run,step,from,to,dep,arr\nr0,0,A,X,2024-06-03T08:00:00,2024-06-03T08:20:00\nr1,0,Y,T,2024-06-03T08:31:00,2024-06-03T08:55:00\nr2,0,Z,T,2024-06-03T08:26:00,2024-06-03T08:58:00\nr3,0,Y,T,2024-06-03T08:45:00,2024-06-03T09:10:00\nr4,0,Z,T,2024-06-03T08:32:00,2024-06-03T09:20:00\n";

// A run from Y on to Z and T, and a later one from Y.
const ONE_RUN: &str =
    "run,step,from,to,dep,arr\nr0,0,A,X,2024-06-03T08:00:00,2024-06-03T08:20:00\nr1,0,Y,Z,2024-06-03T08:25:00,2024-06-03T08:30:00\nr1,1,Z,T,2024-06-03T08:32:00,2024-06-03T08:50:00\nr2,0,Y,T,2024-06-03T09:00:00,2024-06-03T09:20:00\n";

// Half an hour after all time began, a bus from Y.
const FIRST_HOUR: &str =
    "run,step,from,to,dep,arr\nr0,0,A,X,1970-01-01T00:00:00,1970-01-01T00:00:00\nr1,0,Y,T,1970-01-01T00:30:00,1970-01-01T00:40:00\n";

// Links from a place to another, and how many seconds they take.
type Walks = &'static [(u32, u32, u32)];

// The links of these walks.
fn links_along(alloc: Global, walks: &[(u32, u32, u32)]) -> Result<Vec<Link>, Fail> {
    let mut links = Vec::new(alloc);
    for (from, to, seconds) in walks {
        links.push(walk(*from, *to, *seconds))?;
    }
    Ok(links)
}

// The network of a cut file with five places, and with these walks.
fn walked(alloc: Global, cut: &str, walks: &[(u32, u32, u32)]) -> Result<Network, Fail>
    ensures { IfOk result (λ network. length network.change ≡ 5) }
{
    let links = links_along(alloc, walks)?;
    links_of(alloc, cut, 5, links.as_slice())
}

// Rides and walks, from where to where is asked at eight o'clock, and what is found.
const PLANS: [(&str, Walks, u32, u32, Reported); 8] = [
    // Of five minutes the walk from X to Y is in time for a traveller who is a quarter of an hour late, and
    // of a second more it is not.
    (APART, &[(1, 2, 300)], 0, 3, Some((4860, 3282, 0, 0))),
    (APART, &[(1, 2, 301)], 0, 3, None),
    // One walks one way and one link.
    (APART, &[(2, 1, 1)], 0, 3, None),
    (APART, &[(1, 4, 1), (4, 2, 1)], 0, 3, None),
    // From X to T one would walk at once, and to Y one would walk at last.
    (APART, &[(1, 2, 1)], 1, 3, None),
    (APART, &[(1, 2, 1)], 0, 2, None),
    (
        INTERLEAVED,
        &[(1, 2, 600), (1, 4, 60)],
        0,
        3,
        Some((5100, 3462, 0, 0)),
    ),
    (
        ONE_RUN,
        &[(1, 2, 240), (1, 3, 420)],
        0,
        4,
        Some((5700, 3180, 0, 0)),
    ),
];

// What is found with these walks.
fn plan_over(
    alloc: Global,
    cut: &str,
    walks: &[(u32, u32, u32)],
    source: u32,
    target: u32,
) -> Result<Option<Planned>, Fail> {
    let network = walked(alloc, cut, walks)?;
    best_plan(alloc, &network, source, target, 0)
}

#[test]
fn plans_with_walks(rt: HostRuntime) -> Result<(), Fail> {
    for (cut, walks, source, target, reported) in PLANS {
        let found = plan_over(rt.alloc(), cut, walks, source, target)?;
        assert_eq!(rt; found, plan_at(reported), "{walks:?} {source} {target}");
    }
    Ok(())
}

// The legs that are chosen at a place on the way from A to a target, over a network with five places.
fn legs_at(
    alloc: Global,
    network: &Network,
    target: u32,
    place: u32,
    arrivals: &[u32],
) -> Result<Vec<Option<Leg>>, Fail>
    requires { length network.now.change ≡ 5 }
{
    if target == 0 || target >= 5 || place >= 5 || place == target {
        return Err("no place on the way".into());
    }
    let query = query(0, target, 0, Moment(EIGHT + 10_200));
    let found: Scanned<MeanSpan> = solved(alloc, network, &query)?;
    chosen(alloc, &found, place, arrivals)
}

// The legs that are chosen over the rides of a cut file with these walks.
fn legs_over(
    alloc: Global,
    cut: &str,
    walks: &[(u32, u32, u32)],
    target: u32,
    place: u32,
    arrivals: &[u32],
) -> Result<Vec<Option<Leg>>, Fail> {
    let network = walked(alloc, cut, walks)?;
    legs_at(alloc, &network, target, place, arrivals)
}

// A ride of one connection.
const R1: Option<Leg> = Some(Leg {
    enter: ConnectionId(1),
    exit: ConnectionId(1),
});

const R2: Option<Leg> = Some(Leg {
    enter: ConnectionId(2),
    exit: ConnectionId(2),
});

const R3: Option<Leg> = Some(Leg {
    enter: ConnectionId(3),
    exit: ConnectionId(3),
});

// Rides and walks, a target and a place, and arrivals there with the legs that are chosen.
const CHOICES: [(&str, Walks, u32, u32, &[u32], &[Option<Leg>]); 4] = [
    // A ride is in time at each place from which a way leads to where it leaves.
    (
        APART,
        &[(1, 2, 300)],
        3,
        1,
        &[1320, 1321, 2100, 2101],
        &[R1, R2, R2, None],
    ),
    (
        APART,
        &[(1, 2, 300)],
        3,
        2,
        &[1500, 1501, 2280, 2281],
        &[R1, R2, R2, None],
    ),
    // Departures are taken in any order.
    (
        INTERLEAVED,
        &[(1, 2, 600), (1, 4, 60)],
        3,
        1,
        &[1260, 1261, 1500, 1501, 2100, 2101],
        &[R1, R2, R2, R3, R3, None],
    ),
    // Who walks on to Z boards the run that leaves Y before.
    (
        ONE_RUN,
        &[(1, 2, 240), (1, 3, 420)],
        4,
        1,
        &[1200, 1500, 1501, 3360, 3361],
        &[R2, R2, R3, R3, None],
    ),
];

#[test]
fn boards_by_each_way(rt: HostRuntime) -> Result<(), Fail> {
    for (cut, walks, target, place, arrivals, want) in CHOICES {
        let legs = legs_over(rt.alloc(), cut, walks, target, place, arrivals)?;
        assert_eq!(rt; legs.as_slice(), want, "{walks:?} {place}");
    }
    Ok(())
}

// The network of the first half hour, with a walk of this many seconds.
fn first_hour(alloc: Global, seconds: u32) -> Result<Network, Fail>
    ensures { IfOk result (λ network. length network.change ≡ 4) }
{
    links_of(alloc, FIRST_HOUR, 4, &[walk(1, 2, seconds)])
}

// The entry that is chosen at X when all time begins, with a walk of this many seconds.
fn first_entry(alloc: Global, seconds: u32) -> Result<Option<u32>, Fail> {
    let network = first_hour(alloc, seconds)?;
    let query = Query {
        source: PlaceId(0),
        target: PlaceId(3),
        start: Moment(0),
        deadline: Moment(10_000),
    };
    let found: Scanned<MeanSpan> = solved(alloc, &network, &query)?;
    let choice = found.choice(PlaceId(1), Moment(0));
    Ok(choice.map(|found| found.1.enter.0))
}

#[test]
fn walks_not_before_all_time(rt: HostRuntime) -> Result<(), Fail> {
    assert_eq!(rt; first_entry(rt.alloc(), 1800)?, Some(1));
    assert_eq!(rt; first_entry(rt.alloc(), 1801)?, None);
    Ok(())
}
