//! Graph files over a network of three buses: what is written and read of them, and the trips that
//! are walked by them. A bus goes from A to B, and two go on from B to T.
ghost use Rattle.std.specs.Prelude.{◌≡◌, length};
ghost use Rattle.plan_model.specs.NameLists.{NamesFit};

use graph_text::{
    Head, TextFault, fit_is_printable, read, read_fits, ready_is_printable, write, write_expanded,
};
use plan_graph::{GraphRow, PlanGraph};
use plan_model::{Moment, Names, Network, PlaceId, Query};
use std::alloc::Global;
use std::test::Fail;
use test_networks::{
    BUSES, EIGHT, EXPECTED, asked, expanded, leg, limits, named_network, nanos, planned,
    rows_by_place,
};
use trip_replay::{ReplayFault, Ridden, Trace, replay};

const HEAD: &str =
    "graph,1,A,T,2024-06-03T08:00:00,2024-06-03T10:42:00,2024-06-03T08:54:42.000000000,2024-06-03T08:54:42.000000000";

const START: &str = "start,2024-06-03T08:00:00,r1,1,2024-06-03T08:00:00,1,B,2024-06-03T08:20:00";

const SOONER: &str = "leg,2024-06-03T08:22:00,r2,1,2024-06-03T08:24:00,1,T,2024-06-03T08:50:00";

const LATER: &str = "leg,2024-06-03T08:38:00,r3,1,2024-06-03T08:40:00,1,T,2024-06-03T09:06:00";

const TWO_ROWS: &str = "place,B,120,2,,,,";

const ONE_ROW: &str = "place,B,120,1,,,,";

const GRAPH: [&str; 5] = [HEAD, START, TWO_ROWS, SOONER, LATER];

/// The text of the graph by ride.
const EXPANDED: [&str; 8] = [
    "expanded,1,A,T,2024-06-03T08:00:00,2024-06-03T10:42:00,2024-06-03T08:54:42.000000000,2024-06-03T08:54:42.000000000",
    "start,2024-06-03T08:00:00,r1,1,2024-06-03T08:00:00,1,B,2024-06-03T08:20:00",
    "ride,3,r1,1,2024-06-03T08:00:00,1,B,2024-06-03T08:20:00",
    "next,2024-06-03T08:20:00,r2,1,2024-06-03T08:24:00,1,T,2024-06-03T08:50:00",
    "next,2024-06-03T08:25:00,r3,1,2024-06-03T08:40:00,1,T,2024-06-03T09:06:00",
    "next,2024-06-03T08:35:00,r3,1,2024-06-03T08:40:00,1,T,2024-06-03T09:06:00",
    "ride,0,r2,1,2024-06-03T08:24:00,1,T,2024-06-03T08:50:00",
    "ride,0,r3,1,2024-06-03T08:40:00,1,T,2024-06-03T09:06:00",
];

/// The text of these lines.
fn text_of(alloc: Global, lines: &[&str], end: &str) -> Result<String, Fail> {
    let mut text = String::new(alloc);
    for line in lines {
        text.push_str(line)?;
        text.push_str(end)?;
    }
    Ok(text)
}

/// What is read of a graph from A to T at eight o'clock, over these rides.
fn read_over(
    alloc: Global,
    text: &str,
    network: &Network,
    names: &Names,
) -> Result<(Head, PlanGraph), TextFault>
    requires { NamesFit names.now network.now }
{
    let start = Moment(EIGHT);
    read(
        alloc,
        text.as_bytes(),
        network,
        names,
        PlaceId(0),
        PlaceId(2),
        start,
    )
}

/// What is read over the three buses.
fn graph_of(alloc: Global, text: &str) -> Result<Result<(Head, PlanGraph), TextFault>, Fail> {
    let parts = named_network(alloc, BUSES, 3)?;
    Ok(read_over(alloc, text, &parts.0, &parts.1))
}

fn fault_of(alloc: Global, lines: &[&str]) -> Result<Option<TextFault>, Fail> {
    let text = text_of(alloc, lines, "\n")?;
    Ok(graph_of(alloc, text.as_str())?.err())
}

/// The query of a graph, its bounds in nanoseconds, and its rows for B.
type Reported = (Query, (u64, u64), Vec<GraphRow>);

fn rows_of(alloc: Global, graph: &PlanGraph) -> Result<Vec<GraphRow>, Fail> {
    Ok(rows_by_place(graph)?.to_vec(alloc)?)
}

fn parts_of(alloc: Global, head: &Head, graph: &PlanGraph) -> Result<Reported, Fail> {
    Ok((head.query, nanos(head.bounds), rows_of(alloc, graph)?))
}

/// What a text says.
fn reported_of(alloc: Global, text: &str) -> Result<Reported, Fail> {
    match graph_of(alloc, text)? {
        Ok((head, graph)) => parts_of(alloc, &head, &graph),
        Err(_) => Err("no graph".into()),
    }
}

/// What lines say.
fn lines_reported(alloc: Global, lines: &[&str]) -> Result<Reported, Fail> {
    let text = text_of(alloc, lines, "\n")?;
    reported_of(alloc, text.as_str())
}

/// How many places have a table in the graph of a text.
fn tables_of(alloc: Global, text: &str) -> Result<usize, Fail> {
    match graph_of(alloc, text)? {
        Ok((_, graph)) => Ok(graph.tables.len()),
        Err(_) => Err("no graph".into()),
    }
}

/// The trip by the graph of a text, over these rides.
fn trip_over(
    alloc: Global,
    text: &str,
    network: &Network,
    names: &Names,
    delays: &[u32],
) -> Result<Result<Trace, ReplayFault>, Fail>
    requires { NamesFit names.now network.now }
{
    let start = Moment(EIGHT);
    match read(
        alloc,
        text.as_bytes(),
        network,
        names,
        PlaceId(0),
        PlaceId(2),
        start,
    ) {
        Ok((head, graph)) => {
            read_fits();
            Ok(replay(alloc, &graph, network, &head.query, delays))
        }
        Err(_) => Err("no graph".into()),
    }
}

/// The trip by the graph of a text, over the three buses.
fn trip_by(alloc: Global, text: &str, delays: &[u32]) -> Result<Result<Trace, ReplayFault>, Fail> {
    let parts = named_network(alloc, BUSES, 3)?;
    trip_over(alloc, text, &parts.0, &parts.1, delays)
}

/// The trip by a graph under these delays.
fn trip(alloc: Global, lines: &[&str], delays: &[u32]) -> Result<Result<Trace, ReplayFault>, Fail> {
    let text = text_of(alloc, lines, "\n")?;
    trip_by(alloc, text.as_str(), delays)
}

/// The rides of a trip, and its arrival.
fn rides_of(alloc: Global, lines: &[&str], delays: &[u32]) -> Result<(Vec<Ridden>, Moment), Fail> {
    match trip(alloc, lines, delays)? {
        Ok(trace) => Ok((trace.rides.as_slice().to_vec(alloc)?, trace.arrival)),
        Err(_) => Err("no trip".into()),
    }
}

fn trip_fault(alloc: Global, lines: &[&str], delays: &[u32]) -> Result<Option<ReplayFault>, Fail> {
    Ok(trip(alloc, lines, delays)?.err())
}

#[test]
fn reads_the_graph(rt: HostRuntime) -> Result<(), Fail> {
    let (query, bounds, rows) = lines_reported(rt.alloc(), GRAPH.as_slice())?;
    assert_eq!(rt; (query, bounds), (asked(2), (EXPECTED, EXPECTED)));
    assert_eq!(rt; rows.as_slice(), limits().as_slice());
    Ok(())
}

const QUOTED_HEAD: &str =
    "graph,1,\"A \",\"T\",2024-06-03T08:00:00,2024-06-03T10:42:00,2024-06-03T08:54:42.000000000,2024-06-03T08:54:42.000000000";

const QUOTED: [&str; 4] = [QUOTED_HEAD, START, "\"place\",\" B\",120,1,,,,", LATER];

#[test]
fn reads_quoted_names_and_other_line_ends(rt: HostRuntime) -> Result<(), Fail> {
    let text = text_of(rt.alloc(), QUOTED.as_slice(), "\r\n")?;
    assert_eq!(rt; tables_of(rt.alloc(), text.as_str())?, 1);
    Ok(())
}

/// Heads of another version, with a deadline before the start, and of another start.
const OTHER_VERSION: &str =
    "graph,2,A,T,2024-06-03T08:00:00,2024-06-03T10:42:00,2024-06-03T08:54:42.000000000,2024-06-03T08:54:42.000000000";

const EARLY_DEADLINE: &str =
    "graph,1,A,T,2024-06-03T08:00:00,2024-06-03T07:59:59,2024-06-03T08:54:42.000000000,2024-06-03T08:54:42.000000000";

const OTHER_START: &str =
    "graph,1,A,T,2024-06-03T08:00:01,2024-06-03T10:42:00,2024-06-03T08:54:42.000000000,2024-06-03T08:54:42.000000000";

/// Legs with a moment a second off, and of a run that is unknown.
const SECOND_OFF: &str = "leg,2024-06-03T08:22:01,r2,1,2024-06-03T08:24:00,1,T,2024-06-03T08:50:00";

const UNKNOWN_RUN: &str =
    "leg,2024-06-03T08:22:00,r9,1,2024-06-03T08:24:00,1,T,2024-06-03T08:50:00";

/// Files that are refused: three heads, a file that ends too early, two legs, and moments that fall.
const REFUSED: [(&[&str], TextFault); 7] = [
    (&[OTHER_VERSION], TextFault::Row(1)),
    (&[EARLY_DEADLINE], TextFault::Row(1)),
    (&[OTHER_START], TextFault::OtherQuery(1)),
    (&[HEAD, START, TWO_ROWS, SOONER], TextFault::Row(5)),
    (&[HEAD, START, ONE_ROW, SECOND_OFF], TextFault::NoLeg(4)),
    (
        &[HEAD, START, ONE_ROW, UNKNOWN_RUN],
        TextFault::UnknownName(4),
    ),
    (
        &[HEAD, START, TWO_ROWS, LATER, SOONER],
        TextFault::NotRising(5),
    ),
];

#[test]
fn reads_no_other_file(rt: HostRuntime) -> Result<(), Fail> {
    for (lines, fault) in REFUSED {
        assert_eq!(rt; fault_of(rt.alloc(), lines)?, Some(fault), "{lines:?}");
    }
    Ok(())
}

#[test]
fn walks_with_two_delays(rt: HostRuntime) -> Result<(), Fail> {
    let (rides, arrival) = rides_of(rt.alloc(), GRAPH.as_slice(), &[300, 900])?;
    let want = [
        Ridden {
            leg: leg(0, 0),
            delay: 300,
            arrival: Moment(EIGHT + 1500),
        },
        Ridden {
            leg: leg(2, 2),
            delay: 900,
            arrival: Moment(EIGHT + 4860),
        },
    ];
    assert_eq!(rt; rides.as_slice(), want.as_slice());
    assert_eq!(rt; arrival, Moment(EIGHT + 4860));
    Ok(())
}

/// Delays with which there is no trip, by the whole graph and by one without its last row.
const STUCK: [(&[&str], &[u32], ReplayFault); 4] = [
    (&GRAPH, &[301, 900], ReplayFault::NotADelay(1)),
    (&GRAPH, &[300], ReplayFault::TooFew(1)),
    (&GRAPH, &[300, 900, 0], ReplayFault::TooMany(2)),
    (
        &[HEAD, START, ONE_ROW, SOONER],
        &[300, 900],
        ReplayFault::Stuck(PlaceId(1), Moment(EIGHT + 1500)),
    ),
];

#[test]
fn walks_with_no_other_delays(rt: HostRuntime) -> Result<(), Fail> {
    for (lines, delays, fault) in STUCK {
        assert_eq!(rt;
            trip_fault(rt.alloc(), lines, delays)?,
            Some(fault),
            "{delays:?}"
        );
    }
    Ok(())
}

/// The text of the graph by place, over these rides.
fn plan_bytes(alloc: Global, network: &Network, names: &Names) -> Result<Vec<u8>, Fail>
    requires fit { NamesFit names.now network.now }
    requires places { length network.now.change ≡ 3 }
{
    let query = asked(2);
    let found = planned(alloc, network, &query)?;
    let head = Head {
        query,
        bounds: found.value,
    };
    let _count = network.count();
    fit_is_printable();
    match write(alloc, &found.graph, &head, network, names) {
        Ok(text) => Ok(text),
        Err(_) => Err("no memory to write".into()),
    }
}

/// The text of the graph by ride, over these rides.
fn expanded_bytes(alloc: Global, network: &Network, names: &Names) -> Result<Vec<u8>, Fail>
    requires fit { NamesFit names.now network.now }
    requires places { length network.now.change ≡ 3 }
{
    let query = asked(2);
    let found = expanded(alloc, network, &query)?;
    let head = Head {
        query,
        bounds: found.value,
    };
    let _count = network.count();
    ready_is_printable();
    match write_expanded(alloc, &found.graph, &head, network, names) {
        Ok(text) => Ok(text),
        Err(_) => Err("no memory to write".into()),
    }
}

/// The text of the graph by place.
fn plan_text(alloc: Global) -> Result<Vec<u8>, Fail> {
    let parts = named_network(alloc, BUSES, 3)?;
    plan_bytes(alloc, &parts.0, &parts.1)
}

/// The text of the graph by ride.
fn expanded_text(alloc: Global) -> Result<Vec<u8>, Fail> {
    let parts = named_network(alloc, BUSES, 3)?;
    expanded_bytes(alloc, &parts.0, &parts.1)
}

#[test]
fn writes_the_expanded_graph(rt: HostRuntime) -> Result<(), Fail> {
    let text = expanded_text(rt.alloc())?;
    let want = text_of(rt.alloc(), EXPANDED.as_slice(), "\n")?;
    assert_eq!(rt;
        std::str::from_utf8(text.as_slice()).ok(),
        Some(want.as_str())
    );
    Ok(())
}

#[test]
fn writes_the_plan(rt: HostRuntime) -> Result<(), Fail> {
    let text = plan_text(rt.alloc())?;
    let want = text_of(rt.alloc(), GRAPH.as_slice(), "\n")?;
    assert_eq!(rt;
        std::str::from_utf8(text.as_slice()).ok(),
        Some(want.as_str())
    );
    Ok(())
}

/// What the written text says.
fn written_reported(alloc: Global) -> Result<Reported, Fail> {
    let text = plan_text(alloc)?;
    reported_of(alloc, std::str::from_utf8(text.as_slice())?)
}

#[test]
fn reads_the_written_plan_back(rt: HostRuntime) -> Result<(), Fail> {
    let (query, bounds, rows) = written_reported(rt.alloc())?;
    assert_eq!(rt; (query, bounds), (asked(2), (EXPECTED, EXPECTED)));
    assert_eq!(rt; rows.as_slice(), limits().as_slice());
    Ok(())
}
