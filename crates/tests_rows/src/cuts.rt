//! Small cut files, and what is read of them.
use csv_rows::{Column, Limits, Rows, RowsFault};
use cut_file::{CutFault, CutTable, read_cut};
use delay_table::{DelayFault, DelayTable};
use plan_model::{ClassId, ConnectionId, Names, Network, NoMemory, PlaceId, RunId};
use std::alloc::Global;
use std::test::Fail;

/// The start of a row up to its places, and its minutes of departure and arrival.
type Ride<'a> = (&'a str, u32, u32);

fn rows_in(alloc: Global, text: &[u8]) -> Result<Rows, RowsFault> {
    Rows::read(alloc, text)
}

fn rows_of(alloc: Global, text: &[u8]) -> Result<Rows, CutFault> {
    rows_in(alloc, text).map_err(|_| CutFault::NoMemory)
}

/// What rows say, of which three are read at most.
fn cut_of(alloc: Global, rows: &Rows) -> Result<CutTable, CutFault> {
    let mut limits = Limits::standard();
    limits.cut_rows = 3;
    read_cut(alloc, rows, &limits)
}

fn read_text(alloc: Global, text: &[u8]) -> Result<CutTable, CutFault> {
    let rows = rows_of(alloc, text)?;
    cut_of(alloc, &rows)
}

/// The fault of a text.
fn fault_of(alloc: Global, text: &[u8]) -> Option<CutFault> {
    read_text(alloc, text).err()
}

/// A row of a ride.
fn line_of(alloc: Global, ride: Ride<'_>) -> Result<String, Fail> {
    let (start, dep, arr) = ride;
    Ok(format!(in alloc; "\n{start},2024-06-03T08:{dep}:00,2024-06-03T08:{arr}:00")?)
}

/// The text of rides under a header.
fn text_of(alloc: Global, header: &[u8], rides: &[Ride<'_>]) -> Result<Vec<u8>, Fail> {
    let mut text = Vec::from_slice(alloc, header)?;
    for ride in rides {
        let line = line_of(alloc, *ride)?;
        text.extend_from_slice(line.as_bytes())?;
    }
    Ok(text)
}

/// Texts with their first fault.
const FAULTS: [(&str, CutFault); 4] = [
    (
        "run,step,from,to,dep\n",
        CutFault::MissingColumn(Column::Arr),
    ),
    (
        "run,step,from,to,dep,arr\n\n,\n,\n,\n,\n",
        CutFault::TooManyRows(4),
    ),
    (
        "run,step,from,to,dep,arr\nr,x,,b,1,1\n",
        CutFault::BadField(2, Column::Step),
    ),
    (
        "run,step,from,to,dep,arr\nr,1,a,b,09:00:00,\n",
        CutFault::BadField(2, Column::Dep),
    ),
];

#[test]
fn first_fault_of_a_field(rt: HostRuntime) {
    for (text, fault) in FAULTS {
        let found = fault_of(rt.alloc(), text.as_bytes());
        assert_eq!(rt; found, Some(fault), "{text}");
    }
}

/// Two rides with their first fault.
const RUNS: [([Ride<'_>; 2], CutFault); 5] = [
    (
        [("r,1,a,b", 20, 10), ("r,01,a,b", 20, 30)],
        CutFault::DuplicateStep(3),
    ),
    (
        [("r,2,a,b", 20, 30), ("r,1,c,d", 20, 10)],
        CutFault::Broken(2),
    ),
    (
        [("r,1,c,d", 20, 10), ("r,2,a,b", 20, 30)],
        CutFault::Backward(2),
    ),
    (
        [("r,1,a,b", 10, 30), ("r,2,c,d", 20, 40)],
        CutFault::Backward(3),
    ),
    (
        [("r,1,a,b", 10, 20), ("r,2,c,d", 20, 40)],
        CutFault::Broken(3),
    ),
];

#[test]
fn first_fault_of_a_run(rt: HostRuntime) -> Result<(), Fail> {
    for (rides, fault) in RUNS {
        let text = text_of(rt.alloc(), b"run,step,from,to,dep,arr", &rides)?;
        assert_eq!(rt; fault_of(rt.alloc(), text.as_slice()), Some(fault));
    }
    Ok(())
}

/// Rides of two runs, with a change at each place where they leave.
const RIDES: [Ride<'_>; 3] = [
    (",3,r,7,b,c", 20, 30),
    ("60,,r,2,a,b", 10, 20),
    ("30,4,s,1,a,c", 10, 40),
];

fn table_of(alloc: Global, rows: &Rows) -> Result<DelayTable, DelayFault> {
    DelayTable::read(alloc, rows)
}

/// The delays of two classes.
fn delays_of(alloc: Global) -> Result<DelayTable, Fail> {
    let rows = rows_in(alloc, b"class,delay,weight\n*,0,10000\n3,60,10000\n")?;
    Ok(table_of(alloc, &rows)?)
}

fn parts_of(
    alloc: Global,
    cut: &CutTable,
    delays: &DelayTable,
) -> Result<(Network, Names), NoMemory> {
    cut.network(alloc, delays)
}

fn cut_of_rides(alloc: Global) -> Result<CutTable, Fail> {
    let text = text_of(alloc, b"change,class,run,step,from,to,dep,arr", &RIDES)?;
    Ok(read_text(alloc, text.as_slice())?)
}

fn network_with(alloc: Global, delays: &DelayTable) -> Result<(Network, Names), Fail> {
    let cut = cut_of_rides(alloc)?;
    Ok(parts_of(alloc, &cut, delays)?)
}

fn network(alloc: Global) -> Result<(Network, Names), Fail> {
    let delays = delays_of(alloc)?;
    network_with(alloc, &delays)
}

/// The place a and the run s by their names.
fn named(names: &Names) -> (Option<PlaceId>, Option<RunId>) {
    (names.place("a"), names.run("s"))
}

fn named_in(alloc: Global) -> Result<(Option<PlaceId>, Option<RunId>), Fail> {
    let parts = network(alloc)?;
    Ok(named(&parts.1))
}

#[test]
fn numbers_names(rt: HostRuntime) -> Result<(), Fail> {
    assert_eq!(rt; named_in(rt.alloc())?, (Some(PlaceId(2)), Some(RunId(1))));
    Ok(())
}

/// The change time at a place, where there is one of this number.
fn change_at(network: &Network, place: u32) -> Option<u32> {
    if place < network.places() {
        Some(network.change(PlaceId(place)))
    } else {
        None
    }
}

/// The step and the class of a connection, where there is one of this number.
fn ride_at(network: &Network, ride: u32) -> Option<(u32, ClassId)> {
    if ride < network.count() {
        let connection = network.get(ConnectionId(ride));
        Some((connection.step, connection.class))
    } else {
        None
    }
}

/// The step and the class of each of three connections.
fn rides_of(network: &Network) -> [Option<(u32, ClassId)>; 3] {
    [
        ride_at(network, 0),
        ride_at(network, 1),
        ride_at(network, 2),
    ]
}

/// How many places and connections there are, and the change times at two places.
fn counts(network: &Network) -> ((u32, u32), (Option<u32>, Option<u32>)) {
    (
        (network.places(), network.count()),
        (change_at(network, 0), change_at(network, 2)),
    )
}

fn counts_in(alloc: Global) -> Result<((u32, u32), (Option<u32>, Option<u32>)), Fail> {
    let parts = network(alloc)?;
    Ok(counts(&parts.0))
}

#[test]
fn makes_a_network(rt: HostRuntime) -> Result<(), Fail> {
    assert_eq!(rt; counts_in(rt.alloc())?, ((3, 3), (Some(120), Some(60))));
    Ok(())
}

fn rides_in(alloc: Global) -> Result<[Option<(u32, ClassId)>; 3], Fail> {
    let parts = network(alloc)?;
    Ok(rides_of(&parts.0))
}

#[test]
fn reports_rides(rt: HostRuntime) -> Result<(), Fail> {
    let want = [
        Some((2, ClassId(0))),
        Some((7, ClassId(1))),
        Some((1, ClassId(0))),
    ];
    assert_eq!(rt; rides_in(rt.alloc())?, want);
    Ok(())
}
