//! Lists, names and the scan order of a network.
use plan_model::{
    BackwardOrder, ConnectionId, List, Names, Network, NoMemory, PlaceId, RunId, SortedOrder,
};
use std::alloc::Global;
use std::test::Fail;
use test_networks::network_of;

/// Three runs and two places.
fn names_of(alloc: Global) -> Result<Names, NoMemory> {
    let mut names = Names::new(alloc);
    names.add_run("t100")?;
    names.add_run("b200")?;
    names.add_run("b201")?;
    names.add_place("Mill")?;
    names.add_place("Old Town")?;
    Ok(names)
}

/// The name of the place that has this name.
fn place_text<'a>(names: &'a Names, name: &str) -> Option<&'a str> {
    match names.place(name) {
        None => None,
        Some(place) => Some(names.place_name(place)),
    }
}

/// The name of the run that has this name.
fn run_text<'a>(names: &'a Names, name: &str) -> Option<&'a str> {
    match names.run(name) {
        None => None,
        Some(run) => Some(names.run_name(run)),
    }
}

/// Names with the place and the run that have them, in the order of their adding.
const NAMES: [(&str, Option<PlaceId>, Option<RunId>); 10] = [
    ("Mill", Some(PlaceId(0)), None),
    ("Old Town", Some(PlaceId(1)), None),
    ("t100", None, Some(RunId(0))),
    ("b200", None, Some(RunId(1))),
    ("b201", None, Some(RunId(2))),
    ("", None, None),
    ("mill", None, None),
    ("Mill ", None, None),
    ("T100", None, None),
    ("t10", None, None),
];

/// The first of those names that has another number.
fn other_name(names: &Names) -> Option<&'static str> {
    for (name, place, run) in NAMES {
        if names.place(name) != place || names.run(name) != run {
            return Some(name);
        }
    }
    None
}

/// The first of those names that has another number, and how many places there are.
fn names_reported(alloc: Global) -> Result<(Option<&'static str>, u32), NoMemory> {
    let names = names_of(alloc)?;
    Ok((other_name(&names), names.places()))
}

#[test]
fn numbers_names_as_they_are_added(rt: HostRuntime) {
    assert_eq!(rt; names_reported(rt.alloc()), Ok((None, 2)));
}

/// Which of three places are new, how many there are then, and the last of them.
fn places_twice(alloc: Global) -> Result<([bool; 3], u32, Option<PlaceId>), NoMemory> {
    let mut names = Names::new(alloc);
    let first = names.add_place("Mill")?;
    let second = names.add_place("Mill")?;
    let added = [first, second, names.add_place("mill")?];
    Ok((added, names.places(), names.place("mill")))
}

#[test]
fn adds_no_place_twice(rt: HostRuntime) {
    assert_eq!(rt;
        places_twice(rt.alloc()),
        Ok(([true, false, true], 2, Some(PlaceId(1))))
    );
}

/// Which of three runs are new, how many places there are then, and the last run.
fn runs_twice(alloc: Global) -> Result<([bool; 3], u32, Option<RunId>), NoMemory> {
    let mut names = Names::new(alloc);
    let first = names.add_run("t100")?;
    let second = names.add_run("t100")?;
    let added = [first, second, names.add_run("b200")?];
    Ok((added, names.places(), names.run("b200")))
}

#[test]
fn adds_no_run_twice(rt: HostRuntime) {
    assert_eq!(rt;
        runs_twice(rt.alloc()),
        Ok(([true, false, true], 0, Some(RunId(1))))
    );
}

/// A copy of the names, to which a place is added afterwards.
fn copy_before(alloc: Global) -> Result<Names, NoMemory> {
    let mut names = names_of(alloc)?;
    let copy = names.try_clone(alloc)?;
    if names.places() == 2 {
        names.add_place("Airport")?;
    }
    Ok(copy)
}

/// The first name of the copy that has another number, how many places it has, and the one that was
/// added after it.
fn copy_reported(alloc: Global) -> Result<(Option<&'static str>, u32, Option<PlaceId>), NoMemory> {
    let copy = copy_before(alloc)?;
    Ok((other_name(&copy), copy.places(), copy.place("Airport")))
}

#[test]
fn copies_names_with_their_numbers(rt: HostRuntime) {
    assert_eq!(rt; copy_reported(rt.alloc()), Ok((None, 2, None)));
}

/// The name of the place or the run that has this name.
fn name_text<'a>(names: &'a Names, name: &str) -> Option<&'a str> {
    match place_text(names, name) {
        Some(text) => Some(text),
        None => run_text(names, name),
    }
}

#[test]
fn reports_the_names_of_numbers(rt: HostRuntime) -> Result<(), Fail> {
    let names = names_of(rt.alloc())?;
    for name in ["Mill", "Old Town", "t100", "b200", "b201"] {
        assert_eq!(rt; name_text(&names, name), Some(name));
    }
    Ok(())
}

#[test]
fn a_list_grows_at_its_end(rt: HostRuntime) -> Result<(), Fail> {
    let mut list = List::new(rt.alloc());
    assert_eq!(rt; list.len(), 0);
    for item in [7, 3, 7] {
        list.push(item)?;
    }
    assert_eq!(rt; list.len(), 3);
    assert_eq!(rt; list.as_slice(), [7, 3, 7].as_slice());
    Ok(())
}

#[test]
fn a_list_of_items_grows_on(rt: HostRuntime) -> Result<(), Fail> {
    let mut list = List::from_vec(vec![in rt.alloc(); 5, 1]?);
    assert_eq!(rt; list.as_slice(), [5, 1].as_slice());
    list.push(4)?;
    assert_eq!(rt; list.as_slice(), [5, 1, 4].as_slice());
    Ok(())
}

/// Five rides with two departures: three of one run, and one each of two other runs.
const LEVEL_RIDES: &str =
    "run,step,from,to,dep,arr\nr0,0,A,B,2024-06-03T08:00:00,2024-06-03T08:10:00\nr0,1,B,C,2024-06-03T08:10:00,2024-06-03T08:10:00\nr0,2,C,B,2024-06-03T08:10:00,2024-06-03T08:20:00\nr1,0,A,C,2024-06-03T08:10:00,2024-06-03T08:15:00\nr2,0,A,C,2024-06-03T08:00:00,2024-06-03T08:05:00\n";

/// The rides backwards by departure, run and step.
const BACKWARDS: [u32; 5] = [3, 2, 1, 4, 0];

/// What an order gives until it gives nothing.
fn given<O: BackwardOrder>(
    alloc: Global,
    network: &Network,
    order: &mut O,
) -> Result<Vec<u32>, NoMemory>
    requires { O.fits order.old network.now }
    ensures { O.fits order.new network.now }
{
    let mut ids = Vec::new(alloc);
    for _ in 0..=network.count() {
        if let Some(id) = order.next(network) {
            ids.push(id.0)?;
        }
    }
    Ok(ids)
}

/// What an order gives, and what it gives next.
fn given_at_once(
    alloc: Global,
    network: &Network,
) -> Result<(Vec<u32>, Option<ConnectionId>), NoMemory> {
    let mut order = SortedOrder::new(alloc, network)?;
    let ids = given(alloc, network, &mut order)?;
    Ok((ids, order.next(network)))
}

fn at_once(alloc: Global) -> Result<(Vec<u32>, Option<ConnectionId>), Fail> {
    let network = network_of(alloc, LEVEL_RIDES, 3)?;
    Ok(given_at_once(alloc, &network)?)
}

#[test]
fn the_order_goes_backwards(rt: HostRuntime) -> Result<(), Fail> {
    let reported = at_once(rt.alloc())?;
    assert_eq!(rt;
        (reported.0.as_slice(), reported.1),
        (BACKWARDS.as_slice(), None)
    );
    Ok(())
}

/// The first two of an order, and what it gives when it begins again.
fn given_again(
    alloc: Global,
    network: &Network,
) -> Result<(Vec<u32>, [Option<ConnectionId>; 2]), NoMemory> {
    let mut order = SortedOrder::new(alloc, network)?;
    let first = [order.next(network), order.next(network)];
    order.rewind(network);
    Ok((given(alloc, network, &mut order)?, first))
}

fn again(alloc: Global) -> Result<(Vec<u32>, [Option<ConnectionId>; 2]), Fail> {
    let network = network_of(alloc, LEVEL_RIDES, 3)?;
    Ok(given_again(alloc, &network)?)
}

#[test]
fn the_order_begins_again(rt: HostRuntime) -> Result<(), Fail> {
    let reported = again(rt.alloc())?;
    let first = [Some(ConnectionId(3)), Some(ConnectionId(2))];
    assert_eq!(rt;
        (reported.0.as_slice(), reported.1),
        (BACKWARDS.as_slice(), first)
    );
    Ok(())
}
