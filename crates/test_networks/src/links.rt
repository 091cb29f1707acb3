//! Networks with links between their places.
ghost use Rattle.std.specs.Prelude.{◌≡◌, ◌<◌, ℕ, All, IfOk, IsTrue, OnOk, length, slice_index_or, []};
ghost use Rattle.plan_model.specs.NameLists.{NameLists, NamesFit};
ghost use Rattle.plan_model.specs.Network.{AreLinksInto};

use crate::{network_of, row};
use plan_graph::GraphRow;
use plan_model::{List, Network, PlaceId, Way};
use std::alloc::Global;
use std::test::Fail;

/// A bus from A to X, and two from Y to T. With a walk of five minutes from X to Y they are in time as
/// `BUSES` are.
pub const APART: &str =
    "run,step,from,to,dep,arr\nr1,1,A,X,2024-06-03T08:00:00,2024-06-03T08:20:00\nr2,1,Y,T,2024-06-03T08:27:00,2024-06-03T08:50:00\nr3,1,Y,T,2024-06-03T08:40:00,2024-06-03T09:06:00\n";

/// How many seconds a link takes at most.
const DAY: u32 = 86_400;

/// A link from one place to another, and how many seconds it takes.
#[derive(Clone, Copy)]
pub struct Link {
    /// The number of the place where it begins.
    pub from: u32,
    /// The number of the place where it ends.
    pub to: u32,
    /// How long it takes, from a second to a day.
    pub seconds: u32,
}

/// A link with its seconds.
pub fn walk(from: u32, to: u32, seconds: u32) -> Link {
    Link { from, to, seconds }
}

/// The walk from X to Y.
pub fn five_minutes() -> [Link; 1] {
    [walk(1, 2, 300)]
}

/// The latest arrival at X for each bus from Y.
pub fn walked_limits() -> [GraphRow; 2] {
    [row(1320, 1), row(2100, 2)]
}

/// Whether each way comes from a place before this one.
fn come_before(ways: &[Way], from: u32) -> bool
    ensures { IsTrue result → All (λ way. way.from.0 < from) ways.now }
{
    ways.iter().all(|way| way.from.0 < from)
}

/// Puts a link after those into its place, which come from places before.
#[tactic(auto, using(crate::proofs::Pushed::links_push))]
fn put(ways: &mut List<Way>, link: Link, places: u32, to: u32) -> Result<(), Fail>
    ensures { OnOk result (AreLinksInto places to ways.old → AreLinksInto places to ways.new) }
{
    if link.from >= places || link.from == to || link.seconds == 0 || link.seconds > DAY {
        return Err("no link of this network".into());
    }
    if !come_before(ways.as_slice(), link.from) {
        return Err("links that do not rise".into());
    }
    ways.push(Way {
        from: PlaceId(link.from),
        seconds: link.seconds,
    })?;
    Ok(())
}

/// The links into a place.
fn links_into(alloc: Global, links: &[Link], places: u32, to: u32) -> Result<List<Way>, Fail>
    ensures { IfOk result (AreLinksInto places to) }
{
    let mut ways = List::new(alloc);
    for link in links {
        if link.to == to {
            put(&mut ways, *link, places, to)?;
        }
    }
    Ok(ways)
}

/// The links into each place.
#[tactic(auto, using(crate::proofs::Pushed::lists_push))]
fn lists_of(alloc: Global, links: &[Link], places: u32) -> Result<List<List<Way>>, Fail>
    ensures many { IfOk result (λ lists. length lists ≡ places) }
    ensures each { IfOk result (λ lists. (r : ℕ) → r < places
        → AreLinksInto places r (slice_index_or lists r [])) }
{
    let mut lists = List::new(alloc);
    for to in 0..places {
        lists.push(links_into(alloc, links, places, to)?)?;
    }
    Ok(lists)
}

/// The network with these links, in the order of the places where they begin.
pub fn linked(alloc: Global, network: Network, links: &[Link]) -> Result<Network, Fail>
    ensures connections { IfOk result (λ found. found.connections ≡ network.connections) }
    ensures change { IfOk result (λ found. found.change ≡ network.change) }
    ensures fit { IfOk result (λ found. (names : NameLists) → NamesFit names network
        → NamesFit names found) }
{
    let lists = lists_of(alloc, links, network.places())?;
    Ok(network.with_links(lists))
}

/// The network of a cut file, which has this many places, with these links.
pub fn links_of(alloc: Global, cut: &str, places: u32, links: &[Link]) -> Result<Network, Fail>
    ensures { IfOk result (λ network. length network.change ≡ places) }
{
    let network = network_of(alloc, cut, places)?;
    linked(alloc, network, links)
}
