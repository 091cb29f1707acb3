//! The network with gates: for each of some sources one more place, from which one is at the source a second later.
ghost use Rattle.std.specs.Prelude.{◌≡◌, ◌++◌, IfOk, map, replicate};
ghost use Rattle.std.specs.List.{range_with_len};
ghost use Rattle.plan_model.specs.Network.{IsValid, links_into, NetworkModel};
ghost use Rattle.plan_model.specs.Gates.{FitGates, HasGates, extended_by as with_gates};

use plan_model::{List, Network, NoMemory, PlaceId, Way};
use std::alloc::Global;

/// A copy of the links into a place; none if there is no such place.
fn links_to(alloc: Global, network: &Network, place: PlaceId) -> Result<List<Way>, NoMemory>
    ensures links { IfOk result (λ links. links ≡ links_into network.now place.0) }
    ensures valid { IsValid network.now }
{
    if place.0 >= network.places() {
        return Ok(List::new(alloc));
    }
    let links = Vec::from_slice(alloc, network.links_into(place))?;
    Ok(List::from_vec(links))
}

/// A copy of the links into each place, and lists with no link for further ones.
fn links_for(alloc: Global, network: &Network, places: u32) -> Result<Vec<List<Way>>, NoMemory>
    ensures { IfOk result (λ links. links.items ≡ map (links_into network.now) (range_with_len 0 places)) }
{
    let mut links = Vec::new(alloc);
    for place in 0..places {
        links.push(links_to(alloc, network, PlaceId(place))?)?;
    }
    Ok(links)
}

/// The change time of each place, and one second for each gate.
fn changes_by(alloc: Global, network: &Network, gates: usize) -> Result<List<u32>, NoMemory>
    ensures { IfOk result (λ change. change ≡ network.now.change ++ replicate gates 1) }
{
    let mut change = network.copied_change(alloc)?;
    for gate in 0..gates {
        change.push(1)?;
    }
    Ok(change)
}

/// The network with a gate for each source: one more place, behind the others and in the order of the sources, with
/// a change time of one second and no connection. A link of one second leads from a gate to its
/// source, and none to a gate; all else stays. So after an arrival at a gate a leg can be boarded if
/// it leaves the source a second later or after that, and no other.
pub fn extended_by(
    alloc: Global,
    network: &Network,
    sources: &[PlaceId],
) -> Result<Network, NoMemory>
    requires { FitGates network.now sources.now }
    ensures parts { IfOk result (λ more. more ≡ with_gates network.now sources.now) }
    ensures gates { IfOk result (λ more. HasGates more network.now sources.now) }
{
    let places = network.places();
    let mut links = links_for(alloc, network, places + sources.len() as u32)?;
    for k in 0..sources.len() {
        let into = &mut links[sources[k].0 as usize];
        into.push(Way {
            from: PlaceId(places + k as u32),
            seconds: 1,
        })?;
    }
    let links = List::from_vec(links);
    let connections = network.copied_connections(alloc)?;
    let change = changes_by(alloc, network, sources.len())?;
    let classes = network.copied_classes(alloc)?;
    Ok(Network::from_parts(connections, change, classes).with_links(links))
}
