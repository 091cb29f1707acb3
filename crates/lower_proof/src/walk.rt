//! The connections that count, in the scan order.
ghost use Rattle.std.specs.Prelude.{◌≡◌, ◌<◌, ◌≤◌, IfOk, Option as Maybe};
ghost use Rattle.plan_model.specs.Network.{IsValid};
ghost use Rattle.lower_proof.specs.Boards.{NoneAfter, AreDepartingBy};

use crate::value_of;
use plan_model::{ConnectionId, Departure, Moment, Network, NoMemory, in_scan_order};
use std::alloc::Global;

/// The later of a moment and a departure, or the moment itself if the connection has no value.
fn later(last: Moment, value: Option<u64>, dep: Moment) -> Moment
    ensures at_least { last.0 ≤ result.0 }
    ensures none { result.0 < dep.0 → value ≡ Maybe.None }
{
    match value {
        None => last,
        Some(_) => { if last < dep { dep } else { last } }
    }
}

/// The last departure of a connection that has a value, or the deadline if that is later. Connections that
/// depart later are too late, and have no value that may be too great.
pub fn last_departure(values: &[Option<u64>], network: &Network, deadline: Moment) -> Moment
    ensures deadline { deadline.0 ≤ result.0 }
    ensures none { NoneAfter network.now values.now result.0 }
{
    let mut last = deadline;
    for i in 0..network.count() {
        let id = ConnectionId(i);
        last = later(last, value_of(values, id), network.get(id).dep);
    }
    last
}

/// The connections that depart by a moment, in the scan order.
pub fn departures_by(
    alloc: Global,
    network: &Network,
    last: Moment,
) -> Result<Vec<Departure>, NoMemory>
    ensures valid { IfOk result (λ _. IsValid network.now) }
    ensures departures { IfOk result (λ departures. AreDepartingBy network.now last.0 departures.items) }
{
    let mut departures = Vec::new(alloc);
    for i in 0..network.count() {
        let departure = Departure::new(network, ConnectionId(i));
        if departure.dep.0 <= last.0 {
            departures.push(departure)?;
        }
    }
    Ok(in_scan_order(departures))
}
