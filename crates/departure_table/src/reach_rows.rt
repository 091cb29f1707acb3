//! From where one can reach a target, until when one can set out there, and what is best for who sets out at once.
ghost use Rattle.std.specs.Prelude.{◌≡◌, ◌*◌, ◌^◌, ◌<◌, ◌≤◌, All, IfOk, length};
ghost use Rattle.departure_table.specs.Departures.{SolvesArrivals};
ghost use Rattle.plan_model.specs.Gates.{HasGates, extended_by as with_gates};
ghost use Rattle.departure_table.specs.Reach.{IsReach, IsFoundAtGate, places_of};

use crate::{extended_by, greatest};
use interval_fixed::Span;
use meat_scan::Scanned;
use plan_model::{List, Moment, Network, NoMemory, PlaceId, Query};
use std::alloc::Global;
use value_laws::MeanSpan;

/// A place from which one can set out at the start and be safe.
#[derive(Clone, Copy)]
pub struct ReachRow {
    /// The place.
    pub place: PlaceId,
    /// The latest moment at which one can set out there and be safe.
    pub latest: Moment,
    /// Bounds on the least expected arrival of a traveller who sets out there at the start, in nanoseconds
    /// since 1970-01-01.
    pub bounds: Span,
}

/// The network with a gate for each place, in the order of the places. Where the gates would be too many to be
/// numbered the answer is that there is no memory.
#[tactic(auto, using(crate::proofs::ReachGrowth::are_below, crate::proofs::ReachGrowth::count_up_to, crate::proofs::ReachGrowth::places_more))]
pub fn with_every_gate(alloc: Global, network: &Network) -> Result<Network, NoMemory>
    ensures parts { IfOk result (λ more. more ≡ with_gates network.now (places_of network.now)) }
    ensures gates { IfOk result (λ more. HasGates more network.now (places_of network.now)) }
    ensures room { IfOk result (λ more. length network.now.change * 2 < 2 ^ 32) }
{
    let places = network.places();
    if places > u32::MAX / 2 {
        return Err(NoMemory);
    }
    let mut sources = Vec::new(alloc);
    for place in 0..places {
        sources.push(PlaceId(place))?;
    }
    extended_by(alloc, network, &sources)
}

/// The places from which one can set out at the start of the query and be at its target by the deadline,
/// whatever the delays, by what a scan found in the network that is extended by a gate for each place. The source of the
/// query is of no account.
pub fn reach(
    alloc: Global,
    scanned: &Scanned<MeanSpan>,
    extended: &Network,
    network: &Network,
    query: &Query,
) -> Result<List<ReachRow>, NoMemory>
    requires start { 1 ≤ query.now.start.0 }
    requires solves { SolvesArrivals scanned.now extended.now query.now }
    requires gates { HasGates extended.now network.now (places_of network.now) }
    requires target { query.now.target.0 < length network.now.change }
    requires room { length network.now.change * 2 < 2 ^ 32 }
    ensures found { IfOk result (All (IsFoundAtGate extended.now network.now query.now scanned.now)) }
    ensures reach { IfOk result (IsReach network.now query.now query.now.start.0) }
{
    let mut rows = List::new(alloc);
    for place in 0..network.places() {
        if place == query.target.0 {
            continue;
        }
        let at_gate = Query {
            source: PlaceId(network.places() + place),
            ..*query
        };
        // Who is at the gate a second before the start can set out from the place at the start.
        let Some((value, _)) = scanned.choice(at_gate.source, Moment(query.start.0 - 1)) else {
            continue;
        };
        let Some(latest) = greatest(scanned, extended, &at_gate, query.start) else {
            continue;
        };
        rows.push(ReachRow {
            place: PlaceId(place),
            latest,
            bounds: value.0,
        })?;
    }
    Ok(rows)
}
