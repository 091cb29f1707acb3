//! The connections that the legs of a graph end with, by departure.
ghost use Rattle.std.specs.Prelude.{◌≡◌, ◌<◌, All, IfOk};
ghost use Rattle.plan_model.specs.Network.{count};
ghost use Rattle.graph_score.specs.Legs.{exit_of, AreExits};

use crate::legs::GraphLeg;
use plan_model::{ConnectionId, Departure, Network, NoMemory, in_scan_order};
use std::alloc::Global;

impl GraphLeg {
    /// The connection that the leg ends with.
    fn exit(self) -> ConnectionId
        ensures { result ≡ exit_of self }
    {
        match self {
            GraphLeg::Start(leg) => leg.exit,
            GraphLeg::Row(_, row) => row.leg.exit,
        }
    }
}

/// The connection that each of these legs ends with, the first departure first.
pub fn exits_of(
    alloc: Global,
    network: &Network,
    legs: &[GraphLeg],
) -> Result<Vec<Departure>, NoMemory>
    requires { All (λ leg. (exit_of leg).0 < count network.now) legs.now }
    ensures { IfOk result (λ exits. AreExits network.now legs.now exits.items) }
{
    let mut exits = Vec::new(alloc);
    for leg in legs {
        exits.push(Departure::new(network, leg.exit()))?;
    }
    Ok(in_scan_order(exits))
}
