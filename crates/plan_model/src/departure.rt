//! Connections by their departures, and the scan order of some of them.
ghost use Rattle.std.specs.Prelude.{◌≡◌, ◌<◌, AllPairs, IsPermutation};
ghost use Rattle.plan_model.specs.Network.{count};
ghost use Rattle.plan_model.specs.Order.{departure_of, IsInOrder};

use crate::model::{ConnectionId, Moment};
use crate::network::Network;

/// A connection by its departure. The derived order is by departure, and then by number: in a network that is
/// the scan order, since its connections are numbered by run and step.
#[derive(Clone, Copy, PartialEq, Eq, PartialOrd, Ord)]
pub struct Departure {
    /// When it departs.
    pub dep: Moment,
    /// Its number.
    pub id: ConnectionId,
}

impl Departure {
    /// The departure of a connection of the network.
    pub fn new(network: &Network, id: ConnectionId) -> Departure
        requires { id.0 < count network.now }
        ensures { result ≡ departure_of network.now id }
    {
        Departure {
            dep: network.get(id).dep,
            id,
        }
    }
}

/// The same departures in the scan order.
pub fn in_scan_order(mut departures: Vec<Departure>) -> Vec<Departure>
    ensures permutation { IsPermutation departures.items result.items }
    ensures rising { AllPairs IsInOrder result.items }
{
    departures.sort_unstable();
    departures
}
