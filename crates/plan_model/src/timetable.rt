//! A network with its names.
ghost use Rattle.std.specs.Prelude.{◌≡◌};
ghost use Rattle.plan_model.specs.NameLists.{NamesFit};
ghost use Rattle.plan_model.specs.Network.{IsValid};
ghost use Rattle.plan_model.specs.Propositions.{IsValid-prop};

use crate::names::Names;
use crate::network::Network;

/// A network with the names of its places and of its runs.
pub struct Timetable {
    /// The connections, the change times, the delays of each class and the links.
    pub network: Network,
    /// The names of the places and of the runs.
    pub names: Names,
    /// That the network's numbers are in range and its lists in order, as in each network.
    pub ghost valid: { IsValid network } by { IsValid-prop network },
    /// That each place and each run of the network has its name.
    pub ghost fit: { NamesFit names network },
}

impl Drop for Timetable {
    /// Drops its parts here, so that a caller drops one value.
    fn drop(self) {
        let Timetable { network, names } = self;
    }
}

impl Timetable {
    /// The timetable of this network, whose names these are.
    pub fn new(network: Network, names: Names) -> Timetable
        requires fit { NamesFit names network }
        ensures network { result.network ≡ network }
        ensures names { result.names ≡ names }
    {
        Timetable { network, names }
    }
}
