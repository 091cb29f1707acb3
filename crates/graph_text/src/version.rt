//! The two versions of a graph's text.
ghost use Rattle.std.specs.Prelude.{◌≡◌, ◌<◌, ◌∷◌, [], All};
ghost use Rattle.graph_text.specs.Printable.{IsPrintableRow, IsPrintableRide, IsPrintableTable};
ghost use Rattle.graph_text.specs.Versions.{number_of_version, width_of, rows_leave, tables_leave, rides_leave, version_by};

use plan_graph::{GraphRow, PlaceTable, Ride};
use plan_model::{Network, PlaceId};

/// The two versions of a graph's text, which differ in where its legs may begin.
#[derive(Clone, Copy)]
pub(crate) enum Version {
    /// Each leg leaves its row's place. A row has eight fields.
    First,
    /// The ninth field names the place where one boards.
    Second,
}

/// The digit of a version, as it is in the first row.
pub(crate) fn digit(version: Version) -> u8
    ensures { result ∷ [] ≡ number_of_version version }
{
    match version {
        Version::First => b'1',
        Version::Second => b'2',
    }
}

/// The number of fields of each row.
pub(crate) fn width(version: Version) -> usize
    ensures value { result ≡ width_of version }
    ensures some { 0 < result }
{
    match version {
        Version::First => 8,
        Version::Second => 9,
    }
}

/// The first version if each leg leaves its row's place, and the second if one does not.
pub(crate) fn version_by(leave: bool) -> Version
    ensures { result ≡ version_by leave }
{
    if leave {
        Version::First
    } else {
        Version::Second
    }
}

/// Whether each leg of a place's rows leaves that place.
fn rows_leave(network: &Network, place: PlaceId, rows: &[GraphRow]) -> bool
    requires { All (IsPrintableRow network.now) rows.now }
    ensures { result ≡ rows_leave network.now place.0 rows.now }
{
    for row in rows {
        if network.get(row.leg.enter).from.0 != place.0 {
            return false;
        }
    }
    true
}

/// Whether each leg of each place's table leaves that place.
#[tactic(auto, using(std::proofs::lemmas::Grind::common_steps))]
pub(crate) fn tables_leave(network: &Network, tables: &[PlaceTable]) -> bool
    requires { All (IsPrintableTable network.now) tables.now }
    ensures { result ≡ tables_leave network.now tables.now }
{
    for table in tables {
        if !rows_leave(network, table.place, table.rows.as_slice()) {
            return false;
        }
    }
    true
}

/// Whether each leg after a ride leaves the place where that ride ends.
#[tactic(auto, using(std::proofs::lemmas::Grind::common_steps))]
pub(crate) fn rides_leave(network: &Network, rides: &[Ride]) -> bool
    requires { All (IsPrintableRide network.now) rides.now }
    ensures { result ≡ rides_leave network.now rides.now }
{
    for ride in rides {
        let end = network.get(ride.leg.exit).to;
        if !rows_leave(network, end, ride.after.as_slice()) {
            return false;
        }
    }
    true
}
