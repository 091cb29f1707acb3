//! Decision graphs by ride and by place, what they pick, what they unfold to, and the rides that a
//! choice of legs reaches.
//!
//! A call that takes an allocator may answer that there is no memory, as `NoMemory` or as the variant
//! of that name; then what it was lent is as it was, unless its own comment says otherwise.
#![tactic(auto)]

ghost use Rattle.std.specs.Prelude.{◌≡◌, ◌<◌, nat_le, find, AllPairs};
ghost use Rattle.std.specs.Option.{option_copied};
ghost use Rattle.plan_graph.specs.Unfold.{pick_row, pick_after, pick_at, rows_of_place, is_ride_of, is_table_of, leg_lt, HasRisingRides, HasRisingTables};

mod chosen_rides;

pub use chosen_rides::{GraphChoice, LegChoice, walk};
use plan_model::{Leg, List, Moment, PlaceId};

/// A leg that is taken after an arrival by this moment.
#[derive(Clone, Copy, Debug, PartialEq, Eq, PartialOrd, Ord)]
pub struct GraphRow {
    /// The latest arrival with which the leg is taken.
    pub by: Moment,
    /// The leg that is taken.
    pub leg: Leg,
}

/// A ride, and the legs that are taken after it.
#[derive(Drop)]
pub struct Ride {
    /// The leg that is ridden.
    pub leg: Leg,
    /// What is taken at its end, by the arrival. The moments rise.
    pub after: List<GraphRow>,
}

/// A decision graph with a table for each ride. The rides rise by entry and exit, and the rows of
/// each table by moment.
#[derive(Drop)]
pub struct ExpandedGraph {
    /// The first leg. `None` if source and target are one place.
    pub start: Option<Leg>,
    /// The rides that may happen, the first leg's among them.
    pub rides: List<Ride>,
}

/// The legs that are taken at a place.
#[derive(Drop)]
pub struct PlaceTable {
    /// Where the traveller has arrived.
    pub place: PlaceId,
    /// What is taken there, by the arrival. The moments rise.
    pub rows: List<GraphRow>,
}

/// A decision graph with a table for each place. The places rise, and so do the rows of each table
/// by moment.
#[derive(Drop)]
pub struct PlanGraph {
    /// The first leg. `None` if source and target are one place.
    pub start: Option<Leg>,
    /// The tables of the places where a leg may be taken after an arrival.
    pub tables: List<PlaceTable>,
}

/// The first row that is not before the arrival.
fn first_row(rows: &[GraphRow], arrival: Moment) -> Option<&GraphRow>
    ensures { option_copied result ≡ find (λ row. nat_le arrival.0 row.by.0) rows.now }
{
    rows.iter().find(|row| arrival.0 <= row.by.0)
}

/// The leg of the first row that is not before the arrival.
#[tactic(auto, using(crate::proofs::Finds::picks_first, crate::proofs::Finds::picks_none))]
fn first_leg(rows: &[GraphRow], arrival: Moment) -> Option<Leg>
    ensures { result ≡ pick_row rows.now arrival.0 }
{
    let row = first_row(rows, arrival)?;
    Some(row.leg)
}

/// The first ride of the leg.
fn ride_of(rides: &[Ride], leg: Leg) -> Option<&Ride>
    ensures { option_copied result ≡ find (is_ride_of leg) rides.now }
{
    rides.iter().find(|ride| ride.leg == leg)
}

/// The first table of the place.
fn table_of(tables: &[PlaceTable], place: PlaceId) -> Option<&PlaceTable>
    ensures { option_copied result ≡ find (is_table_of place.0) tables.now }
{
    tables.iter().find(|table| table.place.0 == place.0)
}

/// Whether one leg comes before another: by entry, and then by exit.
fn precedes(a: Leg, b: Leg) -> bool
    ensures { result ≡ leg_lt a b }
{
    a.enter.0 < b.enter.0 || a.enter.0 == b.enter.0 && a.exit.0 < b.exit.0
}

/// The rows of a place among tables whose places rise; none if it has no table.
fn rows_at(tables: &[PlaceTable], place: PlaceId) -> &[GraphRow]
    requires { AllPairs (λ a b. a.place.0 < b.place.0) tables.now }
    ensures { result.now ≡ rows_of_place tables.now place.0 }
{
    let at = tables.partition_point(|table| table.place.0 < place.0);
    if at == tables.len() {
        return &[];
    }
    let table = &tables[at];
    if table.place.0 != place.0 {
        return &[];
    }
    table.rows.as_slice()
}

/// The leg of the first of these rising rows that is not before the arrival.
fn leg_by(rows: &[GraphRow], arrival: Moment) -> Option<Leg>
    requires { AllPairs (λ a b. a.by.0 < b.by.0) rows.now }
    ensures { result ≡ pick_row rows.now arrival.0 }
{
    let at = rows.partition_point(|row| row.by.0 < arrival.0);
    if at == rows.len() {
        return None;
    }
    Some(rows[at].leg)
}

impl ExpandedGraph {
    /// The leg that is taken after a ride that arrives at the moment: that of the first row of the
    /// leg's first ride that is not before it. `None` if there is no such row. It looks at one ride
    /// after the other; if the rides rise, `pick_rising` finds the ride by binary search.
    #[tactic(auto, using(crate::proofs::Finds::rows_of_ride, crate::proofs::Finds::rows_of_none))]
    pub fn pick(&self, leg: Leg, arrival: Moment) -> Option<Leg>
        ensures { result ≡ pick_after self.now.rides leg arrival.0 }
    {
        match ride_of(self.rides.as_slice(), leg) {
            Some(ride) => first_leg(ride.after.as_slice(), arrival),
            None => None,
        }
    }

    /// The same as `pick`, by binary search in a graph whose rides rise.
    pub fn pick_rising(&self, leg: Leg, arrival: Moment) -> Option<Leg>
        requires { HasRisingRides self.now.rides }
        ensures { result ≡ pick_after self.now.rides leg arrival.0 }
    {
        let rides = self.rides.as_slice();
        let at = rides.partition_point(|ride| precedes(ride.leg, leg));
        if at == rides.len() {
            return None;
        }
        let ride = &rides[at];
        if ride.leg != leg {
            return None;
        }
        first_leg(ride.after.as_slice(), arrival)
    }
}

impl PlanGraph {
    /// The leg that is taken after an arrival at the place: that of the first row of the place's
    /// first table that is not before it. `None` if there is no such row. It looks at one table after
    /// the other, and at one row after the other; `pick_rising` finds both by binary search.
    #[tactic(auto, using(crate::proofs::Finds::rows_of_table, crate::proofs::Finds::rows_of_no_table))]
    pub fn pick(&self, place: PlaceId, arrival: Moment) -> Option<Leg>
        ensures { result ≡ pick_at self.now.tables place.0 arrival.0 }
    {
        match table_of(self.tables.as_slice(), place) {
            Some(table) => first_leg(table.rows.as_slice(), arrival),
            None => None,
        }
    }

    /// The same as `pick`, by binary search in a graph whose places rise, and so do the rows of each
    /// table.
    pub fn pick_rising(&self, place: PlaceId, arrival: Moment) -> Option<Leg>
        requires { HasRisingTables self.now }
        ensures { result ≡ pick_at self.now.tables place.0 arrival.0 }
    {
        leg_by(rows_at(self.tables.as_slice(), place), arrival)
    }
}
