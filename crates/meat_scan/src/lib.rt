//! The backward scan: the best safe strategy from the source, and from each place after each
//! arrival, by any score.
//!
//! It follows the scan of Dibbelt, Strasser and Wagner, "Delay-Robust Journeys in Timetable Networks
//! with Minimum Expected Arrival Time", ATMOS 2014. The connections are taken by falling departure.
//! Each is offered as an exit of its run, by the values of what is done after each delay; and where
//! it can be boarded, the best exit of its run gives a row for each place from which a way leads to
//! it, and maybe the start leg.
//!
//! A call that takes an allocator may answer that there is no memory, as `NoMemory` or as the variant of that name; then what
//! it was lent is as it was, unless its own comment says otherwise.
#![tactic(auto)]

ghost use Rattle.std.specs.Prelude.{◌≡◌, ◌≢◌, ℕ, ◌+◌, ◌-◌, ◌<◌, ◌≤◌, length, All, Some, None, MatchBool, take, Option, [], IfOk, slice_index, count_by, ◌==◌, if◌then◌else◌};
ghost use Rattle.plan_model.specs.Bounds.{most_connections, end_of_arrivals, end_of_time, seconds_per_day};
ghost use Rattle.plan_model.specs.Network.{count, from_of, run_of, IsValid};
ghost use Rattle.plan_model.specs.Order.{IsScanOrder};
ghost use Rattle.std.specs.Option.{option_map};
ghost use Rattle.meat_scan.specs.ScanTables.{rows_of_profile, spare_at, capacity_at, exit_at, is_boardable_by, ways_between, HasRoomFor, FitsTables, FitsTablesBy, IsEmpty};
ghost use Rattle.meat_scan.specs.ScanResult.{choice_of, found_in, IsLastChoice};
ghost use Rattle.meat_scan.specs.Step.{value_after_arrival, values_after, alighted_by, exits_with, way_of_place, with_way, rows_with, start_with, boarding_exit};
ghost use Rattle.meat_scan.specs.Rules.{FollowsRules, kept_in, kept_next};
ghost use Rattle.meat_scan.specs.Solves.{HasAnswers, Solves, SolvesStart};

use plan_model::{
    BackwardOrder, ConnectionId, Leg, Moment, Network, NoMemory, Outcome, PlaceId, Query, RunId,
    Way,
};
use std::alloc::Global;
use std::marker::Model;
use stop_profile::Profile;
use trip_exit::ExitTable;
use value_laws::Score;

// The value of what is done after an arrival at a place, if that is safe.
fn value_after<V: Score>(
    profiles: &[Profile<V>],
    place: PlaceId,
    arrival: Moment,
    query: &Query,
) -> Option<V>
    requires { arrival.0 < end_of_time }
    ensures { let query = query.now in
        let rows = rows_of_profile profiles.now in
        result ≡ value_after_arrival V.scoring.arrived query.target.0 query.deadline.0 rows place.0 arrival.0 }
{
    if place == query.target {
        if arrival <= query.deadline {
            Some(V::arrive(arrival))
        } else {
            None
        }
    } else {
        let profile = profiles.get(place.0 as usize)?;
        let row = profile.first(arrival)?;
        Some(row.value)
    }
}

// Whether all outcomes are safe; then their values are the first ones of `children`.
fn fill_children<V: Score>(
    profiles: &[Profile<V>],
    row: &[Outcome],
    place: PlaceId,
    scheduled: Moment,
    query: &Query,
    kids: &mut [V],
) -> bool
    requires soon { scheduled.0 < end_of_arrivals }
    requires delays { All (λ o. o.delay ≤ seconds_per_day) row.now }
    requires room { length row.now ≤ length kids.old }
    ensures filled { let query = query.now in
        let rows = rows_of_profile profiles.now in
        let values = values_after V.scoring.arrived query.target.0 query.deadline.0 rows place.0 scheduled.0
        in
        MatchBool result
        (values row.now ≡ Some (take (length row.now) kids.new))
        (values row.now ≡ None) }
    ensures len { length kids.new ≡ length kids.old }
{
    for k in 0..row.len() {
        let arrival = Moment(scheduled.0 + row[k].delay as u64);
        match value_after(profiles, place, arrival, query) {
            Some(value) => kids[k] = value,
            None => return false,
        }
    }
    true
}

// Puts a leg into the rows of the place that a way comes from, if it can be boarded by the way.
fn put_leg<V: Score>(
    profiles: &mut [Profile<V>],
    target: PlaceId,
    way: Way,
    dep: Moment,
    value: V,
    leg: Leg,
)
    requires { 1 ≤ spare_at profiles.old way.from.0 }
    ensures rows { (place : ℕ) →
        let old = rows_of_profile profiles.old place in
        let from = way_of_place way place in
        rows_of_profile profiles.new place ≡ with_way V.scoring target.0 dep.0 value leg from place old }
    ensures spare { (place : ℕ) →
        let taken = if way.from.0 == place then 1 else 0 in
        spare_at profiles.old place ≤ spare_at profiles.new place + taken }
    ensures capacity { (place : ℕ) → capacity_at profiles.new place ≡ capacity_at profiles.old place }
    ensures len { length profiles.new ≡ length profiles.old }
{
    let seconds = u64::from(way.seconds);
    if way.from == target || dep.0 < seconds {
        return;
    }
    let by = Moment(dep.0 - seconds);
    let profile = &mut profiles[way.from.0 as usize];
    profile.insert(by, value, leg);
}

// A connection of a network, as it is scanned for a query.
#[derive(Clone, Copy)]
struct Site<'a> {
    network: &'a Network,
    query: &'a Query,
    id: ConnectionId,
    ghost there: { id.0 < count network.now },
}

// Puts a connection, boarded for an exit, into the rows of each place from which a way leads to it.
fn board<V: Score>(profiles: &mut [Profile<V>], site: &Site, exit: Option<(V, ConnectionId)>)
    requires { HasRoomFor site.now.network.now site.now.id.0 profiles.old }
    ensures rows { (place : ℕ) →
        let old = rows_of_profile profiles.old in
        rows_of_profile profiles.new place ≡ rows_with V.scoring site.now.network.now site.now.query.now site.now.id.0 exit old place }
    ensures spare { (place : ℕ) →
        let taken = ways_between site.now.network.now place (from_of site.now.network.now site.now.id.0) in
        spare_at profiles.old place ≤ spare_at profiles.new place + taken }
    ensures capacity { (place : ℕ) → capacity_at profiles.new place ≡ capacity_at profiles.old place }
    ensures len { length profiles.new ≡ length profiles.old }
{
    let Some((value, exit)) = exit else {
        return;
    };
    let network = site.network;
    let connection = network.get(site.id);
    let leg = Leg {
        enter: site.id,
        exit,
    };
    for k in 0..network.way_count(connection.from) {
        let way = network.way_at(connection.from, k);
        put_leg(profiles, site.query.target, way, connection.dep, value, leg);
    }
}

// The start leg, with a connection that is boarded for an exit.
fn begin<V: Score>(
    site: &Site,
    exit: Option<(V, ConnectionId)>,
    start: Option<(V, Leg)>,
) -> Option<(V, Leg)>
    ensures { result ≡ start_with V.scoring site.now.network.now site.now.query.now site.now.id.0 exit start }
{
    let Some((value, exit)) = exit else {
        return start;
    };
    let connection = site.network.get(site.id);
    if connection.from != site.query.source || connection.dep < site.query.start {
        return start;
    }
    let leg = Leg {
        enter: site.id,
        exit,
    };
    match start {
        None => Some((value, leg)),
        Some(kept) if value.better(&kept.0) => Some((value.lower_to(&kept.0), leg)),
        Some(kept) => Some((kept.0.lower_to(&value), kept.1)),
    }
}

// Room for the values after the outcomes of a ride, as many as a delay row may have.
#[derive(Drop)]
struct ChildValues<V> {
    values: Vec<V>,
    ghost many: { 64 ≤ length values.items },
}

// The value of leaving a run by a connection, if that is allowed and safe.
fn alighted_value<V: Score>(
    profiles: &[Profile<V>],
    site: &Site,
    kids: &mut ChildValues<V>,
) -> Option<V>
    ensures { let rows = rows_of_profile profiles.now in
        result ≡ alighted_by V.scoring site.now.network.now site.now.query.now rows site.now.id.0 }
{
    let connection = site.network.get(site.id);
    if !connection.can_exit {
        return None;
    }
    let row = site.network.row(connection.class);
    let (to, arr) = (connection.to, connection.arr);
    if !fill_children(profiles, row, to, arr, site.query, &mut kids.values) {
        return None;
    }
    Some(V::blend(row, &kids.values[..row.len()]))
}

// Offers a connection as an exit of its run, if it has a value.
fn leave<V: Score>(exits: &mut ExitTable<V>, run: RunId, id: ConnectionId, value: Option<V>)
    requires { run.0 < length exits.old }
    ensures exits { (other : ℕ) →
        let old = exit_at exits.old in
        exit_at exits.new other ≡ exits_with V.scoring id run.0 value old other }
    ensures len { length exits.new ≡ length exits.old }
{
    if let Some(value) = value {
        exits.offer(run, value, id);
    }
}

// The exit that a connection is boarded for, if it can be boarded.
fn boarded_for<V: Score>(exits: &ExitTable<V>, site: &Site) -> Option<(V, ConnectionId)>
    ensures { result ≡ boarding_exit site.now.network.now site.now.id.0 (exit_at exits.now) }
{
    let connection = site.network.get(site.id);
    if connection.can_board {
        exits.best(connection.run)
    } else {
        None
    }
}

// Scans one connection, and gives the start leg with it.
fn scan_one<V: Score>(
    profiles: &mut [Profile<V>],
    exits: &mut ExitTable<V>,
    kids: &mut ChildValues<V>,
    start: Option<(V, Leg)>,
    site: &Site,
) -> Option<(V, Leg)>
    requires run { run_of site.now.network.now site.now.id.0 < length exits.old }
    requires room { HasRoomFor site.now.network.now site.now.id.0 profiles.old }
    ensures kept { let before = kept_in profiles.old exits.old start in
        kept_in profiles.new exits.new result ≡ kept_next V.scoring site.now.network.now site.now.query.now site.now.id.0 before }
    ensures spare { (place : ℕ) →
        let taken = ways_between site.now.network.now place (from_of site.now.network.now site.now.id.0) in
        spare_at profiles.old place ≤ spare_at profiles.new place + taken }
    ensures capacity { (place : ℕ) → capacity_at profiles.new place ≡ capacity_at profiles.old place }
    ensures places { length profiles.new ≡ length profiles.old }
    ensures runs { length exits.new ≡ length exits.old }
{
    let value = alighted_value(profiles, site, kids);
    leave(exits, site.network.get(site.id).run, site.id, value);
    let exit = boarded_for(exits, site);
    board(profiles, site, exit);
    begin(site, exit, start)
}

/// The memory of a scan: the profile of each place, the best exit of each run, and the values after
/// the delays of one ride.
#[derive(Drop)]
pub struct ScanTables<V: Score> {
    profiles: Vec<Profile<V>>,
    exits: ExitTable<V>,
    kids: ChildValues<V>,
}

impl<V: Score> Model for ScanTables<V> {
    ghost use Rattle.meat_scan.specs.ScanTables.{ShownTables};

    ghost Value = { ShownTables V };

    ghost view = { λ t. record {
      profiles = t.profiles.items;
      exits = t.exits;
    } };
}

/// What a scan found: the start leg, and the leg to take after each arrival at each place.
#[derive(Drop)]
pub struct Scanned<V: Score> {
    profiles: Vec<Profile<V>>,
    start: Option<(V, Leg)>,
    target: PlaceId,
}

impl<V: Score> Model for Scanned<V> {
    ghost use Rattle.std.specs.Prelude.{map};
    ghost use Rattle.meat_scan.specs.ScanResult.{ScanResult};

    ghost Value = { ScanResult V };

    ghost view = { λ s. record {
      start = s.start;
      rows = map (λ profile. profile.rows) s.profiles.items;
      target = s.target.0;
    } };
}

impl<V: Score> ScanTables<V> {
    /// Takes all the memory that a scan of the network needs, or answers `NoMemory`.
    pub fn reserve(alloc: Global, network: &Network) -> Result<ScanTables<V>, NoMemory>
        ensures whole { IfOk result (FitsTables network.now) }
        ensures by { IfOk result (λ tables. (last : ℕ) → FitsTablesBy network.now last tables) }
    {
        ScanTables::reserve_until(alloc, network, Moment(u64::MAX))
    }

    /// Takes the memory that a scan of the connections needs that depart by a moment, or answers `NoMemory`.
    pub fn reserve_until(
        alloc: Global,
        network: &Network,
        last: Moment,
    ) -> Result<ScanTables<V>, NoMemory>
        ensures { IfOk result (FitsTablesBy network.now last.0) }
    {
        let room = boardable_counts(alloc, network, last)?;
        let profiles = reserve_profiles(alloc, &room)?;
        let exits = ExitTable::reserve(alloc, network.runs())?;
        let kids = reserve_children(alloc)?;
        Ok(ScanTables {
            profiles,
            exits,
            kids,
        })
    }
}

// One more for each place from which a way leads to this one.
fn count_ways(room: &mut [u32], network: &Network, place: PlaceId)
    requires valid { IsValid network.now }
    requires place { place.0 < length network.now.change }
    requires len { length room.old ≡ length network.now.change }
    requires few { (from : ℕ) → from < length room.old → slice_index room.old from < most_connections }
    ensures counts { (from : ℕ) → from < length room.old →
        slice_index room.new from
        ≡ slice_index room.old from + ways_between network.now from place.0 }
    ensures len { length room.new ≡ length room.old }
{
    for k in 0..network.way_count(place) {
        let way = network.way_at(place, k);
        room[way.from.0 as usize] += 1;
    }
}

// How many connections that depart by a moment can be boarded by a way from each place.
fn boardable_counts(alloc: Global, network: &Network, last: Moment) -> Result<Vec<u32>, NoMemory>
    ensures len { IfOk result (λ room. length room.items ≡ length network.now.change) }
    ensures valid { IfOk result (λ _. IsValid network.now) }
    ensures counts { IfOk result (λ room. (place : ℕ) → place < length network.now.change →
        slice_index room.items place
        ≡ count_by (λ c. is_boardable_by network.now last.0 place c) network.now.connections) }
{
    let mut room: Vec<u32> = vec![in alloc; 0; network.places() as usize]?;
    for id in 0..network.count() {
        let connection = network.get(ConnectionId(id));
        if connection.dep.0 <= last.0 {
            count_ways(&mut room, network, connection.from);
        }
    }
    Ok(room)
}

// A profile for each place, with room for `room[place]` rows.
#[tactic(auto, using(crate::proofs::Common::length_push, crate::proofs::Reserves::rows_pushed, crate::proofs::Reserves::spare_pushed))]
fn reserve_profiles<V: Score>(alloc: Global, room: &[u32]) -> Result<Vec<Profile<V>>, NoMemory>
    ensures len { IfOk result (λ profiles. length profiles.items ≡ length room.now) }
    ensures empty { IfOk result (λ profiles. (place : ℕ) → rows_of_profile profiles.items place ≡ []) }
    ensures room { IfOk result (λ profiles. (place : ℕ) → place < length room.now →
        slice_index room.now place ≤ spare_at profiles.items place) }
{
    let mut profiles = Vec::new(alloc);
    for rows in room {
        let profile = Profile::reserve(alloc, *rows)?;
        profiles.push(profile)?;
    }
    Ok(profiles)
}

// As many values as a delay row may have outcomes.
fn reserve_children<V: Score>(alloc: Global) -> Result<ChildValues<V>, NoMemory> {
    let values = vec![in alloc; V::arrive(Moment(0)); 64]?;
    Ok(ChildValues { values })
}

impl<V: Score> Scanned<V> {
    /// The start leg with its value; `None` if no strategy is safe.
    pub fn start(&self) -> Option<(V, Leg)>
        ensures { result ≡ self.now.start }
    {
        self.start
    }

    /// The leg to take after an arrival at a place other than the target, with its value; `None` if no strategy is safe from
    /// there, or if there is no such place.
    pub fn choice(&self, place: PlaceId, arrival: Moment) -> Option<(V, Leg)>
        ensures { result ≡ choice_of self.now place.0 arrival.0 }
    {
        let profile = self.profiles.get(place.0 as usize)?;
        let row = profile.first(arrival)?;
        Some((row.value, row.leg))
    }

    /// The leg to take after the latest arrivals at a place other than the target, with its value; `None` if no strategy is safe
    /// from there after any arrival, or if there is no such place.
    pub fn last(&self, place: PlaceId) -> Option<(V, Leg)>
        ensures { IsLastChoice self.now place.0 result }
    {
        let profile = self.profiles.get(place.0 as usize)?;
        let rows = profile.rows();
        if rows.is_empty() {
            return None;
        }
        let row = rows[rows.len() - 1];
        Some((row.value, row.leg))
    }
}

// Scans the connections up to the deadline backwards, which leave what all would, and gives the
// start leg. The rows stay in the tables.
fn scan_all<V: Score, B: BackwardOrder>(
    tables: ScanTables<V>,
    network: &Network,
    order: &mut B,
    query: &Query,
) -> (ScanTables<V>, Option<(V, Leg)>)
    requires tables_fit { FitsTablesBy network.now query.now.deadline.0 tables }
    requires fits { B.fits order.old network.now }
    requires whole { IsScanOrder network.now (B.rest order.old network.now) }
    requires differ { query.now.source.0 ≢ query.now.target.0 }
    ensures answers { let found = found_in result.0 result.1 query.now.target.0 in
        HasAnswers V.scoring network.now query.now found }
    ensures rules { let found = found_in result.0 result.1 query.now.target.0 in
        let whole = B.rest order.old network.now in
        FollowsRules V.scoring network.now query.now whole found }
    ensures valid { IsValid network.now }
    ensures fits { B.fits order.new network.now }
    ensures capacity { (place : ℕ) → capacity_at result.0.profiles place ≡ capacity_at tables.profiles place }
    ensures places { length result.0.profiles ≡ length network.now.change }
    ensures runs { length result.0.exits ≡ length tables.exits }
{
    let ScanTables {
        mut profiles,
        mut exits,
        mut kids,
    } = tables;
    order.skip_after(network, query.deadline);
    let mut start: Option<(V, Leg)> = None;
    while let Some(id) = order.next(network) {
        let site = Site { network, query, id };
        start = scan_one(&mut profiles, &mut exits, &mut kids, start, &site);
    }
    let tables = ScanTables {
        profiles,
        exits,
        kids,
    };
    (tables, start)
}

/// Scans all connections backwards, for a query between two different places. What it finds is safe
/// and best: its values are below those of every safe strategy, and each covers the strategy that it
/// chooses, within a gap of as many units as there are connections. Of equal values it keeps the one
/// that it came to first, lowered to the other. The order is used up.
pub fn scan<V: Score, B: BackwardOrder>(
    tables: ScanTables<V>,
    network: &Network,
    order: &mut B,
    query: &Query,
) -> Scanned<V>
    requires tables_fit { FitsTablesBy network.now query.now.deadline.0 tables }
    requires fits { B.fits order.old network.now }
    requires whole { IsScanOrder network.now (B.rest order.old network.now) }
    requires differ { query.now.source.0 ≢ query.now.target.0 }
    ensures solves { Solves V.scoring result network.now query.now }
    ensures rules { let whole = B.rest order.old network.now in
        FollowsRules V.scoring network.now query.now whole result }
    ensures valid { IsValid network.now }
    ensures fits { B.fits order.new network.now }
{
    let (tables, start) = scan_all(tables, network, order, query);
    let ScanTables {
        profiles,
        exits: _exits,
        kids: _kids,
    } = tables;
    Scanned {
        profiles,
        start,
        target: query.target,
    }
}

// Takes out the rows of each place.
fn clear_all<V: Score>(profiles: &mut [Profile<V>])
    ensures empty { (place : ℕ) → rows_of_profile profiles.new place ≡ [] }
    ensures spare { (place : ℕ) → spare_at profiles.new place ≡ capacity_at profiles.old place }
    ensures len { length profiles.new ≡ length profiles.old }
{
    for place in 0..profiles.len() {
        let profile = &mut profiles[place];
        profile.clear();
    }
}

// The tables with all rows and exits taken out.
fn emptied<V: Score>(tables: ScanTables<V>) -> ScanTables<V>
    ensures empty { IsEmpty result.profiles result.exits }
    ensures spare { (place : ℕ) → spare_at result.profiles place ≡ capacity_at tables.profiles place }
    ensures places { length result.profiles ≡ length tables.profiles }
    ensures runs { length result.exits ≡ length tables.exits }
{
    let ScanTables {
        mut profiles,
        mut exits,
        kids,
    } = tables;
    clear_all(&mut profiles);
    exits.clear();
    ScanTables {
        profiles,
        exits,
        kids,
    }
}

// The value of a start leg.
fn leg_value<V: Score>(start: Option<(V, Leg)>) -> Option<V>
    ensures { result ≡ option_map (λ s. s.0) start }
{
    let (value, _) = start?;
    Some(value)
}

/// The value of the best safe strategy from the start, by the same scan; `None` if no strategy is safe. The tables come back
/// empty, for a further scan. The order is used up.
pub fn start_value<V: Score, B: BackwardOrder>(
    tables: ScanTables<V>,
    network: &Network,
    order: &mut B,
    query: &Query,
) -> (ScanTables<V>, Option<V>)
    requires tables_fit { FitsTablesBy network.now query.now.deadline.0 tables }
    requires fits { B.fits order.old network.now }
    requires whole { IsScanOrder network.now (B.rest order.old network.now) }
    requires differ { query.now.source.0 ≢ query.now.target.0 }
    ensures solves { SolvesStart V.scoring network.now query.now result.1 }
    ensures tables_fit { FitsTables network.now tables → FitsTables network.now result.0 }
    ensures by { FitsTables network.now tables → (last : ℕ) → FitsTablesBy network.now last result.0 }
    ensures valid { IsValid network.now }
    ensures fits { B.fits order.new network.now }
{
    let (tables, start) = scan_all(tables, network, order, query);
    let value = leg_value(start);
    (emptied(tables), value)
}
