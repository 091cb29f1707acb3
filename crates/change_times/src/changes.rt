//! The change times of the places of a feed, and the links between them.
ghost use Rattle.std.specs.Prelude.{◌≡◌, ◌<◌, ◌≤◌, ◌+◌, ◌-◌, ◌^◌, ℕ, None, Ok, IfOk, IfSome, IsOkAnd, OnOk, is_none, nat_eq, length, if◌then◌else◌, []};
ghost use Rattle.plan_model.specs.Bounds.{seconds_per_day};
ghost use Rattle.std.specs.HashMap.{get};
ghost use Rattle.csv_rows.specs.declared.feed_tables.Table.TheVariants.{Transfers as TransfersTable};
ghost use Rattle.csv_rows.specs.Lists.{first_below};
ghost use Rattle.csv_rows.specs.RowFaults.{ReportsFirst};
ghost use Rattle.table_files.specs.Loading.{loaded_rows, Records};
ghost use Rattle.table_files.specs.Reading.{ReadsTable};
ghost use Rattle.csv_rows.specs.Tables.{row_count};
ghost use Rattle.gtfs_tables.specs.Feeds.{FeedParts};
ghost use Rattle.change_times.specs.Transfers.{bad_transfer, transfers_fault};
ghost use Rattle.change_times.specs.Walks.{greater, walks_of, most_to, seconds_between, link_between};
ghost use Rattle.plan_model.specs.Network.{AreLinksInto};
ghost use Rattle.change_times.specs.TransfersSoFar.{AreCollected};
ghost use Rattle.change_times.specs.Changes.{fault_of_transfers, place_seconds, links_of, transfers_from, AreCollectedChanges, AreReportedBySome, LinksComeFrom};

use crate::links::{Walk, Ways, add_walk, links_of, no_walks};
use crate::stops::FeedStops;
use crate::transfers::{Transfer, read_transfer, transfer_columns};
use csv_rows::{Column, FeedFault, Limits, Rows, Table, check_columns};
use file_ports::Files;
use gtfs_tables::Feed;
use plan_model::{HashKey, List, NoMemory, PlaceId, Way};
use std::alloc::Global;
use std::collections::HashMap;
use std::marker::Model;
use table_files::{Loaded, read_table};

/// The change times of the places of a feed, and the links between them.
pub struct Changes {
    seconds: HashMap<u32, u32, HashKey>,
    links: Vec<Ways>,
    passed: u64,
}

impl Drop for Changes {
    /// Drops its parts here, so that a caller drops one value.
    fn drop(self) {
        let Changes {
            seconds,
            links,
            passed,
        } = self;
    }
}

impl Model for Changes {
    ghost use Rattle.change_times.specs.Changes.{ChangeParts};

    ghost Value = { ChangeParts };

    ghost use Rattle.change_times.specs.Inside.{change_parts_of, AreSound};

    ghost view = { change_parts_of };

    ghost invariant = { AreSound };
}

/// What rows say: the change times of places, the walks from each place, and how many rows say neither.
#[derive(Drop)]
pub(crate) struct TransfersSoFar {
    seconds: HashMap<u32, u32, HashKey>,
    walks: Vec<List<Walk>>,
    passed: u64,
}

/// Notes a transfer that stays at its place: its seconds, unless the place has greater ones.
fn note_change(seconds: &mut HashMap<u32, u32, HashKey>, transfer: Transfer) -> Result<(), NoMemory>
    requires { transfer.from ≡ transfer.to }
    ensures { OnOk result ((place : ℕ) → get nat_eq seconds.new place
        ≡ greater (get nat_eq seconds.old place) (seconds_between place place (Some transfer))) }
{
    let most = match seconds.get(&transfer.to) {
        Some(before) => transfer.seconds.max(*before),
        None => transfer.seconds,
    };
    seconds.insert(transfer.to, most)?;
    Ok(())
}

/// What no rows say of this number of places, which will be hashed by a key.
fn nothing_reported(alloc: Global, places: u32, key: HashKey) -> Result<TransfersSoFar, NoMemory>
    ensures { IfOk result (λ reported. (feed : FeedParts) → (t : Records) → length feed.stop_ids ≡ places
        → AreCollected feed t 0 reported) }
{
    let walks = no_walks(alloc, places)?;
    Ok(TransfersSoFar {
        seconds: HashMap::with_hasher(alloc, key),
        walks,
        passed: 0,
    })
}

/// Notes the transfer of a row, or that it has none.
fn note(reported: &mut TransfersSoFar, transfer: Option<Transfer>) -> Result<(), NoMemory>
    requires few { reported.old.passed < 2 ^ 64 - 1 }
    requires from { IfSome transfer (λ t. t.from < length reported.old.walks.items) }
    ensures size { OnOk result (length reported.new.walks.items ≡ length reported.old.walks.items) }
    ensures seconds { OnOk result ((place : ℕ) → get nat_eq reported.new.seconds place
        ≡ greater (get nat_eq reported.old.seconds place) (seconds_between place place transfer)) }
    ensures walks { OnOk result ((from to : ℕ) → most_to to (walks_of reported.new.walks.items from)
        ≡ greater (most_to to (walks_of reported.old.walks.items from)) (link_between from to transfer)) }
    ensures passed { OnOk result (reported.new.passed
        ≡ reported.old.passed + (if is_none transfer then 1 else 0)) }
{
    let Some(transfer) = transfer else {
        reported.passed += 1;
        return Ok(());
    };
    if transfer.from == transfer.to {
        return note_change(&mut reported.seconds, transfer);
    }
    add_walk(&mut reported.walks, transfer)
}

/// What the rows say, or the first of their faults.
fn collect(
    nothing: TransfersSoFar,
    feed: &FeedStops<'_>,
    rows: &Rows,
) -> Result<TransfersSoFar, FeedFault>
    requires { AreCollected feed.now rows.now 0 nothing }
    ensures reported { IfOk result (AreCollected feed.now rows.now (row_count rows.now)) }
    ensures reports { ReportsFirst TransfersTable
        (first_below (bad_transfer feed.now rows.now) (row_count rows.now)) result }
{
    let columns = transfer_columns(rows);
    let mut reported = nothing;
    for i in 0..rows.count() {
        let transfer = read_transfer(feed, rows, columns, i)?;
        note(&mut reported, transfer)?;
    }
    Ok(reported)
}

/// What the rows say of a feed, whose stops are found by their ids, or the first of their faults.
fn reported_of(
    alloc: Global,
    nothing: TransfersSoFar,
    feed: &Feed,
    rows: &Rows,
) -> Result<TransfersSoFar, FeedFault>
    requires { AreCollected feed.now rows.now 0 nothing }
    ensures reported { IfOk result (AreCollected feed.now rows.now (row_count rows.now)) }
    ensures reports { ReportsFirst TransfersTable
        (first_below (bad_transfer feed.now rows.now) (row_count rows.now)) result }
{
    let stops = FeedStops::of(alloc, feed)?;
    collect(nothing, &stops, rows)
}

/// The change times and the links of the rows, or the first of their faults.
fn read_rows(alloc: Global, feed: &Feed, rows: &Rows) -> Result<Changes, FeedFault>
    ensures changes { IfOk result (λ c. AreCollectedChanges feed.now c rows.now) }
    ensures links { IfOk result (λ c. LinksComeFrom (length feed.now.stop_ids) c) }
    ensures reports { ReportsFirst TransfersTable
        (first_below (bad_transfer feed.now rows.now) (row_count rows.now)) result }
{
    let nothing = nothing_reported(alloc, feed.stop_count(), rows.key())?;
    let reported = reported_of(alloc, nothing, feed, rows)?;
    let links = links_of(alloc, reported.walks.as_slice())?;
    Ok(Changes {
        seconds: reported.seconds,
        links,
        passed: reported.passed,
    })
}

/// The change times and the links of a table, or the first of its faults.
fn read_transfers(alloc: Global, feed: &Feed, rows: &Rows) -> Result<Changes, FeedFault>
    ensures changes { IfOk result (λ c. AreCollectedChanges feed.now c rows.now) }
    ensures links { IfOk result (λ c. LinksComeFrom (length feed.now.stop_ids) c) }
    ensures reports { ReportsFirst TransfersTable (transfers_fault feed.now rows.now) result }
{
    check_columns(
        rows,
        Table::Transfers,
        &[Column::FromStopId, Column::ToStopId, Column::TransferType],
    )?;
    read_rows(alloc, feed, rows)
}

/// No change times and no links, as of a table with no rows, whatever the feed is.
fn no_changes(alloc: Global) -> Changes
    ensures changes { (feed : FeedParts) → AreCollectedChanges feed result [] }
    ensures links { (places : ℕ) → LinksComeFrom places result }
{
    Changes {
        seconds: HashMap::with_hasher(alloc, HashKey::fixed()),
        links: Vec::new(alloc),
        passed: 0,
    }
}

/// The change times and the links of the table that is loaded, or the first of its faults.
fn changes_of(alloc: Global, feed: &Feed, loaded: &Loaded) -> Result<Changes, FeedFault>
    ensures changes { IfOk result (λ c. AreCollectedChanges feed.now c (loaded_rows loaded.now)) }
    ensures links { IfOk result (λ c. LinksComeFrom (length feed.now.stop_ids) c) }
    ensures reports { ReportsFirst TransfersTable (fault_of_transfers feed.now loaded.now) result }
{
    match loaded {
        Loaded::Found(rows) => read_transfers(alloc, feed, rows),
        Loaded::Absent => Ok(no_changes(alloc)),
        Loaded::NoRecord => Ok(no_changes(alloc)),
    }
}

impl Changes {
    /// Reads `transfers.txt` of the feed in this folder, or answers the first of its faults. The table may be absent. The
    /// faults come in this order: those of `read_table`; `MissingColumn`; `BadField`, and `UnknownKey` of a stop that the
    /// feed does not have, by line, and in a line by
    /// `transfer_type`, `from_stop_id`, `to_stop_id` and `min_transfer_time`. The last three are looked at only in a row of
    /// type 2 that names no route and no trip.
    pub fn read<F: Files>(
        alloc: Global,
        files: &mut F,
        folder: &str,
        feed: &Feed,
        limits: &Limits,
    ) -> Result<Changes, FeedFault>
        ensures reads { ReadsTable TransfersTable folder.now limits.now (F.state files.old) (F.state files.new)
            (transfers_from feed.now) (λ read c. IsOkAnd read (AreCollectedChanges feed.now c)) result }
        ensures sound { IfOk result (AreReportedBySome feed.now) }
        ensures links { IfOk result (λ c. LinksComeFrom (length feed.now.stop_ids) c) }
    {
        let loaded = read_table(alloc, files, folder, Table::Transfers, limits)?;
        changes_of(alloc, feed, &loaded)
    }

    /// The seconds that a change at a place takes: the greatest `min_transfer_time` of the rows of type 2 that name no route
    /// and no trip and whose two stops have this place, 1 at least, and 120 if there is no such row.
    pub fn seconds(&self, place: PlaceId) -> u32
        ensures value { result ≡ place_seconds self.now place.0 }
        ensures least { 1 ≤ result }
        ensures most { result ≤ seconds_per_day }
    {
        match self.seconds.get(&place.0) {
            Some(seconds) => 1u32.max(*seconds),
            None => 120,
        }
    }

    /// The links into a place from others, by rising place that they come from: for each the greatest `min_transfer_time` of
    /// the rows of type 2 that name no route and no trip, whose first stop has the place that it comes from and whose second
    /// stop has this place; 1 at least. A link is walked in this direction alone, and links are not joined to longer ones.
    pub fn links_into(&self, place: PlaceId) -> &[Way]
        ensures links { result.now ≡ links_of self.now place.0 }
        ensures sound { (to : ℕ) → AreLinksInto 4294967296 to (links_of self.now to) }
    {
        match self.links.get(place.0 as usize) {
            Some(links) => links.as_slice(),
            None => &[],
        }
    }

    /// How many rows of the table have neither a change time nor a link.
    pub fn passed(&self) -> u64
        ensures { result ≡ self.now.passed }
    {
        self.passed
    }
}
