//! The connections that can be boarded from a place, with the least of their values.
ghost use Rattle.std.specs.Prelude.{◌≡◌, ℕ, ◌+◌, ◌<◌, ◌≤◌, ◌↔◌, length, max, IfOk, OnOk, IsTrue, [], ◌∷◌, ◌++◌, IsPermutation};
ghost use Rattle.lower_proof.specs.Certificates.{IsLeastOf};
ghost use Rattle.lower_proof.specs.Boards.{entry_at, Falls, ValueInTime, AreMinima, AreLate, IsBoard, board_at, HaveEntries, AreFresh};
ghost use Rattle.plan_model.specs.Network.{NetworkModel, count, IsValid};

use crate::{lesser, value_of};
use plan_model::{Connection, ConnectionId, Moment, Network, NoMemory};
use std::alloc::Global;
use std::marker::Model;

/// A connection, by the latest arrival that is in time to board it.
#[derive(Clone, Copy, PartialEq, Eq, PartialOrd, Ord)]
pub struct Entry {
    pub by: Moment,
    pub id: ConnectionId,
}

/// The number of entries that are in time for an arrival.
fn count_in_time(entries: &[Entry], arrival: Moment) -> usize
    requires { Falls entries.now }
    ensures within { result ≤ length entries.now }
    ensures in_time { (k : ℕ) → k < result → arrival.0 ≤ (entry_at entries.now k).by.0 }
    ensures late { (k : ℕ) → result ≤ k → k < length entries.now → (entry_at entries.now k).by.0 < arrival.0 }
{
    entries.partition_point(|entry| entry.by.0 >= arrival.0)
}

/// Computes the least values of the first entries, up to a number of them.
fn extend(
    least: &mut [Option<u64>],
    entries: &[Entry],
    values: &[Option<u64>],
    known: usize,
    wanted: usize,
)
    requires sizes { length entries.now ≤ length least.old }
    requires wanted { wanted ≤ length entries.now }
    requires minima { AreMinima values.now entries.now least.old known }
    ensures sizes { length least.new ≡ length least.old }
    ensures minima { AreMinima values.now entries.now least.new (max known wanted) }
{
    for k in known..wanted {
        let before = if k == 0 { None } else { least[k - 1] };
        least[k] = lesser(before, value_of(values, entries[k].id));
    }
}

/// The connections that can be boarded from a place, by falling moment, and for the first of them the least
/// value of each and those before, in nanoseconds since 1970-01-01.
#[derive(Drop)]
pub struct Board {
    entries: Vec<Entry>,
    least: Vec<Option<u64>>,
    known: usize,
}

impl Model for Board {
    ghost use Rattle.std.specs.Prelude.{◌≡◌, ◌≤◌, length, take};
    ghost use Rattle.lower_proof.specs.Boards.{ShownBoard};

    ghost Value = { ShownBoard };

    ghost view = { λ b. record { entries = b.entries.items; least = take b.known b.least.items } };

    ghost invariant = { λ b. record {
      sizes : length b.entries.items ≤ length b.least.items;
      known : b.known ≤ length b.entries.items;
    } };
}

impl Board {
    /// The least value of the entries that are in time for an arrival, in nanoseconds since 1970-01-01;
    /// `None` if none of these has a value.
    pub fn look(&mut self, values: &[Option<u64>], arrival: Moment) -> Option<u64>
        requires { IsBoard values.now self.old }
        ensures least { IsLeastOf (ValueInTime values.now self.new.entries arrival.0) result }
        ensures entries { self.new.entries ≡ self.old.entries }
        ensures board { IsBoard values.now self.new }
        ensures late { (moment : ℕ) → moment ≤ arrival.0 →
            AreLate moment self.old.entries (length self.old.least) →
            AreLate moment self.new.entries (length self.new.least) }
    {
        let wanted = count_in_time(&self.entries, arrival);
        extend(&mut self.least, &self.entries, values, self.known, wanted);
        self.known = self.known.max(wanted);
        if wanted == 0 {
            None
        } else {
            self.least[wanted - 1]
        }
    }
}

impl Board {
    /// A board without entries.
    fn new(alloc: Global) -> Board
        ensures { result ≡ record { entries = []; least = [] } }
    {
        Board {
            entries: Vec::new(alloc),
            least: Vec::new(alloc),
            known: 0,
        }
    }

    /// Adds an entry at the end, and drops the least values.
    fn add(&mut self, entry: Entry) -> Result<(), NoMemory>
        ensures added { OnOk result (self.new.entries ≡ self.old.entries ++ entry ∷ []) }
        ensures least { self.new.least ≡ [] }
    {
        self.known = 0;
        self.least.push(None)?;
        self.entries.push(entry)?;
        Ok(())
    }

    /// Sorts the entries.
    fn sort(&mut self)
        ensures permutation { IsPermutation self.old.entries self.new.entries }
        ensures falls { Falls self.new.entries }
        ensures least { self.new.least ≡ [] }
    {
        self.known = 0;
        self.entries.sort_unstable();
        self.entries.reverse();
    }
}

/// A board without entries for each place.
fn empty_boards(alloc: Global, places: u32) -> Result<Vec<Board>, NoMemory>
    ensures len { IfOk result (λ boards. length boards.items ≡ places) }
    ensures empty { IfOk result (λ boards. (p : ℕ) → board_at boards.items p ≡ record { entries = []; least = [] }) }
{
    let mut boards = Vec::new(alloc);
    for _ in 0..places {
        boards.push(Board::new(alloc))?;
    }
    Ok(boards)
}

/// Whether a connection can be boarded, and departs by a moment.
fn boards_by(connection: &Connection, last: Moment) -> bool
    ensures { IsTrue result ↔ IsTrue connection.now.can_board × (connection.now.dep.0 ≤ last.0) }
{
    connection.can_board && connection.dep <= last
}

/// Adds a connection to the board of each place from which a way leads to it, if it can be boarded and departs by a
/// moment.
fn add_entries(
    boards: &mut [Board],
    network: &Network,
    id: ConnectionId,
    last: Moment,
) -> Result<(), NoMemory>
    requires there { id.0 < count network.now }
    requires len { length boards.old ≡ length network.now.change }
    ensures len { OnOk result (length boards.new ≡ length network.now.change) }
    ensures entries { OnOk result (HaveEntries network.now last.0 id.0 boards.old
        → HaveEntries network.now last.0 (id.0 + 1) boards.new) }
{
    let connection = network.get(id);
    if !boards_by(&connection, last) {
        return Ok(());
    }
    for k in 0..network.way_count(connection.from) {
        let way = network.way_at(connection.from, k);
        let seconds = u64::from(way.seconds);
        if seconds <= connection.dep.0 {
            let by = Moment(connection.dep.0 - seconds);
            let board = &mut boards[way.from.0 as usize];
            board.add(Entry { by, id })?;
        }
    }
    Ok(())
}

/// Sorts the entries of each board.
fn sort_boards(boards: &mut [Board])
    ensures len { length boards.new ≡ length boards.old }
    ensures fresh { (n : NetworkModel) (last : ℕ) → length boards.old ≡ length n.change
        → HaveEntries n last (count n) boards.old → AreFresh n last boards.new }
{
    for p in 0..boards.len() {
        let board = &mut boards[p];
        board.sort();
    }
}

/// The boards of all places of a network, with the connections that depart by a moment.
pub fn boards(alloc: Global, network: &Network, last: Moment) -> Result<Vec<Board>, NoMemory>
    ensures fresh { IfOk result (λ boards. AreFresh network.now last.0 boards.items) }
    ensures valid { IfOk result (λ _. IsValid network.now) }
{
    let mut boards = empty_boards(alloc, network.places())?;
    for i in 0..network.count() {
        add_entries(&mut boards, network, ConnectionId(i), last)?;
    }
    sort_boards(&mut boards);
    Ok(boards)
}
