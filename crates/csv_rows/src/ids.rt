//! Ids, numbered in the order in which they are in a table.
ghost use Rattle.std.specs.Prelude.{◌≡◌, ◌<◌, ◌-◌, ◌^◌, ◌++◌, ◌∷◌, ℕ, [], length, None, Some, IfOk, IfErr, IfSome, OnOk, OnErr, All, Contains, slice_get};
ghost use Rattle.csv_rows.specs.Lists.{first_below, list_below};
ghost use Rattle.csv_rows.specs.Ids.{name_in, AreIds};
ghost use Rattle.csv_rows.specs.Tables.{row_count, number_in, field, field_at};
ghost use Rattle.plan_model.specs.NameLists.{Adds, IsTrimmed};
ghost use Rattle.csv_rows.specs.RowFaults.{repeated_id, ReportsFirst};

use crate::columns::Column;
use crate::feed_tables::{FeedFault, Table};
use crate::names::read_name;
use crate::rows::Rows;
use indexmap::IndexSet;
use plan_model::{HashKey, NoMemory, TextList};
use std::alloc::Global;
use std::marker::Model;

/// Distinct ids, each with its index in the order of the table as its number. None begins or ends with a space.
pub struct Ids {
    key: HashKey,
    ids: TextList,
}

impl Drop for Ids {
    /// Drops its parts here, so that a caller drops one value.
    fn drop(self) {
        let Ids { key, ids } = self;
    }
}

impl Model for Ids {
    ghost use Rattle.std.specs.Prelude.{ℕ, List};

    ghost Value = { List (List ℕ) };

    ghost use Rattle.csv_rows.specs.Ids.{AreIds};

    ghost view = { λ s. s.ids };

    ghost invariant = { λ s. AreIds s.ids };
}

impl Ids {
    /// No ids, which will be hashed by a key when they are looked up.
    pub fn with_key(alloc: Global, key: HashKey) -> Ids
        ensures { result ≡ [] }
    {
        Ids {
            key,
            ids: TextList::new(alloc),
        }
    }

    /// These texts as ids, which will be hashed by a key when they are looked up.
    pub fn of(key: HashKey, texts: TextList) -> Ids
        requires { All IsTrimmed texts }
        ensures { result ≡ texts }
    {
        let _count = texts.len();
        Ids { key, ids: texts }
    }

    /// The key by which they are hashed.
    pub fn key(&self) -> HashKey {
        self.key
    }

    /// Adds an id at the end if it is new, and says whether it is. Each id is looked at in turn. Without memory nothing changes.
    pub fn add(&mut self, alloc: Global, id: &str) -> Result<bool, NoMemory>
        requires room { length self.old < 2 ^ 32 - 1 }
        requires trimmed { IsTrimmed id.now }
        ensures added { IfOk result (Adds self.old self.new id.now) }
        ensures err { OnErr result (self.new ≡ self.old) }
    {
        self.ids.add(alloc, id)
    }

    /// Adds an id that is new at the end. Without memory nothing changes.
    pub fn push(&mut self, alloc: Global, id: &str) -> Result<(), NoMemory>
        requires room { length self.old < 2 ^ 32 - 1 }
        requires trimmed { IsTrimmed id.now }
        requires absent { ¬ Contains self.old id.now }
        ensures ok { OnOk result (self.new ≡ self.old ++ id.now ∷ []) }
        ensures err { OnErr result (self.new ≡ self.old) }
    {
        self.ids.push(alloc, id)
    }

    /// How many there are.
    pub fn len(&self) -> u32
        ensures count { result ≡ length self.now }
        ensures names { AreIds self.now }
    {
        self.ids.len()
    }

    /// The number of an id; `None` if it is not among them. Each id is looked at in turn.
    pub fn number(&self, id: &str) -> Option<u32>
        ensures number { result ≡ number_in id.now self.now }
        ensures inside { IfSome result (λ number. number < length self.now) }
    {
        self.ids.number(id)
    }

    /// The id with this number.
    pub fn get(&self, number: u32) -> &str
        requires { number < length self.now }
        ensures { slice_get self.now number ≡ Some result.now }
    {
        self.ids.get(number)
    }

    /// The ids as texts, in the order of their numbers.
    pub fn texts(&self) -> &TextList
        ensures { result.now ≡ self.now }
    {
        &self.ids
    }
}

/// The name of a row that has one.
fn name_at(rows: &Rows, row: usize, column: Option<usize>) -> &str
    requires inside { row < row_count rows.now }
    requires named { name_in (field_at rows.now column row) ≡ Some (field_at rows.now column row) }
    ensures { result.now ≡ field_at rows.now column row }
{
    match read_name(rows.field_at(row, column)) {
        Some(name) => name,
        None => unreachable!(),
    }
}

/// Texts that are borrowed, found by hashing.
struct Seen<'a> {
    texts: IndexSet<&'a str, HashKey>,
}

impl<'a> Drop for Seen<'a> {
    /// Drops its parts here, so that a caller drops one value.
    fn drop(self) {
        let Seen { texts } = self;
    }
}

/// The ids of all rows; or `DuplicateKey` with the line of the first row whose id is in an earlier one.
pub fn read_ids(alloc: Global, rows: &Rows, table: Table, column: Column) -> Result<Ids, FeedFault>
    requires few { row_count rows.now < 2 ^ 32 - 1 }
    requires named { (i : ℕ) → i < row_count rows.now
        → name_in (field rows.now column i) ≡ Some (field rows.now column i) }
    ensures ids { IfOk result (λ ids. ids ≡ list_below (field rows.now column) (row_count rows.now)) }
    ensures reports { ReportsFirst table
        (first_below (repeated_id table (field rows.now column)) (row_count rows.now)) result }
{
    let index = rows.index_of(column);
    let mut seen = Seen {
        texts: IndexSet::with_hasher(alloc, rows.key()),
    };
    let mut ids = Ids::with_key(alloc, rows.key());
    for i in 0..rows.count() {
        let name = name_at(rows, i, index);
        let new = seen.texts.insert(name)?;
        if !new {
            return Err(FeedFault::DuplicateKey(table, rows.line(i)));
        }
        ids.push(alloc, name)?;
    }
    Ok(ids)
}
