//! The rows of a table.
ghost use Rattle.std.specs.Prelude.{◌≡◌, ◌<◌, ◌+◌, ◌-◌, ◌^◌, ℕ, List, [], ◌∷◌, ◌++◌, map, length, take, OnOk, OnErr, IfOk, IfSome, IfNone, IsErrOf, Err, slice_index_or, ◌≢◌};
ghost use Rattle.csv.specs.Records as csv;
ghost use Rattle.csv_rows.specs.Parts.{parts_from, Fills};
ghost use Rattle.csv_rows.specs.Spaces.{trimmed_text, AreTrimmed};
ghost use Rattle.csv_rows.specs.Tables.{table_of, header, row_count, index_of, field_at};

use crate::columns::Column;
use crate::fields::{END_OF_ENDS, Fields, start_of};
use crate::spaces::trimmed;
use csv::{ByteRecord, Reader, ReaderBuilder};
use plan_model::{HashKey, NoMemory};
use std::alloc::{AllocError, Global};
use std::marker::Model;

/// The records of a table, the header first.
pub struct Rows {
    fields: Fields,
    ends: Vec<u32>,
    key: HashKey,
}

impl Drop for Rows {
    /// Drops its parts here, so that a caller drops one value.
    fn drop(self) {
        let Rows { fields, ends, key } = self;
    }
}

impl Model for Rows {
    ghost use Rattle.std.specs.Prelude.{ℕ, List};

    ghost Value = { List (List (List ℕ)) };

    ghost use Rattle.csv_rows.specs.Rows.{rows_of, AreRows};

    ghost view = { rows_of };

    ghost invariant = { AreRows };
}

/// The field of a record at an index.
fn field_of(row: &ByteRecord, i: usize) -> &[u8]
    requires { i < length (csv.fields_of row.now) }
    ensures { result.now ≡ slice_index_or (csv.fields_of row.now) i [] }
{
    match row.get(i) {
        Some(field) => field,
        None => unreachable!(),
    }
}

/// Adds the fields of a record, with no ASCII space round each.
#[tactic(auto, using(crate::proofs::TableLemmas::one_more_field))]
fn push_fields(fields: &mut Fields, row: &ByteRecord) -> Result<(), AllocError>
    ensures { OnOk result (fields.new ≡ fields.old ++ map trimmed_text (csv.fields_of row.now)) }
{
    for i in 0..row.len() {
        fields.push(trimmed(field_of(row, i)))?;
    }
    Ok(())
}

/// Adds a record to the fields of all rows, and where it ends to the ends of the rows.
fn push_row(fields: &mut Fields, ends: &mut Vec<u32>, row: &ByteRecord) -> Result<(), NoMemory>
    requires { Fills ends.old.items (length fields.old) }
    ensures fills { OnOk result (Fills ends.new.items (length fields.new)) }
    ensures rows { OnOk result (parts_from 0 ends.new.items fields.new
        ≡ parts_from 0 ends.old.items fields.old ++ map trimmed_text (csv.fields_of row.now) ∷ []) }
{
    push_fields(fields, row)?;
    let end = fields.len();
    if end >= END_OF_ENDS {
        return Err(NoMemory);
    }
    ends.push(end as u32)?;
    Ok(())
}

/// The rows, if there is one.
fn finished(fields: Fields, ends: Vec<u32>) -> Result<Rows, RowsFault>
    requires fills { Fills ends.items (length fields) }
    requires trimmed { AreTrimmed (parts_from 0 ends.items fields) }
    ensures rows { IfOk result (λ rows. rows ≡ parts_from 0 ends.items fields) }
    ensures header { IfOk result (λ rows. 0 < length rows) }
    ensures none { OnErr result (parts_from 0 ends.items fields ≡ []) }
    ensures no_header { OnErr result (result ≡ Err RowsFault.NoHeader) }
{
    if ends.as_slice().is_empty() {
        return Err(RowsFault::NoHeader);
    }
    let key = HashKey::fixed();
    Ok(Rows { fields, ends, key })
}

/// A text whose records are read.
struct Source<'a> {
    reader: Reader<&'a [u8]>,
}

impl<'a> Drop for Source<'a> {
    /// Drops its parts here, so that a caller drops one value.
    fn drop(self) {
        let Source { reader } = self;
    }
}

/// Why a text is no table.
#[derive(Clone, Copy, Debug, PartialEq, Eq)]
pub enum RowsFault {
    /// The text has no record.
    NoHeader,
    /// There was no memory, or the text has 2^32 bytes or fields.
    NoMemory,
}

impl From<NoMemory> for RowsFault {
    ghost use Rattle.std.specs.Prelude.{◌≡◌};
    ghost use Rattle.csv_rows.specs.declared.rows.RowsFault.TheVariants.{NoMemory as NoMemoryFault};

    ghost from_gives = { λ _ fault. fault ≡ NoMemoryFault };

    fn from(_: NoMemory) -> Self {
        RowsFault::NoMemory
    }
}

impl Rows {
    /// The records of a text after RFC 4180, with fields that commas part and double quotes may enclose, and records of any
    /// length that LF, CR or CRLF ends. A blank line is no record. One byte-order mark at the start is dropped, and so are
    /// the ASCII spaces round each field. The answer is `NoHeader` exactly if there is no record.
    pub fn read(alloc: Global, bytes: &[u8]) -> Result<Rows, RowsFault>
        ensures rows { IfOk result (λ rows. rows ≡ table_of bytes.now) }
        ensures header { IfOk result (λ rows. 0 < length rows) }
        ensures none { IsErrOf result RowsFault.NoHeader → table_of bytes.now ≡ [] }
    {
        let reader = ReaderBuilder::new()
            .has_headers(false)
            .flexible(true)
            .from_reader(alloc, bytes);
        let mut source = Source { reader };
        let mut row = ByteRecord::new(alloc);
        let mut fields = Fields::new(alloc);
        let mut ends = Vec::new(alloc);
        for _ in 0..u64::MAX {
            let Ok(found) = source.reader.read_byte_record(&mut row) else {
                return Err(RowsFault::NoMemory);
            };
            if !found {
                return finished(fields, ends);
            }
            push_row(&mut fields, &mut ends, &row)?;
        }
        Err(RowsFault::NoMemory)
    }

    /// The same rows, with a key by which their ids are hashed.
    pub fn with_key(self, key: HashKey) -> Rows
        ensures { result ≡ self }
    {
        let Rows {
            fields,
            ends,
            key: _before,
        } = self;
        Rows { fields, ends, key }
    }

    /// The key by which their ids are hashed: a fixed one if no other was given.
    pub fn key(&self) -> HashKey {
        self.key
    }

    /// How many records there are after the header.
    #[tactic(auto, using(crate::proofs::PartsLemmas::length_parts))]
    pub fn count(&self) -> usize
        ensures count { result ≡ row_count self.now }
        ensures few { result < 2 ^ 62 }
        ensures trimmed { AreTrimmed self.now }
    {
        let ends: &[u32] = &self.ends;
        ends.len().saturating_sub(1)
    }

    /// The line of a row, as refusals name it: its number among the records; the header is line 1.
    pub fn line(&self, row: usize) -> u64
        requires { row < row_count self.now }
        ensures { result ≡ row + 2 }
    {
        let _count = self.count();
        row as u64 + 2
    }

    /// How many fields a record has; the header is record 0.
    #[tactic(auto, using(crate::proofs::PartsLemmas::end_there))]
    fn record_width(&self, index: usize) -> usize
        requires { index < length self.now }
        ensures { result ≡ length (slice_index_or self.now index []) }
    {
        width_at(&self.ends, &self.fields, index)
    }

    /// The field of a record, or an empty one past its end.
    #[tactic(auto, using(crate::proofs::PartsLemmas::end_there))]
    fn record_field(&self, index: usize, column: usize) -> &[u8]
        requires { index < length self.now }
        ensures { result.now ≡ slice_index_or (slice_index_or self.now index []) column [] }
    {
        field_in(&self.fields, &self.ends, index, column)
    }

    /// How many fields the header has.
    pub fn header_width(&self) -> usize
        ensures { result ≡ length (header self.now) }
    {
        width_at(&self.ends, &self.fields, 0)
    }

    /// The field of the header, or an empty one past its end.
    pub fn header_field(&self, column: usize) -> &[u8]
        ensures { result.now ≡ slice_index_or (header self.now) column [] }
    {
        field_in(&self.fields, &self.ends, 0, column)
    }

    /// The index of the first field of the header that is this name; `None` if there is none.
    pub fn column(&self, name: &str) -> Option<usize>
        ensures found { IfSome result (λ i. (i < length (header self.now))
            × (slice_index_or (header self.now) i [] ≡ name.now)) }
        ensures first { IfSome result (λ i. (k : ℕ) → k < i
            → slice_index_or (header self.now) k [] ≢ name.now) }
        ensures none { IfNone result ((k : ℕ) → k < length (header self.now)
            → slice_index_or (header self.now) k [] ≢ name.now) }
    {
        for i in 0..self.header_width() {
            if self.header_field(i) == name.as_bytes() {
                return Some(i);
            }
        }
        None
    }

    /// The index of a column: that of the first field of the header with its name; `None` if there is none.
    pub fn index_of(&self, column: Column) -> Option<usize>
        ensures { result ≡ index_of column self.now }
    {
        self.column(column.name())
    }

    /// The index of a row among the records.
    fn record_of(&self, row: usize) -> usize
        requires { row < row_count self.now }
        ensures { result ≡ row + 1 }
    {
        let _count = self.count();
        row + 1
    }

    /// The field of a row, or an empty one past its end.
    pub fn field(&self, row: usize, column: usize) -> &[u8]
        requires { row < row_count self.now }
        ensures { result.now ≡ slice_index_or (slice_index_or self.now (row + 1) []) column [] }
    {
        let record = self.record_of(row);
        self.record_field(record, column)
    }

    /// The field of a row under a column at an index: empty past its end, and if the table has no such column.
    pub fn field_at(&self, row: usize, column: Option<usize>) -> &[u8]
        requires { row < row_count self.now }
        ensures { result.now ≡ field_at self.now column row }
    {
        match column {
            Some(column) => self.field(row, column),
            None => &[],
        }
    }

    /// How many fields a row has.
    pub fn width(&self, row: usize) -> usize
        requires { row < row_count self.now }
        ensures { result ≡ length (slice_index_or self.now (row + 1) []) }
    {
        let record = self.record_of(row);
        self.record_width(record)
    }
}

/// How many fields the record at an index has.
fn width_at(ends: &[u32], fields: &Fields, index: usize) -> usize
    requires index { index < length ends.now }
    requires fills { Fills ends.now (length fields.now) }
    ensures { result ≡ length (slice_index_or (parts_from 0 ends.now fields.now) index []) }
{
    ends[index] as usize - start_of(ends, index)
}

/// The field of the record at an index, or an empty one past its end.
fn field_in<'a>(fields: &'a Fields, ends: &[u32], index: usize, column: usize) -> &'a [u8]
    requires index { index < length ends.now }
    requires fills { Fills ends.now (length fields.now) }
    ensures { result.now ≡ slice_index_or (slice_index_or (parts_from 0 ends.now fields.now) index []) column [] }
{
    if column >= width_at(ends, fields, index) {
        return &[];
    }
    fields.get(start_of(ends, index) + column)
}
