//! The records of the table one by one, as `csv` reads them.
ghost use Rattle.std.specs.Prelude.{◌≡◌, ◌≢◌, ◌<◌, ◌^◌, ℕ, [], ◌∷◌, length, true, false, IfOk, IfSome, IfNone, slice_index_or};
ghost use Rattle.csv_rows.specs.Columns.{name_of};
ghost use Rattle.csv_rows.specs.Tables.{field_of, number_in, table_of};

use csv::{ByteRecord, Reader, ReaderBuilder};
use csv_rows::{Column, trimmed};
use plan_model::NoMemory;
use std::alloc::Global;
use std::marker::Model;

/// The fields of one record, with no ASCII space round each.
pub(crate) struct Record {
    row: ByteRecord,
}

impl Drop for Record {
    /// Drops its parts here, so that a caller drops one value.
    fn drop(self) {
        let Record { row } = self;
    }
}

impl Model for Record {
    ghost use Rattle.std.specs.Prelude.{ℕ, List};

    ghost Value = { List (List ℕ) };

    ghost use Rattle.stop_times.specs.RecordFields.{record_of};

    ghost view = { record_of };
}

impl Record {
    /// One with no field.
    pub(crate) fn new(alloc: Global) -> Record {
        Record {
            row: ByteRecord::new(alloc),
        }
    }

    /// How many fields there are.
    fn len(&self) -> usize
        ensures { result ≡ length self.now }
    {
        self.row.len()
    }

    /// The field at an index, or an empty one past the end.
    fn field(&self, index: usize) -> &[u8]
        ensures { result.now ≡ slice_index_or self.now index [] }
    {
        match self.row.get(index) {
            Some(field) => trimmed(field),
            None => &[],
        }
    }

    /// The field under a column at an index: empty past the end, and if the table does not have the column.
    pub(crate) fn field_at(&self, index: Option<usize>) -> &[u8]
        ensures { result.now ≡ field_of self.now index }
    {
        match index {
            Some(column) => self.field(column),
            None => &[],
        }
    }

    /// The index of the first field that is this name; `None` if there is none.
    fn index_named(&self, name: &str) -> Option<usize>
        ensures found { IfSome result (λ i. (i < length self.now)
            × (slice_index_or self.now i [] ≡ name.now)) }
        ensures first { IfSome result (λ i. (k : ℕ) → k < i → slice_index_or self.now k [] ≢ name.now) }
        ensures none { IfNone result ((k : ℕ) → k < length self.now → slice_index_or self.now k [] ≢ name.now) }
    {
        for i in 0..self.len() {
            if self.field(i) == name.as_bytes() {
                return Some(i);
            }
        }
        None
    }

    /// The index of a column in this header; `None` if the header does not have it.
    pub(crate) fn index_of(&self, column: Column) -> Option<usize>
        ensures { result ≡ number_in (name_of column) self.now }
    {
        self.index_named(column.name())
    }
}

/// The records of a text that were not taken yet.
pub(crate) struct Records<'a> {
    reader: Reader<&'a [u8]>,
    is_done: bool,
}

impl<'a> Drop for Records<'a> {
    /// Drops its parts here, so that a caller drops one value.
    fn drop(self) {
        let Records { reader, is_done } = self;
    }
}

impl<'a> Model for Records<'a> {
    ghost use Rattle.std.specs.Prelude.{ℕ, List};

    ghost Value = { List (List (List ℕ)) };

    ghost use Rattle.stop_times.specs.RecordsRemaining.{records_remaining, IsBetween};

    ghost view = { records_remaining };

    ghost invariant = { IsBetween };
}

impl<'a> Records<'a> {
    /// The records of a text, as `Rows::read` takes them, the header first.
    pub(crate) fn of(alloc: Global, bytes: &'a [u8]) -> Records<'a>
        ensures { result ≡ table_of bytes.now }
    {
        Records {
            reader: ReaderBuilder::new()
                .has_headers(false)
                .flexible(true)
                .from_reader(alloc, bytes),
            is_done: false,
        }
    }

    /// Takes the next record in place of the fields that are there, if there is one.
    pub(crate) fn next(&mut self, fields: &mut Record) -> Result<bool, NoMemory>
        ensures some { IfOk result (λ found. found ≡ true → self.old ≡ fields.new ∷ self.new) }
        ensures none { IfOk result (λ found. found ≡ false → self.old ≡ []) }
    {
        if self.is_done {
            return Ok(false);
        }
        match self.reader.read_byte_record(&mut fields.row) {
            Ok(true) => Ok(true),
            Ok(false) => {
                self.is_done = true;
                Ok(false)
            }
            Err(_) => {
                self.is_done = true;
                Err(NoMemory)
            }
        }
    }

    /// How many there are. Each is taken in place of the fields that are there.
    pub(crate) fn count(&mut self, fields: &mut Record) -> Result<u64, NoMemory>
        ensures count { IfOk result (λ n. n ≡ length self.old) }
        ensures few { IfOk result (λ n. n < 2 ^ 63) }
    {
        for count in 0..1 << 63 {
            if !self.next(fields)? {
                return Ok(count);
            }
        }
        Err(NoMemory)
    }
}
