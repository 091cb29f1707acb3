//! A record of a table.
ghost use Rattle.std.specs.Prelude.{◌≡◌, ◌+◌, ◌<◌, [], length, slice_index_or};
ghost use Rattle.csv_rows.specs.Tables.{header, row_count};
ghost use Rattle.printed_rows.specs.Fields.{is_kind};

use csv_rows::Rows;
use std::marker::Model;

/// A record of a table, with the number of its line; the first record is line 1.
#[derive(Drop)]
pub struct Record<'a> {
    rows: &'a Rows,
    row: Option<usize>,
}

impl<'a> Model for Record<'a> {
    ghost use Rattle.std.specs.Prelude.{IfSome, ◌<◌};
    ghost use Rattle.csv_rows.specs.Tables.{row_count};
    ghost use Rattle.printed_rows.specs.Records.{ShownRecord, record_at};

    ghost Value = { ShownRecord };

    ghost view = { λ r. record_at r.rows.now r.row };

    ghost invariant = { λ r. IfSome r.row (λ row. row < row_count r.rows.now) };
}

impl<'a> Record<'a> {
    ghost use Rattle.printed_rows.specs.Records.{ShownRecord};

    /// The first record.
    pub fn first(rows: &'a Rows) -> Record<'a>
        ensures { result ≡ record { line = 1; fields = header rows.now } }
    {
        Record { rows, row: None }
    }

    /// The record of a row, which are those after the first.
    pub fn of_row(rows: &'a Rows, row: usize) -> Record<'a>
        requires { row < row_count rows.now }
        ensures { result ≡ record { line = row + 2; fields = slice_index_or rows.now (row + 1) [] } }
    {
        Record {
            rows,
            row: Some(row),
        }
    }

    /// The number of its line.
    pub fn line(&self) -> u64
        ensures { result ≡ self.now.line }
    {
        match self.row {
            None => 1,
            Some(row) => self.rows.line(row),
        }
    }

    /// How many fields it has.
    pub fn width(&self) -> usize
        ensures { result ≡ length self.now.fields }
    {
        match self.row {
            None => self.rows.header_width(),
            Some(row) => self.rows.width(row),
        }
    }

    /// A field, or an empty one past its end.
    pub fn field(&self, index: usize) -> &'a [u8]
        ensures { result.now ≡ slice_index_or self.now.fields index [] }
    {
        match self.row {
            None => self.rows.header_field(index),
            Some(row) => self.rows.field(row, index),
        }
    }

    /// Whether it is of this kind, with this number of fields.
    pub fn is_kind(&self, kind: &[u8], width: usize) -> bool
        ensures { result ≡ is_kind kind.now width self.now.fields }
    {
        self.width() == width && self.field(0) == kind
    }
}
