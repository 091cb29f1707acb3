//! A row of a table.
ghost use Rattle.std.specs.Prelude.{◌≡◌, ◌+◌, ◌<◌};
ghost use Rattle.csv_rows.specs.Tables.{row_count, field_at};

use csv_rows::Rows;

/// A row of a table by its index, which is 0 for the first one after the header.
#[derive(Clone, Copy)]
pub(crate) struct Row<'a> {
    /// The table.
    pub(crate) rows: &'a Rows,
    /// The index of the row.
    pub(crate) index: usize,
    pub(crate) ghost inside: { index < row_count rows.now },
}

impl<'a> Row<'a> {
    /// Its line, as refusals name it: its number among the records, where the header is line 1.
    pub(crate) fn line(&self) -> u64
        ensures { result ≡ self.now.index + 2 }
    {
        self.rows.line(self.index)
    }

    /// Its field under the column at an index: empty past the row's end, and if the table has no such column.
    pub(crate) fn field_at(&self, column: Option<usize>) -> &'a [u8]
        ensures { result.now ≡ field_at self.now.rows.now column self.now.index }
    {
        self.rows.field_at(self.index, column)
    }
}
