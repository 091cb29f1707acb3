//! The tables that must be present in a feed.
ghost use Rattle.std.specs.Prelude.{◌≡◌, ◌≤◌, Ok, IfOk};
ghost use Rattle.csv_rows.specs.Limits.{rows_of};
ghost use Rattle.csv_rows.specs.Tables.{row_count};
ghost use Rattle.table_files.specs.Reading.{ReadsTable};
ghost use Rattle.table_files.specs.Loading.{required};

use crate::loading::{Loaded, read_table};
use csv_rows::{Column, FeedFault, Limits, Rows, Table};
use file_ports::Files;
use std::alloc::Global;

/// The records of a table that must be present. `MissingTable` comes if there is no such file, and `MissingColumn` of this
/// first column if the file has no record. The other faults are those of `read_table`.
pub fn read_required<F: Files>(
    alloc: Global,
    files: &mut F,
    folder: &str,
    table: Table,
    first: Column,
    limits: &Limits,
) -> Result<Rows, FeedFault>
    ensures reads { ReadsTable table folder.now limits.now (F.state files.old) (F.state files.new)
        (required table first) (λ loaded t. loaded ≡ Ok t) result }
    ensures few { IfOk result (λ t. row_count t ≤ rows_of limits.now table) }
{
    match read_table(alloc, files, folder, table, limits)? {
        Loaded::Found(rows) => Ok(rows),
        Loaded::Absent => Err(FeedFault::MissingTable(table)),
        Loaded::NoRecord => Err(FeedFault::MissingColumn(table, first)),
    }
}
