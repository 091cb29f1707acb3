//! The faults that tables have alike.
ghost use Rattle.std.specs.Prelude.{◌≡◌, None, IfSome};
ghost use Rattle.csv_rows.specs.FeedTables.{unread_table, IsFaultOf};
ghost use Rattle.csv_rows.specs.RowFaults.{lack, first_missing, ReportsFirst};

use crate::columns::Column;
use crate::feed_tables::{FeedFault, Table};
use crate::rows::Rows;

/// `MissingColumn` of a required column that has no index in the header; `None` if it has one.
pub fn lack(table: Table, column: Column, index: Option<usize>) -> Option<FeedFault>
    ensures fault { result ≡ lack table column index }
    ensures content { IfSome result (λ f. unread_table f ≡ None) }
    ensures own { IfSome result (IsFaultOf table) }
{
    if index.is_none() {
        return Some(FeedFault::MissingColumn(table, column));
    }
    None
}

/// That the header has all of these columns; or `MissingColumn` of the first that is absent.
pub fn check_columns(rows: &Rows, table: Table, required: &[Column]) -> Result<(), FeedFault>
    ensures { ReportsFirst table (first_missing table rows.now required.now) result }
{
    for i in 0..required.len() {
        if let Some(fault) = lack(table, required[i], rows.index_of(required[i])) {
            return Err(fault);
        }
    }
    Ok(())
}
