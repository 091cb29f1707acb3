//! Tables of comma-separated values: rows of trimmed fields, the columns that a header names, how much is read, and rows
//! in the order of their keys.
//!
//! A call that takes an allocator may answer that there is no memory, as `NoMemory` or as the variant of that name; then what
//! it was lent is as it was, unless its own comment says otherwise.
#![tactic(auto)]

mod columns;
mod fault_texts;
mod feed_tables;
mod fields;
mod ids;
mod keys;
mod laws;
mod limits;
mod names;
mod row_faults;
mod rows;
mod spaces;

pub use columns::Column;
pub use fault_texts::{at_line, at_line_of, too_many_rows};
pub use feed_tables::{FeedFault, Table};
pub use ids::{Ids, read_ids};
pub use keys::{Key, before_at, first_repeat, in_order, sooner};
pub use laws::{
    a_mark_is_no_record, a_text_is_read_as_its_records, forms_are_one_table, standard_numbers,
};
pub use limits::Limits;
pub use names::{read_name, read_text};
pub use row_faults::{check_columns, lack};
pub use rows::{Rows, RowsFault};
pub use spaces::trimmed;
