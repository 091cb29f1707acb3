//! The texts of faults.
ghost use Rattle.std.specs.Prelude.{◌++◌, codes};
ghost use Rattle.std.specs.Fmt.{WritesOnOk};
ghost use Rattle.csv_rows.specs.FaultTexts.{at_line, too_many_rows};

use crate::feed_tables::FeedFault;
use std::fmt;

/// Writes what is wrong at a line of a file. An error is one of the formatter.
pub fn at_line<W: fmt::Write>(
    f: &mut fmt::Formatter<W>,
    file: &str,
    line: u64,
    what: &str,
) -> fmt::Result
    ensures { WritesOnOk W.write_str_gives f.old result (at_line file.now line what.now) f.new }
{
    write!(f, "{file} line {line}: {what}")
}

/// Writes what is wrong with a column at a line of a file. An error is one of the formatter.
pub fn at_line_of<W: fmt::Write>(
    f: &mut fmt::Formatter<W>,
    file: &str,
    line: u64,
    what: &str,
    column: &str,
) -> fmt::Result
    ensures { WritesOnOk W.write_str_gives f.old result
        (at_line file.now line (what.now ++ (codes " " ++ column.now))) f.new }
{
    write!(f, "{file} line {line}: {what} {column}")
}

/// Writes that a file has too many rows. An error is one of the formatter.
pub fn too_many_rows<W: fmt::Write>(
    f: &mut fmt::Formatter<W>,
    file: &str,
    count: u64,
) -> fmt::Result
    ensures { WritesOnOk W.write_str_gives f.old result (too_many_rows file.now count) f.new }
{
    write!(f, "{file} has too many rows: {count}")
}

impl fmt::Display for FeedFault {
    ghost use Rattle.std.specs.Prelude.{Some};
    ghost use Rattle.csv_rows.specs.FaultTexts.{feed_fault_text};

    ghost output = { λ fault. Some (feed_fault_text fault) };

    fn fmt<W: fmt::Write>(&self, f: &mut fmt::Formatter<W>) -> fmt::Result {
        match *self {
            FeedFault::MissingTable(table) => {
                let file = table.file_name();
                write!(f, "{file} is missing")
            }
            FeedFault::MissingColumn(table, column) => {
                let file = table.file_name();
                let name = column.name();
                write!(f, "{file} has no column {name}")
            }
            FeedFault::BadField(table, line, column) => {
                at_line_of(f, table.file_name(), line, "bad", column.name())
            }
            FeedFault::UnknownKey(table, line, column) => {
                at_line_of(f, table.file_name(), line, "unknown", column.name())
            }
            FeedFault::DuplicateKey(table, line) => {
                at_line(f, table.file_name(), line, "repeated key")
            }
            FeedFault::BackwardTime(line) => at_line(f, "stop_times.txt", line, "time goes back"),
            FeedFault::Read(table) => {
                let file = table.file_name();
                write!(f, "cannot read {file}")
            }
            FeedFault::TooLong(table) => {
                let file = table.file_name();
                write!(f, "{file} is too long")
            }
            FeedFault::TooManyRows(table, count) => too_many_rows(f, table.file_name(), count),
            FeedFault::NoMemory => f.write_str("out of memory"),
        }
    }
}
