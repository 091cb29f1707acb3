//! The tables of a feed from its folder.
ghost use Rattle.std.specs.Prelude.{◌≡◌, ◌≢◌, ◌≤◌, ◌^◌, ◌↔◌, None, Ok, Err, IfOk, IfErr, IsNone, option_map, vec_items, string_bytes};
ghost use Rattle.file_ports.specs.Counts.{KeepsOthers};
ghost use Rattle.csv_rows.specs.FeedTables.{path_of, unread_table, IsFaultOf};
ghost use Rattle.csv_rows.specs.Limits.{rows_of};
ghost use Rattle.table_files.specs.Loading.{loaded_from, loaded_bytes, HasAtMost, IsAbsent};
ghost use Rattle.table_files.specs.Reading.{ReadsTable};
ghost use Rattle.csv_rows.specs.Tables.{table_of};

use csv_rows::{FeedFault, Limits, Rows, RowsFault, Table};
use file_ports::{Files, LoadFault, load};
use plan_model::{HashKey, NoMemory};
use std::alloc::Global;

/// What a folder has of a table.
#[derive(Drop)]
pub enum Loaded {
    /// There is no such file.
    Absent,
    /// The file has no record, not even a header.
    NoRecord,
    /// The file's records.
    Found(Rows),
}

/// The path of a table in a folder.
fn path_of(alloc: Global, folder: &str, table: Table) -> Result<String, NoMemory>
    ensures { IfOk result (λ path. string_bytes path ≡ path_of folder.now table) }
{
    let name = table.file_name();
    let path = format!(in alloc; "{folder}/{name}")?;
    Ok(path)
}

/// The records of a table, at most `most` after the header, with a key for their ids.
fn records_of(
    alloc: Global,
    bytes: &[u8],
    table: Table,
    most: u64,
    key: HashKey,
) -> Result<Loaded, FeedFault>
    ensures loaded { IfOk result (λ l. loaded_from table most (table_of bytes.now) ≡ Ok l) }
    ensures fault { IfErr result (λ f. f ≢ FeedFault.NoMemory
        → loaded_from table most (table_of bytes.now) ≡ Err f) }
    ensures read { IfErr result (λ f. unread_table f ≡ None) }
    ensures present { IfOk result (λ l. IsAbsent l → ⊥) }
    ensures few { IfOk result (HasAtMost most) }
    ensures own { IfErr result (IsFaultOf table) }
{
    match Rows::read(alloc, bytes) {
        Ok(rows) => {
            let count = rows.count() as u64;
            if most < count {
                Err(FeedFault::TooManyRows(table, count))
            } else {
                Ok(Loaded::Found(rows.with_key(key)))
            }
        }
        Err(RowsFault::NoHeader) => Ok(Loaded::NoRecord),
        Err(RowsFault::NoMemory) => Err(FeedFault::NoMemory),
    }
}

/// Reads the file of a table in this folder; `None` if there is no such file. `Read` comes only if opening or reading it
/// failed, and `TooLong` if it has more than `limits.bytes` bytes.
pub fn read_file<F: Files>(
    alloc: Global,
    files: &mut F,
    folder: &str,
    table: Table,
    limits: &Limits,
) -> Result<Option<Vec<u8>>, FeedFault>
    // If the files are known: the bytes, or the fault of this file.
    ensures reads { ReadsTable table folder.now limits.now (F.state files.old) (F.state files.new)
        (λ loaded. loaded) (λ loaded o. loaded ≡ loaded_bytes limits.now table (option_map vec_items o))
        result }
    ensures absent { IfOk result (λ o. IsNone o ↔ ((F.state files.new).in_hand ≡ None)) }
    ensures others { KeepsOthers (path_of folder.now table) (F.state files.old) (F.state files.new) }
{
    let path = path_of(alloc, folder, table)?;
    match load(alloc, files, path.as_str(), limits.bytes) {
        Ok(bytes) => Ok(bytes),
        Err(LoadFault::Read) => Err(FeedFault::Read(table)),
        Err(LoadFault::TooLong) => Err(FeedFault::TooLong(table)),
        Err(LoadFault::NoMemory) => Err(FeedFault::NoMemory),
    }
}

/// Reads a table of the feed in this folder. `Read` and `TooLong` are those of `read_file`. `TooManyRows` comes if there are
/// more records after the header than the limits allow for this table, and has their number.
pub fn read_table<F: Files>(
    alloc: Global,
    files: &mut F,
    folder: &str,
    table: Table,
    limits: &Limits,
) -> Result<Loaded, FeedFault>
    // If the files are known: the records, or the fault of this file.
    ensures reads { ReadsTable table folder.now limits.now (F.state files.old) (F.state files.new)
        (λ loaded. loaded) (λ loaded l. loaded ≡ Ok l) result }
    ensures few { IfOk result (HasAtMost (rows_of limits.now table)) }
    ensures absent { IfOk result (λ l. IsAbsent l ↔ ((F.state files.new).in_hand ≡ None)) }
    ensures others { KeepsOthers (path_of folder.now table) (F.state files.old) (F.state files.new) }
{
    match read_file(alloc, files, folder, table, limits)? {
        None => Ok(Loaded::Absent),
        Some(bytes) => records_of(
            alloc,
            bytes.as_slice(),
            table,
            limits.rows_of(table),
            files.hash_key(),
        ),
    }
}
