//! The files that a command reads.
ghost use Rattle.std.specs.Prelude.{◌≡◌, ◌≢◌, ℕ, List as Bytes, Some, None, IfSome, IfOk, IfErr, ◌+◌};
ghost use Rattle.csv_rows.specs.Tables.{table_of};
ghost use Rattle.delay_table.specs.Slots.{AreDelays};
ghost use Rattle.file_ports.specs.Ports.{file_at};
ghost use Rattle.journey_model.specs.Faults.{MayBeUnread, unread_input};
ghost use Rattle.journey_problem.specs.Files.{bytes_of, records_of, Finds, HasCauses, IsOfInput};
ghost use Rattle.command_line.specs.Jobs.{SourceModel, CutFile};
ghost use Rattle.journey_problem.specs.FaultsBeforeSearch.{IsBeforeSearch, IsInputOf};
ghost use Rattle.journey_problem.specs.InputTables.{cut_as, CutAgrees, DelayAgrees, IsCutOfSome};

use csv_rows::{Column, Limits, Rows, RowsFault};
use cut_file::{CutFault, CutTable, read_cut};
use delay_table::{DelayFault, DelayTable};
use file_ports::{Files, LoadFault, load};
use journey_model::{Fault, Input, LimitKind};
use std::alloc::Global;

/// The bytes of an input; or `Missing` if there is no such file, `Read` if it cannot be read, and `Limit` if it has more
/// bytes than that.
pub(crate) fn load_bytes<F: Files>(
    alloc: Global,
    files: &mut F,
    path: &str,
    input: Input,
    limits: &Limits,
) -> Result<Vec<u8>, Fault>
    ensures bytes { IfSome (F.state files.old).files (λ m. Finds (λ bytes. bytes.items)
        (λ unread. bytes_of limits.now.bytes input unread (file_at m path.now)) result) }
    ensures own { IfErr result (MayBeUnread input) }
    ensures early { (timetable : SourceModel) → IsInputOf timetable input
        → IfErr result (IsBeforeSearch timetable) }
    ensures stage { IfErr result (λ fault. fault ≢ Fault.NoMemory → IsOfInput input fault) }
    ensures causes { HasCauses (λ other. Some path.now) (F.state files.old) (F.state files.new) result }
{
    match load(alloc, files, path, limits.bytes) {
        Err(LoadFault::Read) => Err(Fault::Read(input)),
        Err(LoadFault::TooLong) => Err(Fault::Limit(LimitKind::Bytes(input), limits.bytes + 1)),
        Err(LoadFault::NoMemory) => Err(Fault::NoMemory),
        Ok(None) => Err(Fault::Missing(input)),
        Ok(Some(bytes)) => Ok(bytes),
    }
}

/// The table of an input that is none of a feed, with the fault that it has if it has no record.
fn load_rows<F: Files>(
    alloc: Global,
    files: &mut F,
    path: &str,
    input: Input,
    headless: Fault,
    limits: &Limits,
) -> Result<Rows, Fault>
    requires headless { unread_input headless ≡ None }
    requires early { (timetable : SourceModel) → IsInputOf timetable input
        → IsBeforeSearch timetable headless }
    ensures text { IfOk result (λ rows. (text : Bytes ℕ) × (rows ≡ table_of text)) }
    ensures table { IfSome (F.state files.old).files (λ m. Finds (λ rows. rows)
        (λ unread. records_of limits.now.bytes input headless unread (file_at m path.now)) result) }
    ensures own { IfErr result (MayBeUnread input) }
    ensures early { (timetable : SourceModel) → IsInputOf timetable input
        → IfErr result (IsBeforeSearch timetable) }
    ensures causes { HasCauses (λ other. Some path.now) (F.state files.old) (F.state files.new) result }
{
    let bytes = load_bytes(alloc, files, path, input, limits)?;
    match Rows::read(alloc, bytes.as_slice()) {
        Ok(rows) => Ok(rows.with_key(files.hash_key())),
        Err(RowsFault::NoHeader) => Err(headless),
        Err(RowsFault::NoMemory) => Err(Fault::NoMemory),
    }
}

/// A fault of the cut file as one of the run.
fn fault_of_cut(fault: CutFault) -> Fault
    ensures fault { result ≡ cut_as fault }
    ensures early { (path : Bytes ℕ) → IsBeforeSearch (CutFile path) result }
    ensures read { unread_input result ≡ None }
{
    match fault {
        CutFault::TooManyRows(count) => Fault::Limit(LimitKind::CutRows, count),
        CutFault::NoMemory => Fault::NoMemory,
        fault => Fault::Cut(fault),
    }
}

/// The cut file; or the first of its faults: `Read`, `Missing`, `Limit` for its bytes, and then those of its rows
/// (`Cut`, or `Limit` for their number). One with no record has no first column, which is `MissingColumn`.
pub(crate) fn read_cut_file<F: Files>(
    alloc: Global,
    files: &mut F,
    path: &str,
    limits: &Limits,
) -> Result<CutTable, Fault>
    ensures table { IfSome (F.state files.old).files (λ m.
        CutAgrees limits.now (file_at m path.now) result) }
    ensures sound { IfOk result IsCutOfSome }
    ensures own { IfErr result (MayBeUnread Input.Cut) }
    ensures early { IfErr result (IsBeforeSearch (CutFile path.now)) }
    ensures causes { HasCauses (λ other. Some path.now) (F.state files.old) (F.state files.new) result }
{
    let headless = Fault::Cut(CutFault::MissingColumn(Column::Run));
    let rows = load_rows(alloc, files, path, Input::Cut, headless, limits)?;
    match read_cut(alloc, &rows, limits) {
        Ok(table) => Ok(table),
        Err(fault) => Err(fault_of_cut(fault)),
    }
}

/// A fault of the delay file as one of the run.
fn fault_of_delays(fault: DelayFault) -> Fault
    ensures fault { fault ≢ DelayFault.NoMemory → result ≡ Fault.Delays fault }
    ensures memory { fault ≡ DelayFault.NoMemory → result ≡ Fault.NoMemory }
    ensures early { (timetable : SourceModel) → IsBeforeSearch timetable result }
    ensures read { unread_input result ≡ None }
{
    match fault {
        DelayFault::NoMemory => Fault::NoMemory,
        fault => Fault::Delays(fault),
    }
}

/// The delay file; or the first of its faults: `Read`, `Missing`, `Limit` for its bytes, and then `Delays`. One with no
/// record has no first column, which is `MissingColumn`.
pub(crate) fn read_delay_file<F: Files>(
    alloc: Global,
    files: &mut F,
    path: &str,
    limits: &Limits,
) -> Result<DelayTable, Fault>
    ensures table { IfSome (F.state files.old).files (λ m.
        DelayAgrees limits.now (file_at m path.now) result) }
    ensures sound { IfOk result AreDelays }
    ensures own { IfErr result (MayBeUnread Input.Delays) }
    ensures early { (timetable : SourceModel) → IfErr result (IsBeforeSearch timetable) }
    ensures causes { HasCauses (λ other. Some path.now) (F.state files.old) (F.state files.new) result }
{
    let headless = Fault::Delays(DelayFault::MissingColumn(Column::Class));
    let rows = load_rows(alloc, files, path, Input::Delays, headless, limits)?;
    match DelayTable::read(alloc, &rows) {
        Ok(table) => Ok(table),
        Err(fault) => Err(fault_of_delays(fault)),
    }
}
