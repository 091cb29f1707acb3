//! A cut file with no fault.
ghost use Rattle.std.specs.Prelude.{◌≡◌, ◌≢◌, Some, None, OnOk, IfOk, IfErr};
ghost use Rattle.csv_rows.specs.Spaces.{AreTrimmed};
ghost use Rattle.cut_file.specs.Faults.{first_cut_fault};
ghost use Rattle.cut_file.specs.NumberedRows.{missing_in};
ghost use Rattle.cut_file.specs.Read.{IsCutRead};

use crate::faults::CutFault;
use crate::order::{run_fault, sorted_keys};
use crate::rows::{Columns, CutRow, CutRows, NumberedRows, columns_of, read_rows};
use csv_rows::{Column, Key, Limits, Rows};
use std::alloc::Global;

/// The rows of a cut file, and their order by run and step.
#[derive(Drop)]
pub(crate) struct Checked {
    pub(crate) cut: NumberedRows,
    pub(crate) keys: Vec<Key>,
}

/// The first required column that is not there.
fn missing_column(columns: &Columns) -> Option<CutFault>
    ensures { result ≡ missing_in columns.now }
{
    if columns.run.is_none() {
        Some(CutFault::MissingColumn(Column::Run))
    } else if columns.step.is_none() {
        Some(CutFault::MissingColumn(Column::Step))
    } else if columns.from.is_none() {
        Some(CutFault::MissingColumn(Column::From))
    } else if columns.to.is_none() {
        Some(CutFault::MissingColumn(Column::To))
    } else if columns.dep.is_none() {
        Some(CutFault::MissingColumn(Column::Dep))
    } else if columns.arr.is_none() {
        Some(CutFault::MissingColumn(Column::Arr))
    } else {
        None
    }
}

/// The rows of a cut file, or the first of its faults.
pub(crate) fn read_checked(alloc: Global, rows: &Rows, limits: &Limits) -> Result<Checked, CutFault>
    ensures trimmed { OnOk result (AreTrimmed rows.now) }
    ensures none { OnOk result (first_cut_fault rows.now limits.now.cut_rows ≡ None) }
    ensures cut { IfOk result (λ c.
        IsCutRead rows.now c.cut.names.runs c.cut.names.places c.cut.rows.items c.keys.items) }
    ensures fault { IfErr result (λ f. f ≢ CutFault.NoMemory
        → first_cut_fault rows.now limits.now.cut_rows ≡ Some f) }
{
    let columns = columns_of(rows);
    if let Some(fault) = missing_column(&columns) {
        return Err(fault);
    }
    let count = rows.count() as u64;
    if limits.cut_rows < count {
        return Err(CutFault::TooManyRows(count));
    }
    let cut = read_rows(alloc, &CutRows { rows, columns })?;
    let keys = sorted_keys(alloc, cut.rows.as_slice())?;
    match run_fault(cut.rows.as_slice(), keys.as_slice()) {
        Some(fault) => Err(fault),
        None => Ok(Checked { cut, keys }),
    }
}
