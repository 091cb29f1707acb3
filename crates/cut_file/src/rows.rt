//! The rows of a cut file by the numbers of their names.
ghost use Rattle.std.specs.Prelude.{◌≡◌, ◌≢◌, ℕ, ◌-◌, ◌<◌, ◌≤◌, ◌^◌, [], length, slice_index_or, Some, None, OnOk, IfOk, IfErr, IfSome};
ghost use Rattle.csv_rows.specs.declared.columns.Column.TheVariants.{Class, Run, Step, From, To, Dep, Arr, Board, Exit, Change};
ghost use Rattle.csv_rows.specs.Lists.{first_below};
ghost use Rattle.csv_rows.specs.Limits.{standard};
ghost use Rattle.csv_rows.specs.Tables.{row_count, field};
ghost use Rattle.cut_file.specs.declared.rows.CutRow.{CutRow};
ghost use Rattle.cut_file.specs.CutRows.{as_read, named, row_at};
ghost use Rattle.cut_file.specs.Faults.{bad_field, row};
ghost use Rattle.cut_file.specs.NumberedRows.{add_new, run_names, place_names, IsNumbered, AreCutColumns};

use crate::faults::CutFault;
use crate::lines::{Fields, NamedRow, read_fields};
use crate::numbers::{Numbering, names_of, number_after, number_of};
use csv_rows::{Column, Rows};
use plan_model::{Names, NoMemory};
use std::alloc::Global;
use text_index::TextIndex;

/// A row with numbers for its names.
#[derive(Clone, Copy)]
pub(crate) struct CutRow {
    pub(crate) run: u32,
    pub(crate) step: u32,
    pub(crate) from: u32,
    pub(crate) to: u32,
    pub(crate) dep: u64,
    pub(crate) arr: u64,
    pub(crate) class: Option<u16>,
    pub(crate) board: bool,
    pub(crate) exit: bool,
    pub(crate) change: Option<u32>,
}

/// The rows, and the names of their numbers.
#[derive(Drop)]
pub(crate) struct NumberedRows {
    pub(crate) names: Names,
    pub(crate) rows: Vec<CutRow>,
}

/// The indexes of the columns; `None` of a column that is absent.
#[derive(Clone, Copy)]
pub(crate) struct Columns {
    pub(crate) run: Option<usize>,
    pub(crate) step: Option<usize>,
    pub(crate) from: Option<usize>,
    pub(crate) to: Option<usize>,
    pub(crate) dep: Option<usize>,
    pub(crate) arr: Option<usize>,
    pub(crate) class: Option<usize>,
    pub(crate) board: Option<usize>,
    pub(crate) exit: Option<usize>,
    pub(crate) change: Option<usize>,
}

/// The indexes of the columns in this table.
pub(crate) fn columns_of(rows: &Rows) -> Columns
    ensures { AreCutColumns rows.now result }
{
    Columns {
        run: rows.index_of(Column::Run),
        step: rows.index_of(Column::Step),
        from: rows.index_of(Column::From),
        to: rows.index_of(Column::To),
        dep: rows.index_of(Column::Dep),
        arr: rows.index_of(Column::Arr),
        class: rows.index_of(Column::Class),
        board: rows.index_of(Column::Board),
        exit: rows.index_of(Column::Exit),
        change: rows.index_of(Column::Change),
    }
}

/// The rows of a cut file that is not too long, and the places of its columns.
#[derive(Clone, Copy)]
pub(crate) struct CutRows<'a> {
    pub(crate) rows: &'a Rows,
    pub(crate) columns: Columns,
    ghost are: { AreCutColumns rows.now columns },
    ghost few: { row_count rows.now ≤ standard.cut_rows },
}

/// The fields of a row.
fn fields_of<'a>(table: &CutRows<'a>, row: usize) -> Fields<'a>
    requires { row < row_count table.now.rows.now }
    ensures run { result.run.now ≡ field table.now.rows.now Run row }
    ensures step { result.step.now ≡ field table.now.rows.now Step row }
    ensures from { result.from.now ≡ field table.now.rows.now From row }
    ensures to { result.to.now ≡ field table.now.rows.now To row }
    ensures dep { result.dep.now ≡ field table.now.rows.now Dep row }
    ensures arr { result.arr.now ≡ field table.now.rows.now Arr row }
    ensures class { result.class.now ≡ field table.now.rows.now Class row }
    ensures board { result.board.now ≡ field table.now.rows.now Board row }
    ensures exit { result.exit.now ≡ field table.now.rows.now Exit row }
    ensures change { result.change.now ≡ field table.now.rows.now Change row }
{
    let CutRows { rows, columns } = *table;
    Fields {
        run: rows.field_at(row, columns.run),
        step: rows.field_at(row, columns.step),
        from: rows.field_at(row, columns.from),
        to: rows.field_at(row, columns.to),
        dep: rows.field_at(row, columns.dep),
        arr: rows.field_at(row, columns.arr),
        class: rows.field_at(row, columns.class),
        board: rows.field_at(row, columns.board),
        exit: rows.field_at(row, columns.exit),
        change: rows.field_at(row, columns.change),
    }
}

/// The row with this number, from 0 on, or its first column that is not of its form.
fn read_row<'a>(table: &CutRows<'a>, row: usize) -> Result<NamedRow<'a>, Column>
    requires { row < row_count table.now.rows.now }
    ensures { row_at table.now.rows.now row ≡ as_read result }
{
    read_fields(fields_of(table, row))
}

/// The run of the row before, if there is one.
fn run_of(before: Option<CutRow>) -> Option<u32>
    ensures { (runs : ℕ) → IfSome before (λ b. b.run < runs) → IfSome result (λ k. k < runs) }
{
    before.map(|before| before.run)
}

/// Where the row before ends, if there is one.
fn end_of(before: Option<CutRow>) -> Option<u32>
    ensures { (places : ℕ) → IfSome before (λ b. b.to < places) → IfSome result (λ k. k < places) }
{
    before.map(|before| before.to)
}

/// The row with numbers for its names. Mostly it is of the run of the row before, and from where that ends to the place that
/// was numbered next.
fn numbered<'a>(
    names: &mut Numbering<'a>,
    row: &NamedRow<'a>,
    before: Option<CutRow>,
) -> Result<CutRow, NoMemory>
    requires runs { length names.old.runs < 2 ^ 32 - 1 }
    requires places { length names.old.places < 2 ^ 32 - 2 }
    requires run_before { IfSome before (λ b. b.run < length names.old.runs) }
    requires end_before { IfSome before (λ b. b.to < length names.old.places) }
    ensures runs { OnOk result (names.new.runs ≡ add_new names.old.runs row.now.run.now) }
    ensures places { OnOk result (names.new.places
        ≡ add_new (add_new names.old.places row.now.from.now) row.now.to.now) }
    ensures row { IfOk result (λ c. IsNumbered names.new.runs names.new.places (named row.now) c) }
{
    let run = number_of(&mut names.runs, row.run, run_of(before))?;
    let from = number_of(&mut names.places, row.from, end_of(before))?;
    let next = number_after(&names.places, from);
    let to = number_of(&mut names.places, row.to, next)?;
    Ok(CutRow {
        run,
        step: row.step,
        from,
        to,
        dep: row.dep,
        arr: row.arr,
        class: row.class,
        board: row.board,
        exit: row.exit,
        change: row.change,
    })
}

/// Takes the rows, if each is of its form, and the names of their numbers.
fn take_rows<'a>(
    table: &CutRows<'a>,
    names: &mut Numbering<'a>,
    cut: &mut Vec<CutRow>,
) -> Result<(), CutFault>
    requires no_runs { names.old.runs ≡ [] }
    requires no_places { names.old.places ≡ [] }
    requires no_rows { cut.old.items ≡ [] }
    ensures none { OnOk result (first_below (bad_field table.now.rows.now) (row_count table.now.rows.now) ≡ None) }
    ensures size { OnOk result (length cut.new.items ≡ row_count table.now.rows.now) }
    ensures each { OnOk result ((k : ℕ) (d : CutRow) → k < row_count table.now.rows.now
        → IsNumbered names.new.runs names.new.places (row table.now.rows.now k) (slice_index_or cut.new.items k d)) }
    ensures runs { OnOk result (names.new.runs ≡ run_names table.now.rows.now (row_count table.now.rows.now)) }
    ensures places { OnOk result (names.new.places ≡ place_names table.now.rows.now (row_count table.now.rows.now)) }
    ensures err { IfErr result (λ f. f ≢ CutFault.NoMemory
        → first_below (bad_field table.now.rows.now) (row_count table.now.rows.now) ≡ Some f) }
{
    let mut before: Option<CutRow> = None;
    for i in 0..table.rows.count() {
        let row = match read_row(table, i) {
            Ok(row) => numbered(names, &row, before)?,
            Err(column) => return Err(CutFault::BadField(table.rows.line(i), column)),
        };
        cut.push(row)?;
        before = Some(row);
    }
    Ok(())
}

/// The rows, if each is of its form.
pub(crate) fn read_rows(alloc: Global, table: &CutRows<'_>) -> Result<NumberedRows, CutFault>
    ensures none { OnOk result (first_below (bad_field table.now.rows.now) (row_count table.now.rows.now) ≡ None) }
    ensures size { IfOk result (λ cut. length cut.rows.items ≡ row_count table.now.rows.now) }
    ensures each { IfOk result (λ cut. (k : ℕ) (d : CutRow) → k < row_count table.now.rows.now
        → IsNumbered cut.names.runs cut.names.places (row table.now.rows.now k) (slice_index_or cut.rows.items k d)) }
    ensures runs { IfOk result (λ cut. cut.names.runs ≡ run_names table.now.rows.now (row_count table.now.rows.now)) }
    ensures places { IfOk result (λ cut. cut.names.places ≡ place_names table.now.rows.now (row_count table.now.rows.now)) }
    ensures err { IfErr result (λ f. f ≢ CutFault.NoMemory
        → first_below (bad_field table.now.rows.now) (row_count table.now.rows.now) ≡ Some f) }
{
    let key = table.rows.key();
    let mut numbering = Numbering {
        runs: TextIndex::new(alloc, key),
        places: TextIndex::new(alloc, key),
    };
    let mut rows: Vec<CutRow> = Vec::with_capacity(alloc, table.rows.count())?;
    take_rows(table, &mut numbering, &mut rows)?;
    let names = names_of(alloc, key, &numbering)?;
    Ok(NumberedRows { names, rows })
}
