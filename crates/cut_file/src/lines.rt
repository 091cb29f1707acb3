//! One row of a cut file.
ghost use Rattle.std.specs.Prelude.{◌≡◌};
ghost use Rattle.cut_file.specs.CutRows.{as_read, row_of_fields};

use crate::fields::{read_class, read_early, read_flag};
use clock_text::{read_optional_seconds, read_whole};
use csv_rows::{Column, read_name};

/// The greatest `step`: nine digits.
const MOST_STEP: u32 = 999_999_999;

/// A row as it is read, with its names.
#[derive(Clone, Copy)]
pub(crate) struct NamedRow<'a> {
    pub(crate) run: &'a str,
    pub(crate) step: u32,
    pub(crate) from: &'a str,
    pub(crate) to: &'a str,
    pub(crate) dep: u64,
    pub(crate) arr: u64,
    pub(crate) class: Option<u16>,
    pub(crate) board: bool,
    pub(crate) exit: bool,
    pub(crate) change: Option<u32>,
}

/// The fields of a row.
#[derive(Clone, Copy)]
pub(crate) struct Fields<'a> {
    pub(crate) run: &'a [u8],
    pub(crate) step: &'a [u8],
    pub(crate) from: &'a [u8],
    pub(crate) to: &'a [u8],
    pub(crate) dep: &'a [u8],
    pub(crate) arr: &'a [u8],
    pub(crate) class: &'a [u8],
    pub(crate) board: &'a [u8],
    pub(crate) exit: &'a [u8],
    pub(crate) change: &'a [u8],
}

/// The row of these fields, or the first column that is not of its form.
pub(crate) fn read_fields<'a>(f: Fields<'a>) -> Result<NamedRow<'a>, Column>
    ensures { row_of_fields f.entry ≡ as_read result }
{
    Ok(NamedRow {
        run: read_name(f.run).ok_or(Column::Run)?,
        step: read_whole(f.step, MOST_STEP).ok_or(Column::Step)?,
        from: read_name(f.from).ok_or(Column::From)?,
        to: read_name(f.to).ok_or(Column::To)?,
        dep: read_early(f.dep).ok_or(Column::Dep)?,
        arr: read_early(f.arr).ok_or(Column::Arr)?,
        class: read_class(f.class).ok_or(Column::Class)?,
        board: read_flag(f.board).ok_or(Column::Board)?,
        exit: read_flag(f.exit).ok_or(Column::Exit)?,
        change: read_optional_seconds(f.change).ok_or(Column::Change)?,
    })
}
