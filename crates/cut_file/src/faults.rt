//! The faults of a cut file.
use csv_rows::{Column, at_line, at_line_of, too_many_rows};
use plan_model::NoMemory;
use std::alloc::{AllocError, AllocFailed};
use std::fmt;

/// Why rows are no cut file. The first that holds is answered: in the order of this list and then by line, but that
/// `Backward` and `Broken` come together by line, and `Backward` first at one line.
#[derive(Clone, Copy, Debug, PartialEq, Eq)]
pub enum CutFault {
    /// The first required column that the header does not have.
    MissingColumn(Column),
    /// The count of rows, which passes the limit.
    TooManyRows(u64),
    /// The field of this line and column is not of its form. It is the first such column of the line.
    BadField(u64, Column),
    /// An earlier line has the run and step of this line.
    DuplicateStep(u64),
    /// This line arrives before it departs, or departs before the row before it in its run, by step, arrives.
    Backward(u64),
    /// This line does not begin where the row before it in its run, by step, ends.
    Broken(u64),
    /// There was no memory.
    NoMemory,
}

impl fmt::Display for CutFault {
    ghost use Rattle.std.specs.Prelude.{Some};
    ghost use Rattle.cut_file.specs.FaultTexts.{cut_fault_text};

    ghost output = { λ fault. Some (cut_fault_text fault) };

    fn fmt<W: fmt::Write>(&self, f: &mut fmt::Formatter<W>) -> fmt::Result {
        match *self {
            CutFault::MissingColumn(column) => {
                let name = column.name();
                write!(f, "cut file has no column {name}")
            }
            CutFault::TooManyRows(count) => too_many_rows(f, "cut file", count),
            CutFault::BadField(line, column) => {
                at_line_of(f, "cut file", line, "bad", column.name())
            }
            CutFault::DuplicateStep(line) => at_line(f, "cut file", line, "repeated step"),
            CutFault::Backward(line) => at_line(f, "cut file", line, "time goes back"),
            CutFault::Broken(line) => at_line(f, "cut file", line, "run is broken"),
            CutFault::NoMemory => f.write_str("out of memory"),
        }
    }
}

impl From<NoMemory> for CutFault {
    ghost use Rattle.std.specs.Prelude.{◌≡◌};
    ghost use Rattle.cut_file.specs.declared.faults.CutFault.TheVariants.{NoMemory as NoMemoryFault};

    ghost from_gives = { λ _ fault. fault ≡ NoMemoryFault };

    fn from(_: NoMemory) -> Self {
        CutFault::NoMemory
    }
}

impl From<AllocError> for CutFault {
    ghost use Rattle.std.specs.Prelude.{◌≡◌};
    ghost use Rattle.cut_file.specs.declared.faults.CutFault.TheVariants.{NoMemory as NoMemoryFault};

    ghost from_gives = { λ _ fault. fault ≡ NoMemoryFault };

    fn from(_: AllocError) -> Self {
        CutFault::NoMemory
    }
}

impl<T: Drop> From<AllocFailed<T>> for CutFault {
    ghost use Rattle.std.specs.Prelude.{◌≡◌};
    ghost use Rattle.cut_file.specs.declared.faults.CutFault.TheVariants.{NoMemory as NoMemoryFault};

    ghost from_gives = { λ _ fault. fault ≡ NoMemoryFault };

    fn from(_: AllocFailed<T>) -> Self {
        CutFault::NoMemory
    }
}
