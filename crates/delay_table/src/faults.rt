//! The faults of a delay table.
use csv_rows::{Column, at_line};
use plan_model::NoMemory;
use std::alloc::{AllocError, AllocFailed};
use std::fmt;
use std::fmt::Display;

/// A class of delays, as a delay file names it.
#[derive(Clone, Copy, Debug, PartialEq, Eq)]
pub enum ClassName {
    /// `*`, for each route type that is not named.
    Any,
    /// A route type of the GTFS Schedule reference.
    Route(u16),
}

impl fmt::Display for ClassName {
    ghost use Rattle.std.specs.Prelude.{Some};
    ghost use Rattle.delay_table.specs.FaultTexts.{class_text};

    ghost output = { λ class. Some (class_text class) };

    fn fmt<W: fmt::Write>(&self, f: &mut fmt::Formatter<W>) -> fmt::Result {
        match *self {
            ClassName::Any => f.write_str("*"),
            ClassName::Route(route) => route.fmt(f),
        }
    }
}

/// Why rows are no delay table. The first that holds is answered: a missing column; then `BadField`, `TooManyRows` or
/// `GroupRows`, and `NotRising`, by line and at one line in this order; then `TooManyClasses`; then `WeightSum`, that of `*`
/// first and then by route type; then `GroupSum` by line; then `NoDefault`.
///
/// A group is the rows of one class, one route and one hour. That of a class alone names neither a route nor an hour.
#[derive(Clone, Copy, Debug, PartialEq, Eq)]
pub enum DelayFault {
    /// The first of `class`, `delay` and `weight` that is not in the header.
    MissingColumn(Column),
    /// At this line the class is neither `*` nor a whole number up to 65,534, the delay is no whole number up to 86,400, the
    /// weight is no whole number from 1 to 10,000, the route is no UTF-8 or is beside a class that is not `*`, or the
    /// hour is no whole number up to 23.
    BadField(u64),
    /// The group of the class alone has a 65th row.
    TooManyRows(ClassName),
    /// This line is the 65th row of a group that names a route or an hour.
    GroupRows(u64),
    /// At this line the delay is not greater than that of the group's row before.
    NotRising(u64),
    /// There are this many groups, more than 65,536.
    TooManyClasses(u64),
    /// The weights of the group of the class alone add up to this sum, and not to 10,000.
    WeightSum(ClassName, u32),
    /// The weights of a group that names a route or an hour, and whose first line this is, add up to this sum, and not to
    /// 10,000.
    GroupSum(u64, u32),
    /// No row has the class `*` with neither a route nor an hour.
    NoDefault,
    /// There was no memory.
    NoMemory,
}

impl fmt::Display for DelayFault {
    ghost use Rattle.std.specs.Prelude.{Some};
    ghost use Rattle.delay_table.specs.FaultTexts.{delay_fault_text};

    ghost output = { λ fault. Some (delay_fault_text fault) };

    fn fmt<W: fmt::Write>(&self, f: &mut fmt::Formatter<W>) -> fmt::Result {
        match *self {
            DelayFault::MissingColumn(column) => {
                let name = column.name();
                write!(f, "delay file has no column {name}")
            }
            DelayFault::BadField(line) => at_line(f, "delay file", line, "bad field"),
            DelayFault::TooManyRows(class) => {
                write!(f, "delay class {class} has more than 64 rows")
            }
            DelayFault::GroupRows(line) => {
                at_line(f, "delay file", line, "group has more than 64 rows")
            }
            DelayFault::NotRising(line) => at_line(f, "delay file", line, "delay does not rise"),
            DelayFault::TooManyClasses(count) => write!(f, "too many delay classes: {count}"),
            DelayFault::WeightSum(class, sum) => {
                write!(f, "delay class {class} weights sum to {sum}")
            }
            DelayFault::GroupSum(line, sum) => {
                write!(f, "delay file line {line}: group weights sum to {sum}")
            }
            DelayFault::NoDefault => f.write_str("delay class * is missing"),
            DelayFault::NoMemory => f.write_str("out of memory"),
        }
    }
}

impl From<NoMemory> for DelayFault {
    ghost use Rattle.std.specs.Prelude.{◌≡◌};
    ghost use Rattle.delay_table.specs.declared.faults.DelayFault.TheVariants.{NoMemory as NoMemoryFault};

    ghost from_gives = { λ _ fault. fault ≡ NoMemoryFault };

    fn from(_: NoMemory) -> Self {
        DelayFault::NoMemory
    }
}

impl From<AllocError> for DelayFault {
    ghost use Rattle.std.specs.Prelude.{◌≡◌};
    ghost use Rattle.delay_table.specs.declared.faults.DelayFault.TheVariants.{NoMemory as NoMemoryFault};

    ghost from_gives = { λ _ fault. fault ≡ NoMemoryFault };

    fn from(_: AllocError) -> Self {
        DelayFault::NoMemory
    }
}

impl<T: Drop> From<AllocFailed<T>> for DelayFault {
    ghost use Rattle.std.specs.Prelude.{◌≡◌};
    ghost use Rattle.delay_table.specs.declared.faults.DelayFault.TheVariants.{NoMemory as NoMemoryFault};

    ghost from_gives = { λ _ fault. fault ≡ NoMemoryFault };

    fn from(_: AllocFailed<T>) -> Self {
        DelayFault::NoMemory
    }
}
