//! The texts of faults.
ghost use Rattle.std.specs.Prelude.{Some};
ghost use Rattle.std.specs.Fmt.{WritesOnOk};
ghost use Rattle.journey_model.specs.FaultLines.{limit_text};

use crate::faults::{Fault, LimitKind, Which};
use csv_rows::too_many_rows;
use std::fmt;
use std::fmt::Display;

/// Writes what there is too much of.
fn write_limit<W: fmt::Write>(f: &mut fmt::Formatter<W>, kind: LimitKind, count: u64) -> fmt::Result
    ensures { WritesOnOk W.write_str_gives f.old result (limit_text kind count) f.new }
{
    match kind {
        LimitKind::Bytes(input) => {
            let name = input.name();
            write!(f, "{name} is too long")
        }
        LimitKind::Rows(table) => too_many_rows(f, table.file_name(), count),
        LimitKind::CutRows => too_many_rows(f, "cut file", count),
        LimitKind::Connections => write!(f, "too many connections: {count}"),
        LimitKind::Entries => write!(f, "too many entries: {count}"),
    }
}

impl fmt::Display for Fault {
    ghost use Rattle.journey_model.specs.FaultLines.{fault_text};

    ghost output = { λ fault. Some (fault_text fault) };

    /// Writes what is wrong, but not where in the timetable.
    fn fmt<W: fmt::Write>(&self, f: &mut fmt::Formatter<W>) -> fmt::Result {
        match *self {
            Fault::Words(fault) => fault.fmt(f),
            Fault::Feed(fault) => fault.fmt(f),
            Fault::Cut(fault) => fault.fmt(f),
            Fault::Missing(input) => {
                let name = input.name();
                write!(f, "{name} is missing")
            }
            Fault::Delays(fault) => fault.fmt(f),
            Fault::UnknownStop(Which::From) => f.write_str("unknown stop of --from"),
            Fault::UnknownStop(Which::To) => f.write_str("unknown stop of --to"),
            Fault::Limit(kind, count) => write_limit(f, kind, count),
            Fault::Read(input) => {
                let name = input.name();
                write!(f, "cannot read {name}")
            }
            Fault::NoSafe => f.write_str("no safe strategy"),
            Fault::GraphFile(fault) => fault.fmt(f),
            Fault::Replay(fault) => fault.fmt(f),
            Fault::ProofFile(fault) => fault.fmt(f),
            Fault::ProofFails(_) => f.write_str("proof fails"),
            Fault::Unsafe(_, _) => f.write_str("unsafe"),
            Fault::Write => f.write_str("cannot write"),
            Fault::NoMemory => f.write_str("out of memory"),
        }
    }
}
