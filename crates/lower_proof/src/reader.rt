//! The certificate of a text.
ghost use Rattle.std.specs.Prelude.{◌≡◌, ◌+◌, ◌<◌, ◌⊎◌, nat_le, Some, IfOk};
ghost use Rattle.std.specs.Result.{IfErr};
ghost use Rattle.csv_rows.specs.Tables.{header};
ghost use Rattle.plan_model.specs.Network.{count};
ghost use Rattle.lower_proof.specs.Reading.{is_bounds, bounds_row_in, bounds_in, value_row_in, reported_in, IsFirstLineFault, AreValuesReported, IsProofRead};

use crate::{LowerBounds, columns, no_values};
use clock_text::{read_moment, read_nanos};
use csv_rows::{Rows, RowsFault, at_line};
use plan_model::{ConnectionId, List, Moment, Names, Network, NoMemory, PlaceId, Query};
use printed_rows::{Record, connection_of, is_query, rises, whole};
use std::alloc::Global;
use std::fmt;
use text_index::NameIndex;

/// Why a text is no certificate for a network and a question. A line is the number of a record, from 1 on.
#[derive(Clone, Copy, Debug, PartialEq, Eq)]
pub enum ProofFault {
    /// The line is not of the kind that may be there, or a field is not of its form, or line 1 has a start
    /// after the deadline; or the line is the first value row that is missing, or the first that is too many.
    Row(u64),
    /// A name of the line is not among the names.
    UnknownName(u64),
    /// The line's run has no such step.
    NoConnection(u64),
    /// The line's connection is not greater than that of the value row before.
    NotRising(u64),
    /// The line names another source, target or start.
    OtherQuery(u64),
    /// Memory ran out.
    NoMemory,
}

impl From<RowsFault> for ProofFault {
    ghost use Rattle.lower_proof.specs.Reading.{fault_of_rows};

    ghost from_gives = { λ fault reported. reported ≡ fault_of_rows fault };

    fn from(fault: RowsFault) -> Self {
        match fault {
            RowsFault::NoHeader => ProofFault::Row(1),
            RowsFault::NoMemory => ProofFault::NoMemory,
        }
    }
}

impl From<NoMemory> for ProofFault {
    ghost use Rattle.lower_proof.specs.declared.reader.ProofFault.TheVariants.{NoMemory as NoMemoryFault};

    ghost from_gives = { λ _ fault. fault ≡ NoMemoryFault };

    fn from(_: NoMemory) -> Self {
        ProofFault::NoMemory
    }
}

impl fmt::Display for ProofFault {
    ghost use Rattle.lower_proof.specs.FaultTexts.{certificate_fault_text};

    ghost output = { λ fault. Some (certificate_fault_text fault) };

    fn fmt<W: fmt::Write>(&self, f: &mut fmt::Formatter<W>) -> fmt::Result {
        match *self {
            ProofFault::Row(line) => at_line(f, "proof file", line, "bad row"),
            ProofFault::UnknownName(line) => at_line(f, "proof file", line, "unknown name"),
            ProofFault::NoConnection(line) => at_line(f, "proof file", line, "does not agree"),
            ProofFault::NotRising(line) => at_line(f, "proof file", line, "not rising"),
            ProofFault::OtherQuery(line) => at_line(f, "proof file", line, "other query"),
            ProofFault::NoMemory => f.write_str("out of memory"),
        }
    }
}

/// The numbers of the first row.
#[derive(Clone, Copy)]
pub(crate) struct BoundsRow {
    start: Moment,
    deadline: Moment,
    number: u32,
}

/// The numbers of a value row.
#[derive(Clone, Copy)]
pub(crate) struct ValueRow {
    step: u32,
    value: u64,
}

/// A connection and its value.
#[derive(Clone, Copy)]
pub(crate) struct RowValue {
    id: ConnectionId,
    value: u64,
}

/// Whether a record is the first of a certificate, of the version that is known.
fn is_bounds(printed: &Record<'_>) -> bool
    ensures { result ≡ is_bounds printed.now.fields }
{
    printed.is_kind(b"bounds", columns::BOUNDS_WIDTH)
        && printed.field(columns::VERSION) == b"1".as_slice()
}

/// Whether a start is not after a deadline.
fn is_in_time(start: Moment, deadline: Moment) -> bool
    ensures { result ≡ nat_le start.0 deadline.0 }
{
    start.0 <= deadline.0
}

/// The numbers of the first row; `None` if a field is not of its form.
fn bounds_row(printed: &Record<'_>) -> Option<BoundsRow>
    ensures { result ≡ bounds_row_in printed.now.fields }
{
    if !is_bounds(printed) {
        return None;
    }
    let start = read_moment(printed.field(columns::START))?;
    let deadline = read_moment(printed.field(columns::DEADLINE))?;
    let number = whole(printed.field(columns::COUNT))?;
    if !is_in_time(start, deadline) {
        return None;
    }
    Some(BoundsRow {
        start,
        deadline,
        number,
    })
}

/// The contents of the first row, which is of this source, target and start.
fn read_bounds(
    rows: &Rows,
    names: &NameIndex<'_>,
    source: PlaceId,
    target: PlaceId,
    start: Moment,
) -> Result<BoundsRow, ProofFault>
    ensures { result ≡ bounds_in names.now source.0 target.0 start.0 (header rows.now) }
{
    let first = Record::first(rows);
    let Some(numbers) = bounds_row(&first) else {
        return Err(ProofFault::Row(1));
    };
    let from = names.place(first.field(columns::SOURCE));
    let to = names.place(first.field(columns::TARGET));
    let (Some(from), Some(to)) = (from, to) else {
        return Err(ProofFault::UnknownName(1));
    };
    if is_query((from, to), numbers.start, source, target, start) {
        Ok(numbers)
    } else {
        Err(ProofFault::OtherQuery(1))
    }
}

/// The numbers of a value row; `None` if a field is not of its form.
fn value_numbers(printed: &Record<'_>) -> Option<ValueRow>
    ensures { result ≡ value_row_in printed.now.fields }
{
    if !printed.is_kind(b"value", columns::VALUE_WIDTH) {
        return None;
    }
    let step = whole(printed.field(columns::STEP))?;
    let value = read_nanos(printed.field(columns::VALUE))?;
    Some(ValueRow { step, value })
}

/// The contents of a value row, after one of an earlier connection.
fn read_value(
    printed: &Record<'_>,
    network: &Network,
    names: &NameIndex<'_>,
    last: Option<u64>,
) -> Result<RowValue, ProofFault>
    ensures reported { result ≡ reported_in network.now names.now printed.now.line last printed.now.fields }
    ensures there { IfOk result (λ reported. reported.id.0 < count network.now) }
{
    let line = printed.line();
    let Some(numbers) = value_numbers(printed) else {
        return Err(ProofFault::Row(line));
    };
    let Some(run) = names.run(printed.field(columns::RUN)) else {
        return Err(ProofFault::UnknownName(line));
    };
    let Some(id) = connection_of(network, run, numbers.step) else {
        return Err(ProofFault::NoConnection(line));
    };
    if rises(last, u64::from(id.0)) {
        Ok(RowValue {
            id,
            value: numbers.value,
        })
    } else {
        Err(ProofFault::NotRising(line))
    }
}

/// The values of the value rows, whose number is in the first row.
fn read_values(
    alloc: Global,
    rows: &Rows,
    network: &Network,
    names: &NameIndex<'_>,
    stated: u32,
) -> Result<Vec<Option<u64>>, ProofFault>
    ensures reported { IfOk result (λ values. AreValuesReported network.now names.now rows.now stated values.items) }
    ensures fault { IfErr result (λ fault. (fault ≡ ProofFault.NoMemory) ⊎ IsFirstLineFault network.now names.now rows.now stated fault) }
{
    let mut values = no_values(alloc, network)?;
    let mut last = None;
    let count = rows.count();
    let most = stated as usize;
    for row in 0..count.max(most) {
        if row >= count || row >= most {
            return Err(ProofFault::Row(row as u64 + 2));
        }
        let reported = read_value(&Record::of_row(rows, row), network, names, last)?;
        values[reported.id.0 as usize] = Some(reported.value);
        last = Some(u64::from(reported.id.0));
    }
    Ok(values)
}

/// The certificate of a text, with the query of this source, target and start and of the text's deadline; or
/// the first of the text's faults by line, and at one line the first in the order of `ProofFault`. What
/// `write_text` made reads back.
pub fn read_text(
    alloc: Global,
    bytes: &[u8],
    network: &Network,
    names: &Names,
    source: PlaceId,
    target: PlaceId,
    start: Moment,
) -> Result<(Query, LowerBounds), ProofFault>
    ensures { IsProofRead network.now names.now source.0 target.0 start.0 bytes.now result }
{
    let rows = Rows::read(alloc, bytes)?;
    let names = NameIndex::of(alloc, names)?;
    let bounds = read_bounds(&rows, &names, source, target, start)?;
    let values = read_values(alloc, &rows, network, &names, bounds.number)?;
    let query = Query {
        source,
        target,
        start,
        deadline: bounds.deadline,
    };
    Ok((
        query,
        LowerBounds {
            values: List::from_vec(values),
        },
    ))
}
