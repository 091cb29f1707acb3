//! The graph of a printed text.
ghost use Rattle.std.specs.Prelude.{◌≡◌, ◌<◌, length, slice_index_or, IfOk, IfSome, IsTrue, Some, Ok, drop, [], ◌≤◌, ◌==◌, ◌&&◌, nat_le};
ghost use Rattle.std.specs.Option.{option_map};
ghost use Rattle.csv_rows.specs.Tables.{header, row_count};
ghost use Rattle.plan_model.specs.NameLists.{NamesFit};
ghost use Rattle.plan_model.specs.Network.{count};
ghost use Rattle.graph_text.specs.GraphRows.{has_no_entry, entry_in, is_blank, is_place, is_head, version_in};
ghost use Rattle.graph_text.specs.Reading.{leg_row_in, names_in, leg_found, start_in, equals_limit, row_in, place_row_in, table_in, are_in_order, head_row_in, head_in, after_place_row, after_leg_row, with_rows, IsPlaced, no_tables, step, place_tables_from, graph_after_first, started_in, graph_of_records, graph_of, IsUnlessNoMemory};
ghost use Rattle.graph_text.specs.Versions.{width_of};
ghost use Rattle.printed_rows.specs.Fields.{is_kind};

use crate::version::{Version, width};
use crate::{Head, columns};
use clock_text::{read_moment, read_nanos};
use csv_rows::{Rows, RowsFault, at_line};
use interval_fixed::Span;
use plan_graph::{GraphRow, PlaceTable, PlanGraph};
use plan_model::{Connection, Leg, List, Moment, Names, Network, NoMemory, PlaceId, Query, RunId};
use printed_rows::{Record, connection_of, is_query, rises, whole};
use std::alloc::Global;
use std::fmt;
use text_index::NameIndex;

/// Why a text is no graph of a network and a question. A line is the number of a record, from 1 on.
#[derive(Clone, Copy, Debug, PartialEq, Eq)]
pub enum TextFault {
    /// The line is not of the kind that may be there, or a field is not of its form.
    Row(u64),
    /// A name of the line is not among the names.
    UnknownName(u64),
    /// The line's place is not greater than that of the place row before, or its moment than that
    /// of the leg row before.
    NotRising(u64),
    /// The line does not agree with the network.
    NoLeg(u64),
    /// The line names another source, target or start.
    OtherQuery(u64),
    /// Memory ran out.
    NoMemory,
}

impl From<RowsFault> for TextFault {
    ghost use Rattle.graph_text.specs.Reading.{fault_of_rows};

    ghost from_gives = { λ fault reported. reported ≡ fault_of_rows fault };

    fn from(fault: RowsFault) -> Self {
        match fault {
            RowsFault::NoHeader => TextFault::Row(1),
            RowsFault::NoMemory => TextFault::NoMemory,
        }
    }
}

impl From<NoMemory> for TextFault {
    ghost use Rattle.graph_text.specs.declared.reader.TextFault.TheVariants.{NoMemory as NoMemoryFault};

    ghost from_gives = { λ _ fault. fault ≡ NoMemoryFault };

    fn from(_: NoMemory) -> Self {
        TextFault::NoMemory
    }
}

impl fmt::Display for TextFault {
    ghost use Rattle.graph_text.specs.FaultTexts.{graph_fault_text};

    ghost output = { λ fault. Some (graph_fault_text fault) };

    fn fmt<W: fmt::Write>(&self, f: &mut fmt::Formatter<W>) -> fmt::Result {
        match *self {
            TextFault::Row(line) => at_line(f, "graph file", line, "bad row"),
            TextFault::UnknownName(line) => at_line(f, "graph file", line, "unknown name"),
            TextFault::NotRising(line) => at_line(f, "graph file", line, "not rising"),
            TextFault::NoLeg(line) => at_line(f, "graph file", line, "does not agree"),
            TextFault::OtherQuery(line) => at_line(f, "graph file", line, "other query"),
            TextFault::NoMemory => f.write_str("out of memory"),
        }
    }
}

/// The numbers of a leg's row.
#[derive(Clone, Copy)]
struct LegRow {
    moment: Moment,
    enter: u32,
    dep: Moment,
    exit: u32,
    arr: Moment,
}

/// The names of a leg's row: its run, the place where one leaves it and the place where one boards.
#[derive(Clone, Copy)]
struct LegNames {
    run: RunId,
    exit: PlaceId,
    entry: PlaceId,
}

/// The numbers of a place row.
#[derive(Clone, Copy)]
struct PlaceRow {
    change: u32,
    count: u32,
}

/// The place of a table that begins, and the number of its rows.
#[derive(Clone, Copy)]
struct TableStart {
    place: PlaceId,
    count: u32,
}

/// The numbers of the first row.
#[derive(Clone, Copy)]
struct HeadRow {
    start: Moment,
    deadline: Moment,
    lo: u64,
    hi: u64,
}

/// The tables so far; the last place, its rows so far and the last moment; and the number of its rows that
/// are still to come.
#[derive(Drop)]
struct Reading {
    done: List<PlaceTable>,
    place: Option<PlaceId>,
    rows: List<GraphRow>,
    by: Option<Moment>,
    remaining: u32,
}

/// A table's rows, their version, and the network and the names that they are read by.
#[derive(Drop)]
struct Reader<'a> {
    version: Version,
    rows: &'a Rows,
    network: &'a Network,
    names: NameIndex<'a>,
    ghost fit: { NamesFit names network.now },
}

/// A table of which a row is still to come: the tables before it, its place, its rows so far and their last moment; and the
/// number of its rows that are still to come.
#[derive(Drop)]
struct InTable<'b, 'a> {
    reader: &'b Reader<'a>,
    done: List<PlaceTable>,
    place: PlaceId,
    rows: List<GraphRow>,
    by: Option<Moment>,
    remaining: u32,
    ghost there: { place.0 < length reader.now.network.now.change },
    ghost more: { 1 ≤ remaining },
}

/// Whether the limit is this moment.
fn equals_limit(limit: Option<Moment>, moment: Moment) -> bool
    ensures { result ≡ equals_limit (option_map (λ limit. limit.0) limit) moment.0 }
{
    match limit {
        Some(limit) => limit.0 == moment.0,
        None => false,
    }
}

impl Reading {
    /// No tables.
    fn new(alloc: Global) -> Reading
        ensures { result ≡ no_tables }
    {
        Reading {
            done: List::new(alloc),
            place: None,
            rows: List::new(alloc),
            by: None,
            remaining: 0,
        }
    }
}

/// With a table that begins.
fn begin(alloc: Global, reading: Reading, start: TableStart) -> Reading
    ensures { after_place_row reading (Ok start) ≡ Ok result }
{
    Reading {
        done: reading.done,
        place: Some(start.place),
        rows: List::new(alloc),
        by: None,
        remaining: start.count,
    }
}

/// Whether a connection leaves the source at the start or later, and the moment is its departure.
fn can_start(entry: Connection, source: PlaceId, start: Moment, moment: Moment) -> bool
    ensures { result ≡ ((entry.from.0 == source.0) && ((moment.0 == entry.dep.0) && nat_le start.0 entry.dep.0)) }
{
    entry.from.0 == source.0 && moment.0 == entry.dep.0 && start.0 <= entry.dep.0
}

/// Whether two moments and two bounds are in order.
fn are_in_order(start: Moment, deadline: Moment, lo: u64, hi: u64) -> bool
    ensures test { result ≡ are_in_order start.0 deadline.0 lo hi }
    ensures bounds { IsTrue result → lo ≤ hi }
{
    start.0 <= deadline.0 && lo <= hi
}

impl<'a> Reader<'a> {
    /// Whether a row is of this kind, with as many fields as the version has.
    fn is_kind(&self, printed: &Record<'_>, kind: &[u8]) -> bool
        ensures { result ≡ is_kind kind.now (width_of self.now.version) printed.now.fields }
    {
        printed.is_kind(kind, width(self.version))
    }

    /// The numbers of a leg's row; `None` if a field is not of its form.
    fn leg_row(&self, printed: &Record<'_>, kind: &[u8]) -> Option<LegRow>
        ensures { result ≡ leg_row_in self.now.version kind.now printed.now.fields }
    {
        if !self.is_kind(printed, kind) {
            return None;
        }
        let moment = read_moment(printed.field(columns::BY))?;
        let enter = whole(printed.field(columns::ENTER))?;
        let dep = read_moment(printed.field(columns::DEPARTURE))?;
        let exit = whole(printed.field(columns::EXIT))?;
        let arr = read_moment(printed.field(columns::ARRIVAL))?;
        Some(LegRow {
            moment,
            enter,
            dep,
            exit,
            arr,
        })
    }

    /// The place where the leg of a row begins: the place of the row, or the one that it names.
    fn entry_of(&self, printed: &Record<'_>, here: PlaceId) -> Option<PlaceId>
        ensures { option_map (λ id. id.0) result ≡ entry_in self.now.version self.now.names here.0
            printed.now.fields }
    {
        match self.version {
            Version::First => Some(here),
            Version::Second => self.names.place(printed.field(columns::ENTRY_PLACE)),
        }
    }

    /// The names of a leg's row of a place; `None` if one is not known.
    fn names_of(&self, printed: &Record<'_>, here: PlaceId) -> Option<LegNames>
        ensures { result ≡ names_in self.now.version self.now.names here.0
            printed.now.fields }
    {
        let run = self.names.run(printed.field(columns::RUN))?;
        let exit = self.names.place(printed.field(columns::EXIT_PLACE))?;
        let entry = self.entry_of(printed, here)?;
        Some(LegNames { run, exit, entry })
    }

    /// The leg of a row by its numbers and names; `None` if the network does not have it.
    fn leg_found(&self, numbers: &LegRow, known: &LegNames) -> Option<Leg>
        ensures found { result ≡ leg_found self.now.network.now numbers.now known.now }
        ensures there { IfSome result (λ leg. (leg.enter.0 < count self.now.network.now)
            × (leg.exit.0 < count self.now.network.now)) }
    {
        let enter = connection_of(self.network, known.run, numbers.enter)?;
        let exit = connection_of(self.network, known.run, numbers.exit)?;
        let entry = self.network.get(enter);
        let last = self.network.get(exit);
        if numbers.enter <= numbers.exit
            && entry.can_board
            && last.can_exit
            && entry.dep.0 == numbers.dep.0
            && entry.from.0 == known.entry.0
            && last.to.0 == known.exit.0
            && last.arr.0 == numbers.arr.0
        {
            return Some(Leg { enter, exit });
        }
        None
    }

    /// The start leg of a row.
    fn start_row(
        &self,
        printed: &Record<'_>,
        source: PlaceId,
        start: Moment,
    ) -> Result<Leg, TextFault>
        ensures { result ≡ start_in self.now.network.now self.now.names self.now.version printed.now.line source.0 start.0
            printed.now.fields }
    {
        let line = printed.line();
        let Some(numbers) = self.leg_row(printed, b"start") else {
            return Err(TextFault::Row(line));
        };
        let Some(known) = self.names_of(printed, source) else {
            return Err(TextFault::UnknownName(line));
        };
        let Some(leg) = self.leg_found(&numbers, &known) else {
            return Err(TextFault::NoLeg(line));
        };
        if can_start(self.network.get(leg.enter), source, start, numbers.moment) {
            Ok(leg)
        } else {
            Err(TextFault::NoLeg(line))
        }
    }

    /// Whether the fields of a place row after its numbers are empty, up to that of an arrival.
    fn is_blank(&self, printed: &Record<'_>) -> bool
        ensures { result ≡ is_blank printed.now.fields }
    {
        printed.field(columns::DEPARTURE).len() == 0
            && printed.field(columns::EXIT).len() == 0
            && printed.field(columns::EXIT_PLACE).len() == 0
            && printed.field(columns::ARRIVAL).len() == 0
    }

    /// Whether the field of the entry place is empty, if the version has one.
    fn has_no_entry(&self, printed: &Record<'_>) -> bool
        ensures { result ≡ has_no_entry self.now.version printed.now.fields }
    {
        match self.version {
            Version::First => true,
            Version::Second => printed.field(columns::ENTRY_PLACE).len() == 0,
        }
    }

    /// Whether a row is a place row, whose fields after its numbers are empty.
    fn is_place(&self, printed: &Record<'_>) -> bool
        ensures { result ≡ is_place self.now.version printed.now.fields }
    {
        self.is_kind(printed, b"place") && (self.is_blank(printed) && self.has_no_entry(printed))
    }

    /// The numbers of a place row; `None` if a field is not of its form.
    fn place_row(&self, printed: &Record<'_>) -> Option<PlaceRow>
        ensures { result ≡ place_row_in self.now.version printed.now.fields }
    {
        if !self.is_place(printed) {
            return None;
        }
        let change = whole(printed.field(columns::CHANGE))?;
        let count = whole(printed.field(columns::COUNT))?;
        if count == 0 {
            return None;
        }
        Some(PlaceRow { change, count })
    }

    /// A place row, after one of an earlier place.
    fn table_start(&self, printed: &Record<'_>, last: Option<u32>) -> Result<TableStart, TextFault>
        ensures reported { result ≡ table_in self.now.network.now self.now.names self.now.version printed.now.line last
            printed.now.fields }
        ensures there { IfOk result (λ table. table.place.0 < length self.now.network.now.change) }
    {
        let line = printed.line();
        let Some(numbers) = self.place_row(printed) else {
            return Err(TextFault::Row(line));
        };
        let Some(place) = self.names.place(printed.field(columns::PLACE)) else {
            return Err(TextFault::UnknownName(line));
        };
        if !rises(last.map(|last| u64::from(last)), u64::from(place.0)) {
            return Err(TextFault::NotRising(line));
        }
        if numbers.change == self.network.change(place) {
            Ok(TableStart {
                place,
                count: numbers.count,
            })
        } else {
            Err(TextFault::NoLeg(line))
        }
    }

    /// After a place row.
    fn read_place(
        &self,
        alloc: Global,
        printed: &Record<'_>,
        reading: Reading,
    ) -> Result<Reading, TextFault>
        ensures reported { after_place_row reading (table_in self.now.network.now self.now.names self.now.version printed.now.line
            (option_map (λ place. place.0) reading.place) printed.now.fields)
            ≡ result }
        ensures place { IfOk result (IsPlaced self.now.network.now) }
    {
        let start = self.table_start(printed, reading.place.map(|place| place.0))?;
        Ok(begin(alloc, reading, start))
    }

    /// After one more row: a place row if no leg row is to come, and otherwise a leg row.
    fn read_row(
        &self,
        alloc: Global,
        printed: &Record<'_>,
        reading: Reading,
    ) -> Result<Reading, TextFault>
        requires place { IsPlaced self.now.network.now reading }
        ensures reported { IsUnlessNoMemory result (step self.now.network.now self.now.names self.now.version printed.now.line
            printed.now.fields reading) }
        ensures place { IfOk result (IsPlaced self.now.network.now) }
    {
        if reading.remaining == 0 {
            return self.read_place(alloc, printed, reading);
        }
        let Reading {
            done,
            place,
            rows,
            by,
            remaining,
        } = reading;
        let Some(place) = place else {
            unreachable!();
        };
        let table = InTable {
            reader: self,
            done,
            place,
            rows,
            by,
            remaining,
        };
        table.read_leg(alloc, printed)
    }

    /// The tables of the rows from the second on.
    fn read_tables(&self, alloc: Global) -> Result<List<PlaceTable>, TextFault>
        ensures { IsUnlessNoMemory result (place_tables_from self.now.network.now self.now.names self.now.version (drop 2 self.now.rows.now) 3 no_tables) }
    {
        let mut reading = Reading::new(alloc);
        let count = self.rows.count();
        for row in 1..count {
            reading = self.read_row(alloc, &Record::of_row(self.rows, row), reading)?;
        }
        if reading.remaining == 0 {
            return Ok(reading.done);
        }
        Err(TextFault::Row(count as u64 + 2))
    }

    /// Whether a record is the first of a graph.
    fn is_head(&self, printed: &Record<'_>) -> bool
        ensures { result ≡ is_head self.now.version printed.now.fields }
    {
        self.is_kind(printed, b"graph") && self.has_no_entry(printed)
    }

    /// The numbers of the first row; `None` if a field is not of its form.
    fn head_row(&self, printed: &Record<'_>) -> Option<HeadRow>
        ensures reported { result ≡ head_row_in self.now.version printed.now.fields }
        ensures ordered { IfSome result (λ numbers. numbers.lo ≤ numbers.hi) }
    {
        if !self.is_head(printed) {
            return None;
        }
        let start = read_moment(printed.field(columns::START))?;
        let deadline = read_moment(printed.field(columns::DEADLINE))?;
        let lo = read_nanos(printed.field(columns::LOWER))?;
        let hi = read_nanos(printed.field(columns::UPPER))?;
        if !are_in_order(start, deadline, lo, hi) {
            return None;
        }
        Some(HeadRow {
            start,
            deadline,
            lo,
            hi,
        })
    }

    /// The head, whose source, target and start are these.
    fn read_head(&self, source: PlaceId, target: PlaceId, start: Moment) -> Result<Head, TextFault>
        ensures reported { result ≡ head_in self.now.names self.now.version source.0 target.0 start.0 (header self.now.rows.now) }
        ensures query { IfOk result (λ head. (head.query.source ≡ source)
            × (head.query.target ≡ target) × (head.query.start ≡ start)) }
    {
        let first = Record::first(self.rows);
        let Some(numbers) = self.head_row(&first) else {
            return Err(TextFault::Row(1));
        };
        let from = self.names.place(first.field(columns::SOURCE));
        let to = self.names.place(first.field(columns::TARGET));
        let (Some(from), Some(to)) = (from, to) else {
            return Err(TextFault::UnknownName(1));
        };
        if !is_query((from, to), numbers.start, source, target, start) {
            return Err(TextFault::OtherQuery(1));
        }
        Ok(Head {
            query: Query {
                source,
                target,
                start,
                deadline: numbers.deadline,
            },
            bounds: Span::from_parts(numbers.lo, numbers.hi),
        })
    }

    /// The graph of the start row and the rows after it.
    fn read_rows(&self, alloc: Global, query: &Query) -> Result<PlanGraph, TextFault>
        requires { 0 < row_count self.now.rows.now }
        ensures { IsUnlessNoMemory result (started_in self.now.network.now self.now.names self.now.version query.now.source.0 query.now.start.0
            (slice_index_or self.now.rows.now 1 []) (drop 2 self.now.rows.now)) }
    {
        let leg = self.start_row(&Record::of_row(self.rows, 0), query.source, query.start)?;
        let tables = self.read_tables(alloc)?;
        Ok(PlanGraph {
            start: Some(leg),
            tables,
        })
    }

    /// The graph of the rows after the first.
    fn read_graph(&self, alloc: Global, query: &Query) -> Result<PlanGraph, TextFault>
        ensures { IsUnlessNoMemory result
            (graph_after_first self.now.network.now self.now.names self.now.version query.now.source.0 query.now.target.0 query.now.start.0
            (drop 1 self.now.rows.now)) }
    {
        let here = query.source.0 == query.target.0;
        if self.rows.count() == 0 {
            if here {
                return Ok(PlanGraph {
                    start: None,
                    tables: List::new(alloc),
                });
            }
            return Err(TextFault::Row(2));
        }
        if here {
            return Err(TextFault::Row(2));
        }
        self.read_rows(alloc, query)
    }
}

impl<'b, 'a> InTable<'b, 'a> {
    /// A leg row of the place, after one by an earlier moment.
    fn row(&self, printed: &Record<'_>) -> Result<GraphRow, TextFault>
        ensures { result ≡ row_in self.now.reader.now.network.now self.now.reader.now.names self.now.reader.now.version
            printed.now.line self.now.place.0 (option_map (λ moment. moment.0) self.now.by) printed.now.fields }
    {
        let line = printed.line();
        let Some(numbers) = self.reader.leg_row(printed, b"leg") else {
            return Err(TextFault::Row(line));
        };
        let Some(known) = self.reader.names_of(printed, self.place) else {
            return Err(TextFault::UnknownName(line));
        };
        if !rises(self.by.map(|by| by.0), numbers.moment.0) {
            return Err(TextFault::NotRising(line));
        }
        let Some(leg) = self.reader.leg_found(&numbers, &known) else {
            return Err(TextFault::NoLeg(line));
        };
        if equals_limit(self.reader.network.limit(self.place, leg), numbers.moment) {
            Ok(GraphRow {
                by: numbers.moment,
                leg,
            })
        } else {
            Err(TextFault::NoLeg(line))
        }
    }

    /// What is read after one more row of the table, which is complete with its last one.
    fn with_row(self, alloc: Global, row: GraphRow) -> Result<Reading, NoMemory>
        ensures now { IfOk result (λ now. after_leg_row (with_rows self.entry.done self.entry.place self.entry.rows
            self.entry.by self.entry.remaining) (Ok row) ≡ Ok now) }
        ensures place { IfOk result (IsPlaced self.entry.reader.now.network.now) }
    {
        let InTable {
            reader: _,
            mut done,
            place,
            mut rows,
            by: _,
            remaining,
        } = self;
        rows.push(row)?;
        if remaining == 1 {
            done.push(PlaceTable { place, rows })?;
            return Ok(Reading {
                done,
                place: Some(place),
                rows: List::new(alloc),
                by: None,
                remaining: 0,
            });
        }
        Ok(Reading {
            done,
            place: Some(place),
            rows,
            by: Some(row.by),
            remaining: remaining - 1,
        })
    }

    /// What is read after a leg row of the table.
    fn read_leg(self, alloc: Global, printed: &Record<'_>) -> Result<Reading, TextFault>
        ensures reported { IsUnlessNoMemory result (after_leg_row (with_rows self.entry.done self.entry.place
            self.entry.rows self.entry.by self.entry.remaining)
            (row_in self.entry.reader.now.network.now self.entry.reader.now.names self.entry.reader.now.version
            printed.now.line self.entry.place.0 (option_map (λ moment. moment.0) self.entry.by) printed.now.fields)) }
        ensures place { IfOk result (IsPlaced self.entry.reader.now.network.now) }
    {
        let row = self.row(printed)?;
        Ok(self.with_row(alloc, row)?)
    }
}

/// The version in the first row.
fn version_of(rows: &Rows) -> Option<Version>
    ensures { result ≡ version_in (header rows.now) }
{
    let number = Record::first(rows).field(columns::VERSION);
    if number == b"1".as_slice() {
        return Some(Version::First);
    }
    if number == b"2".as_slice() {
        return Some(Version::Second);
    }
    None
}

/// The head and the graph of a table's records, as [`read`] gives them.
#[tactic(auto, using(crate::proofs::Tables::reported_by))]
fn read_records(
    alloc: Global,
    rows: &Rows,
    network: &Network,
    names: NameIndex<'_>,
    source: PlaceId,
    target: PlaceId,
    start: Moment,
) -> Result<(Head, PlanGraph), TextFault>
    requires { NamesFit names network.now }
    ensures { IsUnlessNoMemory result
        (graph_of_records network.now names.entry source.0 target.0 start.0 rows.now) }
{
    let Some(version) = version_of(rows) else {
        return Err(TextFault::Row(1));
    };
    let reader = Reader {
        version,
        rows,
        network,
        names,
    };
    let head = reader.read_head(source, target, start)?;
    match reader.read_graph(alloc, &head.query) {
        Ok(graph) => Ok((head, graph)),
        Err(fault) => Err(fault),
    }
}

/// The head and the graph of a text, which are of this source, target and start; or the first of its faults
/// by line, and for one line the first in the order of `TextFault`.
pub fn read(
    alloc: Global,
    bytes: &[u8],
    network: &Network,
    names: &Names,
    source: PlaceId,
    target: PlaceId,
    start: Moment,
) -> Result<(Head, PlanGraph), TextFault>
    requires { NamesFit names.now network.now }
    ensures { IsUnlessNoMemory result (graph_of bytes.now network.now names.now source.0 target.0 start.0) }
{
    let rows = Rows::read(alloc, bytes)?;
    let names = NameIndex::of(alloc, names)?;
    read_records(alloc, &rows, network, names, source, target, start)
}
