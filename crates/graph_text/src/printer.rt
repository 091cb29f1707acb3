//! Rows of printed graphs.
ghost use Rattle.std.proofs.Props.{props};
ghost use Rattle.std.specs.Prelude.{◌≡◌, ◌<◌, ◌++◌, map, take, All, IfOk, IfSome, length};
ghost use Rattle.plan_model.specs.NameLists.{NamesFit};
ghost use Rattle.plan_graph.specs.Ready.{IsLegOf};
ghost use Rattle.graph_text.specs.GraphTexts.{leg_row, head_row, start_leg_text, rows_text, rides_text, place_row, tables_text, expanded_text_in, plan_text_in};
ghost use Rattle.printed_rows.specs.Records.{row_of_fields};
ghost use Rattle.graph_text.specs.Versions.{width_of};
ghost use Rattle.graph_text.specs.Printable.{IsPrintableQuery, IsPrintableRow, IsPrintableRide, IsPrintableTable};

use crate::Head;
use crate::version::{Version, digit, width};
use clock_text::{write_moment, write_nanos};
use itoa::Buffer;
use plan_graph::{ExpandedGraph, GraphRow, PlaceTable, PlanGraph, Ride};
use plan_model::{Leg, Names, Network, NoMemory, PlaceId};

/// What is needed to print the rows of a graph: a network with the names of its places and runs, a question
/// about it with its bounds, and the version of the text.
#[derive(Drop)]
pub(crate) struct Printer<'a> {
    pub(crate) network: &'a Network,
    pub(crate) names: &'a Names,
    pub(crate) head: &'a Head,
    pub(crate) version: Version,
    pub(crate) ghost fit: { NamesFit names.now network.now },
    pub(crate) ghost query: { IsPrintableQuery network.now head.now.query },
}

impl<'a> Printer<'a> {
    /// Adds a row of fields to a text; the first version leaves out the ninth.
    fn put_row(&self, text: Vec<u8>, fields: &[&[u8]; 9]) -> Result<Vec<u8>, NoMemory>
        ensures { IfOk result (λ whole. whole.items ≡ text.items
            ++ row_of_fields (take (width_of self.now.version) (map (λ field. field.now) fields.now))) }
    {
        printed_rows::put_row(text, &fields[..width(self.version)])
    }

    /// Adds the row of a leg to a text.
    fn put_leg<'b>(
        &self,
        text: Vec<u8>,
        kind: &'b [u8],
        second: &'b [u8],
        leg: Leg,
    ) -> Result<Vec<u8>, NoMemory>
        requires { IsLegOf self.now.network.now leg }
        ensures { IfOk result (λ whole. whole.items ≡ text.items
            ++ leg_row self.now.network.now self.now.names.now self.now.version kind.now second.now leg) }
    {
        let enter = self.network.get(leg.enter);
        let exit = self.network.get(leg.exit);
        let dep = write_moment(enter.dep);
        let arr = write_moment(exit.arr);
        let mut entry_step = Buffer::new();
        let mut exit_step = Buffer::new();
        self.put_row(
            text,
            &[
                kind,
                second,
                self.names.run_name(enter.run).as_bytes(),
                entry_step.format(enter.step).as_bytes(),
                dep.as_slice(),
                exit_step.format(exit.step).as_bytes(),
                self.names.place_name(exit.to).as_bytes(),
                arr.as_slice(),
                self.names.place_name(enter.from).as_bytes(),
            ],
        )
    }

    /// Adds the first row to a text.
    fn put_head(&self, text: Vec<u8>, kind: &[u8]) -> Result<Vec<u8>, NoMemory>
        ensures { IfOk result (λ whole. whole.items ≡ text.items
            ++ head_row self.now.names.now self.now.version kind.now self.now.head.now) }
    {
        let query = self.head.query;
        let start = write_moment(query.start);
        let deadline = write_moment(query.deadline);
        let lo = write_nanos(self.head.bounds.lo());
        let hi = write_nanos(self.head.bounds.hi());
        let number = [digit(self.version)];
        self.put_row(
            text,
            &[
                kind,
                number.as_slice(),
                self.names.place_name(query.source).as_bytes(),
                self.names.place_name(query.target).as_bytes(),
                start.as_slice(),
                deadline.as_slice(),
                lo.as_slice(),
                hi.as_slice(),
                b"".as_slice(),
            ],
        )
    }

    /// Adds the row of the start leg to a text.
    fn put_start(&self, text: Vec<u8>, start: Option<Leg>) -> Result<Vec<u8>, NoMemory>
        requires { IfSome start (IsLegOf self.now.network.now) }
        ensures { IfOk result (λ whole. whole.items ≡ text.items
            ++ start_leg_text self.now.network.now self.now.names.now self.now.version start) }
    {
        let Some(leg) = start else {
            return Ok(text);
        };
        let dep = write_moment(self.network.get(leg.enter).dep);
        self.put_leg(text, b"start", dep.as_slice(), leg)
    }

    /// Adds the rows of a table to a text.
    fn put_rows(
        &self,
        mut text: Vec<u8>,
        kind: &[u8],
        rows: &[GraphRow],
    ) -> Result<Vec<u8>, NoMemory>
        requires { All (IsPrintableRow self.now.network.now) rows.now }
        ensures { IfOk result (λ whole. whole.items ≡ text.items
            ++ rows_text self.now.network.now self.now.names.now self.now.version kind.now rows.now) }
    {
        for row in rows {
            let by = write_moment(row.by);
            text = self.put_leg(text, kind, by.as_slice(), row.leg)?;
        }
        Ok(text)
    }

    /// Adds the row of a place to a text.
    #[tactic(auto, using(crate::proofs::Common::name_is, crate::proofs::Fields::take_nine))]
    fn put_place(&self, text: Vec<u8>, place: PlaceId, count: usize) -> Result<Vec<u8>, NoMemory>
        requires { place.0 < length self.now.network.now.change }
        ensures { IfOk result (λ whole. whole.items ≡ text.items
            ++ place_row self.now.network.now self.now.names.now self.now.version place.0 count) }
    {
        let mut change = Buffer::new();
        let mut number = Buffer::new();
        let none = b"".as_slice();
        self.put_row(
            text,
            &[
                b"place".as_slice(),
                self.names.place_name(place).as_bytes(),
                change.format(self.network.change(place)).as_bytes(),
                number.format(count).as_bytes(),
                none,
                none,
                none,
                none,
                none,
            ],
        )
    }
}

/// A graph by ride, and what it is printed with.
#[derive(Drop)]
pub(crate) struct RidePrinter<'g, 'a> {
    pub(crate) printer: Printer<'a>,
    pub(crate) graph: &'g ExpandedGraph,
    pub(crate) ghost start: { IfSome graph.now.start (IsLegOf printer.network.now) } by { Prim.hlevel props },
    pub(crate) ghost rides: { All (IsPrintableRide printer.network.now) graph.now.rides },
}

impl<'g, 'a> RidePrinter<'g, 'a> {
    /// Adds the row of each ride and its rows to a text.
    fn put_rides(&self, mut text: Vec<u8>) -> Result<Vec<u8>, NoMemory>
        ensures { IfOk result (λ whole. whole.items ≡ text.items
            ++ rides_text self.now.printer.network.now self.now.printer.names.now self.now.printer.version self.now.graph.now.rides) }
    {
        let rides = self.graph.rides.as_slice();
        for ride in rides {
            let mut number = Buffer::new();
            let number = number.format(ride.after.len()).as_bytes();
            text = self.printer.put_leg(text, b"ride", number, ride.leg)?;
            text = self.printer.put_rows(text, b"next", ride.after.as_slice())?;
        }
        Ok(text)
    }

    /// Adds the rows of the graph to a text.
    pub(crate) fn put(&self, text: Vec<u8>) -> Result<Vec<u8>, NoMemory>
        ensures { IfOk result (λ whole. whole.items ≡ text.items
            ++ expanded_text_in self.now.printer.network.now self.now.printer.names.now self.now.printer.version self.now.printer.head.now self.now.graph.now) }
    {
        let text = self.printer.put_head(text, b"expanded")?;
        let query = self.printer.head.query;
        if query.source == query.target {
            return Ok(text);
        }
        let text = self.printer.put_start(text, self.graph.start)?;
        self.put_rides(text)
    }
}

/// A graph by place, and what it is printed with.
#[derive(Drop)]
pub(crate) struct PlacePrinter<'g, 'a> {
    pub(crate) printer: Printer<'a>,
    pub(crate) graph: &'g PlanGraph,
    pub(crate) ghost start: { IfSome graph.now.start (IsLegOf printer.network.now) } by { Prim.hlevel props },
    pub(crate) ghost tables: { All (IsPrintableTable printer.network.now) graph.now.tables },
}

impl<'g, 'a> PlacePrinter<'g, 'a> {
    /// Adds the row of each place and its rows to a text.
    #[tactic(auto, using(crate::proofs::Common::append_assoc, crate::proofs::Common::text_more, std::proofs::lemmas::Grind::common_steps))]
    fn put_tables(&self, mut text: Vec<u8>) -> Result<Vec<u8>, NoMemory>
        ensures { IfOk result (λ whole. whole.items ≡ text.items
            ++ tables_text self.now.printer.network.now self.now.printer.names.now self.now.printer.version self.now.graph.now.tables) }
    {
        let tables = self.graph.tables.as_slice();
        for table in tables {
            text = self.printer.put_place(text, table.place, table.rows.len())?;
            text = self.printer.put_rows(text, b"leg", table.rows.as_slice())?;
        }
        Ok(text)
    }

    /// Adds the rows of the graph to a text.
    pub(crate) fn put(&self, text: Vec<u8>) -> Result<Vec<u8>, NoMemory>
        ensures { IfOk result (λ whole. whole.items ≡ text.items
            ++ plan_text_in self.now.printer.network.now self.now.printer.names.now self.now.printer.version self.now.printer.head.now self.now.graph.now) }
    {
        let text = self.printer.put_head(text, b"graph")?;
        let query = self.printer.head.query;
        if query.source == query.target {
            return Ok(text);
        }
        let text = self.printer.put_start(text, self.graph.start)?;
        self.put_tables(text)
    }
}
