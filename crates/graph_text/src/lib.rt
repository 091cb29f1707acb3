//! Graphs as printed rows.
//!
//! A call that takes an allocator may answer that there is no memory, as `NoMemory` or as the variant
//! of that name; then what it was lent is as it was, unless its own comment says otherwise.
#![tactic(auto)]

ghost use Rattle.std.specs.Prelude.{◌≡◌, ℕ, ◌≤◌, ◌↔◌, IfOk, Ok, Err, List as Sequence};
ghost use Rattle.plan_model.specs.NameLists.{NameLists, NamesFit};
ghost use Rattle.plan_model.specs.Network.{IsValid, NetworkModel};
ghost use Rattle.plan_graph.specs.Ready.{IsReady};
ghost use Rattle.plan_graph.specs.Tidy.{IsFit};
ghost use Rattle.plan_graph.specs.declared.ExpandedGraph.{ExpandedGraph as Expanded};
ghost use Rattle.plan_graph.specs.declared.PlanGraph.{PlanGraph as Plan};
ghost use Rattle.plan_model.specs.declared.model.Query.{Query as QueryParts};
ghost use Rattle.graph_text.specs.GraphTexts.{expanded_text, plan_text};
ghost use Rattle.graph_text.specs.declared.Head.{Head as HeadParts};
ghost use Rattle.graph_text.specs.Reading.{graph_of, IsReadAs};
ghost use Rattle.graph_text.specs.GraphRows.{IsTextOf};
ghost use Rattle.graph_text.specs.FirstFaults.{IsFirstFaultOf};
ghost use Rattle.graph_text.specs.declared.reader.TextFault.{TextFault as Fault};
ghost use Rattle.graph_text.specs.Asked.{IsHeadOf};
ghost use Rattle.graph_text.specs.Printable.{IsPrintableQuery, IsPrintableExpanded, IsPrintablePlan};

mod columns;
mod printer;
mod reader;
mod version;

use interval_fixed::Span;
use plan_graph::{ExpandedGraph, PlanGraph};
use plan_model::{Names, Network, NoMemory, Query};
use printer::{PlacePrinter, Printer, RidePrinter};
pub use reader::{TextFault, read};
use std::alloc::Global;
use version::{rides_leave, tables_leave, version_by};

/// The question that a graph answers, and bounds on its expected arrival.
#[derive(Clone, Copy)]
pub struct Head {
    /// What was asked, and the deadline that the graph keeps.
    pub query: Query,
    /// The least and the greatest moment of the expected arrival, in nanoseconds since 1970-01-01.
    pub bounds: Span,
}

/// The text of a graph by ride: a first row, the start leg, and for each ride a row and one for each of its
/// rows. If source and target are one place, there is only the first row.
pub fn write_expanded(
    alloc: Global,
    graph: &ExpandedGraph,
    head: &Head,
    network: &Network,
    names: &Names,
) -> Result<Vec<u8>, NoMemory>
    requires names { NamesFit names.now network.now }
    requires query { IsPrintableQuery network.now head.now.query }
    requires graph { IsPrintableExpanded network.now graph.now }
    ensures { IfOk result
        (λ text. text.items ≡ expanded_text network.now names.now head.now graph.now) }
{
    let printer = Printer {
        network,
        names,
        head,
        version: version_by(rides_leave(network, graph.rides.as_slice())),
    };
    RidePrinter { printer, graph }.put(Vec::new(alloc))
}

/// The text of a graph by place: a first row, the start leg, and for each place a row and one for each of
/// its rows. If source and target are one place, there is only the first row. The text of a graph that fits
/// the network and the question reads back.
pub fn write(
    alloc: Global,
    graph: &PlanGraph,
    head: &Head,
    network: &Network,
    names: &Names,
) -> Result<Vec<u8>, NoMemory>
    requires names { NamesFit names.now network.now }
    requires query { IsPrintableQuery network.now head.now.query }
    requires graph { IsPrintablePlan network.now graph.now }
    ensures text { IfOk result
        (λ text. text.items ≡ plan_text network.now names.now head.now graph.now) }
    ensures reads_back { IfOk result (λ text. IsFit network.now head.now.query graph.now
        → head.now.query.start.0 ≤ head.now.query.deadline.0
        → IsReadAs network.now names.now head.now graph.now text.items) }
{
    let are_named = names.places() == network.places();
    let are_ordered = head.bounds.lo() <= head.bounds.hi();
    prove!(are_named && are_ordered);
    let printer = Printer {
        network,
        names,
        head,
        version: version_by(tables_leave(network, graph.tables.as_slice())),
    };
    PlacePrinter { printer, graph }.put(Vec::new(alloc))
}

/// A law, with no code: a graph that is ready to be pruned can be printed.
pub fn ready_is_printable()
    ensures { (n : NetworkModel) (q : QueryParts) (graph : Expanded) → IsValid n → IsReady n q graph
        → IsPrintableExpanded n graph }
{}

/// A law, with no code: a graph that fits a network can be printed.
pub fn fit_is_printable()
    ensures { (n : NetworkModel) (q : QueryParts) (graph : Plan) → IsValid n → IsFit n q graph
        → IsPrintablePlan n graph }
{}

/// A law, with no code: what is read fits the network and the question, whose source, target and start are those given.
pub fn read_fits()
    ensures { (n : NetworkModel) (names : NameLists) (text : Sequence ℕ) (source target start : ℕ)
        (head : HeadParts) (graph : Plan) → graph_of text n names source target start
        ≡ Ok (head, graph) → IsFit n head.query graph × IsHeadOf source target start head }
{}

/// A law, with no code: a text is read as a head and a graph if its rows are those of them and the graph
/// fits, and only then.
pub fn read_is_by_rows()
    ensures { (n : NetworkModel) (names : NameLists) (head : HeadParts) (graph : Plan) (text : Sequence ℕ)
        → IsValid n → IsReadAs n names head graph text ↔ IsTextOf n names head graph text }
{}

/// A law, with no code: for a valid network, the fault of a text is its first by line. The rows before that
/// line are those of a graph, and its own row breaks the rule that the fault names.
#[tactic(auto, using(crate::proofs::Faults::records_back, crate::proofs::Faults::records_fail))]
pub fn read_fault_is_by_rows()
    ensures { (n : NetworkModel) (names : NameLists) (source target start : ℕ) (text : Sequence ℕ) (fault : Fault)
        → IsValid n → graph_of text n names source target start ≡ Err fault ↔ IsFirstFaultOf n names source target start text fault }
{}
