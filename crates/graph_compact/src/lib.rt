//! A graph by place from a graph by ride.
//!
//! A call that takes an allocator may answer that there is no memory, as `NoMemory` or as the variant
//! of that name; then what it was lent is as it was, unless its own comment says otherwise.
#![tactic(auto)]

ghost use Rattle.std.specs.Prelude.{◌≡◌, ℕ, ◌<◌, length, IfOk, OnOk, All, [], ◌++◌, List as Sequence};
ghost use Rattle.plan_model.specs.Network.{IsValid};
ghost use Rattle.plan_graph.specs.declared.PlaceTable.{PlaceTable as TableParts};
ghost use Rattle.plan_graph.specs.Ready.{IsPruned, IsLegOf};
ghost use Rattle.plan_graph.specs.Coherent.{IsCoherent};
ghost use Rattle.plan_graph.specs.Tidy.{IsTidy};
ghost use Rattle.plan_graph.specs.Unfold.{unfold_expanded, unfold_plan};
ghost use Rattle.graph_compact.specs.RowsByPlace.{put_rows, gathered_rows, lists_of, rows_in, with_table, tables_of};

use plan_graph::{ExpandedGraph, GraphRow, PlaceTable, PlanGraph};
use plan_model::{List, Network, NoMemory, PlaceId, Query};
use std::alloc::Global;
use std::collections::BTreeSet;

// Adds rows to those of a place, each once.
fn put_all(table: &mut BTreeSet<GraphRow>, rows: &[GraphRow]) -> Result<(), NoMemory>
    ensures { OnOk result (table.new.keys ≡ put_rows rows.now table.old.keys) }
{
    for row in rows {
        table.insert(*row)?;
    }
    Ok(())
}

// An empty table for each place.
fn no_tables(alloc: Global, network: &Network) -> Result<Vec<BTreeSet<GraphRow>>, NoMemory>
    ensures len { IfOk result (λ tables. length tables.items ≡ length network.now.change) }
    ensures empty { IfOk result (λ tables. (place : ℕ) → rows_in tables.items place ≡ []) }
    ensures valid { IfOk result (λ _. IsValid network.now) }
{
    let mut tables = Vec::new(alloc);
    for _ in 0..network.places() {
        tables.push(BTreeSet::new(alloc))?;
    }
    Ok(tables)
}

// The rows of all rides, by the places where they end.
fn gather(
    alloc: Global,
    graph: &ExpandedGraph,
    network: &Network,
) -> Result<Vec<BTreeSet<GraphRow>>, NoMemory>
    requires { All (λ r. IsLegOf network.now r.leg) graph.now.rides }
    ensures len { IfOk result (λ tables. length tables.items ≡ length network.now.change) }
    ensures rows { IfOk result (λ tables. (place : ℕ) → place < length network.now.change
        → rows_in tables.items place ≡ gathered_rows network.now place graph.now.rides []) }
    ensures valid { IfOk result (λ _. IsValid network.now) }
{
    let mut tables = no_tables(alloc, network)?;
    for ride in graph.rides.as_slice() {
        let end = network.get(ride.leg.exit).to.0 as usize;
        put_all(&mut tables[end], ride.after.as_slice())?;
    }
    Ok(tables)
}

// The rows of a table as a list.
fn rows_of(alloc: Global, table: &BTreeSet<GraphRow>) -> Result<List<GraphRow>, NoMemory>
    ensures { IfOk result (λ rows. rows ≡ table.now.keys) }
{
    let mut rows = List::new(alloc);
    for row in table {
        rows.push(*row)?;
    }
    Ok(rows)
}

// Adds the table of a place, if it has rows.
#[tactic(auto, using(crate::proofs::Lists::with_rows, crate::proofs::Lists::without_rows))]
fn add_table(full: &mut List<PlaceTable>, place: u32, rows: List<GraphRow>) -> Result<(), NoMemory>
    ensures { OnOk result ((more : Sequence TableParts) → full.new ++ more ≡ full.old
        ++ with_table place rows more) }
{
    if rows.len() == 0 {
        return Ok(());
    }
    full.push(PlaceTable {
        place: PlaceId(place),
        rows,
    })?;
    Ok(())
}

// The tables that are not empty.
fn full_tables(alloc: Global, tables: &[BTreeSet<GraphRow>]) -> Result<List<PlaceTable>, NoMemory>
    requires { length tables.now < 4294967296 }
    ensures { IfOk result (λ full. full ≡ tables_of 0 (lists_of tables.now)) }
{
    let mut full = List::new(alloc);
    let mut place: u32 = 0;
    for table in tables {
        let rows = rows_of(alloc, table)?;
        add_table(&mut full, place, rows)?;
        place = place.saturating_add(1);
    }
    Ok(full)
}

/// The same decisions by place: it unfolds to the same tree, and each row is picked in it.
pub fn compact(
    alloc: Global,
    graph: &ExpandedGraph,
    network: &Network,
    query: &Query,
) -> Result<PlanGraph, NoMemory>
    requires pruned { IsPruned network.now query.now graph.now }
    requires coherent { IsCoherent network.now graph.now }
    ensures unfolds { IfOk result (λ plan. unfold_plan plan network.now query.now
        ≡ unfold_expanded graph.now network.now query.now) }
    ensures tidy { IfOk result (IsTidy network.now query.now) }
{
    let _ = query;
    match graph.start {
        None => Ok(PlanGraph {
            start: None,
            tables: List::new(alloc),
        }),
        Some(start) => {
            let rows = gather(alloc, graph, network)?;
            let tables = full_tables(alloc, &rows)?;
            Ok(PlanGraph {
                start: Some(start),
                tables,
            })
        }
    }
}
