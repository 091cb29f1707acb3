//! The parts of the network of a cut file.
ghost use Rattle.std.specs.Prelude.{◌≡◌, ℕ, ◌<◌, length, slice_index, IfOk, None};
ghost use Rattle.delay_table.specs.DelayLists.{class_for};
ghost use Rattle.cut_file.specs.CutKeys.{AreCutKeys, cut_row};
ghost use Rattle.cut_file.specs.CutNetworks.{IsConnection, AreConnections, longest, change_from, change_seconds_of};

use crate::rows::CutRow;
use csv_rows::Key;
use delay_table::{ClassName, DelayTable};
use plan_model::{ClassId, Connection, List, Moment, NoMemory, PlaceId, RunId};
use std::alloc::Global;

/// The class of a row, by its class column and its arrival.
fn class_of(delays: &DelayTable, class: Option<u16>, arrival: Moment) -> ClassId
    ensures { result.0 ≡ class_for delays.now class None arrival.0 }
{
    match class {
        None => delays.class_for(ClassName::Any, None, arrival),
        Some(route) => delays.class_for(ClassName::Route(route), None, arrival),
    }
}

/// A row as a connection.
fn connection_of(delays: &DelayTable, row: CutRow) -> Connection
    ensures { IsConnection delays.now row result }
{
    Connection {
        from: PlaceId(row.from),
        to: PlaceId(row.to),
        dep: Moment(row.dep),
        arr: Moment(row.arr),
        run: RunId(row.run),
        step: row.step,
        class: class_of(delays, row.class, Moment(row.arr)),
        can_board: row.board,
        can_exit: row.exit,
    }
}

/// The connections, by run and step.
pub(crate) fn connections_of(
    alloc: Global,
    rows: &[CutRow],
    keys: &[Key],
    delays: &DelayTable,
) -> Result<List<Connection>, NoMemory>
    requires { AreCutKeys rows.now keys.now }
    ensures { IfOk result (λ connections.
        AreConnections delays.now rows.now keys.now (length keys.now) connections) }
{
    let mut connections: List<Connection> = List::new(alloc);
    for k in 0..keys.len() {
        let row = rows[keys[k].row as usize];
        connections.push(connection_of(delays, row))?;
    }
    Ok(connections)
}

/// The seconds of a change, which takes one at least.
fn change_seconds_of(change: Option<u32>) -> u32
    ensures { result ≡ change_seconds_of change }
{
    match change {
        None => 0,
        Some(seconds) => 1u32.max(seconds),
    }
}

/// The longest change of each place.
fn longest_of(alloc: Global, rows: &[CutRow], places: u32) -> Result<Vec<u32>, NoMemory>
    requires { (i : ℕ) → i < length rows.now → (cut_row rows.now i).from < places }
    ensures size { IfOk result (λ times. length times.items ≡ places) }
    ensures each { IfOk result (λ times. (p : ℕ) → p < places
        → slice_index times.items p ≡ longest rows.now (length rows.now) p) }
{
    let mut times: Vec<u32> = vec![in alloc; 0; places as usize]?;
    for i in 0..rows.len() {
        let place = rows[i].from as usize;
        let seconds = change_seconds_of(rows[i].change);
        times[place] = times[place].max(seconds);
    }
    Ok(times)
}

/// The change of each place.
pub(crate) fn changes_of(alloc: Global, rows: &[CutRow], places: u32) -> Result<List<u32>, NoMemory>
    requires { (i : ℕ) → i < length rows.now → (cut_row rows.now i).from < places }
    ensures size { IfOk result (λ change. length change ≡ places) }
    ensures each { IfOk result (λ change. (p : ℕ) → p < places
        → slice_index change p ≡ change_from (longest rows.now (length rows.now) p)) }
{
    let times = longest_of(alloc, rows, places)?;
    let mut change: List<u32> = List::new(alloc);
    for p in 0..times.len() {
        let seconds = if times[p] == 0 { 120 } else { times[p] };
        change.push(seconds)?;
    }
    Ok(change)
}
