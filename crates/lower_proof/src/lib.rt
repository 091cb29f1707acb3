//! Lower bounds on the expected arrival of every safe strategy, that are checked one connection at a
//! time.
//!
//! A call that takes an allocator may answer that there is no memory, as `NoMemory` or as the variant
//! of that name; then what it was lent is as it was, unless its own comment says otherwise.
#![tactic(auto)]

ghost use Rattle.std.specs.Prelude.{◌≡◌, ℕ, ◌+◌, ◌<◌, ◌≤◌, ◌↔◌, IsTrue, IfOk, false, length, slice_set, Option as Maybe};
ghost use Rattle.plan_model.specs.Network.{NetworkModel, IsValid, count, run_of, arr_of};
ghost use Rattle.lower_proof.specs.Certificates.{bound_of, IsLeastOf, arrived_by, IsLeastAt, IsLeastAtStart, IsVia, IsTight, IsVerdict};
ghost use Rattle.lower_proof.specs.Promises.{IsSound, IsBestCertificate};
ghost use Rattle.lower_proof.specs.Steps.{lesser, KeepsTo, exit_of, IsBestExit};
ghost use Rattle.lower_proof.specs.Boards.{IsBoard, board_at, AreBoards, AllLate};
ghost use Rattle.interval_fixed.specs.Interval.{end_of_nanos};
ghost use Rattle.plan_model.specs.Bounds.{end_of_time};

mod board;
mod columns;
mod laws;
mod printer;
mod reader;
mod walk;

use board::{Board, boards};
use interval_fixed::Span;
pub use laws::{each_value_is_a_bound, no_text_lacks_memory, one_text_is_one_certificate};
use plan_model::{
    Connection, ConnectionId, List, Moment, Network, NoMemory, PlaceId, Query, WHOLE_WEIGHT,
};
pub use printer::write_text;
pub use reader::{ProofFault, read_text};
use std::alloc::Global;
use walk::{departures_by, last_departure};

/// The sum of the weights of a class of delays, as wide as the sums that it divides.
const WHOLE: u128 = WHOLE_WEIGHT as u128;

/// A lower bound for each connection that has one, in nanoseconds since 1970-01-01.
#[derive(Drop)]
pub struct LowerBounds {
    /// One entry for each connection, `None` if it has no value.
    pub values: List<Option<u64>>,
}

/// What a check found.
#[derive(Clone, Copy)]
pub enum Verdict {
    /// The value of every connection that can be boarded is small enough.
    Holds,
    /// The last connection of the scan order whose value is too great or missing.
    Fails(ConnectionId),
}

/// The question, and the last departure that counts for it.
#[derive(Clone, Copy)]
struct Scope {
    query: Query,
    last: Moment,
}

/// A connection at which a walk is, with its network and its question.
#[derive(Clone, Copy)]
struct Site<'a> {
    network: &'a Network,
    scope: &'a Scope,
    id: ConnectionId,
    ghost there: { id.0 < count network.now },
}

/// The value of a connection; `None` if it has none, or if the list has no entry for it.
fn value_of(values: &[Option<u64>], id: ConnectionId) -> Option<u64>
    ensures { result ≡ bound_of values.now id.0 }
{
    match values.get(id.0 as usize) {
        None => None,
        Some(value) => *value,
    }
}

/// The lesser of two values.
fn lesser(a: Option<u64>, b: Option<u64>) -> Option<u64>
    ensures { result ≡ lesser a b }
{
    match (a, b) {
        (None, b) => b,
        (a, None) => a,
        (Some(a), Some(b)) => Some(a.min(b)),
    }
}

/// Whether a value is at most another.
fn keeps_to(own: Option<u64>, best: Option<u64>) -> bool
    ensures { IsTrue result ↔ KeepsTo own best }
{
    match (own, best) {
        (_, None) => true,
        (None, Some(_)) => false,
        (Some(own), Some(best)) => own <= best,
    }
}

/// The arrival in nanoseconds since 1970-01-01; `None` if it is after the deadline.
fn arrived(deadline: Moment, moment: Moment) -> Option<u64>
    requires { moment.0 < end_of_nanos }
    ensures { result ≡ arrived_by deadline.0 moment.0 }
{
    if moment <= deadline {
        Some(Span::exact(moment).lo())
    } else {
        None
    }
}

/// Whether a connection leaves a place at a moment or later.
fn starts(connection: &Connection, place: PlaceId, moment: Moment) -> bool
    ensures { IsTrue result ↔ (connection.now.from.0 ≡ place.0) × (moment.0 ≤ connection.now.dep.0) }
{
    connection.from == place && moment <= connection.dep
}

/// The least value after an arrival at a place; `None` if there is none.
fn least_at(
    boards: &mut [Board],
    values: &[Option<u64>],
    query: &Query,
    place: PlaceId,
    moment: Moment,
) -> Option<u64>
    requires boards { (p : ℕ) → p < length boards.old → IsBoard values.now (board_at boards.old p) }
    requires place { place.0 < length boards.old }
    requires soon { moment.0 < end_of_time }
    ensures least { (n : NetworkModel) (last : ℕ) → AreBoards n last values.now boards.old → IsLeastAt n query.now values.now place.0 moment.0 result }
    ensures boards { (n : NetworkModel) (last : ℕ) → AreBoards n last values.now boards.old → AreBoards n last values.now boards.new }
    ensures late { (m : ℕ) → m ≤ moment.0 → AllLate m boards.old → AllLate m boards.new }
{
    if place == query.target {
        return arrived(query.deadline, moment);
    }
    let board = &mut boards[place.0 as usize];
    board.look(values, moment)
}

/// The value of leaving by a connection; `None` if one cannot leave by it, or is not safe after an outcome.
fn via(boards: &mut [Board], values: &[Option<u64>], site: &Site) -> Option<u64>
    requires { AreBoards site.now.network.now site.now.scope.now.last.0 values.now boards.old }
    ensures via { IsLeastOf (IsVia site.now.network.now site.now.scope.now.query values.now site.now.id.0) result }
    ensures boards { AreBoards site.now.network.now site.now.scope.now.last.0 values.now boards.new }
    ensures late { (m : ℕ) → m ≤ arr_of site.now.network.now site.now.id.0 → AllLate m boards.old → AllLate m boards.new }
{
    let connection = site.network.get(site.id);
    if !connection.can_exit {
        return None;
    }
    let mut sum: u128 = 0;
    for outcome in site.network.row(connection.class) {
        let moment = Moment(connection.arr.0 + u64::from(outcome.delay));
        match least_at(boards, values, &site.scope.query, connection.to, moment) {
            None => return None,
            Some(value) => sum += u128::from(outcome.weight) * u128::from(value),
        }
    }
    Some((sum / WHOLE) as u64)
}

/// Room for the least value of leaving each run, with none known yet.
fn no_exits(alloc: Global, network: &Network) -> Result<Vec<Option<u64>>, NoMemory>
    ensures runs { IfOk result (λ exits. (i : ℕ) → i < count network.now → run_of network.now i < length exits.items) }
    ensures empty { IfOk result (λ exits. (run : ℕ) → exit_of exits.items run ≡ Maybe.None) }
{
    Ok(vec![in alloc; None; network.runs() as usize]?)
}

/// An entry for each connection, with no value.
fn no_values(alloc: Global, network: &Network) -> Result<Vec<Option<u64>>, NoMemory>
    ensures as_many { IfOk result (λ values. length values.items ≡ count network.now) }
    ensures none { IfOk result (λ values. (c : ℕ) → bound_of values.items c ≡ Maybe.None) }
{
    Ok(vec![in alloc; None; network.count() as usize]?)
}

/// Offers a connection as an exit of its run, and gives the least value of the exits so far.
fn offer(
    boards: &mut [Board],
    exits: &mut [Option<u64>],
    values: &[Option<u64>],
    site: &Site,
) -> Option<u64>
    requires boards { AreBoards site.now.network.now site.now.scope.now.last.0 values.now boards.old }
    requires run { run_of site.now.network.now site.now.id.0 < length exits.old }
    ensures best { IsBestExit site.now.network.now site.now.scope.now.query values.now exits.old site.now.id.0 result }
    ensures exits { exits.new ≡ slice_set exits.old (run_of site.now.network.now site.now.id.0) result }
    ensures boards { AreBoards site.now.network.now site.now.scope.now.last.0 values.now boards.new }
    ensures late { (m : ℕ) → m ≤ arr_of site.now.network.now site.now.id.0 → AllLate m boards.old → AllLate m boards.new }
{
    let run = site.network.get(site.id).run.0 as usize;
    let best = lesser(exits[run], via(boards, values, site));
    exits[run] = best;
    best
}

/// Whether a connection of value `own` cannot be boarded, or `own` is at most the best one.
fn is_kept(connection: &Connection, own: Option<u64>, best: Option<u64>) -> bool
    ensures kept { IsTrue result → IsTrue connection.now.can_board → KeepsTo own best }
    ensures fails { result ≡ false → IsTrue connection.now.can_board × (KeepsTo own best → ⊥) }
{
    !connection.can_board || keeps_to(own, best)
}

/// Whether the value of each connection that can be boarded is at most that of each way to leave its
/// run. If it is, no safe strategy is expected to arrive before the least value at the start.
pub fn check(
    alloc: Global,
    proof: &LowerBounds,
    network: &Network,
    query: &Query,
) -> Result<Verdict, NoMemory>
    ensures verdict { IfOk result (IsVerdict network.now query.now proof.now.values) }
    ensures sound { IfOk result (λ verdict. verdict ≡ Verdict.Holds → IsSound network.now query.now proof.now.values) }
{
    let values = proof.values.as_slice();
    let last = last_departure(values, network, query.deadline);
    let scope = Scope {
        query: *query,
        last,
    };
    let mut departures = departures_by(alloc, network, last)?;
    let mut boards = boards(alloc, network, last)?;
    let mut exits = no_exits(alloc, network)?;
    while let Some(departure) = departures.pop() {
        let id = departure.id;
        let site = Site {
            network,
            scope: &scope,
            id,
        };
        let best = offer(&mut boards, &mut exits, values, &site);
        if !is_kept(&network.get(id), value_of(values, id), best) {
            return Ok(Verdict::Fails(id));
        }
    }
    Ok(Verdict::Holds)
}

/// The least value at the start, in nanoseconds since 1970-01-01; `None` if no connection that can be boarded
/// from the source at the start has a value, and, if source and target are one place, if the start is after
/// the deadline.
pub fn least(proof: &LowerBounds, network: &Network, query: &Query) -> Option<u64>
    requires { query.now.source.0 ≡ query.now.target.0 → query.now.start.0 < end_of_nanos }
    ensures { IsLeastAtStart network.now query.now proof.now.values result }
{
    if query.source == query.target {
        return arrived(query.deadline, query.start);
    }
    let values = proof.values.as_slice();
    let mut least = None;
    for i in 0..network.count() {
        let id = ConnectionId(i);
        let connection = network.get(id);
        if connection.can_board && starts(&connection, query.source, query.start) {
            least = lesser(least, value_of(values, id));
        }
    }
    least
}

/// The value of each connection: the least value of the ways to leave its run after boarding it. Each
/// that departs by the deadline is given its own, the last one first. No other has one.
fn best_values(
    alloc: Global,
    network: &Network,
    query: &Query,
) -> Result<Vec<Option<u64>>, NoMemory>
    ensures valid { IfOk result (λ _. IsValid network.now) }
    ensures tight { IfOk result (λ values. IsTight network.now query.now values.items) }
{
    let scope = Scope {
        query: *query,
        last: query.deadline,
    };
    let mut departures = departures_by(alloc, network, scope.last)?;
    let mut boards = boards(alloc, network, scope.last)?;
    let mut exits = no_exits(alloc, network)?;
    let mut values = no_values(alloc, network)?;
    while let Some(departure) = departures.pop() {
        let id = departure.id;
        let site = Site {
            network,
            scope: &scope,
            id,
        };
        let best = offer(&mut boards, &mut exits, &values, &site);
        let own = if network.get(id).can_board {
            best
        } else {
            None
        };
        values[id.0 as usize] = own;
    }
    Ok(values)
}

/// The greatest certificate: each connection that can be boarded has the least value of the ways to
/// leave its run after boarding it.
pub fn write(alloc: Global, network: &Network, query: &Query) -> Result<LowerBounds, NoMemory>
    ensures tight { IfOk result (λ proof. IsTight network.now query.now proof.values) }
    ensures best { IfOk result (λ proof. IsBestCertificate network.now query.now proof.values) }
{
    let values = best_values(alloc, network, query)?;
    Ok(LowerBounds {
        values: List::from_vec(values),
    })
}
