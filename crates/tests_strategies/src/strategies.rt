//! The best value of all safe strategies, by trying each leg at each arrival. No profile, no order
//! of the connections and no bound is kept: what is tried twice is worked out twice.
use plan_model::{ConnectionId, Moment, Network, PlaceId, Query};

/// How many cases the weights of a delay row add up to.
const CASES: u128 = 10_000;

/// What is sought of a strategy.
#[derive(Clone, Copy, PartialEq, Eq)]
pub(crate) enum Goal {
    /// Its latest arrival, in seconds.
    Worst,
    /// Its expected arrival, in seconds times 10,000 for each ride that may still come.
    Expected,
    /// Its chance of an arrival after this moment, where certainty is 10,000 for each ride that may still come.
    Late(Moment),
}

/// What the strategies are for.
#[derive(Clone, Copy)]
struct Search<'a> {
    network: &'a Network,
    target: PlaceId,
    deadline: Moment,
    goal: Goal,
}

/// 10,000 for each of this many rides.
pub(crate) fn scale_of(rides: u32) -> u128 {
    let mut scale: u128 = 1;
    for _ in 0..rides {
        scale = scale.saturating_mul(CASES);
    }
    scale
}

fn lesser(a: Option<u128>, b: Option<u128>) -> Option<u128> {
    match (a, b) {
        (Some(a), Some(b)) => Some(a.min(b)),
        (Some(a), None) => Some(a),
        (None, other) => other,
    }
}

/// Whether who is at a place since a moment can board a connection after a change.
fn boards(network: &Network, enter: u32, place: PlaceId, arrival: Moment) -> bool {
    if enter >= network.count() {
        return false;
    }
    let connection = network.get(ConnectionId(enter));
    connection.can_board
        && connection.from.0 == place.0
        && arrival
            .0
            .saturating_add(u64::from(network.change(connection.from)))
            <= connection.dep.0
}

/// Whether who sets out at a place at a moment can board a connection.
fn begins(network: &Network, enter: u32, source: PlaceId, start: Moment) -> bool {
    if enter >= network.count() {
        return false;
    }
    let connection = network.get(ConnectionId(enter));
    connection.can_board && connection.from.0 == source.0 && start.0 <= connection.dep.0
}

/// Whether a ride may go from one connection to another.
fn is_ride(network: &Network, enter: u32, exit: u32) -> bool {
    if enter >= network.count() || exit >= network.count() {
        return false;
    }
    let (enter, exit) = (
        network.get(ConnectionId(enter)),
        network.get(ConnectionId(exit)),
    );
    enter.run.0 == exit.run.0 && enter.step <= exit.step && exit.can_exit
}

/// The best value from a place on, over at most this many rides.
#[cycle(rides)]
fn from_place(search: Search<'_>, place: PlaceId, arrival: Moment, remaining: u32) -> Option<u128> {
    if place.0 == search.target.0 {
        if arrival.0 > search.deadline.0 {
            return None;
        }
        let moment = u128::from(arrival.0);
        return match search.goal {
            Goal::Worst => Some(moment),
            Goal::Expected => Some(moment.saturating_mul(scale_of(remaining))),
            Goal::Late(promise) if arrival.0 <= promise.0 => Some(0),
            Goal::Late(_) => Some(scale_of(remaining)),
        };
    }
    let mut best = None;
    for enter in 0..search.network.count() {
        if boards(search.network, enter, place, arrival) {
            best = lesser(best, by_entry(search, enter, remaining));
        }
    }
    best
}

/// The best value of the rides from a connection, over at most this many rides.
#[cycle(rides)]
fn by_entry(search: Search<'_>, enter: u32, remaining: u32) -> Option<u128> {
    let mut best = None;
    for exit in 0..search.network.count() {
        if is_ride(search.network, enter, exit) {
            best = lesser(best, by_exit(search, exit, remaining));
        }
    }
    best
}

/// The best value of a ride that ends with a connection; none where some outcome has none.
#[cycle(rides)]
fn by_exit(search: Search<'_>, exit: u32, remaining: u32) -> Option<u128> {
    if exit >= search.network.count() || remaining == 0 {
        return None;
    }
    let connection = search.network.get(ConnectionId(exit));
    let mut value: u128 = 0;
    for outcome in search.network.row(connection.class) {
        let arrival = Moment(connection.arr.0.saturating_add(u64::from(outcome.delay)));
        let child = from_place(search, connection.to, arrival, remaining - 1)?;
        value = match search.goal {
            Goal::Worst => value.max(child),
            Goal::Expected | Goal::Late(_) => {
                value.saturating_add(child.saturating_mul(u128::from(outcome.weight)))
            }
        };
    }
    Some(value)
}

/// The best value of all strategies that are safe for a query, over as many rides as there are
/// connections; none where no strategy is safe.
pub(crate) fn best(network: &Network, query: &Query, goal: Goal) -> Option<u128> {
    let search = Search {
        network,
        target: query.target,
        deadline: query.deadline,
        goal,
    };
    let rides = network.count();
    if query.source.0 == query.target.0 {
        return from_place(search, query.source, query.start, rides);
    }
    let mut best = None;
    for enter in 0..rides {
        if begins(network, enter, query.source, query.start) {
            best = lesser(best, by_entry(search, enter, rides));
        }
    }
    best
}
