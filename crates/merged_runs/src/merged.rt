//! The scan order of a network, merged from its runs.
ghost use Rattle.std.specs.Prelude.{◌≡◌, ◌+◌, ◌-◌, ◌*◌, ◌<◌, ◌≤◌, length, slice_index, slice_set, IfOk};
ghost use Rattle.plan_model.specs.Order.{IsScanOrder};
ghost use Rattle.merged_runs.specs.Merged.{AreStarts, AreStretches, IsTournament, IsMerge, DepartsInOrder, IsParted, key_between, rest_of};
ghost use Rattle.plan_model.specs.Network.{count};

use plan_model::{BackwardOrder, ConnectionId, Moment, Network, NoMemory};
use std::alloc::Global;

/// The greatest number of connections that a network may have.
const MOST_CONNECTIONS: u64 = 8_388_608;

/// The scan order backwards, by a tournament over the runs: each run enters with the key of the last of
/// its connections that was not given yet, and the greatest key wins. A step plays the rounds above one
/// run again, and takes no memory.
#[derive(Drop)]
pub struct MergedRuns {
    /// The index at which the connections of each run begin, and after the last run their count.
    starts: Vec<u32>,
    /// The index up to which the connections of each run are not given yet.
    remaining: Vec<u32>,
    /// The greatest key below each node, and 0 if nothing remains there. A key rises with the departure of
    /// a connection, and at equal departures with its number. Node 1 is the final, node k is between the
    /// nodes 2 k and 2 k + 1, and from the count of runs on the nodes are the runs themselves.
    keys: Vec<u64>,
    ghost size: { length keys.items ≡ 2 * length remaining.items },
}

/// The index at which the connections of each run begin, and after the last run their count.
fn starts_of(alloc: Global, network: &Network) -> Result<Vec<u32>, NoMemory>
    ensures { IfOk result (λ starts. AreStarts network.now starts.items) }
{
    let mut starts: Vec<u32> = Vec::new(alloc);
    for i in 0..network.count() {
        if network.get(ConnectionId(i)).run.0 as usize == starts.len() {
            starts.push(i)?;
        }
    }
    starts.push(network.count())?;
    Ok(starts)
}

/// The connections of one run that were not given yet: those from one index up to another.
#[derive(Clone, Copy)]
struct Stretch<'a> {
    network: &'a Network,
    from: u32,
    to: u32,
    ghost ordered: { from ≤ to },
    ghost within: { to ≤ count network.now },
    ghost rising: { DepartsInOrder network.now from to },
}

impl<'a> Stretch<'a> {
    /// The key of the last of them, and 0 if there is none.
    fn key(&self) -> u64
        ensures { result ≡ key_between self.now.network.now self.now.from self.now.to }
    {
        if self.from == self.to {
            return 0;
        }
        let dep = self.network.get(ConnectionId(self.to - 1)).dep;
        dep.0 * MOST_CONNECTIONS + u64::from(self.to)
    }

    /// The index up to which they depart by a moment. Mostly all do, and then a look at the last one is enough.
    fn end_by(&self, last: Moment) -> u32
        ensures { IsParted self.now.network.now last.0 self.now.from result result self.now.to }
    {
        if self.from == self.to || self.network.get(ConnectionId(self.to - 1)).dep.0 <= last.0 {
            return self.to;
        }
        let mut low = self.from;
        let mut high = self.to;
        while low < high {
            let middle = low + (high - low) / 2;
            let dep = self.network.get(ConnectionId(middle)).dep;
            if dep.0 <= last.0 {
                low = middle + 1;
            } else {
                high = middle;
            }
        }
        low
    }
}

impl MergedRuns {
    /// The whole scan order of this network. It takes memory for two numbers and two keys of each run, and
    /// time in the connections and the runs.
    pub fn new(alloc: Global, network: &Network) -> Result<MergedRuns, NoMemory>
        ensures fits { IfOk result (λ order. ⟦<MergedRuns as BackwardOrder>⟧.fits order network.now) }
        ensures rest { IfOk result (λ order. IsScanOrder network.now (⟦<MergedRuns as BackwardOrder>⟧.rest order network.now)) }
    {
        let starts = starts_of(alloc, network)?;
        let remaining = Vec::from_slice(alloc, &starts[1..])?;
        let keys: Vec<u64> = vec![in alloc; 0; 2 * remaining.len()]?;
        let mut order = MergedRuns {
            starts,
            remaining,
            keys,
        };
        order.play_all(network);
        Ok(order)
    }

    /// Plays all nodes, the final at last.
    fn play_all(&mut self, network: &Network)
        requires { AreStretches network.now self.old.starts.items self.old.remaining.items }
        ensures tournament { IsTournament network.now self.new.starts.items self.new.remaining.items self.new.keys.items }
        ensures starts { self.new.starts.items ≡ self.old.starts.items }
        ensures remaining { self.new.remaining.items ≡ self.old.remaining.items }
    {
        let runs = self.remaining.len();
        for run in 0..runs {
            let stretch = Stretch {
                network,
                from: self.starts[run],
                to: self.remaining[run],
            };
            self.keys[runs + run] = stretch.key();
        }
        for node in (1..runs).rev() {
            self.keys[node] = self.keys[2 * node].max(self.keys[2 * node + 1]);
        }
    }

    /// Gives the last connection of a run that was not given yet, and plays the nodes above it again.
    fn give(&mut self, network: &Network, run: usize)
        requires merge { IsMerge network.now self.old.starts.items self.old.remaining.items self.old.keys.items }
        requires run { run < length self.old.remaining.items }
        requires some { slice_index self.old.starts.items run < slice_index self.old.remaining.items run }
        ensures merge { IsMerge network.now self.new.starts.items self.new.remaining.items self.new.keys.items }
        ensures remaining { self.new.remaining.items
            ≡ slice_set self.old.remaining.items run (slice_index self.old.remaining.items run - 1) }
    {
        let from = self.starts[run];
        let to = self.remaining[run] - 1;
        let stretch = Stretch { network, from, to };
        self.remaining[run] = to;
        let mut node = self.remaining.len() + run;
        self.keys[node] = stretch.key();
        while node > 1 {
            node /= 2;
            self.keys[node] = self.keys[2 * node].max(self.keys[2 * node + 1]);
        }
    }
}

impl BackwardOrder for MergedRuns {
    ghost use Rattle.merged_runs.specs.Merged.{IsMerge, rest_of};

    ghost fits = { λ order n. IsMerge n order.starts.items order.remaining.items order.keys.items };

    ghost rest = { λ order n. rest_of n order.remaining.items };

    fn rewind(&mut self, network: &Network) {
        self.remaining.copy_from_slice(&self.starts[1..]);
        self.play_all(network);
    }

    fn next(&mut self, network: &Network) -> Option<ConnectionId> {
        if self.remaining.is_empty() {
            return None;
        }
        let key = self.keys[1];
        if key == 0 {
            return None;
        }
        let last = ConnectionId(((key - 1) % MOST_CONNECTIONS) as u32);
        let run = network.get(last).run.0 as usize;
        self.give(network, run);
        Some(last)
    }

    fn skip_after(&mut self, network: &Network, last: Moment) {
        for run in 0..self.remaining.len() {
            let stretch = Stretch {
                network,
                from: self.starts[run],
                to: self.remaining[run],
            };
            self.remaining[run] = stretch.end_by(last);
        }
        self.play_all(network);
    }
}
