//! The rides that a scan's choices reach, as a graph.
//!
//! A call that takes an allocator may answer that there is no memory, as `NoMemory` or as the variant
//! of that name; then what it was lent is as it was, unless its own comment says otherwise.
#![tactic(auto)]

ghost use Rattle.std.specs.Prelude.{◌≡◌, MatchOption, None, Some, IfOk};
ghost use Rattle.plan_model.specs.declared.model.Leg.{Leg as LegParts};
ghost use Rattle.meat_scan.specs.Solves.{Solves};
ghost use Rattle.leg_extract.specs.Extracted.{IsExtracted};

use meat_scan::Scanned;
use plan_graph::{ExpandedGraph, LegChoice, walk};
use plan_model::{Leg, Moment, Network, NoMemory, Query};
use std::alloc::Global;
use value_laws::Score;

// What a scan chooses at the place where a leg ends.
#[derive(Drop)]
struct ScanChoice<'a, V: Score> {
    scanned: &'a Scanned<V>,
}

impl<'a, V: Score> LegChoice for ScanChoice<'a, V> {
    ghost use Rattle.plan_model.specs.Unfold.{by_place};
    ghost use Rattle.meat_scan.specs.ScanResult.{leg_choice};

    ghost chosen = { λ s n. by_place n (leg_choice s.scanned.now) };

    fn choose(&self, network: &Network, leg: Leg, arrival: Moment) -> Option<Leg> {
        let end = network.get(leg.exit).to;
        let (_, next) = self.scanned.choice(end, arrival)?;
        Some(next)
    }
}

/// The graph of the rides that the scan's choices reach from its start leg, with one row for each
/// outcome of a ride away from the target. `None` if the scan has no start leg.
pub fn extract<V: Score>(
    alloc: Global,
    scanned: &Scanned<V>,
    network: &Network,
    query: &Query,
) -> Result<Option<ExpandedGraph>, NoMemory>
    requires { Solves V.scoring scanned.now network.now query.now }
    ensures { IfOk result (λ graph. MatchOption graph (scanned.now.start ≡ None)
        (λ graph. (start : V × LegParts) × (scanned.now.start ≡ Some start)
        × IsExtracted network.now query.now scanned.now start.1 graph)) }
{
    match scanned.start() {
        None => Ok(None),
        Some((_, start)) => {
            let choice = ScanChoice { scanned };
            let rides = walk(alloc, &choice, network, query, start)?;
            Ok(Some(ExpandedGraph {
                start: Some(start),
                rides,
            }))
        }
    }
}
