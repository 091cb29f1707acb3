//! The tables of a scan, used more than once.
ghost use Rattle.std.specs.Prelude.{◌≡◌};

use crate::scores::{eight, later};
use meat_scan::{ScanTables, start_value};
use plan_model::{BackwardOrder, Moment, PlaceId, Query, SortedOrder};
use std::test::Fail;
use test_networks::{EIGHT, network_of};
use value_laws::WorstMoment;

/// A ride of twenty minutes, which comes a quarter of an hour late at most.
const ONE_RIDE: &str =
    "run,step,from,to,dep,arr\nr0,0,A,B,2024-06-03T08:00:00,2024-06-03T08:20:00\n";

/// From the first place to the second, by this many seconds after eight.
fn within(seconds: u64) -> Query
    ensures source { result.source.0 ≡ 0 }
    ensures target { result.target.0 ≡ 1 }
{
    Query {
        source: PlaceId(0),
        target: PlaceId(1),
        start: eight(),
        deadline: later(eight(), seconds),
    }
}

#[test]
fn tables_serve_many_scans(rt: HostRuntime) -> Result<(), Fail> {
    let network = network_of(rt.alloc(), ONE_RIDE, 2)?;
    let mut order = SortedOrder::new(rt.alloc(), &network)?;
    let tables = ScanTables::<WorstMoment>::reserve(rt.alloc(), &network)?;
    let (tables, worst) = start_value(tables, &network, &mut order, &within(2099));
    assert!(rt; worst.is_none());
    order.rewind(&network);
    let (tables, worst) = start_value(tables, &network, &mut order, &within(2100));
    assert_eq!(rt; worst.map(|value| value.0), Some(Moment(EIGHT + 2100)));
    order.rewind(&network);
    let (_tables, worst) = start_value(tables, &network, &mut order, &within(2099));
    assert!(rt; worst.is_none());
    Ok(())
}
