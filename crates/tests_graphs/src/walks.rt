//! The graphs of three buses with a walk between the first and the others.
use crate::graphs::{Reported, arrivals, expanded_reported, planned_reported, pruned_rows};
use plan_graph::GraphRow;
use std::alloc::Global;
use std::test::Fail;
use test_networks::{APART, EXPECTED, five_minutes, links_of, walked_limits};

/// The rows that are pruned.
fn pruned_apart(alloc: Global) -> Result<Vec<GraphRow>, Fail> {
    let network = links_of(alloc, APART, 4, five_minutes().as_slice())?;
    pruned_rows(alloc, &network, 3)
}

#[test]
fn prunes_to_a_row_for_each_walk(rt: HostRuntime) -> Result<(), Fail> {
    let rows = pruned_apart(rt.alloc())?;
    assert_eq!(rt; rows.as_slice(), walked_limits().as_slice());
    Ok(())
}

fn expanded_apart(alloc: Global) -> Result<Reported, Fail> {
    let network = links_of(alloc, APART, 4, five_minutes().as_slice())?;
    expanded_reported(alloc, &network, 3)
}

#[test]
fn expands_over_a_link(rt: HostRuntime) -> Result<(), Fail> {
    let reported = expanded_apart(rt.alloc())?;
    assert_eq!(rt;
        (reported.0.as_slice(), reported.1),
        (arrivals().as_slice(), (EXPECTED, EXPECTED))
    );
    Ok(())
}

fn planned_apart(alloc: Global) -> Result<Reported, Fail> {
    let network = links_of(alloc, APART, 4, five_minutes().as_slice())?;
    planned_reported(alloc, &network, 3)
}

#[test]
fn plans_over_a_link(rt: HostRuntime) -> Result<(), Fail> {
    let reported = planned_apart(rt.alloc())?;
    assert_eq!(rt;
        (reported.0.as_slice(), reported.1),
        (walked_limits().as_slice(), (EXPECTED, EXPECTED))
    );
    Ok(())
}
