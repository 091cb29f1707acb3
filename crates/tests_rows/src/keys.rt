//! Keys of rows, in order and repeated.
use csv_rows::{Key, before_at, first_repeat, in_order};
use std::alloc::Global;
use std::test::Fail;

/// The keys of these groups, orders and places, in their order.
fn sorted(rt: HostRuntime, rows: &[(u32, u32, u32)]) -> Result<Vec<Key>, Fail> {
    let mut keys: Vec<Key> = Vec::new(rt.alloc());
    for &(group, order, row) in rows {
        keys.push(Key { group, order, row })?;
    }
    Ok(in_order(keys))
}

/// The rows of these keys.
fn rows_of(alloc: Global, keys: &[Key]) -> Result<Vec<u32>, Fail> {
    let mut rows = Vec::new(alloc);
    for key in keys {
        rows.push(key.row)?;
    }
    Ok(rows)
}

/// The row of the key before one, if it is of the same group.
fn row_before(keys: &[Key], k: usize) -> Option<u32> {
    if k >= keys.len() {
        return None;
    }
    before_at(keys, k).map(|key| key.row)
}

/// The first row that repeats another.
fn repeat_in(rt: HostRuntime, rows: &[(u32, u32, u32)]) -> Result<Option<u32>, Fail> {
    let keys = sorted(rt, rows)?;
    Ok(first_repeat(keys.as_slice()))
}

const FOUR_ROWS: [(u32, u32, u32); 4] = [(1, 0, 0), (0, 9, 1), (1, 0, 2), (0, 7, 3)];

#[test]
fn sorts_by_group_order_and_row(rt: HostRuntime) -> Result<(), Fail> {
    let keys = sorted(rt, FOUR_ROWS.as_slice())?;
    let rows = rows_of(rt.alloc(), keys.as_slice())?;
    assert_eq!(rt; rows.as_slice(), [3, 1, 0, 2].as_slice());
    Ok(())
}

#[test]
fn finds_the_row_before_in_a_group(rt: HostRuntime) -> Result<(), Fail> {
    let keys = sorted(rt, FOUR_ROWS.as_slice())?;
    assert_eq!(rt;
        (row_before(&keys, 1), row_before(&keys, 2)),
        (Some(3), None)
    );
    Ok(())
}

#[test]
fn finds_the_first_repeat_by_row(rt: HostRuntime) -> Result<(), Fail> {
    let found = repeat_in(rt, &[(2, 1, 0), (0, 0, 1), (2, 1, 2), (0, 0, 3)])?;
    assert_eq!(rt; found, Some(2));
    let found = repeat_in(rt, &[(2, 1, 0), (0, 1, 1), (2, 0, 2)])?;
    assert_eq!(rt; found, None);
    Ok(())
}
