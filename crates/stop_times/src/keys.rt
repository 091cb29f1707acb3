//! The rows of stop times by trip and sequence, and the first of them whose times go back.
ghost use Rattle.std.specs.Prelude.{◌≡◌, ◌<◌, ◌≤◌, ◌^◌, length, true, false, None, IfOk, IfSome};
ghost use Rattle.std.specs.List.{filter};
ghost use Rattle.csv_rows.specs.Lists.{first_below};
ghost use Rattle.stop_times.specs.StopTimeKeys.{AreKeysOf, AreRowsRising, goes_back_after, backward_after};
ghost use Rattle.stop_times.specs.StopTimes.{times_in, row_at, is_kept, repeated_time, backward_time};

use crate::stored_row::StoredRow;
use csv_rows::{FeedFault, Key, before_at, in_order, sooner};
use plan_model::NoMemory;
use std::alloc::Global;

/// Whether each row comes before the next one, by trip and then by sequence.
pub(crate) fn are_rising(rows: &[StoredRow]) -> bool
    ensures { result ≡ true → AreRowsRising rows.now }
{
    for i in 1..rows.len() {
        if !rows[i - 1].is_before(&rows[i]) {
            return false;
        }
    }
    true
}

/// All rows, in the order of trip, sequence and row number in the file. Rows that rise are in this order already.
pub(crate) fn sorted_keys(
    alloc: Global,
    rows: &[StoredRow],
    rise: bool,
) -> Result<Vec<Key>, NoMemory>
    requires count { length rows.now < 2 ^ 32 }
    requires rise { rise ≡ true → AreRowsRising rows.now }
    ensures keys { IfOk result (λ keys. AreKeysOf false rows.now keys.items) }
    ensures few { IfOk result (λ keys. length keys.items ≤ length rows.now) }
{
    let mut keys: Vec<Key> = Vec::with_capacity(alloc, rows.len())?;
    for i in 0..rows.len() {
        keys.push(Key {
            group: rows[i].trip(),
            order: rows[i].sequence(),
            row: i as u32,
        })?;
    }
    if rise {
        return Ok(keys);
    }
    Ok(in_order(keys))
}

/// Whether the row of a key is kept.
fn is_kept(rows: &[StoredRow], key: Key) -> bool
    ensures { result ≡ is_kept rows.now key.row }
{
    match rows.get(key.row as usize) {
        None => false,
        Some(row) => row.is_kept(),
    }
}

/// Leaves the keys of the kept rows.
fn retain_kept(rows: &[StoredRow], keys: &mut Vec<Key>)
    ensures kept { keys.new.items ≡ filter (λ key. is_kept rows.now key.row) keys.old.items }
    ensures few { length keys.new.items ≤ length keys.old.items }
{
    keys.retain(|key| is_kept(rows, *key));
}

/// The keys of the kept rows, by those of all rows, in the same order.
pub(crate) fn kept_keys(rows: &[StoredRow], mut keys: Vec<Key>) -> Vec<Key>
    requires { AreKeysOf false rows.now keys.items }
    ensures keys { AreKeysOf true rows.now result.items }
    ensures few { length result.items ≤ length keys.items }
{
    retain_kept(rows, &mut keys);
    keys
}

/// When a kept row arrives and departs.
fn times_at(rows: &[StoredRow], row: usize) -> (u32, u32)
    requires { row < length rows.now }
    ensures { result ≡ times_in (row_at rows.now row).visit }
{
    rows[row].times()
}

/// Whether a kept row departs before it arrives, or arrives before the row before it departs.
fn goes_back(rows: &[StoredRow], before: Option<Key>, row: u32) -> bool
    requires row { row < length rows.now }
    requires before { IfSome before (λ b. b.row < length rows.now) }
    ensures { result ≡ goes_back_after rows.now before row }
{
    let (arrival, departure) = times_at(rows, row as usize);
    if departure < arrival {
        return true;
    }
    match before {
        None => false,
        Some(before) => {
            let (_, departed) = times_at(rows, before.row as usize);
            arrival < departed
        }
    }
}

/// The fault of a kept row after the row before it in its trip.
fn backward(rows: &[StoredRow], before: Option<Key>, row: u32) -> Option<FeedFault>
    requires row { row < length rows.now }
    requires before { IfSome before (λ b. b.row < length rows.now) }
    ensures { result ≡ backward_after rows.now before row }
{
    if goes_back(rows, before, row) {
        Some(FeedFault::BackwardTime(u64::from(row) + 2))
    } else {
        None
    }
}

/// The fault of the first kept row whose times go back, if no row is repeated.
pub(crate) fn first_backward(rows: &[StoredRow], keys: &[Key]) -> Option<FeedFault>
    requires { AreKeysOf true rows.now keys.now }
    ensures { first_below (repeated_time rows.now) (length rows.now) ≡ None
        → first_below (backward_time rows.now) (length rows.now) ≡ result }
{
    let mut first: Option<(u32, FeedFault)> = None;
    for k in 0..keys.len() {
        let row = keys[k].row;
        let Some(fault) = backward(rows, before_at(keys, k), row) else {
            continue;
        };
        first = sooner(first, row, Some(fault));
    }
    match first {
        None => None,
        Some((_, fault)) => Some(fault),
    }
}
