//! The rows of a table by group, order and row number in the file.
ghost use Rattle.std.specs.Prelude.{◌≡◌, ◌<◌, ℕ, true, length, Some, None};
ghost use Rattle.std.specs.List.Sorted.{IsPermutation};
ghost use Rattle.csv_rows.specs.Lists.{first_below};
ghost use Rattle.csv_rows.specs.Keys.{IsRising, AreSorted, IsBefore, twin_at, repeated, sooner};

/// A row of a table by its group, its order in the group and its row number in the file.
#[derive(Clone, Copy, PartialEq, Eq, PartialOrd, Ord)]
pub struct Key {
    /// The number of its group.
    pub group: u32,
    /// Its order in the group.
    pub order: u32,
    /// Its row number in the file, from 0 on.
    pub row: u32,
}

/// The keys by group, then by order, then by row number.
pub fn in_order(mut keys: Vec<Key>) -> Vec<Key>
    ensures same { IsPermutation keys.items result.items }
    ensures rising { IsRising result.items }
{
    keys.sort_unstable();
    keys
}

/// The key before this one; `None` for the first key, and if the one before is of another group.
pub fn before_at(keys: &[Key], k: usize) -> Option<Key>
    requires { k < length keys.now }
    ensures { IsBefore keys.now k result }
{
    if k == 0 {
        return None;
    }
    let before = keys[k - 1];
    if before.group == keys[k].group {
        Some(before)
    } else {
        None
    }
}

/// Of a fault that was found and one of a row, if there is one, the fault of the lesser row number; of two at one row the
/// new one. `None` if there is neither.
pub fn sooner<F: Copy>(first: Option<(u32, F)>, row: u32, fault: Option<F>) -> Option<(u32, F)>
    ensures { result ≡ sooner first row fault }
{
    let Some(fault) = fault else {
        return first;
    };
    match first {
        None => Some((row, fault)),
        Some(found) => {
            if found.0 < row {
                Some(found)
            } else {
                Some((row, fault))
            }
        }
    }
}

/// The row of a key whose order the key before it has too; `None` for any other key.
fn repeated(before: Option<Key>, here: Key) -> Option<u32>
    ensures { result ≡ repeated before here }
{
    match before {
        None => None,
        Some(before) => {
            if before.order == here.order {
                Some(here.row)
            } else {
                None
            }
        }
    }
}

/// The first row that has the group and the order of an earlier one, by the keys of all rows in their order. `None` if no two
/// rows have one group and order.
pub fn first_repeat(keys: &[Key]) -> Option<u32>
    ensures { (group order : ℕ → ℕ) (count : ℕ) → AreSorted (λ i. true) group order count keys.now
        → first_below (twin_at group order) count ≡ result }
{
    let mut first: Option<(u32, u32)> = None;
    for k in 0..keys.len() {
        let here = keys[k];
        first = sooner(first, here.row, repeated(before_at(keys, k), here));
    }
    match first {
        None => None,
        Some((_, row)) => Some(row),
    }
}
