//! The runs of a row.
ghost use Rattle.std.specs.Prelude.{◌≡◌, ◌+◌, ◌<◌, ◌≤◌};
ghost use Rattle.run_repeat.specs.Runs.{AreBelow, AreTimes, IsRunOf, PassesBefore, PassesUpTo, departure};

use gtfs_tables::FrequencyRow;

/// How many departures are before this second of the service day.
fn departures_before(row: &FrequencyRow, second: u32) -> u32
    requires { 1 ≤ row.now.headway }
    ensures { AreBelow result (λ k. departure row.now k < second) }
{
    if second <= row.first {
        return 0;
    }
    let last = (second - row.first - 1) / row.headway;
    last + 1
}

/// How many runs a row has. A row whose end is not after its start has none.
pub fn count(row: &FrequencyRow) -> u32
    requires { 1 ≤ row.now.headway }
    ensures { AreBelow result (λ k. IsRunOf row.now k) }
{
    departures_before(row, row.end)
}

/// The departure of run `k` from its first stop, in seconds of the service day.
pub fn departure(row: &FrequencyRow, k: u32) -> u32
    requires { IsRunOf row.now k }
    ensures { result ≡ departure row.now k }
{
    row.first + k * row.headway
}

/// How many runs pass before a moment, if each passes `offset` seconds after it departs.
fn passes_before(row: &FrequencyRow, offset: u32, moment: i64) -> u32
    requires headway { 1 ≤ row.now.headway }
    requires times { AreTimes row.now }
    ensures { AreBelow result (λ k. PassesBefore row.now offset moment k) }
{
    let offset = i64::from(offset);
    if moment <= offset {
        return 0;
    }
    let second = moment - offset;
    if second >= i64::from(row.end) {
        return count(row);
    }
    departures_before(row, second as u32)
}

/// How many runs pass at a moment or before, if each passes `offset` seconds after it departs.
fn passes_up_to(row: &FrequencyRow, offset: u32, moment: i64) -> u32
    requires headway { 1 ≤ row.now.headway }
    requires times { AreTimes row.now }
    ensures { AreBelow result (λ k. PassesUpTo row.now offset moment k) }
{
    if moment == i64::MAX {
        return count(row);
    }
    passes_before(row, offset, moment + 1)
}

/// The runs that pass from `low` to `high`, both among them, if each passes `offset` seconds after it departs: those from
/// the first number on, and below the second. Moments are in seconds from the start of the service day. The first is how
/// many pass before `low`, and the second is how many pass at `high` or before.
pub fn within(row: &FrequencyRow, offset: u32, low: i64, high: i64) -> (u32, u32)
    requires headway { 1 ≤ row.now.headway }
    requires times { AreTimes row.now }
    ensures before { AreBelow result.0 (λ k. PassesBefore row.now offset low k) }
    ensures up_to { AreBelow result.1 (λ k. PassesUpTo row.now offset high k) }
{
    (
        passes_before(row, offset, low),
        passes_up_to(row, offset, high),
    )
}
