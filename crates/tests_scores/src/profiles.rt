//! The rows of a profile, and the exit of a run, that are kept of those that come.
ghost use Rattle.std.specs.Prelude.{◌≤◌};

use interval_fixed::Span;
use plan_model::{ConnectionId, Leg, Moment, RunId};
use std::alloc::Global;
use std::test::Fail;
use stop_profile::{Profile, Row};
use trip_exit::ExitTable;
use value_laws::MeanSpan;

fn leg(id: u32) -> Leg {
    Leg {
        enter: ConnectionId(id),
        exit: ConnectionId(id),
    }
}

fn span(lo: u64, hi: u64) -> MeanSpan
    requires { lo ≤ hi }
{
    MeanSpan(Span::from_parts(lo, hi))
}

fn shown(row: Option<&Row<MeanSpan>>) -> Option<(u64, u64, u64)> {
    row.map(|row| (row.by.0, row.value.0.lo(), row.value.0.hi()))
}

/// A row that is inserted: its moment, its bounds and its connection.
type Inserted = (u64, u64, u64, u32);

/// What a profile with room for three rows keeps of these, which come in their order.
fn kept(alloc: Global, rows: &[Inserted]) -> Result<Profile<MeanSpan>, Fail> {
    let mut profile = Profile::reserve(alloc, 3)?;
    if profile.spare() < 3 {
        return Err("no room for three rows".into());
    }
    for &(by, lo, hi, id) in rows {
        if profile.spare() < 1 || hi < lo {
            return Err("no room for a row".into());
        }
        profile.insert(Moment(by), span(lo, hi), leg(id));
    }
    Ok(profile)
}

/// The row that an arrival is in time for.
fn first_of(
    alloc: Global,
    rows: &[Inserted],
    arrival: u64,
) -> Result<Option<(u64, u64, u64)>, Fail> {
    let profile = kept(alloc, rows)?;
    Ok(shown(profile.first(Moment(arrival))))
}

/// How many rows are kept, and how many more there is room for.
fn counts_of(alloc: Global, rows: &[Inserted]) -> Result<(usize, u32), Fail> {
    let profile = kept(alloc, rows)?;
    Ok((profile.rows().len(), profile.spare()))
}

/// In falling order: the second row is dropped, and lowers the first.
const FALLING: [Inserted; 3] = [(50, 20, 22, 1), (40, 19, 23, 2), (30, 20, 21, 3)];

/// In any order: the third row takes out the first.
const MIXED: [Inserted; 3] = [(30, 20, 21, 1), (50, 19, 23, 2), (40, 18, 20, 3)];

#[test]
fn rows_are_kept_lowered_and_taken_out(rt: HostRuntime) -> Result<(), Fail> {
    for (rows, arrival, row) in [
        (&FALLING[..2], 31, Some((50, 19, 22))),
        (&FALLING[..], 30, Some((30, 19, 21))),
        (&FALLING[..], 31, Some((50, 19, 22))),
        (&FALLING[..], 51, None),
        (&MIXED[..2], 30, Some((30, 19, 21))),
        (&MIXED[..2], 31, Some((50, 19, 23))),
        (&MIXED[..], 30, Some((40, 18, 20))),
        (&MIXED[..], 41, Some((50, 19, 23))),
    ] {
        assert_eq!(rt; first_of(rt.alloc(), rows, arrival)?, row, "{arrival}");
    }
    for (rows, count) in [(&FALLING[..2], 1), (&FALLING[..], 2), (&MIXED[..], 2)] {
        let (found, room) = counts_of(rt.alloc(), rows)?;
        assert_eq!(rt; found, count);
        assert!(rt; room >= 1);
    }
    Ok(())
}

#[test]
fn the_better_exit_is_kept_and_lowered(rt: HostRuntime) -> Result<(), Fail> {
    let Ok(mut table) = ExitTable::reserve(rt.alloc(), 2) else {
        return Err("memory".into());
    };
    table.offer(RunId(1), span(20, 22), ConnectionId(7));
    table.offer(RunId(1), span(19, 23), ConnectionId(5));
    let (value, exit) = table.best(RunId(1)).ok_or("none")?;
    assert_eq!(rt; (value.0.lo(), value.0.hi(), exit.0), (19, 22, 7));
    assert!(rt; table.best(RunId(0)).is_none());
    assert!(rt; table.best(RunId(2)).is_none());
    Ok(())
}
