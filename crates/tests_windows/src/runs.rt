//! The runs of a row of frequencies.
use gtfs_tables::FrequencyRow;
use run_repeat::{count, departure, within};

const ROW: FrequencyRow = FrequencyRow {
    first: 29_100,
    end: 30_900,
    headway: 900,
    line: 2,
};

#[test]
fn counts_runs(rt: HostRuntime) {
    for (first, end, headway, runs) in [
        (29_100, 30_900, 900, 2),
        (29_100, 30_901, 900, 3),
        (29_100, 29_101, 86_400, 1),
        (29_100, 29_100, 900, 0),
        (29_100, 0, 900, 0),
        (0, 604_799, 1, 604_799),
    ] {
        let row = FrequencyRow {
            first,
            end,
            headway,
            line: 2,
        };
        assert_eq!(rt; count(&row), runs, "{first} {end} {headway}");
    }
    assert_eq!(rt; departure(&ROW, 1), 30_000);
}

#[test]
fn finds_runs_within(rt: HostRuntime) {
    for (offset, low, high, runs) in [
        (0, 29_101, 30_000, (1, 2)),
        (0, 31_500, 40_000, (2, 2)),
        (0, 29_100, 29_100, (0, 1)),
        (0, 29_101, 29_999, (1, 1)),
        (900, 30_000, 30_900, (0, 2)),
        (900, 0, 899, (0, 0)),
        (0, -5, -1, (0, 0)),
        (0, i64::MIN, i64::MAX, (0, 2)),
        (604_799, i64::MAX, i64::MAX, (2, 2)),
    ] {
        assert_eq!(rt;
            within(&ROW, offset, low, high),
            runs,
            "{offset} {low} {high}"
        );
    }
}
