//! Scores through their bound, and the chance of being late.
ghost use Rattle.std.specs.Prelude.{◌≡◌, length};
ghost use Rattle.plan_model.specs.DelayRows.{IsValidRow};

use late_chance::{LateChance, sooner, write_chance};
use plan_model::{Moment, Outcome, PlaceId, Query};
use std::alloc::Global;
use std::test::Fail;
use value_laws::{MeanSpan, Score, WorstMoment};

// The usual delays.
fn usual() -> [Outcome; 3]
    ensures valid { IsValidRow result }
    ensures len { length result ≡ 3 }
{
    [
        Outcome {
            delay: 0,
            weight: 8000,
        },
        Outcome {
            delay: 300,
            weight: 1500,
        },
        Outcome {
            delay: 900,
            weight: 500,
        },
    ]
}

/// Each call of a score, through the bound: the blend of three arrivals, lowered to the last
/// of them where that is not better, and whether the last is better than the blend.
fn through_the_bound<V: Score>(alloc: Global) -> Result<(V, bool), Fail> {
    let mut children = Vec::new(alloc);
    for moment in [5, 9, 7] {
        children.push(V::arrive(Moment(moment)))?;
    }
    let row = usual();
    if children.len() != row.len() {
        return Err("as many children as outcomes".into());
    }
    let blend = V::blend(&row, &children);
    let last = children[2];
    if last.better(&blend) {
        Ok((blend, true))
    } else {
        Ok((blend.lower_to(&last), false))
    }
}

#[test]
fn each_score_blends_and_compares(rt: HostRuntime) -> Result<(), Fail> {
    let (MeanSpan(span), better) = through_the_bound::<MeanSpan>(rt.alloc())?;
    assert_eq!(rt;
        (span.lo(), span.hi(), better),
        (5_700_000_000, 5_700_000_000, false)
    );
    let (WorstMoment(moment), better) = through_the_bound::<WorstMoment>(rt.alloc())?;
    assert_eq!(rt; (moment, better), (Moment(9), true));
    Ok(())
}

// Both bounds, the lower one first.
fn both(chance: LateChance) -> (u64, u64) {
    (chance.lo(), chance.hi())
}

#[test]
fn one_is_late_after_the_promise(rt: HostRuntime) -> Result<(), Fail> {
    let by_then = LateChance::arrive(Moment(604_800));
    let after = LateChance::arrive(Moment(604_801));
    assert_eq!(rt; both(by_then), (0, 0));
    assert_eq!(rt;
        both(after),
        (1_000_000_000_000_000_000, 1_000_000_000_000_000_000)
    );
    let blend = LateChance::blend(&usual(), &[by_then, after, after]);
    assert_eq!(rt;
        both(blend),
        (200_000_000_000_000_000, 200_000_000_000_000_000)
    );
    assert!(rt; blend.better(&after));
    assert_eq!(rt;
        both(blend.lower_to(&after)),
        (200_000_000_000_000_000, 200_000_000_000_000_000)
    );
    Ok(())
}

#[test]
fn chances_are_reported_by_eighteen_digits(rt: HostRuntime) -> Result<(), Fail> {
    assert_eq!(rt;
        write_chance(240_000_000_000_000_000),
        *b"0.240000000000000000"
    );
    assert_eq!(rt;
        write_chance(1_000_000_000_000_000_000),
        *b"1.000000000000000000"
    );
    assert_eq!(rt;
        write_chance(12_345_678_901_234_567),
        *b"0.012345678901234567"
    );
    assert_eq!(rt; write_chance(0), *b"0.000000000000000000");
    Ok(())
}

#[test]
fn a_query_is_asked_sooner(rt: HostRuntime) -> Result<(), Fail> {
    let query = Query {
        source: PlaceId(0),
        target: PlaceId(2),
        start: Moment(1_717_401_600),
        deadline: Moment(1_717_411_320),
    };
    let asked = sooner(&query, 1_716_800_400);
    assert_eq!(rt;
        (asked.start, asked.deadline),
        (Moment(601_200), Moment(610_920))
    );
    assert_eq!(rt; (asked.source, asked.target), (PlaceId(0), PlaceId(2)));
    Ok(())
}
