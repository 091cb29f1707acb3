//! From where one can be at a target by a deadline, with every number of the rows worked by hand, through the top call.
use std::test::Fail;
use test_runs::{CHANGE, Source, USUAL_DELAYS, answers, refuses};

/// A traveller who leaves A at eight arrives at T at 08:54:42 on average, and by 09:21. From B the first bus arrives by 09:05 and
/// at 08:51:30 on average, the second by 09:21.
const BOTH: &str =
    "reach --cut c --delays d --to T --at 2024-06-03T08:00:00 --until 2024-06-03T09:21:00";

/// A second too early for what follows on a missed change, and for the second bus.
const A_SECOND_LESS: &str =
    "reach --cut c --delays d --to T --at 2024-06-03T08:00:00 --until 2024-06-03T09:20:59";

/// A second too early for the first bus.
const NONE: &str =
    "reach --cut c --delays d --to T --at 2024-06-03T08:00:00 --until 2024-06-03T09:04:59";

/// A second after the first bus.
const LATER: &str =
    "reach --cut c --delays d --to T --at 2024-06-03T08:24:01 --until 2024-06-03T10:42:00";

/// Where nothing goes to.
const TO_A: &str =
    "reach --cut c --delays d --to A --at 2024-06-03T08:00:00 --until 2024-06-03T10:42:00";

#[test]
fn has_a_row_for_each_place_but_the_target(rt: HostRuntime) -> Result<(), Fail> {
    answers(
        rt.alloc(),
        CHANGE.as_slice(),
        BOTH,
        "reach,1,T,2024-06-03T08:00:00,2024-06-03T09:21:00,2\nfrom,A,2024-06-03T08:00:00,2024-06-03T08:54:42.000000000,2024-06-03T08:54:42.000000000\nfrom,B,2024-06-03T08:40:00,2024-06-03T08:51:30.000000000,2024-06-03T08:51:30.000000000\n",
    )
}

#[test]
fn has_no_row_where_one_may_be_late(rt: HostRuntime) -> Result<(), Fail> {
    answers(
        rt.alloc(),
        CHANGE.as_slice(),
        A_SECOND_LESS,
        "reach,1,T,2024-06-03T08:00:00,2024-06-03T09:20:59,1\nfrom,B,2024-06-03T08:24:00,2024-06-03T08:51:30.000000000,2024-06-03T08:51:30.000000000\n",
    )
}

#[test]
fn has_no_row_where_the_ride_is_gone(rt: HostRuntime) -> Result<(), Fail> {
    answers(
        rt.alloc(),
        CHANGE.as_slice(),
        LATER,
        "reach,1,T,2024-06-03T08:24:01,2024-06-03T10:42:00,1\nfrom,B,2024-06-03T08:40:00,2024-06-03T09:07:30.000000000,2024-06-03T09:07:30.000000000\n",
    )
}

#[test]
fn may_have_its_first_row_alone(rt: HostRuntime) -> Result<(), Fail> {
    for (line, out) in [
        (
            NONE,
            "reach,1,T,2024-06-03T08:00:00,2024-06-03T09:04:59,0\n",
        ),
        (
            TO_A,
            "reach,1,A,2024-06-03T08:00:00,2024-06-03T10:42:00,0\n",
        ),
    ] {
        answers(rt.alloc(), CHANGE.as_slice(), line, out)?;
    }
    Ok(())
}

/// The same rides, with one from T to D at first and one from C to D at last. So the places are T, D, B, A and C.
const MORE_PLACES: [Source<'static>; 2] = [
    (
        "c",
        "run,step,from,to,dep,arr\nr4,1,T,D,2024-06-03T08:00:00,2024-06-03T08:10:00\nr2,1,B,T,2024-06-03T08:24:00,2024-06-03T08:50:00\nr1,1,A,B,2024-06-03T08:00:00,2024-06-03T08:20:00\nr3,1,B,T,2024-06-03T08:40:00,2024-06-03T09:06:00\nr5,1,C,D,2024-06-03T08:00:00,2024-06-03T08:10:00\n",
    ),
    ("d", USUAL_DELAYS),
];

#[test]
fn has_its_rows_in_the_order_of_the_places(rt: HostRuntime) -> Result<(), Fail> {
    answers(
        rt.alloc(),
        MORE_PLACES.as_slice(),
        BOTH,
        "reach,1,T,2024-06-03T08:00:00,2024-06-03T09:21:00,2\nfrom,B,2024-06-03T08:40:00,2024-06-03T08:51:30.000000000,2024-06-03T08:51:30.000000000\nfrom,A,2024-06-03T08:00:00,2024-06-03T08:54:42.000000000,2024-06-03T08:54:42.000000000\n",
    )
}

#[test]
fn has_no_source(rt: HostRuntime) -> Result<(), Fail> {
    for (line, status, err) in [
        (
            "reach --cut c --delays d --to X --at 2024-06-03T08:00:00 --until 2024-06-03T09:21:00",
            5,
            "meat: unknown stop of --to\n",
        ),
        (
            "reach --cut c --delays d --from A --to T --at 2024-06-03T08:00:00 --until 2024-06-03T09:21:00",
            2,
            "meat: option --from is not used here\n",
        ),
        (
            "reach --cut c --delays d --to T --at 2024-06-03T08:00:00",
            2,
            "meat: missing option --until\n",
        ),
    ] {
        refuses(rt.alloc(), CHANGE.as_slice(), line, status, err)?;
    }
    Ok(())
}
