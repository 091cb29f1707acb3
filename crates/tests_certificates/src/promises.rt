//! The chance to be late for a promise, departures, and how late one can leave, through the top call.
use std::test::Fail;
use test_runs::{CHANGE, Source, answers, begins, refuses};

/// The usual rides with a change and a ride that is never late, by the usual delays and none of class 1.
const SURE: [Source<'static>; 2] = [
    (
        "c",
        "run,step,from,to,dep,arr,class\nr1,1,A,B,2024-06-03T08:00:00,2024-06-03T08:20:00,\nr2,1,B,T,2024-06-03T08:24:00,2024-06-03T08:50:00,\nr3,1,B,T,2024-06-03T08:40:00,2024-06-03T09:06:00,\nr4,1,A,T,2024-06-03T08:00:00,2024-06-03T09:00:00,1\n",
    ),
    (
        "d",
        "class,delay,weight\n*,0,8000\n*,300,1500\n*,900,500\n1,0,10000\n",
    ),
];

/// A promise for nine o'clock.
const BY_NINE: &str =
    "punctual --cut c --delays d --from A --to T --at 2024-06-03T08:00:00 --by 2024-06-03T09:00:00";

/// The same with just so much time that the change is safe.
const SURE_BY_NINE: &str =
    "punctual --cut c --delays d --from A --to T --at 2024-06-03T08:00:00 --by 2024-06-03T09:00:00 --alpha 135";

/// A second before nine.
const SURE_BEFORE_NINE: &str =
    "punctual --cut c --delays d --from A --to T --at 2024-06-03T08:00:00 --by 2024-06-03T08:59:59 --alpha 135";

/// A promise for before the start.
const BEFORE_THE_START: &str =
    "punctual --cut c --delays d --from A --to T --at 2024-06-03T08:00:00 --by 2024-06-03T07:59:59";

/// A promise for the start, of who is at the target.
const AT_ONCE: &str =
    "punctual --cut c --delays d --from T --to T --at 2024-06-03T08:00:00 --by 2024-06-03T08:00:00";

/// The departures of both buses.
const BOTH: &str =
    "departures --cut c --delays d --from B --to T --at 2024-06-03T08:00:00 --until 2024-06-03T10:42:00 --last 2024-06-03T08:40:00";

/// Those up to the first bus.
const UP_TO_THE_FIRST: &str =
    "departures --cut c --delays d --from B --to T --at 2024-06-03T08:00:00 --until 2024-06-03T10:42:00 --last 2024-06-03T08:24:00";

/// Those up to ten minutes past eight: the one row is that of the bus after.
const PAST_THE_LAST: &str =
    "departures --cut c --delays d --from B --to T --at 2024-06-03T08:00:00 --until 2024-06-03T10:42:00 --last 2024-06-03T08:10:00";

/// Those with a deadline that no bus is sure to keep.
const TOO_LATE: &str =
    "departures --cut c --delays d --from B --to T --at 2024-06-03T08:00:00 --until 2024-06-03T09:00:00 --last 2024-06-03T08:40:00";

/// How late one can leave for the second bus.
const SECOND: &str =
    "latest --cut c --delays d --from B --to T --at 2024-06-03T08:00:00 --until 2024-06-03T10:42:00";

/// And for the first one.
const FIRST: &str =
    "latest --cut c --delays d --from B --to T --at 2024-06-03T08:00:00 --until 2024-06-03T09:10:00";

/// And for none.
const NONE: &str =
    "latest --cut c --delays d --from B --to T --at 2024-06-03T08:00:00 --until 2024-06-03T09:00:00";

/// And where one is at the target.
const THERE: &str =
    "latest --cut c --delays d --from T --to T --at 2024-06-03T08:00:00 --until 2024-06-03T09:00:00";

#[test]
fn is_late_as_often_as_the_change_is(rt: HostRuntime) -> Result<(), Fail> {
    answers(
        rt.alloc(),
        CHANGE.as_slice(),
        BY_NINE,
        "punctual,1,2024-06-03T09:00:00,0.240000000000000000,0.240000000000000000\ngraph,1,A,T,2024-06-03T08:00:00,2024-06-03T10:42:00,2024-06-03T08:54:42.000000000,2024-06-03T08:54:42.000000000\nstart,2024-06-03T08:00:00,r1,1,2024-06-03T08:00:00,1,B,2024-06-03T08:20:00\nplace,B,120,2,,,,\nleg,2024-06-03T08:22:00,r2,1,2024-06-03T08:24:00,1,T,2024-06-03T08:50:00\nleg,2024-06-03T08:38:00,r3,1,2024-06-03T08:40:00,1,T,2024-06-03T09:06:00\n",
    )
}

#[test]
fn takes_what_is_surely_there_by_then(rt: HostRuntime) -> Result<(), Fail> {
    answers(
        rt.alloc(),
        SURE.as_slice(),
        SURE_BY_NINE,
        "punctual,1,2024-06-03T09:00:00,0.000000000000000000,0.000000000000000000\ngraph,1,A,T,2024-06-03T08:00:00,2024-06-03T09:21:00,2024-06-03T09:00:00.000000000,2024-06-03T09:00:00.000000000\nstart,2024-06-03T08:00:00,r4,1,2024-06-03T08:00:00,1,T,2024-06-03T09:00:00\n",
    )
}

#[test]
fn takes_the_change_where_that_is_late(rt: HostRuntime) -> Result<(), Fail> {
    begins(
        rt.alloc(),
        SURE.as_slice(),
        SURE_BEFORE_NINE,
        "punctual,1,2024-06-03T08:59:59,0.240000000000000000,0.240000000000000000\ngraph,1,A,T,2024-06-03T08:00:00,2024-06-03T09:21:00,2024-06-03T08:54:42.000000000,2024-06-03T08:54:42.000000000\nstart,2024-06-03T08:00:00,r1,",
    )
}

#[test]
fn promises_nothing_before_the_start(rt: HostRuntime) -> Result<(), Fail> {
    refuses(
        rt.alloc(),
        SURE.as_slice(),
        BEFORE_THE_START,
        2,
        "meat: bad value of --by\n",
    )
}

#[test]
fn is_never_late_where_it_is_already(rt: HostRuntime) -> Result<(), Fail> {
    answers(
        rt.alloc(),
        SURE.as_slice(),
        AT_ONCE,
        "punctual,1,2024-06-03T08:00:00,0.000000000000000000,0.000000000000000000\ngraph,1,T,T,2024-06-03T08:00:00,2024-06-03T08:00:00,2024-06-03T08:00:00.000000000,2024-06-03T08:00:00.000000000\n",
    )
}

#[test]
fn reports_each_departure(rt: HostRuntime) -> Result<(), Fail> {
    answers(
        rt.alloc(),
        CHANGE.as_slice(),
        BOTH,
        "departures,1,B,T,2024-06-03T08:00:00,2024-06-03T08:40:00,2024-06-03T10:42:00,2\nrow,2024-06-03T08:24:00,r2,1,2024-06-03T08:51:30.000000000,2024-06-03T08:51:30.000000000\nrow,2024-06-03T08:40:00,r3,1,2024-06-03T09:07:30.000000000,2024-06-03T09:07:30.000000000\n",
    )?;
    answers(
        rt.alloc(),
        CHANGE.as_slice(),
        UP_TO_THE_FIRST,
        "departures,1,B,T,2024-06-03T08:00:00,2024-06-03T08:24:00,2024-06-03T10:42:00,1\nrow,2024-06-03T08:24:00,r2,1,2024-06-03T08:51:30.000000000,2024-06-03T08:51:30.000000000\n",
    )
}

#[test]
fn reports_the_departure_after_the_last_moment(rt: HostRuntime) -> Result<(), Fail> {
    answers(
        rt.alloc(),
        CHANGE.as_slice(),
        PAST_THE_LAST,
        "departures,1,B,T,2024-06-03T08:00:00,2024-06-03T08:10:00,2024-06-03T10:42:00,1\nrow,2024-06-03T08:24:00,r2,1,2024-06-03T08:51:30.000000000,2024-06-03T08:51:30.000000000\n",
    )
}

#[test]
fn reports_no_departure_that_is_not_safe(rt: HostRuntime) -> Result<(), Fail> {
    refuses(
        rt.alloc(),
        CHANGE.as_slice(),
        TOO_LATE,
        1,
        "meat: no safe strategy\n",
    )
}

#[test]
fn reports_how_late_one_can_leave(rt: HostRuntime) -> Result<(), Fail> {
    answers(
        rt.alloc(),
        CHANGE.as_slice(),
        SECOND,
        "latest,B,T,2024-06-03T08:00:00,2024-06-03T10:42:00,2024-06-03T08:40:00\n",
    )?;
    answers(
        rt.alloc(),
        CHANGE.as_slice(),
        FIRST,
        "latest,B,T,2024-06-03T08:00:00,2024-06-03T09:10:00,2024-06-03T08:24:00\n",
    )
}

#[test]
fn reports_that_one_can_leave_no_more(rt: HostRuntime) -> Result<(), Fail> {
    refuses(
        rt.alloc(),
        CHANGE.as_slice(),
        NONE,
        1,
        "meat: no safe strategy\n",
    )?;
    answers(
        rt.alloc(),
        CHANGE.as_slice(),
        THERE,
        "latest,T,T,2024-06-03T08:00:00,2024-06-03T09:00:00,2024-06-03T09:00:00\n",
    )
}
