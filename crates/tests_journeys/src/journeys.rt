//! Journeys with every number of their answers worked by hand, and refusals of words and files, through the top call.
use std::alloc::Global;
use std::test::Fail;
use test_runs::{USUAL_DELAYS, answers, begins, refuses};

/// A journey, and what the commands print of it: times on 2024-06-03.
#[derive(Clone, Copy)]
struct Journey<'a> {
    cut: &'a str,
    delays: &'a str,
    from: &'a str,
    at: &'a str,
    alpha: &'a str,
    worst: &'a str,
    deadline: &'a str,
    lower: &'a str,
    upper: &'a str,
    start: &'a str,
}

/// A command about a journey, as a line of words.
fn line_of(alloc: Global, command: &str, journey: &Journey) -> Result<String, Fail> {
    Ok(format!(in alloc;
        "{command} --alpha {} --cut c --delays d --from {} --to T --at 2024-06-03T{}",
        journey.alpha, journey.from, journey.at
    )?)
}

/// Stops where the least worst arrival of a journey or its deadline is another.
fn has_worst(alloc: Global, journey: &Journey) -> Result<(), Fail> {
    let line = line_of(alloc, "safe", journey)?;
    let out = worst_text(alloc, journey)?;
    let files = [("c", journey.cut), ("d", journey.delays)];
    answers(alloc, files.as_slice(), line.as_str(), out.as_str())
}

/// What `safe` prints of a journey.
fn worst_text(alloc: Global, journey: &Journey) -> Result<String, Fail> {
    Ok(format!(in alloc;
        "safe,{},T,2024-06-03T{},2024-06-03T{},2024-06-03T{}\n",
        journey.from, journey.at, journey.worst, journey.deadline
    )?)
}

/// How a graph of a journey begins.
fn graph_front(alloc: Global, kind: &str, journey: &Journey) -> Result<String, Fail> {
    let Journey {
        from,
        at,
        deadline,
        lower,
        upper,
        start,
        ..
    } = *journey;
    let text = format!(in alloc;
        "{kind},1,{from},T,2024-06-03T{at},2024-06-03T{deadline},2024-06-03T{lower},2024-06-03T{upper}\nstart,2024-06-03T{start}\n"
    )?;
    Ok(text)
}

/// Stops where the bounds or the start of a journey's graph are others.
fn has_graph(alloc: Global, journey: &Journey, command: &str, kind: &str) -> Result<(), Fail> {
    let line = line_of(alloc, command, journey)?;
    let front = graph_front(alloc, kind, journey)?;
    let files = [("c", journey.cut), ("d", journey.delays)];
    begins(alloc, files.as_slice(), line.as_str(), front.as_str())
}

/// Fails unless the commands print these numbers of a journey.
fn agrees(alloc: Global, journey: &Journey) -> Result<(), Fail> {
    has_worst(alloc, journey)?;
    has_graph(alloc, journey, "expand", "expanded")?;
    has_graph(alloc, journey, "plan", "graph")
}

/// A bus and two others that go on, of which the first is just caught by a bus in time.
fn two_buses() -> Journey<'static> {
    Journey {
        cut: "run,step,from,to,dep,arr\nr1,1,A,B,2024-06-03T08:00:00,2024-06-03T08:20:00\nr2,1,B,T,2024-06-03T08:22:00,2024-06-03T08:50:00\nr3,1,B,T,2024-06-03T08:40:00,2024-06-03T09:06:00\n",
        delays: USUAL_DELAYS,
        from: "A",
        at: "08:00:00",
        alpha: "200",
        worst: "09:21:00",
        deadline: "10:42:00",
        lower: "08:54:42.000000000",
        upper: "08:54:42.000000000",
        start: "08:00:00,r1,1,2024-06-03T08:00:00,1,B,2024-06-03T08:20:00",
    }
}

const WITH_DIRECT: &str =
    "run,step,from,to,dep,arr,class\nr1,1,A,B,2024-06-03T08:00:00,2024-06-03T08:20:00,\nr2,1,B,T,2024-06-03T08:24:00,2024-06-03T08:50:00,\nr3,1,B,T,2024-06-03T08:40:00,2024-06-03T09:06:00,\nr4,1,A,T,2024-06-03T08:00:00,2024-06-03T09:00:00,1\n";

const DIRECT_IS_SURE: &str = "class,delay,weight\n*,0,8000\n*,300,1500\n*,900,500\n1,0,10000\n";

/// Two buses and a direct one that is never late, with no time to spare.
fn beside_direct() -> Journey<'static> {
    Journey {
        cut: WITH_DIRECT,
        delays: DIRECT_IS_SURE,
        from: "A",
        at: "08:00:00",
        alpha: "100",
        worst: "09:00:00",
        deadline: "09:00:00",
        lower: "09:00:00.000000000",
        upper: "09:00:00.000000000",
        start: "08:00:00,r4,1,2024-06-03T08:00:00,1,T,2024-06-03T09:00:00",
    }
}

#[test]
fn changes_that_are_just_caught_or_missed(rt: HostRuntime) -> Result<(), Fail> {
    agrees(rt.alloc(), &two_buses())?;
    agrees(
        rt.alloc(),
        &Journey {
            cut: "run,step,from,to,dep,arr\nr1,1,A,B,2024-06-03T08:00:00,2024-06-03T08:20:00\nr2,1,B,T,2024-06-03T08:21:59,2024-06-03T08:50:00\nr3,1,B,T,2024-06-03T08:40:00,2024-06-03T09:06:00\n",
            lower: "09:07:30.000000000",
            upper: "09:07:30.000000000",
            ..two_buses()
        },
    )
}

#[test]
fn deadlines_to_the_second(rt: HostRuntime) -> Result<(), Fail> {
    agrees(
        rt.alloc(),
        &Journey {
            alpha: "134",
            deadline: "09:20:24",
            ..beside_direct()
        },
    )?;
    agrees(rt.alloc(), &beside_direct())
}

#[test]
fn a_deadline_that_the_buses_just_meet(rt: HostRuntime) -> Result<(), Fail> {
    agrees(
        rt.alloc(),
        &Journey {
            cut: WITH_DIRECT,
            delays: DIRECT_IS_SURE,
            alpha: "135",
            worst: "09:00:00",
            deadline: "09:21:00",
            ..two_buses()
        },
    )
}

#[test]
fn a_deadline_that_a_bus_misses_by_a_second(rt: HostRuntime) -> Result<(), Fail> {
    agrees(
        rt.alloc(),
        &Journey {
            // The last bus arrives a second later.
            cut: "run,step,from,to,dep,arr,class\nr1,1,A,B,2024-06-03T08:00:00,2024-06-03T08:20:00,\nr2,1,B,T,2024-06-03T08:24:00,2024-06-03T08:50:00,\nr3,1,B,T,2024-06-03T08:40:00,2024-06-03T09:06:01,\nr4,1,A,T,2024-06-03T08:00:00,2024-06-03T09:00:00,1\n",
            alpha: "135",
            deadline: "09:21:00",
            ..beside_direct()
        },
    )
}

#[test]
fn a_deadline_by_a_second_more(rt: HostRuntime) -> Result<(), Fail> {
    agrees(
        rt.alloc(),
        &Journey {
            // The direct bus takes a second longer.
            cut: "run,step,from,to,dep,arr,class\nr1,1,A,B,2024-06-03T08:00:00,2024-06-03T08:20:00,\nr2,1,B,T,2024-06-03T08:24:00,2024-06-03T08:50:00,\nr3,1,B,T,2024-06-03T08:40:00,2024-06-03T09:06:00,\nr4,1,A,T,2024-06-03T08:00:00,2024-06-03T09:00:01,1\n",
            alpha: "134",
            worst: "09:00:01",
            deadline: "09:20:25",
            lower: "09:00:01.000000000",
            upper: "09:00:01.000000000",
            start: "08:00:00,r4,1,2024-06-03T08:00:00,1,T,2024-06-03T09:00:01",
            ..beside_direct()
        },
    )
}

#[test]
fn bounds_are_rounded_outward(rt: HostRuntime) -> Result<(), Fail> {
    agrees(
        rt.alloc(),
        &Journey {
            cut: "run,step,from,to,dep,arr,class,change\na,1,S,P,2024-06-03T08:00:00,2024-06-03T08:30:00,1,60\nb,1,P,R,2024-06-03T08:31:00,2024-06-03T09:00:00,1,60\nc,1,P,R,2024-06-03T08:40:00,2024-06-03T09:20:00,1,60\nd,1,R,T,2024-06-03T09:01:00,2024-06-03T10:00:00,*,60\ne,1,R,T,2024-06-03T09:10:00,2024-06-03T10:10:00,2,60\nf,1,R,T,2024-06-03T09:30:00,2024-06-03T10:10:07,*,60\n",
            delays: "class,delay,weight\n*,0,10000\n1,0,9999\n1,60,1\n2,0,9999\n2,1,1\n",
            from: "S",
            at: "08:00:00",
            alpha: "200",
            worst: "10:10:07",
            deadline: "12:20:14",
            lower: "10:00:00.120694009",
            upper: "10:00:00.120694010",
            start: "08:00:00,a,1,2024-06-03T08:00:00,1,P,2024-06-03T08:30:00",
        },
    )
}

#[test]
fn staying_seated(rt: HostRuntime) -> Result<(), Fail> {
    agrees(
        rt.alloc(),
        &Journey {
            // Who stays seated at B changes at C.
            cut: "run,step,from,to,dep,arr\nr1,1,A,B,2024-06-03T08:00:00,2024-06-03T08:20:00\nr1,2,B,C,2024-06-03T08:21:00,2024-06-03T08:40:00\nr2,1,B,T,2024-06-03T08:40:00,2024-06-03T09:30:00\nr3,1,C,T,2024-06-03T08:45:00,2024-06-03T09:00:00\nr4,1,C,T,2024-06-03T09:00:00,2024-06-03T09:15:00\n",
            worst: "09:30:00",
            deadline: "11:00:00",
            lower: "09:04:30.000000000",
            upper: "09:04:30.000000000",
            start: "08:00:00,r1,1,2024-06-03T08:00:00,2,C,2024-06-03T08:40:00",
            ..two_buses()
        },
    )
}

#[test]
fn staying_seated_for_no_time(rt: HostRuntime) -> Result<(), Fail> {
    agrees(
        rt.alloc(),
        &Journey {
            // A ride of a run takes no time.
            cut: "run,step,from,to,dep,arr\nr1,1,A,B,2024-06-03T08:00:00,2024-06-03T08:20:00\nr1,2,B,C,2024-06-03T08:20:00,2024-06-03T08:20:00\nr1,3,C,T,2024-06-03T08:20:00,2024-06-03T08:40:00\n",
            from: "B",
            at: "08:20:00",
            worst: "08:55:00",
            deadline: "09:30:00",
            lower: "08:41:30.000000000",
            upper: "08:41:30.000000000",
            start: "08:20:00,r1,2,2024-06-03T08:20:00,3,T,2024-06-03T08:40:00",
            ..two_buses()
        },
    )
}

#[test]
fn what_may_not_be_boarded_or_left(rt: HostRuntime) -> Result<(), Fail> {
    agrees(
        rt.alloc(),
        &Journey {
            // The first ride may not be boarded, and of the second none may alight.
            cut: "run,step,from,to,dep,arr,board,exit\nr1,1,A,T,2024-06-03T08:00:00,2024-06-03T08:30:00,0,\nr2,1,A,T,2024-06-03T08:05:00,2024-06-03T08:40:00,,0\nr3,1,A,T,2024-06-03T08:10:00,2024-06-03T09:00:00,1,1\n",
            worst: "09:15:00",
            deadline: "10:30:00",
            lower: "09:01:30.000000000",
            upper: "09:01:30.000000000",
            start: "08:10:00,r3,1,2024-06-03T08:10:00,1,T,2024-06-03T09:00:00",
            ..two_buses()
        },
    )
}

const DIRECT: &str = "run,step,from,to,dep,arr\nr1,1,A,T,2024-06-03T08:00:00,2024-06-03T09:00:00\n";

const PLAN: &str = "plan --alpha 200 --cut c --delays d --from A --to T --at 2024-06-03T08:00:00";

/// Cut files with the line by which each is refused.
const CUT_FAULTS: [(&str, &str); 5] = [
    ("", "meat: cut file has no column run\n"),
    (
        "run,step,from,to,dep,arr\nr1,1,A,T,09:00:00,2024-06-03T09:00:00\n",
        "meat: cut file line 2: bad dep\n",
    ),
    (
        "run,step,from,to,dep,arr\nr1,1,A,T,2024-06-03T08:00:00,2024-06-03T09:00:00\nr1,1,A,T,2024-06-03T08:00:00,2024-06-03T09:00:00\n",
        "meat: cut file line 3: repeated step\n",
    ),
    (
        "run,step,from,to,dep,arr\nr1,1,A,T,2024-06-03T08:00:00,2024-06-03T07:00:00\n",
        "meat: cut file line 2: time goes back\n",
    ),
    (
        "run,step,from,to,dep,arr\nr1,1,A,B,2024-06-03T08:00:00,2024-06-03T08:10:00\nr1,2,C,T,2024-06-03T08:20:00,2024-06-03T09:00:00\n",
        "meat: cut file line 3: run is broken\n",
    ),
];

/// Delay files with the line by which each is refused.
const DELAY_FAULTS: [(&str, &str); 6] = [
    (
        "class,delay\n*,0\n",
        "meat: delay file has no column weight\n",
    ),
    (
        "class,delay,weight\n*,86401,10000\n",
        "meat: delay file line 2: bad field\n",
    ),
    (
        "class,delay,weight\n*,0,8000\n*,300,1500\n*,300,500\n",
        "meat: delay file line 4: delay does not rise\n",
    ),
    (
        "class,delay,weight\n*,0,8000\n*,300,1500\n*,900,499\n",
        "meat: delay class * weights sum to 9999\n",
    ),
    (
        "class,delay,weight\n3,0,10000\n",
        "meat: delay class * is missing\n",
    ),
    ("", "meat: delay file has no column class\n"),
];

/// Fails unless a plan over a direct ride with each of these texts at a path is refused with this status and its line.
fn refuses_each(alloc: Global, path: &str, status: u8, cases: &[(&str, &str)]) -> Result<(), Fail> {
    for (text, line) in cases {
        let files = [("c", DIRECT), ("d", USUAL_DELAYS), (path, *text)];
        refuses(alloc, files.as_slice(), PLAN, status, line)?;
    }
    Ok(())
}

#[test]
fn cut_files_are_refused_by_line(rt: HostRuntime) -> Result<(), Fail> {
    refuses_each(rt.alloc(), "c", 3, CUT_FAULTS.as_slice())
}

#[test]
fn delay_files_are_refused_by_line_or_class(rt: HostRuntime) -> Result<(), Fail> {
    refuses_each(rt.alloc(), "d", 4, DELAY_FAULTS.as_slice())
}

#[test]
fn words_are_refused_by_their_first_reason(rt: HostRuntime) -> Result<(), Fail> {
    for (words, line) in [
        ("", "meat: words refused\n"),
        ("safe --from", "meat: words refused\n"),
        ("safe --size 10 --size 10", "meat: words refused\n"),
        ("safe --size=10", "meat: words refused\n"),
        ("fly", "meat: unknown command\n"),
        (
            "safe --horizon 5",
            "meat: option --horizon is not used here\n",
        ),
        (
            "plan --cut c --feed f",
            "meat: option --cut is not used here\n",
        ),
        ("safe", "meat: missing option --feed\n"),
        ("sample", "meat: missing option --size\n"),
        ("sample --size 401", "meat: bad value of --size\n"),
    ] {
        refuses(rt.alloc(), [].as_slice(), words, 2, line)?;
    }
    Ok(())
}
