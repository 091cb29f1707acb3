//! Words with the jobs that they ask for, or with the reason why they are refused.
use command_line::{
    Ask, Command, Job, Journey, OptionName, Source, Use, WordsFault, option_word, read_job,
    read_late,
};
use plan_model::{Hours, Moment, Percent};
use std::alloc::Global;
use std::test::Fail;

/// A journey from A to T, from a moment on that is 1,717,401,600 seconds after 1970-01-01.
const JOURNEY: &str = "--delays d --from A --to T --at 2024-06-03T08:00:00";

/// The start of a journey over a cut file, without its moment.
const TO_T: &str = "--cut c --delays d --from A --to T";

/// The words of some lines, which are parted by spaces.
fn words_of(alloc: Global, lines: &[&str]) -> Result<Vec<String>, Fail> {
    let mut words = Vec::new(alloc);
    for line in lines {
        for word in line.split(' ') {
            words.push(String::from_str(alloc, word)?)?;
        }
    }
    Ok(words)
}

/// Whether a journey is that of `JOURNEY`.
fn is_journey(journey: &Journey) -> bool {
    journey.delays == "d"
        && journey.from == Some("A")
        && journey.to == "T"
        && journey.start.moment == Moment(1_717_401_600)
}

/// Whether two timetables are the same.
fn are_same(found: Source, wanted: Source) -> bool {
    match found {
        Source::Cut(path) => match wanted {
            Source::Cut(other) => path == other,
            Source::Feed(..) => false,
        },
        Source::Feed(folder, hours) => match wanted {
            Source::Cut(_) => false,
            Source::Feed(other, horizon) => folder == other && hours.value == horizon.value,
        },
    }
}

/// Whether two questions are the same.
fn are_alike(found: Ask, wanted: Ask) -> bool {
    match (found, wanted) {
        (Ask::Safe { alpha }, Ask::Safe { alpha: other })
        | (Ask::Expand { alpha }, Ask::Expand { alpha: other })
        | (Ask::Plan { alpha }, Ask::Plan { alpha: other })
        | (Ask::Certify { alpha }, Ask::Certify { alpha: other }) => alpha.value == other.value,
        (
            Ask::Punctual { alpha, promise },
            Ask::Punctual {
                alpha: other,
                promise: moment,
            },
        ) => alpha.value == other.value && promise == moment,
        (
            Ask::Departures { until, last },
            Ask::Departures {
                until: deadline,
                last: moment,
            },
        ) => until == deadline && last == moment,
        (Ask::Latest { until }, Ask::Latest { until: other })
        | (Ask::Reach { until }, Ask::Reach { until: other }) => until == other,
        (
            Ask::Replay { graph, late },
            Ask::Replay {
                graph: other,
                late: delays,
            },
        ) => graph == other && late == delays,
        (Ask::CheckProof { proof: path }, Ask::CheckProof { proof: other })
        | (Ask::CheckGraph { graph: path }, Ask::CheckGraph { graph: other }) => path == other,
        _ => false,
    }
}

/// Whether a line and `JOURNEY` ask this of that journey over this timetable.
fn asks(alloc: Global, line: &str, timetable: Source, asked: Ask) -> Result<bool, Fail> {
    let words = words_of(alloc, &[line, JOURNEY])?;
    match read_job(words.as_slice()) {
        Ok(Job::Journey(journey, ask)) => {
            Ok(
                are_alike(ask, asked)
                    && are_same(journey.timetable, timetable)
                    && is_journey(&journey),
            )
        }
        _ => Ok(false),
    }
}

/// A question about each place: where one can be at T by nine.
const REACH: &str =
    "reach --cut c --delays d --to T --at 2024-06-03T08:00:00 --until 2024-06-03T09:00:00";

/// The deadline of a line that asks about each place and has no source.
fn reach_deadline_of(alloc: Global, line: &str) -> Result<Option<Moment>, Fail> {
    let words = words_of(alloc, &[line])?;
    match read_job(words.as_slice()) {
        Ok(Job::Journey(journey, Ask::Reach { until })) if journey.from.is_none() => {
            Ok(Some(until))
        }
        _ => Ok(None),
    }
}

/// When the journey of a line begins.
fn start_of(alloc: Global, line: &str) -> Result<Option<Moment>, Fail> {
    let words = words_of(alloc, &["safe", TO_T, line])?;
    match read_job(words.as_slice()) {
        Ok(Job::Journey(journey, _)) => Ok(Some(journey.start.moment)),
        _ => Ok(None),
    }
}

/// The size of the sample that a line asks for.
fn size_of(alloc: Global, line: &str) -> Result<Option<u32>, Fail> {
    let words = words_of(alloc, &[line])?;
    match read_job(words.as_slice()) {
        Ok(Job::Sample(size)) => Ok(Some(size.value)),
        _ => Ok(None),
    }
}

/// The reason why the words of some lines are refused.
fn fault_of(alloc: Global, lines: &[&str]) -> Result<Option<WordsFault>, Fail> {
    let words = words_of(alloc, lines)?;
    Ok(read_job(words.as_slice()).err())
}

/// The percentage of a deadline if none is given.
const TWICE: Percent = Percent { value: 200 };

const CUT: Source<'static> = Source::Cut("c");

const FEED: Source<'static> = Source::Feed("f", Hours { value: 24 });

/// Lines of a journey, with the timetable and what is asked.
const JOURNEYS: [(&str, Source<'static>, Ask<'static>); 17] = [
    ("safe --cut c", CUT, Ask::Safe { alpha: TWICE }),
    (
        "safe --alpha 100 --cut c",
        CUT,
        Ask::Safe {
            alpha: Percent { value: 100 },
        },
    ),
    (
        "expand --cut c --alpha 0150",
        CUT,
        Ask::Expand {
            alpha: Percent { value: 150 },
        },
    ),
    (
        "plan --cut c --alpha 1000",
        CUT,
        Ask::Plan {
            alpha: Percent { value: 1_000 },
        },
    ),
    ("certify --cut c", CUT, Ask::Certify { alpha: TWICE }),
    (
        "punctual --cut c --by 2024-06-03T09:00:00",
        CUT,
        Ask::Punctual {
            alpha: TWICE,
            promise: Moment(1_717_405_200),
        },
    ),
    (
        "departures --cut c --until 2024-06-03T09:00:00 --last 2024-06-03T08:00:00",
        CUT,
        Ask::Departures {
            until: Moment(1_717_405_200),
            last: Moment(1_717_401_600),
        },
    ),
    (
        "latest --cut c --until 2400-12-31T23:59:59",
        CUT,
        Ask::Latest {
            until: Moment(13_601_087_999),
        },
    ),
    (
        "replay --cut c --graph g --late 0,300",
        CUT,
        Ask::Replay {
            graph: "g",
            late: "0,300",
        },
    ),
    (
        "check --cut c --graph g",
        CUT,
        Ask::CheckGraph { graph: "g" },
    ),
    ("safe --feed f", FEED, Ask::Safe { alpha: TWICE }),
    (
        "expand --feed f --horizon 1",
        Source::Feed("f", Hours { value: 1 }),
        Ask::Expand { alpha: TWICE },
    ),
    (
        "plan --alpha 150 --feed f",
        FEED,
        Ask::Plan {
            alpha: Percent { value: 150 },
        },
    ),
    (
        "plan --horizon 72 --alpha 300 --feed f",
        Source::Feed("f", Hours { value: 72 }),
        Ask::Plan {
            alpha: Percent { value: 300 },
        },
    ),
    (
        "replay --feed f --graph g --late none",
        FEED,
        Ask::Replay {
            graph: "g",
            late: "none",
        },
    ),
    (
        "replay --late none --graph g --horizon 6 --feed f",
        Source::Feed("f", Hours { value: 6 }),
        Ask::Replay {
            graph: "g",
            late: "none",
        },
    ),
    (
        "check --proof p --horizon 6 --feed f",
        Source::Feed("f", Hours { value: 6 }),
        Ask::CheckProof { proof: "p" },
    ),
];

#[test]
fn asks_for_a_journey(rt: HostRuntime) -> Result<(), Fail> {
    for (line, timetable, asked) in JOURNEYS {
        assert!(rt; asks(rt.alloc(), line, timetable, asked)?, "{line}");
    }
    Ok(())
}

#[test]
fn asks_about_each_place(rt: HostRuntime) -> Result<(), Fail> {
    assert_eq!(rt;
        reach_deadline_of(rt.alloc(), REACH)?,
        Some(Moment(1_717_405_200))
    );
    Ok(())
}

#[test]
fn begins_at_the_moment(rt: HostRuntime) -> Result<(), Fail> {
    for (line, start) in [
        ("--at 1970-01-08T00:00:00", 604_800),
        ("--at 2024-06-03T08:00:01", 1_717_401_601),
        ("--at 2399-12-31T23:59:59", 13_569_465_599),
    ] {
        assert_eq!(rt; start_of(rt.alloc(), line)?, Some(Moment(start)), "{line}");
    }
    Ok(())
}

#[test]
fn makes_samples(rt: HostRuntime) -> Result<(), Fail> {
    for (line, size) in [("sample --size 10", 10), ("sample --size 400", 400)] {
        assert_eq!(rt; size_of(rt.alloc(), line)?, Some(size), "{line}");
    }
    Ok(())
}

#[test]
fn reports_the_delays(rt: HostRuntime) -> Result<(), Fail> {
    for (late, delays) in [
        ("none", [].as_slice()),
        ("300", [300].as_slice()),
        ("0,900,86400", [0, 900, 86_400].as_slice()),
        ("0,", [].as_slice()),
    ] {
        let found = read_late(rt.alloc(), late)?;
        assert_eq!(rt; found.as_slice(), delays, "{late}");
    }
    Ok(())
}

/// Lines that are refused, in parts, with the reason.
const REFUSED: [(&[&str], WordsFault); 39] = [
    (&["sample --size"], WordsFault::Line),
    (&["sample --size 10 --size 10"], WordsFault::Line),
    (&["sample --sizes 10"], WordsFault::Line),
    (&["sample --size=10"], WordsFault::Line),
    (&["fly"], WordsFault::UnknownCommand),
    (&["Sample --size 10"], WordsFault::UnknownCommand),
    (&[" --size 10"], WordsFault::UnknownCommand),
    (&["plan --feed f --cut c"], WordsFault::NotUsed(1)),
    (&["sample --size 10 --to T"], WordsFault::NotUsed(5)),
    (&["replay --feed f --alpha 200"], WordsFault::NotUsed(7)),
    (&["safe --cut c --horizon 24"], WordsFault::NotUsed(8)),
    (&["expand --graph g"], WordsFault::NotUsed(9)),
    (&["safe --size 10"], WordsFault::NotUsed(11)),
    (&["check --proof p --alpha 200"], WordsFault::NotUsed(7)),
    (&["certify --proof p"], WordsFault::NotUsed(12)),
    (&["check --proof p --graph g"], WordsFault::NotUsed(9)),
    (&["plan --by x"], WordsFault::NotUsed(13)),
    (&["latest --until x --alpha 200"], WordsFault::NotUsed(7)),
    (&["latest --until x --last x"], WordsFault::NotUsed(15)),
    (&["reach --from A --last x"], WordsFault::NotUsed(4)),
    (&["reach --alpha 200"], WordsFault::NotUsed(7)),
    (&["reach --until x --last x"], WordsFault::NotUsed(15)),
    (&["safe"], WordsFault::Missing(2)),
    (&["safe --cut c"], WordsFault::Missing(3)),
    (&["plan --feed f --delays d"], WordsFault::Missing(4)),
    (&["expand", TO_T], WordsFault::Missing(6)),
    (
        &["replay", TO_T, "--at x --late none"],
        WordsFault::Missing(9),
    ),
    (&["sample"], WordsFault::Missing(11)),
    (&["check", TO_T, "--at x"], WordsFault::Missing(12)),
    (&["punctual", TO_T, "--at x"], WordsFault::Missing(13)),
    (&["departures", TO_T, "--at x"], WordsFault::Missing(14)),
    (
        &["departures", TO_T, "--at x --until x"],
        WordsFault::Missing(15),
    ),
    (&["reach --cut c --delays d"], WordsFault::Missing(5)),
    (
        &["reach --cut c --delays d --to T --at x"],
        WordsFault::Missing(14),
    ),
    (
        &["reach --cut c --delays d --to T --at 2024-06-03T08:00:00 --until 2024-06-03T07:59:59"],
        WordsFault::BadValue(14),
    ),
    (
        &["safe", TO_T, "--at 1970-01-07T23:59:59"],
        WordsFault::BadValue(6),
    ),
    (
        &["safe", TO_T, "--at 2400-01-01T00:00:00"],
        WordsFault::BadValue(6),
    ),
    (&["sample --size 9"], WordsFault::BadValue(11)),
    (&["sample --size 401"], WordsFault::BadValue(11)),
];

#[test]
fn refuses_lines(rt: HostRuntime) -> Result<(), Fail> {
    assert_eq!(rt; read_job(&[]).err(), Some(WordsFault::Line));
    for (lines, fault) in REFUSED {
        let reported = fault_of(rt.alloc(), lines)?;
        assert_eq!(rt; reported, Some(fault), "{lines:?}");
    }
    Ok(())
}

/// Lines of that journey, with the number of the option whose value is refused.
const BAD_VALUES: [(&str, u8); 11] = [
    ("safe --cut ", 1),
    ("safe --feed ", 2),
    ("safe --cut c --alpha 99", 7),
    ("safe --cut c --alpha 1001", 7),
    ("safe --feed f --horizon 0", 8),
    ("replay --cut c --graph g --late 300,", 10),
    ("punctual --cut c --by 2024-06-03T07:59:59", 13),
    ("punctual --cut c --by 2024-06-10T08:00:01", 13),
    ("latest --cut c --until 2024-06-03T07:59:59", 14),
    ("latest --cut c --until 2401-01-01T00:00:00", 14),
    (
        "departures --cut c --until 2024-06-03T08:00:00 --last 2024-06-03",
        15,
    ),
];

#[test]
fn refuses_values(rt: HostRuntime) -> Result<(), Fail> {
    for (line, number) in BAD_VALUES {
        let fault = fault_of(rt.alloc(), &[line, JOURNEY])?;
        assert_eq!(rt; fault, Some(WordsFault::BadValue(number)), "{line}");
    }
    Ok(())
}

#[test]
fn reports_the_first_reason(rt: HostRuntime) -> Result<(), Fail> {
    for (line, fault) in [
        ("fly --size", WordsFault::Line),
        ("fly --alpha 99", WordsFault::UnknownCommand),
        ("sample --alpha 99 --from A", WordsFault::NotUsed(4)),
        ("safe --alpha 99 --at x", WordsFault::Missing(2)),
        (
            "safe --alpha 99 --at x --to T --from A --delays d --cut c",
            WordsFault::BadValue(6),
        ),
    ] {
        let reported = fault_of(rt.alloc(), &[line])?;
        assert_eq!(rt; reported, Some(fault), "{line}");
    }
    Ok(())
}

/// Numbers with the word of the option that has each.
const OPTION_WORDS: [(u8, &str); 9] = [
    (0, ""),
    (1, "--cut"),
    (6, "--at"),
    (10, "--late"),
    (11, "--size"),
    (12, "--proof"),
    (15, "--last"),
    (16, ""),
    (255, ""),
];

#[test]
fn names_options(rt: HostRuntime) {
    for (number, word) in OPTION_WORDS {
        assert_eq!(rt; option_word(number), word, "{number}");
    }
    assert_eq!(rt; OptionName::Late.number(), 10);
    assert_eq!(rt; OptionName::Late.name(), "--late");
}

#[test]
fn reports_what_options_are_for(rt: HostRuntime) {
    for (command, option, done) in [
        (Command::Plan, OptionName::Cut, Use::OneOf(OptionName::Feed)),
        (
            Command::Replay,
            OptionName::Feed,
            Use::OneOf(OptionName::Cut),
        ),
        (Command::Safe, OptionName::Alpha, Use::Optional),
        (Command::Replay, OptionName::Alpha, Use::Unused),
        (
            Command::Expand,
            OptionName::Horizon,
            Use::With(OptionName::Feed),
        ),
        (Command::Replay, OptionName::Graph, Use::Needed),
        (Command::Sample, OptionName::Size, Use::Needed),
        (Command::Sample, OptionName::At, Use::Unused),
        (Command::Latest, OptionName::From, Use::Needed),
        (Command::Reach, OptionName::From, Use::Unused),
        (Command::Reach, OptionName::Until, Use::Needed),
    ] {
        assert_eq!(rt; command.use_of(option), done, "{}", option.name());
    }
}
