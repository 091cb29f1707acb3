//! Texts with their values.
use clock_text::{
    read_date, read_moment, read_nanos, read_optional_seconds, read_time, read_whole, weekday,
    write_moment, write_nanos,
};
use plan_model::Moment;

#[test]
fn moments(rt: HostRuntime) {
    for (seconds, text) in [
        (0u64, "1970-01-01T00:00:00"),
        (951_782_400, "2000-02-29T00:00:00"),
        (1_717_401_600, "2024-06-03T08:00:00"),
        (253_402_300_799, "9999-12-31T23:59:59"),
    ] {
        let read = read_moment(text.as_bytes());
        assert_eq!(rt; read, Some(Moment(seconds)), "{text}");
        if seconds <= 253_402_300_799 {
            assert_eq!(rt;
                write_moment(Moment(seconds)).as_slice(),
                text.as_bytes(),
                "{text}"
            );
        }
    }
    for text in [
        "",
        "1969-12-31T23:59:59",
        "2023-02-29T00:00:00",
        "2024-06-03T24:00:00",
        "2024-06-03 08:00:00",
        "2024-06-03T08:00:0x",
        "2024-06-03T08:00:000",
    ] {
        assert!(rt; read_moment(text.as_bytes()).is_none(), "{text}");
    }
    for (nanos, text) in [
        (
            1_717_401_600_000_000_001u64,
            "2024-06-03T08:00:00.000000001",
        ),
        (u64::MAX, "2554-07-21T23:34:33.709551615"),
    ] {
        assert_eq!(rt; write_nanos(nanos).as_slice(), text.as_bytes(), "{text}");
        assert_eq!(rt; read_nanos(text.as_bytes()), Some(nanos), "{text}");
    }
    assert_eq!(rt; read_nanos(b"2554-07-21T23:34:33.709551616"), None);
}

#[test]
fn dates_and_times(rt: HostRuntime) {
    for (text, day) in [
        ("19700101", Some(0)),
        ("00000101", Some(-719_528)),
        ("20240603", Some(19_877)),
        ("20230229", None),
        ("2024063", None),
    ] {
        assert_eq!(rt; read_date(text.as_bytes()), day, "{text}");
    }
    assert_eq!(rt; weekday(19_877), 0);
    assert_eq!(rt; weekday(-1), 2);
    for (text, seconds) in [
        ("8:00:00", Some(28_800u32)),
        ("08:05:09", Some(29_109)),
        ("167:59:59", Some(604_799)),
        ("168:00:00", None),
        ("08:60:00", None),
        ("8:0:00", None),
        ("", None),
    ] {
        assert_eq!(rt; read_time(text.as_bytes()), seconds, "{text}");
    }
    for (text, number) in [
        ("000000123", Some(123u32)),
        ("124", None),
        ("", None),
        ("+1", None),
        ("0000000123", None),
    ] {
        assert_eq!(rt; read_whole(text.as_bytes(), 123), number, "{text}");
    }
}

#[test]
fn seconds_or_nothing(rt: HostRuntime) {
    for (text, seconds) in [
        ("", Some(None)),
        ("0", Some(Some(0u32))),
        ("86400", Some(Some(86_400))),
        ("86401", None),
        ("-1", None),
        (" ", None),
    ] {
        assert_eq!(rt; read_optional_seconds(text.as_bytes()), seconds, "{text}");
    }
}
