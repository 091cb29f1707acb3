//! A line of each kind, and the statuses.
use command_line::WordsFault;
use csv_rows::{FeedFault, Table};
use journey_model::{Fault, Input, LimitKind, Which, fault_line, known_line};
use lower_proof::ProofFault;
use std::test::Fail;

/// A line of each kind that is at no place of a timetable.
#[test]
fn reports_faults_by_status_and_line(rt: HostRuntime) -> Result<(), Fail> {
    for (fault, status, line) in [
        (Fault::NoSafe, 1, "no safe strategy"),
        (Fault::Words(WordsFault::Line), 2, "words refused"),
        (
            Fault::Feed(FeedFault::DuplicateKey(Table::Stops, 7)),
            3,
            "stops.txt line 7: repeated key",
        ),
        (Fault::Missing(Input::Delays), 4, "delay file is missing"),
        (Fault::UnknownStop(Which::To), 5, "unknown stop of --to"),
        (
            Fault::Limit(LimitKind::Connections, 12),
            6,
            "too many connections: 12",
        ),
        (
            Fault::Limit(LimitKind::Entries, 4),
            6,
            "too many entries: 4",
        ),
        (Fault::Read(Input::Graph), 7, "cannot read graph file"),
        (Fault::Missing(Input::Proof), 14, "proof file is missing"),
        (
            Fault::ProofFile(ProofFault::NotRising(3)),
            14,
            "proof file line 3: not rising",
        ),
    ] {
        let reported = fault_line(rt.alloc(), fault, None)?;
        let wanted = format!(in rt.alloc(); "meat: {line}\n")?;
        assert_eq!(rt; reported.as_slice(), wanted.as_bytes());
        assert_eq!(rt; fault.status(), status);
    }
    Ok(())
}

#[test]
fn knows_the_lines_for_want_of_memory(rt: HostRuntime) {
    assert_eq!(rt;
        known_line(Fault::Read(Input::Feed(Table::Trips))),
        Some("meat: cannot read trips.txt\n")
    );
    assert_eq!(rt; known_line(Fault::NoMemory), Some("meat: out of memory\n"));
    assert_eq!(rt; known_line(Fault::NoSafe), None);
}
