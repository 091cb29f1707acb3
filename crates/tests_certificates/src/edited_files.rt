//! A graph file or a proof file that is edited at each of its fields in turn is refused at its line.
use std::alloc::Global;
use std::process::Abort;
use std::test::Fail;
use test_runs::{CHANGE, CHANGE_PLAN, Output, output_of};

const REPLAY: &str =
    "replay --cut c --delays d --from A --to T --at 2024-06-03T08:00:00 --graph f --late 300,900";

const CHECK: &str = "check --cut c --delays d --from A --to T --at 2024-06-03T08:00:00 --proof f";

const CERTIFICATE: &str =
    "bounds,1,A,T,2024-06-03T08:00:00,2024-06-03T10:42:00,3\nvalue,r1,1,2024-06-03T08:54:42.000000000\nvalue,r2,1,2024-06-03T08:51:30.000000000\nvalue,r3,1,2024-06-03T09:07:30.000000000\n";

/// A text with `?` in place of a field of a line, both counted from 0.
fn edited(alloc: Global, whole: &str, at: usize, place: usize) -> Result<String, Fail> {
    let mut text = String::new(alloc);
    for (number, line) in whole.trim_end().split('\n').enumerate() {
        for (position, field) in line.split(',').enumerate() {
            let is_edited = number == at && position == place;
            text.push_str(if position > 0 { "," } else { "" })?;
            text.push_str(if is_edited { "?" } else { field })?;
        }
        text.push_str("\n")?;
    }
    Ok(text)
}

/// What a line of words prints over the usual files and one more.
fn output_with(alloc: Global, words: &str, text: &str) -> Result<Output, Fail> {
    let [cut, delays] = CHANGE;
    output_of(alloc, [cut, delays, ("f", text)].as_slice(), words)
}

/// What it prints if a field of that one is edited.
fn output_edited(
    alloc: Global,
    words: &str,
    whole: &str,
    at: usize,
    place: usize,
) -> Result<Output, Fail> {
    let text = edited(alloc, whole, at, place)?;
    output_with(alloc, words, text.as_str())
}

/// Stops where an edited field is not refused with this status, and with a line that begins like this.
fn is_looked_at(rt: &impl Abort, output: &Output, status: u8, front: &str, place: usize) {
    let refused = output.status == status && output.out.is_empty();
    let so = refused && output.err.as_str().starts_with(front);
    let (status, line) = (output.status, output.err.as_str());
    assert!(rt; so, "{front}{place}: {status} {line}");
}

/// How the refusal of a file begins that is at a line, counted from 0.
fn front_of(alloc: Global, name: &str, at: usize) -> Result<String, Fail> {
    let line = at.saturating_add(1);
    Ok(format!(in alloc; "meat: {name} line {line}: ")?)
}

/// Fails unless each field of a line, edited in its turn, is refused with this status and at that line.
fn are_looked_at(
    rt: &impl Abort,
    alloc: Global,
    words: &str,
    whole: &str,
    at: usize,
    fields: usize,
    status: u8,
    name: &str,
) -> Result<(), Fail> {
    let front = front_of(alloc, name, at)?;
    for place in 0..fields {
        let output = output_edited(alloc, words, whole, at, place)?;
        is_looked_at(rt, &output, status, front.as_str(), place);
    }
    Ok(())
}

#[test]
fn the_whole_graph_is_taken(rt: HostRuntime) -> Result<(), Fail> {
    let whole = output_with(rt.alloc(), REPLAY, CHANGE_PLAN)?;
    assert_eq!(rt; whole.status, 0);
    Ok(())
}

#[test]
fn each_field_of_a_graph_is_looked_at(rt: HostRuntime) -> Result<(), Fail> {
    for at in 0..5 {
        are_looked_at(
            &rt,
            rt.alloc(),
            REPLAY,
            CHANGE_PLAN,
            at,
            8,
            10,
            "graph file",
        )?;
    }
    Ok(())
}

#[test]
fn each_field_of_a_certificate_is_looked_at(rt: HostRuntime) -> Result<(), Fail> {
    for (at, fields) in [(0, 7), (1, 4), (2, 4), (3, 4)] {
        are_looked_at(
            &rt,
            rt.alloc(),
            CHECK,
            CERTIFICATE,
            at,
            fields,
            14,
            "proof file",
        )?;
    }
    Ok(())
}
