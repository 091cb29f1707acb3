//! Each write fails in turn, of an answer and of the line of a refusal.
use crate::checks::*;
use meat_engine::Fault;
use memory_ports::MemoryFiles;
use std::alloc::Global;
use std::process::Abort;
use std::test::Fail;

/// More writes than there are of any text here.
const MOST_WRITES: u32 = 40;

/// Lets one write of the answer fail, and answers whether a run meets it. Then the status is 8, and what is written
/// is the part of the text before that write.
fn meets(
    rt: &impl Abort,
    alloc: Global,
    scene: Scene,
    files: &mut MemoryFiles,
    write: u32,
) -> Result<bool, Fail> {
    let output = output_where(alloc, files, scene.words, PIECE, &[write], &[])?;
    let at = u64::from(write);
    let is_met = output.fault.is_some();
    if is_met {
        same_fault(rt, scene.words, at, output.fault, Some(Fault::Write));
        same_number(rt, scene.words, at, u64::from(output.status), 8);
        same_text(
            rt,
            scene.words,
            at,
            output.err.as_str(),
            "meat: cannot write\n",
        );
        let front = at.saturating_sub(1).saturating_mul(PIECE as u64);
        same_number(rt, scene.words, at, output.out.len() as u64, front);
        let so = scene.text.starts_with(output.out.as_str());
        is_so(rt, scene.words, at, so, output.out.as_str());
    } else {
        same_number(rt, scene.words, at, u64::from(output.status), 0);
        same_text(rt, scene.words, at, output.out.as_str(), scene.text);
    }
    Ok(is_met)
}

/// Lets each write of the answer fail in turn, until none is met, and counts those that were.
fn each_write_fails(rt: &impl Abort, alloc: Global, scene: Scene) -> Result<u32, Fail> {
    let mut files = files_of(alloc, scene)?;
    let writes = scene.text.len().div_ceil(PIECE) as u64;
    for met in 0..MOST_WRITES {
        if !meets(rt, alloc, scene, &mut files, met + 1)? {
            same_number(rt, scene.words, u64::from(met), u64::from(met), writes);
            return Ok(met);
        }
    }
    Err("more writes than any text here has".into())
}

/// Lets one write of a line fail, and answers whether a run meets it. Status, fault and answer are the same as
/// where none fails, and what is written is a front of the line.
fn meets_in_line(
    rt: &impl Abort,
    alloc: Global,
    files: &mut MemoryFiles,
    words: &str,
    write: u32,
) -> Result<bool, Fail> {
    let at = u64::from(write);
    let whole = output_over(alloc, files, words)?;
    let part = output_where(alloc, files, words, PIECE, &[], &[write])?;
    same_fault(rt, words, at, part.fault, whole.fault);
    same_number(
        rt,
        words,
        at,
        u64::from(part.status),
        u64::from(whole.status),
    );
    same_text(rt, words, at, part.out.as_str(), whole.out.as_str());
    let so = whole.err.as_str().starts_with(part.err.as_str());
    is_so(rt, words, at, so, part.err.as_str());
    Ok(part.err.len() != whole.err.len())
}

/// Lets each write of a line fail in turn, until none is met, and counts those that were.
fn each_line_fails(rt: &impl Abort, alloc: Global, words: &str) -> Result<u32, Fail> {
    let mut files = files_of(alloc, PLAN)?;
    for met in 0..MOST_WRITES {
        if !meets_in_line(rt, alloc, &mut files, words, met + 1)? {
            return Ok(met);
        }
    }
    Err("more writes than any line here has".into())
}

#[test]
fn writes_of_an_answer(rt: HostRuntime) -> Result<(), Fail> {
    for scene in [PLAN, REPLAY, SAFE] {
        let cases = each_write_fails(&rt, rt.alloc(), scene)?;
        println!(rt; "{}: {cases} writes that fail", scene.words)?;
    }
    Ok(())
}

#[test]
fn writes_of_a_line(rt: HostRuntime) -> Result<(), Fail> {
    for (words, writes) in [
        (
            "plan --feed f --delays d --from MIL --to XXX --at 2024-06-03T08:00:00",
            1,
        ),
        (
            "plan --feed nothing --delays d --from MIL --to AIR --at 2024-06-03T08:00:00",
            1,
        ),
        (
            "plan --feed f --delays d --from MIL --to AIR --at 2024-06-03T20:00:00 --horizon 1",
            1,
        ),
        ("plan --feed f", 1),
        (PLAN.words, 0),
    ] {
        let cases = each_line_fails(&rt, rt.alloc(), words)?;
        same_number(&rt, words, 0, u64::from(cases), writes);
        println!(rt; "{words}: {cases} writes that fail")?;
    }
    Ok(())
}

#[test]
fn writes_of_both(rt: HostRuntime) -> Result<(), Fail> {
    let mut files = files_of(rt.alloc(), PLAN)?;
    let output = output_where(rt.alloc(), &mut files, PLAN.words, PIECE, &[2], &[1])?;
    assert_eq!(rt; output.fault, Some(Fault::Write));
    assert_eq!(rt; output.status, 8);
    assert_eq!(rt; output.out.len(), PIECE);
    assert_eq!(rt; output.err.as_str(), "");
    Ok(())
}
