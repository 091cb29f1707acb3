//! Files that are not there, and whose opening fails.
use crate::checks::*;
use meat_engine::Fault;
use memory_ports::MemoryFiles;
use std::alloc::Global;
use std::process::Abort;
use std::test::Fail;

/// The files of a scene but this one.
fn files_without(alloc: Global, scene: Scene, absent: SceneFile) -> Result<MemoryFiles, Fail> {
    let mut files = MemoryFiles::new(alloc, PIECE);
    for source in scene.sources {
        if source.path != absent.path {
            files.add(source.path, source.text.as_bytes())?;
        }
    }
    Ok(files)
}

/// Fails unless an absent file whose opening fails is reported as one that cannot be read, and, after the files have healed,
/// is reported by this status.
fn is_read_first(
    rt: &impl Abort,
    alloc: Global,
    scene: Scene,
    absent: SceneFile,
    status: u8,
) -> Result<(), Fail> {
    let mut files = files_without(alloc, scene, absent)?;
    files.fail(absent.path, 0)?;
    let failed = output_over(alloc, &mut files, scene.words)?;
    same_fault(
        rt,
        absent.name,
        0,
        failed.fault,
        Some(Fault::Read(absent.input)),
    );
    same_number(rt, absent.name, 0, u64::from(failed.status), 7);
    same_text(rt, absent.name, 0, failed.out.as_str(), "");
    same_number(rt, absent.name, 0, files.fault_count(), 1);
    files.heal();
    let healed = output_over(alloc, &mut files, scene.words)?;
    same_number(
        rt,
        absent.name,
        0,
        u64::from(healed.status),
        u64::from(status),
    );
    same_number(rt, absent.name, 0, files.fault_count(), 1);
    Ok(())
}

#[test]
fn absent_and_failing(rt: HostRuntime) -> Result<(), Fail> {
    let mut cases = 0u32;
    for (scene, absent, status) in [
        (SMALL_PLAN, STOPS, 3),
        (SMALL_PLAN, ROUTES, 3),
        (SMALL_PLAN, TRIPS, 3),
        (SMALL_PLAN, STOP_TIMES, 3),
        (SMALL_PLAN, FREQUENCIES, 0),
        (SMALL_PLAN, CALENDAR, 3),
        (SMALL_PLAN, CALENDAR_DATES, 0),
        (SMALL_PLAN, TRANSFERS, 0),
        (SMALL_PLAN, DELAYS, 4),
        (REPLAY, GRAPH, 10),
        (SAFE, CUT, 3),
        (SAFE, DELAYS, 4),
        (CHECK, CERTIFICATE, 14),
    ] {
        is_read_first(&rt, rt.alloc(), scene, absent, status)?;
        cases = cases.saturating_add(1);
    }
    println!(rt; "{cases} absent files whose opening fails")?;
    Ok(())
}
