//! The files of a scene, and what is expected of a run over them.
use meat_engine::Fault;
use memory_ports::MemoryFiles;
use std::alloc::Global;
use std::process::Abort;
use std::test::Fail;
pub(crate) use test_runs::*;

/// The files of a scene.
pub(crate) fn files_of(alloc: Global, scene: Scene) -> Result<MemoryFiles, Fail> {
    let mut files = MemoryFiles::new(alloc, PIECE);
    for source in scene.sources {
        files.add(source.path, source.text.as_bytes())?;
    }
    Ok(files)
}

/// Fails unless two texts are the same: what they are of, and at which call, write or length.
pub(crate) fn same_text<'a>(rt: &impl Abort, name: &str, at: u64, found: &'a str, wanted: &'a str) {
    assert_eq!(rt; found, wanted, "{name} at {at}");
}

/// Fails unless two numbers are the same.
pub(crate) fn same_number(rt: &impl Abort, name: &str, at: u64, found: u64, wanted: u64) {
    assert_eq!(rt; found, wanted, "{name} at {at}");
}

/// Fails unless two faults are the same.
pub(crate) fn same_fault(
    rt: &impl Abort,
    name: &str,
    at: u64,
    found: Option<Fault>,
    wanted: Option<Fault>,
) {
    assert_eq!(rt; found, wanted, "{name} at {at}");
}

/// Fails unless something is so of a text.
pub(crate) fn is_so(rt: &impl Abort, name: &str, at: u64, so: bool, text: &str) {
    assert!(rt; so, "{name} at {at}: {text}");
}
