//! The ports in use.
ghost use Rattle.std.specs.Prelude.{◌≡◌, IsErrAnd};

use file_ports::{Files, HostFiles, HostSink, LoadFault, SteadyFiles, load, put_all};
use memory_ports::{MemoryFiles, MemorySink};
use plan_model::List;
use std::alloc::Global;
use std::fs;
use std::hash::{BuildHasher, Hasher};
use std::process::Abort;
use std::test::Fail;

fn loaded<F: Files>(
    alloc: Global,
    files: &mut F,
    path: &str,
    most: u32,
) -> Result<Vec<u8>, &'static str> {
    match load(alloc, files, path, u64::from(most % 100)) {
        Ok(Some(bytes)) => Ok(bytes),
        Ok(None) => Err("absent"),
        Err(LoadFault::Read) => Err("cannot read"),
        Err(LoadFault::TooLong) => Err("too long"),
        Err(LoadFault::NoMemory) => Err("no memory"),
    }
}

/// From what `load` promises alone it follows that it never fails over steady files.
fn loaded_steadily(
    alloc: Global,
    files: &mut SteadyFiles,
    path: &str,
) -> Result<Option<Vec<u8>>, LoadFault>
    ensures { IsErrAnd result (λ fault. fault ≡ LoadFault.Read) → ⊥ }
{
    load(alloc, files, path, 99)
}

/// Whether a file is loaded as these bytes.
fn gives<F: Files>(alloc: Global, files: &mut F, path: &str, most: u32, bytes: &str) -> bool {
    match loaded(alloc, files, path, most) {
        Ok(found) => found.as_slice() == bytes.as_bytes(),
        Err(_) => false,
    }
}

/// Whether a file is not loaded for this cause.
fn refuses<F: Files>(alloc: Global, files: &mut F, path: &str, most: u32, cause: &str) -> bool {
    match loaded(alloc, files, path, most) {
        Ok(_) => false,
        Err(found) => found == cause,
    }
}

/// Files of nine bytes at most, of which a read gives two.
fn short_files(alloc: Global) -> Result<MemoryFiles, Fail> {
    let mut files = MemoryFiles::new(alloc, 2);
    for (path, text) in [
        ("a", "hello"),
        ("b", ""),
        ("eight", "12345678"),
        ("nine", "123456789"),
    ] {
        files.add(path, text.as_bytes())?;
    }
    Ok(files)
}

/// The short files, of which those at these paths fail at these calls.
fn failing_files(alloc: Global, calls: &[(&str, u32)]) -> Result<MemoryFiles, Fail> {
    let mut files = short_files(alloc)?;
    for (path, call) in calls {
        files.fail(path, *call)?;
    }
    Ok(files)
}

/// Stops where one of these files is not loaded as these bytes.
fn gives_each<F: Files>(
    rt: &impl Abort,
    alloc: Global,
    files: &mut F,
    cases: &[(&str, u32, &str)],
) {
    for (path, most, text) in cases {
        assert!(rt; gives(alloc, files, path, *most, text), "{path}");
    }
}

/// Stops where one of these files is loaded, or is not for another cause.
fn refuses_each<F: Files>(
    rt: &impl Abort,
    alloc: Global,
    files: &mut F,
    cases: &[(&str, u32, &str)],
) {
    for (path, most, cause) in cases {
        assert!(rt; refuses(alloc, files, path, *most, cause), "{path}");
    }
}

#[test]
fn memory_files_are_whole(rt: HostRuntime) -> Result<(), Fail> {
    let mut files = short_files(rt.alloc())?;
    gives_each(
        &rt,
        rt.alloc(),
        &mut files,
        &[("a", 5, "hello"), ("eight", 8, "12345678"), ("b", 0, "")],
    );
    refuses_each(
        &rt,
        rt.alloc(),
        &mut files,
        &[
            ("nine", 8, "too long"),
            ("a", 4, "too long"),
            ("c", 9, "absent"),
        ],
    );
    assert!(rt; files.fault_count() == 0);
    Ok(())
}

#[test]
fn memory_files_fail_where_reported(rt: HostRuntime) -> Result<(), Fail> {
    let mut files = failing_files(rt.alloc(), &[("a", 3), ("c", 0)])?;
    refuses_each(
        &rt,
        rt.alloc(),
        &mut files,
        &[("a", 5, "cannot read"), ("c", 5, "cannot read")],
    );
    assert!(rt; files.fault_count() == 2);
    Ok(())
}

/// Stops where files that have failed three times do not give what they hold after they have healed.
fn heal(rt: &impl Abort, alloc: Global, files: &mut MemoryFiles) {
    assert!(rt; files.fault_count() == 3);
    files.heal();
    gives_each(
        rt,
        alloc,
        files,
        &[("a", 9, "hello"), ("eight", 9, "12345678")],
    );
    refuses_each(rt, alloc, files, &[("c", 9, "absent")]);
    assert!(rt; files.fault_count() == 3);
}

#[test]
fn memory_files_heal(rt: HostRuntime) -> Result<(), Fail> {
    let mut files = failing_files(rt.alloc(), &[("a", 0), ("a", 2), ("eight", 1), ("c", 0)])?;
    refuses_each(
        &rt,
        rt.alloc(),
        &mut files,
        &[
            ("a", 9, "cannot read"),
            ("eight", 9, "cannot read"),
            ("c", 9, "cannot read"),
        ],
    );
    heal(&rt, rt.alloc(), &mut files);
    Ok(())
}

/// Whether a file that has failed fails again where it should after it has healed.
fn fails_again(alloc: Global, files: &mut MemoryFiles) -> Result<bool, Fail> {
    if !refuses(alloc, files, "eight", 9, "cannot read") {
        return Ok(false);
    }
    files.heal();
    files.fail("eight", 0)?;
    Ok(refuses(alloc, files, "eight", 9, "cannot read"))
}

#[test]
fn memory_files_fail_once_more(rt: HostRuntime) -> Result<(), Fail> {
    let mut files = failing_files(rt.alloc(), &[("eight", 1)])?;
    let again = fails_again(rt.alloc(), &mut files)?;
    assert!(rt; again);
    assert!(rt; files.fault_count() == 2);
    Ok(())
}

/// Steady files of which one is added twice.
fn steady_files(alloc: Global) -> Result<SteadyFiles, Fail> {
    let mut files = SteadyFiles::new(alloc, 2);
    for text in ["old", "hello"] {
        files.add("a", text.as_bytes())?;
    }
    Ok(files)
}

#[test]
fn steady_files_load(rt: HostRuntime) -> Result<(), Fail> {
    let mut files = steady_files(rt.alloc())?;
    assert!(rt; gives(rt.alloc(), &mut files, "a", 5, "hello"));
    let absent = matches!(&loaded_steadily(rt.alloc(), &mut files, "b"), Ok(None));
    assert!(rt; absent);
    Ok(())
}

/// A sink of two bytes a write and seven in all, whose third write fails.
fn short_sink(alloc: Global) -> Result<MemorySink, Fail> {
    let failing = List::from_vec(vec![in alloc; 3]?);
    Ok(MemorySink::new(alloc, 2, 7, failing)?)
}

/// Which of three texts are put whole.
fn puts(sink: &mut MemorySink) -> (bool, bool, bool) {
    let first = put_all(sink, b"abc").is_ok();
    let second = put_all(sink, b"d").is_ok();
    (first, second, put_all(sink, b"efghi").is_ok())
}

#[test]
fn memory_sinks_fail_where_reported(rt: HostRuntime) -> Result<(), Fail> {
    let mut sink = short_sink(rt.alloc())?;
    assert_eq!(rt; puts(&mut sink), (true, false, false));
    assert_eq!(rt; sink.bytes(), b"abcefgh".as_slice());
    Ok(())
}

#[test]
fn host_files_read(rt: HostRuntime) -> Result<(), Fail> {
    fs::write(&rt, "found.txt", "some bytes")?;
    {
        let mut files = HostFiles::new(&rt);
        gives_each(
            &rt,
            rt.alloc(),
            &mut files,
            &[("found.txt", 10, "some bytes")],
        );
        refuses_each(
            &rt,
            rt.alloc(),
            &mut files,
            &[
                ("missing.txt", 10, "absent"),
                (".", 10, "cannot read"),
                ("found.txt/missing.txt", 10, "cannot read"),
            ],
        );
    }
    fs::remove_file(&rt, "found.txt")?;
    Ok(())
}

/// What a key makes of one number.
fn hash_of<F: Files>(files: &F) -> u64 {
    let mut hasher = files.hash_key().build_hasher();
    hasher.write_u64(1);
    hasher.finish()
}

/// The same of a start of the host's files.
fn host_hash(rt: &HostRuntime) -> u64 {
    hash_of(&HostFiles::new(rt))
}

/// The same of a start of steady files.
fn steady_hash(alloc: Global) -> u64 {
    hash_of(&SteadyFiles::new(alloc, 4_096))
}

#[test]
fn each_start_draws_a_key(rt: HostRuntime) {
    let first = host_hash(&rt);
    assert!(rt; first != host_hash(&rt));
    let fixed = steady_hash(rt.alloc());
    assert_eq!(rt; fixed, steady_hash(rt.alloc()));
    assert!(rt; fixed != first);
}

#[test]
fn host_sinks_write(rt: HostRuntime) {
    let mut sink = HostSink::new(Vec::new(rt.alloc()));
    assert!(rt; put_all(&mut sink, b"some bytes").is_ok());
}
