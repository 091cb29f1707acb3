//! Files in memory, which fail at chosen calls.
ghost use Rattle.std.specs.Prelude.{◌≡◌, ◌≢◌, ◌<◌, ◌≤◌, ◌+◌, ◌-◌, ◌^◌, min, nat_eq, position, bytes_eq, string_bytes, ℕ, List, true, false, length, Some, OnOk, OnErr, IfOk};
ghost use Rattle.std.specs.List.{list_any};
ghost use Rattle.memory_ports.specs.Failing.{faults_in, fails_in, SameFailing as SameFailures};

use file_ports::{Failed, Files, Named, Presence, SteadyFiles, index_of};
use plan_model::NoMemory;
use std::alloc::Global;

/// The calls on a path that fail, and how often they have.
#[derive(Drop)]
struct Failing {
    calls: Vec<u32>,
    faults: u64,
}

/// Whether this call is among these.
fn names_call(calls: &[u32], call: u64) -> bool
    ensures { result ≡ list_any (λ c. nat_eq c call) calls.now }
{
    calls.iter().any(|c| u64::from(*c) == call)
}

/// Whether this call on this path fails. Then the failure is counted.
fn count_fault(failing: &mut Vec<Named<Failing>>, path: &str, call: u64) -> bool
    ensures reported { result ≡ fails_in failing.old.items path.now call }
    ensures count { result ≡ true → faults_in failing.new.items path.now
        ≡ min (faults_in failing.old.items path.now + 1) (2 ^ 64 - 1) }
    ensures later { (p : List ℕ) → faults_in failing.old.items p ≤ faults_in failing.new.items p }
    ensures others { (p : List ℕ) → p ≢ path.now → faults_in failing.new.items p
        ≡ faults_in failing.old.items p }
    ensures calls { (p : List ℕ) (k : ℕ) → fails_in failing.new.items p k
        ≡ fails_in failing.old.items p k }
    ensures quiet { result ≡ false → failing.new.items ≡ failing.old.items }
{
    let Some(index) = index_of(failing, path) else {
        return false;
    };
    let entry = &mut failing[index].value;
    if !names_call(&entry.calls, call) {
        return false;
    }
    entry.faults = entry.faults.saturating_add(1);
    true
}

/// The index of this path's counter, which is made if there is none.
fn counter(alloc: Global, failing: &mut Vec<Named<Failing>>, path: &str) -> Result<usize, NoMemory>
    ensures index { IfOk result (λ i. position
        (λ e. bytes_eq (string_bytes e.path) path.now) failing.new.items
        ≡ Some i) }
    ensures same { SameFailures failing.old.items failing.new.items }
{
    if let Some(index) = index_of(failing, path) {
        return Ok(index);
    }
    let index = failing.len();
    let value = Failing {
        calls: Vec::new(alloc),
        faults: 0,
    };
    let path = String::from_str(alloc, path)?;
    failing.push(Named { path, value })?;
    Ok(index)
}

/// Forgets which calls fail, and keeps the counts.
fn forget_calls(failing: &mut [Named<Failing>])
    ensures calls { (path : List ℕ) (call : ℕ) → fails_in failing.new path call ≡ false }
    ensures counts { (path : List ℕ) → faults_in failing.new path ≡ faults_in failing.old path }
{
    for index in 0..failing.len() {
        let entry = &mut failing[index].value;
        entry.calls.clear();
    }
}

/// Files in memory. Calls on them fail if `fail` has chosen them, and only then.
#[derive(Drop)]
pub struct MemoryFiles {
    alloc: Global,
    steady: SteadyFiles,
    failing: Vec<Named<Failing>>,
    reads: u64,
    faults: u64,
}

impl MemoryFiles {
    ghost use Rattle.std.specs.Prelude.{[], None};
    ghost use Rattle.file_ports.specs.Steady.{PutsFile};
    ghost use Rattle.memory_ports.specs.Memory.{folder_of, faults_at, fails_at, open_of, reads_of, piece_of, total_faults, FailsToo, FailsAlike, SameFiles, SameFailing};

    /// No files. A read gives at most `piece` bytes. It takes no memory.
    pub fn new(alloc: Global, piece: usize) -> MemoryFiles
        requires { 0 < piece }
        ensures files { folder_of result ≡ [] }
        ensures piece { piece_of result ≡ piece }
        ensures closed { open_of result ≡ None }
        ensures reads { reads_of result ≡ 0 }
        ensures faults { total_faults result ≡ 0 }
        ensures counts { (path : List ℕ) → faults_at result path ≡ 0 }
        ensures failing { (path : List ℕ) (call : ℕ) → fails_at result path call ≡ false }
    {
        MemoryFiles {
            alloc,
            steady: SteadyFiles::new(alloc, piece),
            failing: Vec::new(alloc),
            reads: 0,
            faults: 0,
        }
    }

    /// The path now holds these bytes, and no file is open. Without memory nothing changes.
    pub fn add(&mut self, path: &str, bytes: &[u8]) -> Result<(), NoMemory>
        ensures ok { OnOk result (PutsFile (folder_of self.old) (folder_of self.new) path.now bytes.now) }
        ensures closed { OnOk result (open_of self.new ≡ None) }
        ensures err { OnErr result (SameFiles self.old self.new) }
        ensures failing { SameFailing self.old self.new }
        ensures piece { piece_of self.new ≡ piece_of self.old }
    {
        counter(self.alloc, &mut self.failing, path)?;
        self.steady.add(path, bytes)
    }

    /// From now on this call on this path fails: call 0 opens it, and call k is the k-th read since it was opened,
    /// with those that failed. Without memory nothing changes.
    pub fn fail(&mut self, path: &str, call: u32) -> Result<(), NoMemory>
        ensures ok { OnOk result (FailsToo self.old self.new path.now call) }
        ensures err { OnErr result (FailsAlike self.old self.new) }
        ensures files { SameFiles self.old self.new }
        ensures counts { (p : List ℕ) → faults_at self.new p ≡ faults_at self.old p }
        ensures total { total_faults self.new ≡ total_faults self.old }
        ensures piece { piece_of self.new ≡ piece_of self.old }
    {
        let index = counter(self.alloc, &mut self.failing, path)?;
        self.failing[index].value.calls.push(call)?;
        Ok(())
    }

    /// Forgets all calls that are to fail, and leaves the files, the open file and all counts as they are: from
    /// now on no call fails until `fail` names one again.
    pub fn heal(&mut self)
        ensures calls { (path : List ℕ) (call : ℕ) → fails_at self.new path call ≡ false }
        ensures files { SameFiles self.old self.new }
        ensures counts { (path : List ℕ) → faults_at self.new path ≡ faults_at self.old path }
        ensures total { total_faults self.new ≡ total_faults self.old }
        ensures piece { piece_of self.new ≡ piece_of self.old }
    {
        forget_calls(&mut self.failing);
    }

    /// How many calls have failed.
    pub fn fault_count(&self) -> u64
        ensures { result ≡ total_faults self.now }
    {
        self.faults
    }
}

impl Files for MemoryFiles {
    ghost use Rattle.std.specs.Prelude.{IsSome, IfSome, IfOk, is_err};
    ghost use Rattle.file_ports.specs.Counts.{RoseByOne, OpensPath, ReadsOpenFile};
    ghost use Rattle.memory_ports.specs.Memory.{faults_at, fails_at, open_of, remaining_of, piece_of, reads_of, state_of, total_faults, FailsAlike};

    ghost state = { state_of };

    fn open_file(&mut self, path: &str) -> Result<Presence, Failed>
        ensures opened { OpensPath (state_of self.old) (state_of self.new) path.now result }
        ensures fails { is_err result ≡ fails_at self.old path.now 0 }
        ensures one { OnErr result (RoseByOne (total_faults self.old) (total_faults self.new)) }
        ensures one_at_path { OnErr result
            (RoseByOne (faults_at self.old path.now) (faults_at self.new path.now)) }
        ensures reads { reads_of self.new ≡ 0 }
        ensures piece { piece_of self.new ≡ piece_of self.old }
        ensures failing { FailsAlike self.old self.new }
    {
        self.reads = 0;
        self.steady.close();
        if count_fault(&mut self.failing, path, 0) {
            self.faults = self.faults.saturating_add(1);
            return Err(Failed);
        }
        self.steady.open_file(path)
    }

    fn read(&mut self, buffer: &mut [u8]) -> Result<usize, Failed>
        requires in_hand { IsSome (state_of self.old).in_hand }
        requires room { 0 < length buffer.old }
        ensures reads { ReadsOpenFile (state_of self.old) (state_of self.new) buffer.new result }
        ensures fails { IfSome (open_of self.old) (λ path.
            is_err result ≡ fails_at self.old path (reads_of self.new)) }
        ensures one { OnErr result (RoseByOne (total_faults self.old) (total_faults self.new)) }
        ensures one_at_path { OnErr result (IfSome (open_of self.old) (λ path.
            RoseByOne (faults_at self.old path) (faults_at self.new path))) }
        ensures count { IfOk result (λ n. IfSome (remaining_of self.old) (λ rest.
            n ≡ min (min (piece_of self.old) (length buffer.old)) (length rest))) }
        ensures one_more { reads_of self.new ≡ min (reads_of self.old + 1) (2 ^ 64 - 1) }
        ensures piece { piece_of self.new ≡ piece_of self.old }
        ensures failing { FailsAlike self.old self.new }
    {
        self.reads = self.reads.saturating_add(1);
        let path = self.steady.path_in_hand();
        if count_fault(&mut self.failing, path, self.reads) {
            self.faults = self.faults.saturating_add(1);
            return Err(Failed);
        }
        self.steady.read(buffer)
    }
}
