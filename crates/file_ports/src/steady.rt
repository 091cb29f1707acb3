//! Files in memory of which no call fails.
ghost use Rattle.std.specs.Prelude.{◌≡◌, ◌<◌, min, length, take, OnOk, OnErr};

use crate::named::{Named, index_of, put};
use crate::ports::{Failed, Files, Presence};
use plan_model::NoMemory;
use std::alloc::Global;

/// Files in memory, of which one at a time can be open. Their counts of faults are always 0, so no call on them fails.
#[derive(Drop)]
pub struct SteadyFiles {
    alloc: Global,
    piece: usize,
    held: Vec<Named<Vec<u8>>>,
    current: Option<usize>,
    offset: usize,
    ghost some: { 0 < piece },
}

impl SteadyFiles {
    ghost use Rattle.std.specs.Prelude.{[], None, Some, IsSome};
    ghost use Rattle.file_ports.specs.Steady.{folder_of, open_of, piece_of, PutsFile, SameFiles};

    /// No files. A read gives at most `piece` bytes. It takes no memory.
    pub fn new(alloc: Global, piece: usize) -> SteadyFiles
        requires { 0 < piece }
        ensures files { folder_of result ≡ [] }
        ensures piece { piece_of result ≡ piece }
        ensures closed { open_of result ≡ None }
    {
        SteadyFiles {
            alloc,
            piece,
            held: Vec::new(alloc),
            current: None,
            offset: 0,
        }
    }

    /// The path now holds these bytes, and no file is open. Without memory nothing changes.
    pub fn add(&mut self, path: &str, bytes: &[u8]) -> Result<(), NoMemory>
        ensures ok { OnOk result (PutsFile (folder_of self.old) (folder_of self.new) path.now bytes.now) }
        ensures closed { OnOk result (open_of self.new ≡ None) }
        ensures err { OnErr result (SameFiles self.old self.new) }
        ensures piece { piece_of self.new ≡ piece_of self.old }
    {
        let value = Vec::from_slice(self.alloc, bytes)?;
        put(self.alloc, &mut self.held, path, value)?;
        self.close();
        Ok(())
    }

    /// No file is open any more.
    pub fn close(&mut self)
        ensures files { folder_of self.new ≡ folder_of self.old }
        ensures closed { open_of self.new ≡ None }
        ensures piece { piece_of self.new ≡ piece_of self.old }
    {
        self.current = None;
    }

    /// The path of the open file.
    pub fn path_in_hand(&self) -> &str
        requires { IsSome (open_of self.now) }
        ensures { open_of self.now ≡ Some result.now }
    {
        let Some(index) = self.current else {
            unreachable!()
        };
        self.held[index].path.as_str()
    }
}

impl Files for SteadyFiles {
    ghost use Rattle.std.specs.Prelude.{IsSome, IfSome, IfOk, IsOk};
    ghost use Rattle.file_ports.specs.Counts.{OpensPath, ReadsOpenFile};
    ghost use Rattle.file_ports.specs.Steady.{remaining_of, state_of, piece_of};

    ghost state = { state_of };

    fn open_file(&mut self, path: &str) -> Result<Presence, Failed>
        ensures opened { OpensPath (state_of self.old) (state_of self.new) path.now result }
        ensures never_fails { IsOk result }
        ensures piece { piece_of self.new ≡ piece_of self.old }
    {
        self.offset = 0;
        self.current = index_of(&self.held, path);
        match self.current {
            Some(_) => Ok(Presence::Present),
            None => Ok(Presence::Absent),
        }
    }

    fn read(&mut self, buffer: &mut [u8]) -> Result<usize, Failed>
        requires in_hand { IsSome (state_of self.old).in_hand }
        requires room { 0 < length buffer.old }
        ensures reads { ReadsOpenFile (state_of self.old) (state_of self.new) buffer.new result }
        ensures never_fails { IsOk result }
        ensures count { IfOk result (λ n. IfSome (remaining_of self.old) (λ rest.
            n ≡ min (min (piece_of self.old) (length buffer.old)) (length rest))) }
        ensures piece { piece_of self.new ≡ piece_of self.old }
    {
        let Some(index) = self.current else {
            unreachable!()
        };
        let file = &self.held[index];
        let from = self.offset.min(file.value.len());
        let count = copy_front(buffer, &file.value[from..], self.piece);
        self.offset = from + count;
        Ok(count)
    }
}

/// Copies the front of `rest`, as much as fits, and at most `piece` bytes.
fn copy_front(buffer: &mut [u8], rest: &[u8], most: usize) -> usize
    ensures count { result ≡ min (min most (length buffer.old)) (length rest.now) }
    ensures front { take result buffer.new ≡ take result rest.now }
{
    let count = most.min(buffer.len()).min(rest.len());
    buffer[..count].copy_from_slice(&rest[..count]);
    count
}
