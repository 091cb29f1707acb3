//! A sink in memory, which fails at chosen writes.
ghost use Rattle.std.specs.Prelude.{◌≡◌, ◌<◌, ◌≤◌, nat_eq, vec_len, vec_capacity};
ghost use Rattle.std.specs.List.{list_any};

use file_ports::{Failed, Sink};
use plan_model::{List, NoMemory};
use std::alloc::Global;

/// What was written. Some writes fail, and so do all once the room is full.
#[derive(Drop)]
pub struct MemorySink {
    piece: usize,
    room: usize,
    failing: List<u32>,
    bytes: Vec<u8>,
    writes: u64,
    faults: u64,
    ghost some: { 0 < piece },
    ghost in_room: { vec_len bytes ≤ room },
    ghost has_room: { room ≤ vec_capacity bytes },
}

impl MemorySink {
    ghost use Rattle.std.specs.Prelude.{◌≡◌, ◌<◌, [], IfOk};
    ghost use Rattle.memory_ports.specs.MemorySink.{held_of, piece_of, room_of, writes_of, failing_of, total_faults};

    /// Nothing yet, and room for `room` bytes. A write takes at most `piece` bytes, and at most what remains of
    /// the room. The writes with these numbers, counted from 1, fail, and so do those that find no room.
    pub fn new(
        alloc: Global,
        piece: usize,
        room: usize,
        failing: List<u32>,
    ) -> Result<MemorySink, NoMemory>
        requires { 0 < piece }
        ensures empty { IfOk result (λ s. held_of s ≡ []) }
        ensures piece { IfOk result (λ s. piece_of s ≡ piece) }
        ensures room { IfOk result (λ s. room_of s ≡ room) }
        ensures failing { IfOk result (λ s. failing_of s ≡ failing) }
        ensures writes { IfOk result (λ s. writes_of s ≡ 0) }
        ensures faults { IfOk result (λ s. total_faults s ≡ 0) }
    {
        let bytes = Vec::with_capacity(alloc, room)?;
        Ok(MemorySink {
            piece,
            room,
            failing,
            bytes,
            writes: 0,
            faults: 0,
        })
    }

    /// What was written.
    pub fn bytes(&self) -> &[u8]
        ensures { result.now ≡ held_of self.now }
    {
        self.bytes.as_slice()
    }
}

impl Sink for MemorySink {
    ghost use Rattle.std.specs.Prelude.{◌≡◌, ◌<◌, ◌≤◌, ◌+◌, ◌-◌, ◌^◌, ◌||◌, min, length, Some, IfOk, OnErr, is_err, nat_eq, nat_le};
    ghost use Rattle.std.specs.List.{list_any};
    ghost use Rattle.std.specs.Io.KnownBytes.{WriteAppends};
    ghost use Rattle.file_ports.specs.Counts.{RoseByOne, HasCause};
    ghost use Rattle.memory_ports.specs.MemorySink.{held_of, piece_of, room_of, writes_of, failing_of, total_faults};

    ghost written = { λ s. Some (held_of s) };

    ghost faults = { total_faults };

    fn write(&mut self, piece: &[u8]) -> Result<usize, Failed>
        requires { 0 < length piece.now }
        ensures some { IfOk result (λ n. 0 < n) }
        ensures bound { IfOk result (λ n. n ≤ length piece.now) }
        ensures bytes { WriteAppends (Some (held_of self.old)) (Some (held_of self.new)) result piece.now }
        ensures cause { HasCause (total_faults self.old) (total_faults self.new) result }
        ensures fails { is_err result ≡ (list_any
            (λ c. nat_eq c (writes_of self.new)) (failing_of self.old)
            || nat_le (room_of self.old) (length (held_of self.old))) }
        ensures one { OnErr result (RoseByOne (total_faults self.old) (total_faults self.new)) }
        ensures count { IfOk result (λ n. n ≡ min (min (piece_of self.old) (length piece.now))
            (room_of self.old - length (held_of self.old))) }
        ensures writes { writes_of self.new ≡ min (writes_of self.old + 1) (2 ^ 64 - 1) }
        ensures piece { piece_of self.new ≡ piece_of self.old }
        ensures room { room_of self.new ≡ room_of self.old }
        ensures failing { failing_of self.new ≡ failing_of self.old }
    {
        self.writes = self.writes.saturating_add(1);
        if names_write(self.failing.as_slice(), self.writes) || self.bytes.len() >= self.room {
            self.faults = self.faults.saturating_add(1);
            return Err(Failed);
        }
        let count = self
            .piece
            .min(piece.len())
            .min(self.room - self.bytes.len());
        self.bytes.extend_from_slice(&piece[..count]).unwrap();
        Ok(count)
    }
}

/// Whether the write with this number is among these.
fn names_write(failing: &[u32], number: u64) -> bool
    ensures { result ≡ list_any (λ c. nat_eq c number) failing.now }
{
    failing.iter().any(|c| u64::from(*c) == number)
}
