//! Files and streams of the host. Neither what a file holds nor what was written is known of them, and they count each
//! error of the system, out of memory included.
ghost use Rattle.std.specs.Prelude.{◌≡◌, None};

use crate::ports::{Failed, Files, Presence, Sink};
use plan_model::HashKey;
use std::io::{ErrorKind, Read, Write};
use std::random::RandomSource;
use std::{fs, rt};

/// The host's files. Only a path that the system does not find is absent: every other error is a fault, one for a
/// folder in place of a file among them.
#[derive(Drop)]
pub struct HostFiles<R: rt::Files> {
    rt: R,
    file: Option<R::File>,
    faults: u64,
    key: HashKey,
}

impl<R: rt::Files + RandomSource> HostFiles<R> {
    /// No file is open, and nothing has failed. The key of its hashes is drawn anew in each call. It takes no memory.
    pub fn new(rt: R) -> HostFiles<R>
        ensures closed { (⟦<HostFiles<R> as Files>⟧.state result).in_hand ≡ None }
        ensures faults { (⟦<HostFiles<R> as Files>⟧.state result).faults ≡ 0 }
    {
        let key = HashKey::drawn(&rt);
        HostFiles {
            rt,
            file: None,
            faults: 0,
            key,
        }
    }
}

impl<R: rt::Files> Files for HostFiles<R> {
    ghost use Rattle.std.specs.Prelude.{[], None, Some, is_some, if◌then◌else◌};

    ghost state = { λ s. record {
      files = None;
      in_hand = if is_some s.file then Some [] else None;
      left = None;
      faults = s.faults;
      faults_of = λ _. 0;
    } };

    fn open_file(&mut self, path: &str) -> Result<Presence, Failed> {
        self.file = None;
        match fs::open(&self.rt, path) {
            Ok(file) => {
                self.file = Some(file);
                Ok(Presence::Present)
            }
            Err(error) => {
                if error.kind() == ErrorKind::NotFound {
                    return Ok(Presence::Absent);
                }
                self.faults = self.faults.saturating_add(1);
                Err(Failed)
            }
        }
    }

    fn read(&mut self, buffer: &mut [u8]) -> Result<usize, Failed> {
        let Some(file) = &mut self.file else {
            unreachable!()
        };
        match file.read(buffer) {
            Ok(count) => Ok(count),
            Err(_) => {
                self.faults = self.faults.saturating_add(1);
                Err(Failed)
            }
        }
    }

    fn hash_key(&self) -> HashKey {
        self.key
    }
}

/// A stream of the host. Each write is flushed, and one that takes nothing is a fault.
#[derive(Drop)]
pub struct HostSink<W: Write> {
    writer: W,
    faults: u64,
}

impl<W: Write> HostSink<W> {
    /// Nothing has failed. It takes no memory.
    pub fn new(writer: W) -> HostSink<W>
        ensures { ⟦<HostSink<W> as Sink>⟧.faults result ≡ 0 }
    {
        HostSink { writer, faults: 0 }
    }
}

impl<W: Write> Sink for HostSink<W> {
    ghost use Rattle.std.specs.Prelude.{None};

    ghost written = { λ _. None };

    ghost faults = { λ s. s.faults };

    fn write(&mut self, piece: &[u8]) -> Result<usize, Failed> {
        if let Ok(count) = self.writer.write(piece) {
            if count > 0 && self.writer.flush().is_ok() {
                return Ok(count);
            }
        }
        self.faults = self.faults.saturating_add(1);
        Err(Failed)
    }
}
