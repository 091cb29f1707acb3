//! Whole files from `Files`, and whole texts to a `Sink`.
ghost use Rattle.std.specs.Prelude.{◌≡◌, ◌<◌, ◌≤◌, ◌+◌, ◌^◌, ◌↔◌, ℕ, length, IsSome, IsNone, IfOk, IfSome, OnOk, OnErr, IsErrOf, option_map, vec_items};
ghost use Rattle.std.specs.Io.KnownBytes.{Appends, Consumes, IsAtEnd};
ghost use Rattle.file_ports.specs.Counts.{HasCause, KeepsOthers};
ghost use Rattle.file_ports.specs.Loading.{HasLoadCauses, IsLonger, Takes, AppendsFront};
ghost use Rattle.file_ports.specs.Ports.{file_at, path_in_hand};

use crate::ports::{Failed, Files, Presence, Sink};
use std::alloc::{AllocError, Global};

/// Why a file could not be loaded.
#[derive(Clone, Copy)]
pub enum LoadFault {
    /// Opening it or a read failed.
    Read,
    /// It has more bytes than may be loaded.
    TooLong,
    /// There was no memory.
    NoMemory,
}

/// The most bytes of one read.
const CHUNK: usize = 4096;

/// Reads the open file to its end, at most `most` bytes and one more.
fn read_rest<F: Files>(alloc: Global, files: &mut F, most: usize) -> Result<Vec<u8>, LoadFault>
    requires in_hand { IsSome (F.state files.old).in_hand }
    requires most { most ≤ 2 ^ 30 }
    ensures in_hand { (F.state files.new).in_hand ≡ (F.state files.old).in_hand }
    ensures whole { IfOk result (λ v. Consumes (F.state files.old).left (F.state files.new).left v.items
        × IsAtEnd (F.state files.new).left) }
    ensures bound { IfOk result (λ v. length v.items ≤ most) }
    ensures takes { Takes most (F.state files.old).left (F.state files.new).left result }
    ensures causes { let old = F.state files.old in
        HasLoadCauses (path_in_hand old) old (F.state files.new) result }
    ensures others { let old = F.state files.old in
        KeepsOthers (path_in_hand old) old (F.state files.new) }
{
    let mut bytes = Vec::new(alloc);
    let mut buffer = [0; CHUNK];
    while bytes.len() <= most {
        let room = (most + 1 - bytes.len()).min(CHUNK);
        let Ok(count) = files.read(&mut buffer[..room]) else {
            return Err(LoadFault::Read);
        };
        if count == 0 {
            return Ok(bytes);
        }
        bytes.extend_from_slice(&buffer[..count])?;
    }
    Err(LoadFault::TooLong)
}

/// Loads the whole file with this path; `None` if it is absent. `Read` comes only if the count of faults rose, and `TooLong`
/// if the file has more than `most` bytes.
pub fn load<F: Files>(
    alloc: Global,
    files: &mut F,
    path: &str,
    most: u64,
) -> Result<Option<Vec<u8>>, LoadFault>
    requires { most ≤ 2 ^ 30 }

    // `None` exactly if the file is absent: then none is open.
    ensures absent { IfOk result (λ o. IsNone o ↔ ((F.state files.new).in_hand ≡ None)) }

    // If the files are known: the whole file, or none exactly if there is none.
    ensures found { IfSome (F.state files.old).files (λ m.
        IfOk result (λ o. option_map vec_items o ≡ file_at m path.now)) }
    ensures bound { IfOk result (λ o. IfSome o (λ v. length v.items ≤ most)) }
    ensures too_long { IsErrOf result LoadFault.TooLong → IsSome (F.state files.new).in_hand }
    ensures longer { IfSome (F.state files.old).files (λ m.
        IsErrOf result LoadFault.TooLong → IsLonger most (file_at m path.now)) }
    ensures takes { IfSome (F.state files.old).files (λ m.
        IsSome (F.state files.new).in_hand → Takes most (file_at m path.now) (F.state files.new).left result) }
    ensures causes { HasLoadCauses path.now (F.state files.old) (F.state files.new) result }
    ensures others { KeepsOthers path.now (F.state files.old) (F.state files.new) }
{
    match files.open_file(path) {
        Err(Failed) => Err(LoadFault::Read),
        Ok(Presence::Absent) => Ok(None),
        Ok(Presence::Present) => match read_rest(alloc, files, most as usize) {
            Err(fault) => Err(fault),
            Ok(bytes) => Ok(Some(bytes)),
        },
    }
}

/// Writes all of these bytes. `Failed` comes only if the sink's count of faults rose; then it has taken a front of them.
pub fn put_all<S: Sink>(sink: &mut S, bytes: &[u8]) -> Result<(), Failed>
    ensures ok { OnOk result (Appends (S.written sink.old) (S.written sink.new) bytes.now) }
    ensures err { OnErr result (AppendsFront (S.written sink.old) (S.written sink.new) bytes.now) }
    ensures cause { HasCause (S.faults sink.old) (S.faults sink.new) result }
{
    let mut done = 0;
    while done < bytes.len() {
        done += sink.write(&bytes[done..])?;
    }
    Ok(())
}

impl From<AllocError> for LoadFault {
    ghost use Rattle.std.specs.Prelude.{◌≡◌};
    ghost use Rattle.file_ports.specs.declared.loading.LoadFault.TheVariants.{NoMemory as NoMemoryFault};

    ghost from_gives = { λ _ fault. fault ≡ NoMemoryFault };

    fn from(_: AllocError) -> Self {
        LoadFault::NoMemory
    }
}
