//! The two interfaces to the outside.
ghost use Rattle.std.specs.Prelude.{◌<◌, ◌≤◌, ℕ, List, Option, length, IfOk, IsSome};
ghost use Rattle.std.specs.Io.KnownBytes.{WriteAppends};
ghost use Rattle.file_ports.specs.Counts.{HasCause, OpensPath, ReadsOpenFile};
ghost use Rattle.file_ports.specs.Ports.{FilesState};

use plan_model::HashKey;

/// Whether a path has a file.
#[derive(Clone, Copy)]
pub enum Presence {
    /// It has one.
    Present,
    /// It has none.
    Absent,
}

/// The outside failed.
#[derive(Clone, Copy)]
pub struct Failed;

/// A folder of files, of which one at a time can be open.
pub trait Files {
    /// What the files are: their bytes, the open one, and how often the outside has failed.
    ghost state: { Self → FilesState };

    /// Opens the file with this path, if there is one. It fails only if the count of faults rises.
    fn open_file(&mut self, path: &str) -> Result<Presence, Failed>
        ensures opened { OpensPath (state self.old) (state self.new) path.now result };

    /// Moves some bytes of the open file to the front of the buffer, none only at its end. It fails only if the count of
    /// faults rises.
    fn read(&mut self, buffer: &mut [u8]) -> Result<usize, Failed>
        requires in_hand { IsSome (state self.old).in_hand }
        requires room { 0 < length buffer.old }
        ensures reads { ReadsOpenFile (state self.old) (state self.new) buffer.new result };

    /// The key by which ids that come from these files are hashed. It is one that nobody knows if the host draws it.
    fn hash_key(&self) -> HashKey {
        HashKey::fixed()
    }
}

/// Something that takes bytes.
pub trait Sink {
    /// The bytes that it has taken, if they are known.
    ghost written: { Self → Option (List ℕ) };

    /// How often the outside has failed.
    ghost faults: { Self → ℕ };

    /// Takes some bytes of the front of the piece, one at least. It fails only if the count of faults rises.
    fn write(&mut self, piece: &[u8]) -> Result<usize, Failed>
        requires { 0 < length piece.now }
        ensures some { IfOk result (λ n. 0 < n) }
        ensures bound { IfOk result (λ n. n ≤ length piece.now) }
        ensures bytes { WriteAppends (written self.old) (written self.new) result piece.now }
        ensures cause { HasCause (faults self.old) (faults self.new) result };
}
