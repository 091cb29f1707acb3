//! Values by their paths.
ghost use Rattle.std.specs.Prelude.{◌≡◌, ℕ, List, bytes_eq, string_bytes, position, if◌then◌else◌, OnOk, OnErr};
ghost use Rattle.file_ports.specs.Named.{value_at};

use plan_model::NoMemory;
use std::alloc::Global;

/// A value with its path.
#[derive(Drop)]
pub struct Named<T> {
    /// The path.
    pub path: String,
    /// The value.
    pub value: T,
}

/// The index of the first entry with this path; `None` if there is none.
pub fn index_of<T>(entries: &[Named<T>], path: &str) -> Option<usize>
    ensures { result ≡ position (λ e. bytes_eq (string_bytes e.path) path.now) entries.now }
{
    entries.iter().position(|e| e.path.as_str() == path)
}

/// Puts a value at a path, instead of one that is already there. Without memory the entries stay as they were.
pub fn put<T: Drop>(
    alloc: Global,
    entries: &mut Vec<Named<T>>,
    path: &str,
    value: T,
) -> Result<(), NoMemory>
    ensures ok { OnOk result ((p : List ℕ) → value_at entries.new.items p
        ≡ (if bytes_eq path.now p then Some value else value_at entries.old.items p)) }
    ensures err { OnErr result (entries.new.items ≡ entries.old.items) }
{
    match index_of(entries, path) {
        Some(index) => {
            entries[index].value = value;
        }
        None => {
            let path = String::from_str(alloc, path)?;
            entries.push(Named { path, value })?;
        }
    }
    Ok(())
}
