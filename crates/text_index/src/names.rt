//! The numbers of names of places and runs, found by hashing.
ghost use Rattle.std.specs.Prelude.{◌≡◌, ◌<◌, IfOk, IfSome, length};
ghost use Rattle.std.specs.Option.{option_map};
ghost use Rattle.text_index.specs.Numbers.{number_of};

use crate::index::TextIndex;
use plan_model::{Names, NoMemory, PlaceId, RunId};
use std::alloc::Global;
use std::marker::Model;

/// The number of a name; `None` if it is not among the texts.
fn number_of(texts: &TextIndex<'_>, name: &[u8]) -> Option<u32>
    ensures number { result ≡ number_of texts.now name.now }
    ensures there { IfSome result (λ number. number < length texts.now) }
{
    let _count = texts.len();
    match std::str::from_utf8(name) {
        Ok(text) => texts.number(text),
        Err(_) => None,
    }
}

/// The names of places and of runs, which are borrowed, each with its number.
pub struct NameIndex<'a> {
    places: TextIndex<'a>,
    runs: TextIndex<'a>,
}

impl<'a> Drop for NameIndex<'a> {
    /// Drops its parts here, so that a caller drops one value.
    fn drop(self) {
        let NameIndex { places, runs } = self;
    }
}

impl<'a> Model for NameIndex<'a> {
    ghost use Rattle.plan_model.specs.NameLists.{NameLists};

    ghost Value = { NameLists };

    ghost view = { λ n. record { places = n.places; runs = n.runs } };
}

impl<'a> NameIndex<'a> {
    /// These names.
    pub fn of(alloc: Global, names: &'a Names) -> Result<NameIndex<'a>, NoMemory>
        ensures { IfOk result (λ index. index ≡ names.now) }
    {
        let places = TextIndex::of(alloc, names.key(), names.place_texts())?;
        let runs = TextIndex::of(alloc, names.key(), names.run_texts())?;
        Ok(NameIndex { places, runs })
    }

    /// The place of a name; `None` if it is not among the names.
    pub fn place(&self, name: &[u8]) -> Option<PlaceId>
        ensures number { option_map (λ id. id.0) result ≡ number_of self.now.places name.now }
        ensures there { IfSome result (λ id. id.0 < length self.now.places) }
    {
        let number = number_of(&self.places, name)?;
        Some(PlaceId(number))
    }

    /// The run of a name; `None` if it is not among the names.
    pub fn run(&self, name: &[u8]) -> Option<RunId>
        ensures { option_map (λ id. id.0) result ≡ number_of self.now.runs name.now }
    {
        let number = number_of(&self.runs, name)?;
        Some(RunId(number))
    }
}
