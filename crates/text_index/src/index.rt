//! The numbers of texts, found by hashing.
ghost use Rattle.std.specs.Prelude.{◌≡◌, ◌<◌, ◌-◌, ◌^◌, Bool, [], length, Some, IfOk, IfSome, IfNone, OnOk, OnErr, Contains, slice_get};
ghost use Rattle.csv_rows.specs.Tables.{number_in};
ghost use Rattle.plan_model.specs.NameLists.{Adds, IsNameList};

use indexmap::IndexSet;
use plan_model::{HashKey, NoMemory, TextList};
use std::alloc::Global;
use std::marker::Model;

/// Distinct texts that are borrowed, each with its index in the order in which they were added as its number.
pub struct TextIndex<'a> {
    numbers: IndexSet<&'a str, HashKey>,
}

impl<'a> Drop for TextIndex<'a> {
    /// Drops its part here, so that a caller drops one value.
    fn drop(self) {
        let TextIndex { numbers } = self;
    }
}

impl<'a> Model for TextIndex<'a> {
    ghost use Rattle.std.specs.Prelude.{ℕ, List};
    ghost use Rattle.plan_model.specs.NameLists.{IsNameList};
    ghost use Rattle.text_index.specs.Numbers.{key_texts};

    ghost Value = { List (List ℕ) };

    ghost view = { λ s. key_texts s.numbers.keys };

    ghost invariant = { λ s. IsNameList (key_texts s.numbers.keys) };
}

impl<'a> TextIndex<'a> {
    /// No texts, which will be hashed by a key. It takes no memory.
    pub fn new(alloc: Global, key: HashKey) -> TextIndex<'a>
        ensures { result ≡ [] }
    {
        TextIndex {
            numbers: IndexSet::with_hasher(alloc, key),
        }
    }

    /// The texts of a list, each with its number there.
    pub fn of(alloc: Global, key: HashKey, texts: &'a TextList) -> Result<TextIndex<'a>, NoMemory>
        ensures { IfOk result (λ index. index ≡ texts.now) }
    {
        let mut numbers: IndexSet<&'a str, HashKey> = IndexSet::with_hasher(alloc, key);
        for i in 0..texts.len() {
            numbers.insert(texts.get(i))?;
        }
        Ok(TextIndex { numbers })
    }

    /// How many there are.
    pub fn len(&self) -> u32
        ensures count { result ≡ length self.now }
        ensures names { IsNameList self.now }
    {
        self.numbers.len() as u32
    }

    /// The number of a text, which is added at the end if it is new. Without memory nothing changes.
    pub fn add(&mut self, text: &'a str) -> Result<u32, NoMemory>
        requires { length self.old < 2 ^ 32 - 1 }
        ensures added { OnOk result ((b : Bool) × Adds self.old self.new text.now b) }
        ensures number { IfOk result (λ number. number_in text.now self.new ≡ Some number) }
        ensures found { IfOk result (λ number. slice_get self.new number ≡ Some text.now) }
        ensures err { OnErr result (self.new ≡ self.old) }
    {
        let (number, _is_new) = self.numbers.insert_full(text)?;
        Ok(number as u32)
    }

    /// The number of a text; `None` if it is not in the list.
    pub fn number(&self, text: &str) -> Option<u32>
        ensures number { result ≡ number_in text.now self.now }
        ensures inside { IfSome result (λ number. number < length self.now) }
        ensures found { IfSome result (λ number. slice_get self.now number ≡ Some text.now) }
        ensures none { IfNone result (¬ Contains self.now text.now) }
    {
        match self.numbers.get_index_of(text) {
            None => None,
            Some(number) => Some(number as u32),
        }
    }

    /// A list of the texts, in the order of their numbers.
    pub fn list(&self, alloc: Global) -> Result<TextList, NoMemory>
        ensures { IfOk result (λ list. list ≡ self.now) }
    {
        let mut list = TextList::new(alloc);
        for i in 0..self.len() {
            list.push(alloc, self.get(i))?;
        }
        Ok(list)
    }

    /// The text with this number.
    pub fn get(&self, number: u32) -> &'a str
        requires { number < length self.now }
        ensures { slice_get self.now number ≡ Some result.now }
    {
        self.numbers.as_slice()[number as usize]
    }
}
