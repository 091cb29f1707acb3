//! Distinct texts, numbered in the order in which they were added.
ghost use Rattle.std.specs.Prelude.{◌≡◌, ◌≢◌, ◌<◌, ◌-◌, ◌^◌, ◌++◌, ◌∷◌, ℕ, [], length, Some, IfSome, IfNone, IfOk, OnOk, OnErr, Contains, slice_get, slice_index_or};
ghost use Rattle.plan_model.specs.NameLists.{Adds, texts, AreTexts};

use crate::list::NoMemory;
use std::alloc::Global;
use std::marker::Model;

/// Distinct texts, each with its index in the order in which they were added as its number.
pub struct TextList {
    strings: Vec<String>,
}

impl Drop for TextList {
    /// Drops its parts here, so that a caller drops one value.
    fn drop(self) {
        let TextList { strings: _strings } = self;
    }
}

impl Model for TextList {
    ghost use Rattle.std.specs.Prelude.{ℕ, List};
    ghost use Rattle.plan_model.specs.NameLists.{texts, AreTexts};

    ghost Value = { List (List ℕ) };

    ghost view = { λ s. texts s.strings.items };

    ghost invariant = { λ s. AreTexts (texts s.strings.items) };
}

/// The index of a text among these; `None` if it is not among them.
fn place_among(strings: &[String], text: &str) -> Option<usize>
    ensures found { IfSome result (λ i. (i < length (texts strings.now))
        × (slice_index_or (texts strings.now) i [] ≡ text.now)) }
    ensures none { IfNone result ((k : ℕ) → k < length (texts strings.now)
        → slice_index_or (texts strings.now) k [] ≢ text.now) }
{
    for i in 0..strings.len() {
        if strings[i].as_str() == text {
            return Some(i);
        }
    }
    None
}

impl TextList {
    /// No texts. It takes no memory.
    pub fn new(alloc: Global) -> TextList
        ensures none { result ≡ [] }
        ensures texts { AreTexts result }
    {
        TextList {
            strings: Vec::new(alloc),
        }
    }

    /// How many there are.
    pub fn len(&self) -> u32
        ensures count { result ≡ length self.now }
        ensures texts { AreTexts self.now }
    {
        self.strings.len() as u32
    }

    /// The number of a text; `None` if it is not in the list. Each text is looked at in turn.
    #[tactic(auto, using(crate::proofs::TextLists::absent_by_walk, crate::proofs::TextLists::found_at))]
    pub fn number(&self, text: &str) -> Option<u32>
        ensures found { IfSome result (λ number. slice_get self.now number ≡ Some text.now) }
        ensures none { IfNone result (¬ Contains self.now text.now) }
        ensures texts { AreTexts self.now }
    {
        match place_among(&self.strings, text) {
            None => None,
            Some(number) => Some(number as u32),
        }
    }

    /// The text with this number.
    pub fn get(&self, number: u32) -> &str
        requires { number < length self.now }
        ensures text { slice_get self.now number ≡ Some result.now }
        ensures texts { AreTexts self.now }
    {
        self.strings[number as usize].as_str()
    }

    /// Adds a text that is new at the end. Without memory nothing changes.
    pub fn push(&mut self, alloc: Global, text: &str) -> Result<(), NoMemory>
        requires room { length self.old < 2 ^ 32 - 1 }
        requires absent { ¬ Contains self.old text.now }
        ensures ok { OnOk result (self.new ≡ self.old ++ text.now ∷ []) }
        ensures err { OnErr result (self.new ≡ self.old) }
        ensures texts { OnOk result (AreTexts self.new) }
    {
        let text = String::from_str(alloc, text)?;
        self.strings.push(text)?;
        Ok(())
    }

    /// Adds a text at the end if it is new, and says whether it is. Each text is looked at in turn. Without memory nothing changes.
    pub fn add(&mut self, alloc: Global, text: &str) -> Result<bool, NoMemory>
        requires { length self.old < 2 ^ 32 - 1 }
        ensures added { IfOk result (Adds self.old self.new text.now) }
        ensures err { OnErr result (self.new ≡ self.old) }
        ensures texts { OnOk result (AreTexts self.new) }
    {
        if self.number(text).is_some() {
            return Ok(false);
        }
        self.push(alloc, text)?;
        Ok(true)
    }

    /// A copy, with the same numbers.
    pub fn try_clone(&self, alloc: Global) -> Result<TextList, NoMemory>
        ensures { IfOk result (λ copy. copy ≡ self.now) }
    {
        let mut strings = Vec::new(alloc);
        for text in &self.strings {
            let text = String::from_str(alloc, text.as_str())?;
            strings.push(text)?;
        }
        Ok(TextList { strings })
    }
}
