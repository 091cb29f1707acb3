//! Groups by the numbers of their routes, and the index of each.
ghost use Rattle.std.specs.Prelude.{◌≡◌, ◌++◌, ◌∷◌, [], OnErr, OnOk, is_some, position, false};
ghost use Rattle.std.specs.List.{list_any};
ghost use Rattle.delay_table.specs.Numbered.{same_numbered};

use plan_model::{HashKey, NoMemory};
use std::alloc::Global;
use std::collections::HashMap;
use std::marker::Model;

/// What a group is of, by the number of its route.
#[derive(Clone, Copy, PartialEq, Eq, Hash)]
pub(crate) struct NumberedGroup {
    pub(crate) class: Option<u16>,
    pub(crate) route: Option<u32>,
    pub(crate) hour: Option<u8>,
}

/// Groups in the order in which they were added, and the index of each.
pub(crate) struct NumberedGroups {
    list: Vec<NumberedGroup>,
    indexes: HashMap<NumberedGroup, usize, HashKey>,
}

impl Drop for NumberedGroups {
    /// Drops its parts here, so that a caller drops one value.
    fn drop(self) {
        let NumberedGroups { list, indexes } = self;
    }
}

impl Model for NumberedGroups {
    ghost use Rattle.std.specs.Prelude.{List};
    ghost use Rattle.delay_table.specs.declared.numbered.NumberedGroup.{NumberedGroup as Keyed};

    ghost Value = { List Keyed };

    ghost use Rattle.delay_table.specs.Numbered.{AreAtIndexes};

    ghost view = { λ s. s.list.items };

    ghost invariant = { AreAtIndexes };
}

impl NumberedGroups {
    /// No groups, which will be hashed by a key.
    pub(crate) fn with_key(alloc: Global, key: HashKey) -> NumberedGroups
        ensures { result ≡ [] }
    {
        NumberedGroups {
            list: Vec::new(alloc),
            indexes: HashMap::with_hasher(alloc, key),
        }
    }

    /// The index of a group; `None` if it was not added.
    pub(crate) fn index_of(&self, group: &NumberedGroup) -> Option<usize>
        ensures index { result ≡ position (same_numbered group.now) self.now }
        ensures found { is_some result ≡ list_any (same_numbered group.now) self.now }
    {
        if self.list.is_empty() {
            // Without groups nothing is hashed.
            return None;
        }
        self.indexes.get(group).copied()
    }

    /// Adds a group that is new.
    pub(crate) fn add(&mut self, group: NumberedGroup) -> Result<(), NoMemory>
        requires { list_any (same_numbered group) self.old ≡ false }
        ensures ok { OnOk result (self.new ≡ self.old ++ group ∷ []) }
        ensures err { OnErr result (self.new ≡ self.old) }
    {
        self.list.reserve(1)?;
        self.indexes.insert(group, self.list.len())?;
        self.list.push_reserved(group);
        Ok(())
    }
}
