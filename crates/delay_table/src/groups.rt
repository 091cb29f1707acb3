//! Groups of the rows of a delay file, in the order of their first rows.
ghost use Rattle.std.specs.Prelude.{◌≡◌, ◌<◌, [], length, IfOk, OnOk, option_map};
ghost use Rattle.delay_table.specs.Groups.{group_in, group_index, is_plain, of_class, plain_type, with_group};
ghost use Rattle.delay_table.specs.Numbered.{line_group};

use indexmap::IndexSet;
use plan_model::{HashKey, NoMemory};
use std::alloc::Global;
use std::marker::Model;

/// What the rows of a group are of. The class is a route type, and none for `*`.
#[derive(Clone, Copy, PartialEq, Eq, Hash)]
pub(crate) struct LineGroup<'a> {
    pub(crate) class: Option<u16>,
    pub(crate) route: Option<&'a str>,
    pub(crate) hour: Option<u8>,
}

impl<'a> LineGroup<'a> {
    /// Whether it names neither a route nor an hour.
    pub(crate) fn is_plain(&self) -> bool
        ensures { result ≡ is_plain (line_group self.now) }
    {
        self.route.is_none() && self.hour.is_none()
    }

    /// Its route type, if it names a route type alone; `None` otherwise.
    pub(crate) fn plain_type(&self) -> Option<u16>
        ensures { result ≡ plain_type (line_group self.now) }
    {
        if self.is_plain() { self.class } else { None }
    }
}

/// Groups, numbered in the order in which they appear.
#[derive(Drop)]
pub(crate) struct Groups<'a> {
    groups: IndexSet<LineGroup<'a>, HashKey>,
}

impl<'a> Model for Groups<'a> {
    ghost use Rattle.std.specs.Prelude.{List};
    ghost use Rattle.delay_table.specs.Groups.{Group};
    ghost use Rattle.delay_table.specs.Numbered.{line_groups_of};

    ghost Value = { List Group };

    ghost view = { line_groups_of };
}

impl<'a> Groups<'a> {
    /// No groups, which will be hashed by a key.
    pub(crate) fn with_key(alloc: Global, key: HashKey) -> Groups<'a>
        ensures { result ≡ [] }
    {
        Groups {
            groups: IndexSet::with_hasher(alloc, key),
        }
    }

    /// How many there are.
    pub(crate) fn len(&self) -> usize
        ensures { result ≡ length self.now }
    {
        self.groups.len()
    }

    /// The index of the group of a class alone; `None` if there is none.
    pub(crate) fn class_index(&self, class: Option<u16>) -> Option<usize>
        ensures { result ≡ group_index (of_class class) self.now }
    {
        self.groups.get_index_of(&LineGroup {
            class,
            route: None,
            hour: None,
        })
    }

    /// The index of a group that was added before. One that is new goes last, and the answer is `None`.
    #[tactic(auto, using(crate::proofs::LineGroups::reported_new, crate::proofs::LineGroups::reported_there, crate::proofs::LineGroups::lines_next))]
    pub(crate) fn number(&mut self, group: LineGroup<'a>) -> Result<Option<usize>, NoMemory>
        ensures index { IfOk result (λ index. index ≡ group_index (line_group group.entry) self.old) }
        ensures groups { OnOk result (self.new ≡ with_group self.old (line_group group.entry)) }
    {
        let (index, is_new) = self.groups.insert_full(group)?;
        if is_new {
            return Ok(None);
        }
        Ok(Some(index))
    }

    /// The group at an index.
    pub(crate) fn at(&self, index: usize) -> LineGroup<'a>
        requires { index < length self.now }
        ensures { line_group result ≡ group_in self.now index }
    {
        self.groups.as_slice()[index]
    }
}
