//! The groups that name a route or an hour, by the numbers of their routes.
ghost use Rattle.std.specs.Prelude.{◌≡◌, ◌<◌, length, None, IfOk, IfSome, OnOk, option_map};
ghost use Rattle.delay_table.specs.Delays.{others};
ghost use Rattle.delay_table.specs.Groups.{group_index, numbered_route, routes_of, with_route};
ghost use Rattle.delay_table.specs.Numbered.{IsNumber, IsNumbering};

use crate::numbered::{NumberedGroup, NumberedGroups};
use crate::reading::ReadRows;
use plan_model::{HashKey, NoMemory, TextList};
use std::alloc::Global;
use std::marker::Model;
use text_index::TextIndex;

/// Groups that name a route or an hour, while their routes are numbered.
#[derive(Drop)]
struct Numbering<'a> {
    routes: TextIndex<'a>,
    groups: NumberedGroups,
}

/// The number of a route, if there is one. One that is new goes last.
fn number_of<'a>(
    routes: &mut TextIndex<'a>,
    route: Option<&'a str>,
) -> Result<Option<u32>, NoMemory>
    ensures routes { OnOk result (routes.new
        ≡ with_route routes.old (option_map (λ s. s.now) route.entry)) }
    ensures number { IfOk result (λ n. IsNumber routes.new n (option_map (λ s. s.now) route.entry)) }
{
    let Some(id) = route else {
        return Ok(None);
    };
    if routes.len() == u32::MAX {
        return Err(NoMemory);
    }
    let number = routes.add(id)?;
    Ok(Some(number))
}

/// The groups that name a route or an hour, by the numbers of their routes.
fn numbering_of<'a>(
    alloc: Global,
    key: HashKey,
    read: &ReadRows<'a>,
) -> Result<Numbering<'a>, NoMemory>
    ensures { IfOk result (λ n. IsNumbering n.routes n.groups
        (others read.now.groups (length read.now.groups))) }
{
    let mut numbering = Numbering {
        routes: TextIndex::new(alloc, key),
        groups: NumberedGroups::with_key(alloc, key),
    };
    for index in 0..read.groups.len() {
        let group = read.groups.at(index);
        if group.is_plain() {
            continue;
        }
        let route = number_of(&mut numbering.routes, group.route)?;
        numbering.groups.add(NumberedGroup {
            class: group.class,
            route,
            hour: group.hour,
        })?;
    }
    Ok(numbering)
}

/// Groups that name a route or an hour, in the order of their first lines, and the routes that they name.
pub(crate) struct OtherGroups {
    routes: TextList,
    groups: NumberedGroups,
}

impl Drop for OtherGroups {
    /// Drops its parts here, so that a caller drops one value.
    fn drop(self) {
        let OtherGroups { routes, groups } = self;
    }
}

impl Model for OtherGroups {
    ghost use Rattle.std.specs.Prelude.{List};
    ghost use Rattle.delay_table.specs.Groups.{Group};

    ghost Value = { List Group };

    ghost use Rattle.delay_table.specs.Numbered.{AreNumberedGroups, groups_of};

    ghost view = { groups_of };

    ghost invariant = { AreNumberedGroups };
}

impl OtherGroups {
    /// Those of these groups that name a route or an hour.
    pub(crate) fn of(
        alloc: Global,
        key: HashKey,
        read: &ReadRows<'_>,
    ) -> Result<OtherGroups, NoMemory>
        ensures { IfOk result (λ them. them ≡ others read.now.groups (length read.now.groups)) }
    {
        let Numbering { routes, groups } = numbering_of(alloc, key, read)?;
        let routes = routes.list(alloc)?;
        Ok(OtherGroups { routes, groups })
    }

    /// The routes that the groups name, each once, in the order of the groups.
    pub(crate) fn routes(&self) -> &TextList
        ensures { result.now ≡ routes_of self.now }
    {
        &self.routes
    }

    /// The index of a group, by the number of its route; `None` if there is no such group.
    pub(crate) fn index_of(
        &self,
        class: Option<u16>,
        route: Option<u32>,
        hour: Option<u8>,
    ) -> Option<usize>
        requires { IfSome route (λ n. n < length (routes_of self.now)) }
        ensures index { result ≡ group_index (record {
          class = class;
          route = numbered_route (routes_of self.now) route;
          hour = hour;
        }) self.now }
        ensures inside { IfSome result (λ index. index < length self.now) }
    {
        self.groups.index_of(&NumberedGroup { class, route, hour })
    }
}
