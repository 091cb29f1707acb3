//! The links between the places of a feed.
ghost use Rattle.std.specs.Prelude.{◌≡◌, ◌<◌, ◌++◌, ℕ, List as Sequence, Option, Some, length, [], IfOk, OnOk};
ghost use Rattle.plan_model.specs.declared.model.Way.{Way as WayParts};
ghost use Rattle.change_times.specs.Walks.{greater, walk_to, walks_of, most_to, link_between};
ghost use Rattle.change_times.specs.Links.{link_from, ways_at, ways_below, ComeBefore};

use crate::transfers::Transfer;
use plan_model::{List, NoMemory, PlaceId, Way};
use std::alloc::Global;
use std::marker::Model;

/// A walk to another place, and its seconds in a row.
#[derive(Clone, Copy)]
pub(crate) struct Walk {
    pub(crate) to: u32,
    pub(crate) seconds: u32,
}

/// The ways into a place from others, by rising place that they come from.
#[derive(Drop)]
pub(crate) struct Ways {
    items: Vec<Way>,
}

impl Model for Ways {
    ghost use Rattle.std.specs.Prelude.{List as Sequence};
    ghost use Rattle.plan_model.specs.declared.model.Way.{Way as WayParts};

    ghost Value = { Sequence WayParts };

    ghost view = { λ ways. ways.items.items };
}

impl Ways {
    /// No ways.
    fn new(alloc: Global) -> Ways
        ensures { result ≡ [] }
    {
        Ways {
            items: Vec::new(alloc),
        }
    }

    /// The ways in their order.
    pub(crate) fn as_slice(&self) -> &[Way]
        ensures { result.now ≡ self.now }
    {
        self.items.as_slice()
    }

    /// Puts a way at the end, or lengthens the last one if it comes from the same place. A way takes a second at least.
    fn put(&mut self, from: PlaceId, seconds: u32) -> Result<(), NoMemory>
        ensures { OnOk result ((base : Sequence WayParts) (o : Option ℕ) → ComeBefore base from.0
            → self.old ≡ base ++ link_from from.0 o
            → self.new ≡ base ++ link_from from.0 (greater o (Some seconds))) }
    {
        let count = self.items.len();
        if count > 0 && self.items[count - 1].from.0 == from.0 {
            let last = &mut self.items[count - 1];
            last.seconds = last.seconds.max(seconds);
            return Ok(());
        }
        self.items.push(Way {
            from,
            seconds: seconds.max(1),
        })?;
        Ok(())
    }
}

/// No walks from each of this number of places.
pub(crate) fn no_walks(alloc: Global, places: u32) -> Result<Vec<List<Walk>>, NoMemory>
    ensures size { IfOk result (λ walks. length walks.items ≡ places) }
    ensures none { IfOk result (λ walks. (from : ℕ) → walks_of walks.items from ≡ []) }
{
    Ok((0..places).map(|_| List::new(alloc)).collect(alloc)?)
}

/// Adds the walk of a transfer between two places to those from its first place.
pub(crate) fn add_walk(walks: &mut Vec<List<Walk>>, transfer: Transfer) -> Result<(), NoMemory>
    requires inside { transfer.from < length walks.old.items }
    requires apart { transfer.from ≡ transfer.to → ⊥ }
    ensures size { OnOk result (length walks.new.items ≡ length walks.old.items) }
    ensures walks { OnOk result ((from to : ℕ) → most_to to (walks_of walks.new.items from)
        ≡ greater (most_to to (walks_of walks.old.items from)) (link_between from to (Some transfer))) }
{
    walks[transfer.from as usize].push(Walk {
        to: transfer.to,
        seconds: transfer.seconds,
    })
}

/// No ways into each of this number of places.
fn no_links(alloc: Global, places: usize) -> Result<Vec<Ways>, NoMemory>
    ensures size { IfOk result (λ links. length links.items ≡ places) }
    ensures none { IfOk result (λ links. (to : ℕ) → ways_at links.items to ≡ []) }
{
    Ok((0..places).map(|_| Ways::new(alloc)).collect(alloc)?)
}

/// Puts a walk from a place to the ways into the place that it leads to.
fn put_walk(links: &mut Vec<Ways>, from: u32, walk: Walk) -> Result<(), NoMemory>
    ensures size { OnOk result (length links.new.items ≡ length links.old.items) }
    ensures ways { OnOk result ((to : ℕ) (base : Sequence WayParts) (o : Option ℕ) → to < length links.old.items
        → ComeBefore base from → ways_at links.old.items to ≡ base ++ link_from from o
        → ways_at links.new.items to ≡ base ++ link_from from (greater o (walk_to to walk))) }
{
    let to = walk.to as usize;
    if to < links.len() {
        links[to].put(PlaceId(from), walk.seconds)?;
    }
    Ok(())
}

/// Puts the walks from a place.
fn put_walks(links: &mut Vec<Ways>, from: u32, walks: &[Walk]) -> Result<(), NoMemory>
    ensures size { OnOk result (length links.new.items ≡ length links.old.items) }
    ensures ways { OnOk result ((to : ℕ) (base : Sequence WayParts) → to < length links.old.items
        → ComeBefore base from → ways_at links.old.items to ≡ base
        → ways_at links.new.items to ≡ base ++ link_from from (most_to to walks.now)) }
{
    for walk in walks {
        put_walk(links, from, *walk)?;
    }
    Ok(())
}

/// The links into each place, by the walks from each.
pub(crate) fn links_of(alloc: Global, walks: &[List<Walk>]) -> Result<Vec<Ways>, NoMemory>
    requires { length walks.now < 4294967296 }
    ensures size { IfOk result (λ links. length links.items ≡ length walks.now) }
    ensures ways { IfOk result (λ links. (to : ℕ) → to < length walks.now → ways_at links.items to
        ≡ ways_below (λ from. most_to to (walks_of walks.now from)) (length walks.now)) }
{
    let mut links = no_links(alloc, walks.len())?;
    for from in 0..walks.len() {
        put_walks(&mut links, from as u32, walks[from].as_slice())?;
    }
    Ok(links)
}
