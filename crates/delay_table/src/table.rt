//! The delays by class.
ghost use Rattle.std.specs.Prelude.{ℕ, ◌≡◌, ◌≢◌, ◌<◌, ◌≤◌, ◌++◌, ◌∷◌, List, [], length, map, slice_index_or, option_map, Some, None, All, Any, Contains, OnOk, IfOk, IfErr, IfSome, IfNone};
ghost use Rattle.delay_table.specs.DelayLists.{class_at, class_for, hour_of, other_class, route_class, type_class};
ghost use Rattle.delay_table.specs.declared.sums.TheConstants.{MOST_GROUPS};
ghost use Rattle.delay_table.specs.Delays.{class_rows, class_type, delays_in, delays_of, first_delay_fault, groups_fault, groups_of, others, type_rows};
ghost use Rattle.delay_table.specs.Groups.{numbered_route, routes_of};
ghost use Rattle.delay_table.specs.Read.{line_at, read_outcomes};
ghost use Rattle.delay_table.specs.Slots.{IsClassOf, AreDelays};

use crate::faults::{ClassName, DelayFault};
use crate::lines::{DelayRows, columns_of, missing_column};
use crate::other_groups::OtherGroups;
use crate::reading::{ReadRows, read_rows};
use crate::sums::groups_fault;
use crate::types::named_types;
use csv_rows::Rows;
use plan_model::{
    ClassId, HOURS_PER_DAY, HashKey, List, Moment, NoMemory, Outcome, SECONDS_PER_HOUR, TextList,
};
use std::alloc::Global;
use std::marker::Model;

/// The outcomes of `*`, which is class 0, and of each route type that is named: these are the classes 1, 2 and on in rising
/// order.
pub struct DelayTable {
    types: List<u16>,
    others: OtherGroups,
    classes: List<List<Outcome>>,
}

impl Drop for DelayTable {
    /// Drops its parts here, so that a caller drops one value.
    fn drop(self) {
        let DelayTable {
            types,
            others,
            classes,
        } = self;
    }
}

impl Model for DelayTable {
    ghost use Rattle.delay_table.specs.DelayLists.{DelayLists};

    ghost Value = { DelayLists };

    ghost use Rattle.delay_table.specs.Slots.{AreDelays};

    ghost view = { λ d. record { types = d.types; others = d.others; classes = d.classes } };

    ghost invariant = { λ d. AreDelays (record { types = d.types; others = d.others; classes = d.classes }) };
}

/// A copy of a row.
fn copied(alloc: Global, row: &[Outcome]) -> Result<List<Outcome>, NoMemory>
    ensures { IfOk result (λ copy. copy ≡ row.now) }
{
    Ok(List::from_vec(Vec::from_slice(alloc, row)?))
}

/// Adds the outcomes of these route types.
fn add_types(
    alloc: Global,
    read: &ReadRows<'_>,
    types: &[u16],
    classes: &mut List<List<Outcome>>,
) -> Result<(), NoMemory>
    ensures { OnOk result (classes.new
        ≡ classes.old ++ map (type_rows (read_outcomes read.now.groups read.now.rows.items)) types.now) }
{
    for route_type in types {
        let copy = copied(alloc, read.class_rows(Some(*route_type)))?;
        classes.push(copy)?;
    }
    Ok(())
}

/// The outcomes of `*` and of these route types.
fn type_classes(
    alloc: Global,
    read: &ReadRows<'_>,
    types: &[u16],
) -> Result<List<List<Outcome>>, NoMemory>
    ensures { IfOk result (λ classes. classes
        ≡ class_rows (read_outcomes read.now.groups read.now.rows.items) None
        ∷ map (type_rows (read_outcomes read.now.groups read.now.rows.items)) types.now) }
{
    let mut classes: List<List<Outcome>> = List::new(alloc);
    let default = copied(alloc, read.class_rows(None))?;
    classes.push(default)?;
    add_types(alloc, read, types, &mut classes)?;
    Ok(classes)
}

/// Adds the outcomes of the groups that name a route or an hour.
fn add_others(
    alloc: Global,
    read: &ReadRows<'_>,
    classes: &mut List<List<Outcome>>,
) -> Result<(), NoMemory>
    ensures { OnOk result (classes.new ≡ classes.old
        ++ map (read_outcomes read.now.groups read.now.rows.items)
        (others read.now.groups (length read.now.groups))) }
{
    for index in 0..read.groups.len() {
        let group = read.groups.at(index);
        if group.is_plain() {
            continue;
        }
        let copy = copied(alloc, read.rows_at(index).outcomes.as_slice())?;
        classes.push(copy)?;
    }
    Ok(())
}

/// The table of these outcomes, or the first fault of their groups.
fn table_of(alloc: Global, key: HashKey, read: &ReadRows<'_>) -> Result<DelayTable, DelayFault>
    ensures table { IfOk result (λ table.
        table ≡ delays_in (read_outcomes read.now.groups read.now.rows.items) read.now.groups) }
    ensures sound { IfOk result (λ table. AreDelays table) }
    ensures none { OnOk result (groups_fault (read_outcomes read.now.groups read.now.rows.items)
        read.now.groups (line_at read.now.rows.items) ≡ None) }
    ensures size { OnOk result (length (delays_in (read_outcomes read.now.groups read.now.rows.items)
        read.now.groups).classes ≡ length read.now.groups) }
    ensures fault { IfErr result (λ f. f ≢ DelayFault.NoMemory
        → groups_fault (read_outcomes read.now.groups read.now.rows.items)
        read.now.groups (line_at read.now.rows.items) ≡ Some f) }
    ensures count { IfErr result (λ f. (n : ℕ) → f ≡ DelayFault.TooManyClasses n
        → (n ≡ length read.now.groups) × (MOST_GROUPS < n)) }
{
    let types = named_types(alloc, read)?;
    if let Some(fault) = groups_fault(read, types.as_slice()) {
        return Err(fault);
    }
    let mut classes = type_classes(alloc, read, types.as_slice())?;
    add_others(alloc, read, &mut classes)?;
    let others = OtherGroups::of(alloc, key, read)?;
    Ok(DelayTable {
        types: List::from_vec(types),
        others,
        classes,
    })
}

/// The route type of a class, and none for `*`.
fn class_type(class: ClassName) -> Option<u16>
    ensures { result ≡ class_type class }
{
    match class {
        ClassName::Any => None,
        ClassName::Route(route) => Some(route),
    }
}

/// The hour of the day of a moment.
fn hour_of(moment: Moment) -> u8
    ensures { result ≡ hour_of moment.0 }
{
    (moment.0 / SECONDS_PER_HOUR % HOURS_PER_DAY) as u8
}

impl DelayTable {
    /// The delays of a table with the columns `class`, `delay` and `weight`, or the first of its faults. A class is `*` or a
    /// route type. Rows of one class need not be neighbours; they are taken in the order of the file. The faults come in this
    /// order: `MissingColumn`; then by line `BadField`, `TooManyRows` or `GroupRows`, `NotRising`; then `TooManyClasses`;
    /// `WeightSum` of `*` and of the route types as they rise; `GroupSum` by first line; and `NoDefault`.
    pub fn read(alloc: Global, rows: &Rows) -> Result<DelayTable, DelayFault>
        ensures table { IfOk result (λ table. table ≡ delays_of rows.now) }
        ensures sound { IfOk result (λ table. AreDelays table) }
        ensures none { OnOk result (first_delay_fault rows.now ≡ None) }
        ensures fault { IfErr result (λ f. f ≢ DelayFault.NoMemory → first_delay_fault rows.now ≡ Some f) }
        ensures count { IfErr result (λ f. (n : ℕ) → f ≡ DelayFault.TooManyClasses n
            → (n ≡ length (groups_of rows.now)) × (MOST_GROUPS < n)) }
        ensures classes { OnOk result (length (delays_of rows.now).classes
            ≡ length (groups_of rows.now)) }
    {
        if let Some(fault) = missing_column(rows) {
            return Err(fault);
        }
        let columns = columns_of(rows);
        let read = read_rows(alloc, &DelayRows { rows, columns })?;
        table_of(alloc, rows.key(), &read)
    }

    /// The class of a route type: 0, that of `*`, if the table does not name it, and else its position among the named ones
    /// in rising order, from 1 on.
    pub fn class_of(&self, route_type: u16) -> ClassId
        ensures class { IsClassOf self.now.types route_type result.0 }
        ensures in_range { result.0 < length self.now.classes }
        ensures sound { AreDelays self.now }
    {
        match self.types.as_slice().binary_search(&route_type) {
            Ok(index) => ClassId(index as u16 + 1),
            Err(_) => ClassId(0),
        }
    }

    /// The class of `*`.
    fn default_class(&self) -> ClassId
        ensures class { result.0 ≡ 0 }
        ensures in_range { result.0 < length self.now.classes }
    {
        let _count = self.classes.len();
        ClassId(0)
    }

    /// The routes that the rows name, each once, in the order of their first rows.
    pub fn routes(&self) -> &TextList
        ensures { result.now ≡ routes_of self.now.others }
    {
        self.others.routes()
    }

    /// The class of a group that names a route or an hour; `None` if there is no such group.
    fn other_class(
        &self,
        class: Option<u16>,
        route: Option<u32>,
        hour: Option<u8>,
    ) -> Option<ClassId>
        requires { IfSome route (λ n. n < length (routes_of self.now.others)) }
        ensures class { option_map (λ c. c.0) result ≡ other_class self.now (record {
          class = class;
          route = numbered_route (routes_of self.now.others) route;
          hour = hour;
        }) }
        ensures in_range { IfSome result (λ c. c.0 < length self.now.classes) }
    {
        let index = self.others.index_of(class, route, hour)?;
        Some(ClassId((self.types.len() + 1 + index) as u16))
    }

    /// The class of a route; `None` if there is no route, or no such group.
    fn route_class(&self, route: Option<u32>, hour: Option<u8>) -> Option<ClassId>
        requires { IfSome route (λ n. n < length (routes_of self.now.others)) }
        ensures class { option_map (λ c. c.0) result
            ≡ route_class self.now (numbered_route (routes_of self.now.others) route) hour }
        ensures in_range { IfSome result (λ c. c.0 < length self.now.classes) }
    {
        if route.is_none() {
            return None;
        }
        self.other_class(None, route, hour)
    }

    /// The class of `*`, or of a route type; `None` if that is not named.
    #[tactic(auto, using(crate::proofs::TypeFacts::class_none, crate::proofs::TypeFacts::class_some))]
    fn type_class(&self, class: Option<u16>) -> Option<ClassId>
        ensures class { option_map (λ c. c.0) result ≡ type_class self.now class }
        ensures in_range { IfSome result (λ c. c.0 < length self.now.classes) }
    {
        let Some(route) = class else {
            return Some(self.default_class());
        };
        let class = self.class_of(route);
        if class.0 == 0 { None } else { Some(class) }
    }

    /// The class of a connection by the number of its route.
    #[tactic(auto, using(crate::proofs::TypeFacts::class_is))]
    fn numbered_class(&self, class: Option<u16>, route: Option<u32>, hour: u8) -> ClassId
        requires { IfSome route (λ n. n < length (routes_of self.now.others)) }
        ensures class { result.0 ≡ class_at self.now class
            (numbered_route (routes_of self.now.others) route) hour }
        ensures in_range { result.0 < length self.now.classes }
    {
        let hour = Some(hour);
        if let Some(found) = self.route_class(route, hour) {
            return found;
        }
        if let Some(found) = self.route_class(route, None) {
            return found;
        }
        if let Some(found) = self.other_class(class, None, hour) {
            return found;
        }
        if let Some(found) = self.type_class(class) {
            return found;
        }
        match self.other_class(None, None, hour) {
            Some(found) => found,
            None => self.default_class(),
        }
    }

    /// The class of a connection, as `class_for` gives it, by the number of its route among `routes`. A connection whose route
    /// no row names is as one without a route.
    pub fn class_at(&self, class: ClassName, route: Option<u32>, arrival: Moment) -> ClassId
        requires { IfSome route (λ n. n < length (routes_of self.now.others)) }
        ensures class { result.0 ≡ class_for self.now (class_type class)
            (numbered_route (routes_of self.now.others) route) arrival.0 }
        ensures not_named { IfNone route ((id : List ℕ) → ¬ Contains (routes_of self.now.others) id
            → result.0 ≡ class_for self.now (class_type class) (Some id) arrival.0) }
        ensures in_range { result.0 < length self.now.classes }
    {
        self.numbered_class(class_type(class), route, hour_of(arrival))
    }

    /// The class of a connection, by its class, its route if it has one, and its arrival: that of the first group that
    /// exists among those of this route and hour, of this route, of this class and hour, of this class, of `*` and this hour,
    /// and of `*`. The hour is the civil hour of the arrival.
    pub fn class_for(&self, class: ClassName, route: Option<&str>, arrival: Moment) -> ClassId
        ensures class { result.0 ≡ class_for self.now (class_type class)
            (option_map (λ s. s.now) route.entry) arrival.0 }
        ensures in_range { result.0 < length self.now.classes }
    {
        let number = match route {
            None => None,
            Some(id) => self.routes().number(id),
        };
        self.class_at(class, number, arrival)
    }

    /// The outcomes of a class, rising by delay: delays in seconds, and weights that add up to 10,000.
    pub fn row(&self, class: ClassId) -> &[Outcome]
        requires { class.0 < length self.now.classes }
        ensures row { result.now ≡ slice_index_or self.now.classes class.0 [] }
        ensures sound { AreDelays self.now }
    {
        self.classes.as_slice()[class.0 as usize].as_slice()
    }

    /// The greatest delay of a class in seconds.
    #[tactic(auto, using(crate::proofs::Common::slice_index_or, crate::proofs::TypeFacts::greatest_last))]
    pub fn greatest(&self, class: ClassId) -> u32
        requires { class.0 < length self.now.classes }
        ensures all { All (λ o. o.delay ≤ result) (slice_index_or self.now.classes class.0 []) }
        ensures one { Any (λ o. o.delay ≡ result) (slice_index_or self.now.classes class.0 []) }
    {
        let row = self.row(class);
        row[row.len() - 1].delay
    }

    /// A copy of the outcomes of each class, in the order of the classes.
    pub fn classes(&self, alloc: Global) -> Result<List<List<Outcome>>, NoMemory>
        ensures classes { IfOk result (λ classes. classes ≡ self.now.classes) }
        ensures sound { AreDelays self.now }
    {
        let mut classes: List<List<Outcome>> = List::new(alloc);
        let rows = self.classes.as_slice();
        for row in rows {
            let copy = copied(alloc, row.as_slice())?;
            classes.push(copy)?;
        }
        Ok(classes)
    }
}
