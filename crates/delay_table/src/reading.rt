//! The outcomes of each group, row by row.
ghost use Rattle.std.specs.Prelude.{◌≡◌, ◌≢◌, ◌+◌, ◌<◌, ◌++◌, ◌∷◌, [], length, Some, None, OnOk, IfOk, IfErr, option_map};
ghost use Rattle.csv_rows.specs.Lists.{first_below};
ghost use Rattle.csv_rows.specs.Tables.{row_count};
ghost use Rattle.delay_table.specs.Groups.{group_in, of_class, group_index};
ghost use Rattle.delay_table.specs.Delays.{fault_after, line_fault, line_with, too_many};
ghost use Rattle.delay_table.specs.Read.{AddsRow, IsPushed, AreGroupsRead, IsReadTo, line_at, group_rows_at, read_outcomes};

use crate::faults::DelayFault;
use crate::groups::{Groups, LineGroup};
use crate::lines::{DelayLine, DelayRows, class_name, line_at};
use plan_model::{List, Outcome};
use std::alloc::Global;

/// A group has no more rows.
const MOST_ROWS: usize = 64;

/// The outcomes of a group, and the line at which it begins.
#[derive(Drop)]
pub(crate) struct GroupRows {
    pub(crate) line: u64,
    pub(crate) outcomes: List<Outcome>,
}

/// The groups in the order of their first rows, and the outcomes of each, as far as the rows are read.
#[derive(Drop)]
struct Reading<'a> {
    groups: Groups<'a>,
    rows: Vec<GroupRows>,
}

/// The groups of all rows in the order of their first rows, and the outcomes of each.
#[derive(Drop)]
pub(crate) struct ReadRows<'a> {
    pub(crate) groups: Groups<'a>,
    pub(crate) rows: Vec<GroupRows>,
    pub(crate) ghost read: { AreGroupsRead groups rows.items },
}

/// The fault of a 65th row of a group.
fn too_many(line: &DelayLine<'_>, number: u64) -> DelayFault
    ensures { result ≡ too_many (line_with line.now.class (option_map (λ s. s.now) line.now.route)
        line.now.hour line.now.outcome).group number }
{
    if line.route.is_none() && line.hour.is_none() {
        DelayFault::TooManyRows(class_name(line.class))
    } else {
        DelayFault::GroupRows(number)
    }
}

/// The fault of a row after these of its group.
fn fault_after(earlier: &[Outcome], line: &DelayLine<'_>, number: u64) -> Option<DelayFault>
    ensures { result ≡ fault_after earlier.now (line_with line.now.class (option_map (λ s. s.now) line.now.route)
        line.now.hour line.now.outcome) number }
{
    if earlier.len() >= MOST_ROWS {
        return Some(too_many(line, number));
    }
    match earlier.last() {
        None => None,
        Some(before) => {
            if before.delay < line.outcome.delay {
                None
            } else {
                Some(DelayFault::NotRising(number))
            }
        }
    }
}

impl<'a> Reading<'a> {
    /// Adds a row to those of a group that has rows.
    fn push(&mut self, index: usize, line: &DelayLine<'_>, number: u64) -> Result<(), DelayFault>
        requires { index < length self.old.rows.items }
        ensures groups { self.new.groups ≡ self.old.groups }
        ensures none { OnOk result (fault_after (group_rows_at self.old.rows.items index).outcomes
            (line_with line.now.class (option_map (λ s. s.now) line.now.route)
            line.now.hour line.now.outcome) number ≡ None) }
        ensures pushed { OnOk result
            (IsPushed self.old.rows.items self.new.rows.items index line.now.outcome) }
        ensures err { IfErr result (λ f. f ≢ DelayFault.NoMemory
            → fault_after (group_rows_at self.old.rows.items index).outcomes
            (line_with line.now.class (option_map (λ s. s.now) line.now.route)
            line.now.hour line.now.outcome) number ≡ Some f) }
    {
        let row: &mut List<Outcome> = &mut self.rows[index].outcomes;
        if let Some(fault) = fault_after(row.as_slice(), line, number) {
            return Err(fault);
        }
        row.push(line.outcome)?;
        Ok(())
    }

    /// Adds the first row of the last group.
    fn begin(&mut self, alloc: Global, line: &DelayLine<'_>, number: u64) -> Result<(), DelayFault>
        ensures groups { self.new.groups ≡ self.old.groups }
        ensures rows { OnOk result (self.new.rows.items ≡ self.old.rows.items
            ++ (record { line = number; outcomes = line.now.outcome ∷ [] }) ∷ []) }
        ensures err { IfErr result (λ f. f ≡ DelayFault.NoMemory) }
    {
        let mut outcomes: List<Outcome> = List::new(alloc);
        outcomes.push(line.outcome)?;
        let row = GroupRows {
            line: number,
            outcomes,
        };
        self.rows.push(row)?;
        Ok(())
    }

    /// Adds a row to those of its group.
    fn add(&mut self, alloc: Global, line: &DelayLine<'a>, number: u64) -> Result<(), DelayFault>
        requires { length self.old.rows.items ≡ length self.old.groups }
        ensures none { OnOk result (fault_after (read_outcomes self.old.groups self.old.rows.items
            (line_with line.now.class (option_map (λ s. s.now) line.now.route)
            line.now.hour line.now.outcome).group)
            (line_with line.now.class (option_map (λ s. s.now) line.now.route)
            line.now.hour line.now.outcome) number ≡ None) }
        ensures added { OnOk result (AddsRow self.old.groups self.old.rows.items
            (line_with line.now.class (option_map (λ s. s.now) line.now.route)
            line.now.hour line.now.outcome) number self.new.groups self.new.rows.items) }
        ensures err { IfErr result (λ f. f ≢ DelayFault.NoMemory
            → fault_after (read_outcomes self.old.groups self.old.rows.items
            (line_with line.now.class (option_map (λ s. s.now) line.now.route)
            line.now.hour line.now.outcome).group)
            (line_with line.now.class (option_map (λ s. s.now) line.now.route)
            line.now.hour line.now.outcome) number ≡ Some f) }
    {
        let group = LineGroup {
            class: line.class,
            route: line.route,
            hour: line.hour,
        };
        let index = self.groups.number(group)?;
        match index {
            Some(index) => self.push(index, line, number),
            None => self.begin(alloc, line, number),
        }
    }

    /// Adds the row of this number, if those before it are read.
    fn add_line(
        &mut self,
        alloc: Global,
        table: &DelayRows<'a>,
        row: usize,
    ) -> Result<(), DelayFault>
        requires row { row < row_count table.now.rows.now }
        requires read { IsReadTo table.now.rows.now row self.old.groups self.old.rows.items }
        ensures none { OnOk result (line_fault table.now.rows.now row ≡ None) }
        ensures read { OnOk result (IsReadTo table.now.rows.now (row + 1) self.new.groups self.new.rows.items) }
        ensures err { IfErr result (λ f. f ≢ DelayFault.NoMemory → line_fault table.now.rows.now row ≡ Some f) }
    {
        let number = table.rows.line(row);
        let Some(line) = line_at(table, row) else {
            return Err(DelayFault::BadField(number));
        };
        self.add(alloc, &line, number)
    }
}

impl<'a> ReadRows<'a> {
    /// The outcomes of a class alone; none if it is not named.
    pub(crate) fn class_rows(&self, class: Option<u16>) -> &[Outcome]
        ensures { result.now ≡ read_outcomes self.now.groups self.now.rows.items (of_class class) }
    {
        match self.groups.class_index(class) {
            Some(index) => self.rows_at(index).outcomes.as_slice(),
            None => &[],
        }
    }

    /// The outcomes of the group at an index, and the line at which it begins.
    #[tactic(auto, using(crate::proofs::Common::get_or_default, crate::proofs::ReadFacts::rows_here))]
    pub(crate) fn rows_at(&self, index: usize) -> &GroupRows
        requires { index < length self.now.groups }
        ensures line { result.now.line ≡ line_at self.now.rows.items index }
        ensures outcomes { result.now.outcomes
            ≡ read_outcomes self.now.groups self.now.rows.items (group_in self.now.groups index) }
    {
        &self.rows[index]
    }
}

/// The outcomes of each group.
pub(crate) fn read_rows<'a>(
    alloc: Global,
    table: &DelayRows<'a>,
) -> Result<ReadRows<'a>, DelayFault>
    ensures none { OnOk result (first_below (line_fault table.now.rows.now) (row_count table.now.rows.now) ≡ None) }
    ensures read { IfOk result (λ read.
        IsReadTo table.now.rows.now (row_count table.now.rows.now) read.groups read.rows.items) }
    ensures err { IfErr result (λ f. f ≢ DelayFault.NoMemory
        → first_below (line_fault table.now.rows.now) (row_count table.now.rows.now) ≡ Some f) }
{
    let mut reading = Reading {
        groups: Groups::with_key(alloc, table.rows.key()),
        rows: Vec::new(alloc),
    };
    for i in 0..table.rows.count() {
        reading.add_line(alloc, table, i)?;
    }
    let Reading { groups, rows } = reading;
    Ok(ReadRows { groups, rows })
}
