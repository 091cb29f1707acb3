//! The route types that a delay file names.
ghost use Rattle.std.specs.Prelude.{◌≡◌, length, IfOk};
ghost use Rattle.delay_table.specs.DelayLists.{end_of_types};
ghost use Rattle.delay_table.specs.Delays.{route_types_below};
ghost use Rattle.delay_table.specs.Groups.{plain_types};
ghost use Rattle.delay_table.specs.Read.{read_outcomes};

use crate::groups::Groups;
use crate::reading::ReadRows;
use plan_model::NoMemory;
use std::alloc::Global;

/// The route types of the groups of a route type alone, in the order of the groups.
fn plain_types(alloc: Global, groups: &Groups<'_>) -> Result<Vec<u16>, NoMemory>
    ensures { IfOk result (λ types. types.items ≡ plain_types groups.now (length groups.now)) }
{
    let mut types: Vec<u16> = Vec::new(alloc);
    for index in 0..groups.len() {
        let group = groups.at(index);
        let Some(route_type) = group.plain_type() else {
            continue;
        };
        types.push(route_type)?;
    }
    Ok(types)
}

/// The route types that are named, rising.
pub(crate) fn named_types(alloc: Global, read: &ReadRows<'_>) -> Result<Vec<u16>, NoMemory>
    ensures named { IfOk result (λ types. types.items
        ≡ route_types_below (read_outcomes read.now.groups read.now.rows.items) end_of_types) }
    ensures size { IfOk result (λ types. length types.items
        ≡ length (plain_types read.now.groups (length read.now.groups))) }
{
    let mut sorted = plain_types(alloc, &read.groups)?;
    sorted.sort_unstable();
    Ok(sorted)
}
