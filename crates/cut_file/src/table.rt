//! The rows of a cut file, of which a network is made.
ghost use Rattle.std.specs.Prelude.{◌≡◌, ◌≢◌, ℕ, List, Some, None, OnOk, IfOk, IfErr};
ghost use Rattle.plan_model.specs.NameLists.{NamesFit};
ghost use Rattle.cut_file.specs.Faults.{first_cut_fault};
ghost use Rattle.cut_file.specs.Read.{IsCutRead};
ghost use Rattle.cut_file.specs.CutNetworks.{IsNetwork, IsCutNetwork};

use crate::checked::{Checked, read_checked};
use crate::faults::CutFault;
use crate::networks::{changes_of, connections_of};
use crate::rows::CutRow;
use csv_rows::{Key, Limits, Rows};
use delay_table::DelayTable;
use plan_model::{Names, Network, NoMemory};
use std::alloc::Global;
use std::marker::Model;

/// A cut file with no fault.
pub struct CutTable {
    names: Names,
    rows: Vec<CutRow>,
    keys: Vec<Key>,
}

impl Drop for CutTable {
    /// Drops its parts here, so that a caller drops one value.
    fn drop(self) {
        let CutTable { names, rows, keys } = self;
    }
}

impl Model for CutTable {
    ghost use Rattle.cut_file.specs.Read.{Cut};

    ghost Value = { Cut };

    ghost use Rattle.cut_file.specs.Read.{IsFaultless};

    ghost view = { λ c. record {
      runs = c.names.runs;
      places = c.names.places;
      rows = c.rows.items;
      keys = c.keys.items;
    } };

    ghost invariant = { λ c. IsFaultless (record {
      runs = c.names.runs;
      places = c.names.places;
      rows = c.rows.items;
      keys = c.keys.items;
    }) };
}

/// The rows of a cut file, or the first of its faults, in the order that `CutFault` gives. It is a table with the columns
/// `run`, `step`, `from`, `to`, `dep` and `arr`; `class`, `board`, `exit` and `change` are optional. Rows come in any order;
/// runs and places are numbered as they first appear, `from` before `to` in one row.
pub fn read_cut(alloc: Global, rows: &Rows, limits: &Limits) -> Result<CutTable, CutFault>
    ensures table { IfOk result (λ table. IsCutRead rows.now table.runs table.places table.rows table.keys) }
    ensures none { OnOk result (first_cut_fault rows.now limits.now.cut_rows ≡ None) }
    ensures fault { IfErr result (λ f. f ≢ CutFault.NoMemory
        → first_cut_fault rows.now limits.now.cut_rows ≡ Some f) }
{
    let Checked { cut, keys } = read_checked(alloc, rows, limits)?;
    Ok(CutTable {
        names: cut.names,
        rows: cut.rows,
        keys,
    })
}

impl CutTable {
    /// The network of the rows that were read with these delays, and the names of its places and runs. A class that the delays do not
    /// name is `*`. The change time of a place is the largest `change` of the rows that leave it, at least 1 second, and
    /// 120 seconds if none of them has one.
    pub fn network(&self, alloc: Global, delays: &DelayTable) -> Result<(Network, Names), NoMemory>
        ensures network { IfOk result (λ r. IsNetwork self.now delays.now r.0) }
        ensures runs { IfOk result (λ r. r.1.runs ≡ self.now.runs) }
        ensures places { IfOk result (λ r. r.1.places ≡ self.now.places) }
        ensures table { IfOk result (λ r. (t : List (List (List ℕ)))
            → IsCutRead t self.now.runs self.now.places self.now.rows self.now.keys
            → IsCutNetwork t delays.now r.0 r.1) }
        ensures fit { IfOk result (λ r. NamesFit r.1 r.0) }
    {
        let rows: &[CutRow] = self.rows.as_slice();
        let change = changes_of(alloc, rows, self.names.places())?;
        let connections = connections_of(alloc, rows, self.keys.as_slice(), delays)?;
        let classes = delays.classes(alloc)?;
        let names = self.names.try_clone(alloc)?;
        Ok((Network::from_parts(connections, change, classes), names))
    }
}
