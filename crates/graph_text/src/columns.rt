//! The fields of the rows of a graph's text, after the kind of the row.

// The first row.
pub(crate) const VERSION: usize = 1;

pub(crate) const SOURCE: usize = 2;

pub(crate) const TARGET: usize = 3;

pub(crate) const START: usize = 4;

pub(crate) const DEADLINE: usize = 5;

pub(crate) const LOWER: usize = 6;

pub(crate) const UPPER: usize = 7;

// The row of a leg. The moment is the last one at which the leg is taken, or the departure of the start leg; the place where one
// boards has a field only in the second version.
pub(crate) const BY: usize = 1;

pub(crate) const RUN: usize = 2;

pub(crate) const ENTER: usize = 3;

pub(crate) const DEPARTURE: usize = 4;

pub(crate) const EXIT: usize = 5;

pub(crate) const EXIT_PLACE: usize = 6;

pub(crate) const ARRIVAL: usize = 7;

pub(crate) const ENTRY_PLACE: usize = 8;

// The row of a place.
pub(crate) const PLACE: usize = 1;

pub(crate) const CHANGE: usize = 2;

pub(crate) const COUNT: usize = 3;
