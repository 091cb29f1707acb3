//! The fields of the rows of a certificate, after the kind of the row, and how many fields each row has.

// The first row.
pub(crate) const BOUNDS_WIDTH: usize = 7;

pub(crate) const VERSION: usize = 1;

pub(crate) const SOURCE: usize = 2;

pub(crate) const TARGET: usize = 3;

pub(crate) const START: usize = 4;

pub(crate) const DEADLINE: usize = 5;

pub(crate) const COUNT: usize = 6;

// A value row.
pub(crate) const VALUE_WIDTH: usize = 4;

pub(crate) const RUN: usize = 1;

pub(crate) const STEP: usize = 2;

pub(crate) const VALUE: usize = 3;
