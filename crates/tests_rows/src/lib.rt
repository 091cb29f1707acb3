//! Rows, ids and keys of small tables, lists and indexes of texts, and the rows of cut files.
#![tactic(auto)]

#[cfg(test)]
mod cuts;
#[cfg(test)]
mod keys;
#[cfg(test)]
mod rows;
#[cfg(test)]
mod texts;
