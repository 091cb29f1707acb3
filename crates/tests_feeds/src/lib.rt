//! Small feeds, with what is read from them, and the rows by which trips repeat.
#![tactic(auto)]

#[cfg(test)]
mod feeds;
#[cfg(test)]
mod repeats;
