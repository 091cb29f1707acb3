//! Windows of small feeds, the scan order of one of them, and the runs of trips that repeat.
#![tactic(auto)]

#[cfg(test)]
mod feeds;
#[cfg(test)]
mod repeats;
#[cfg(test)]
mod runs;
#[cfg(test)]
mod windows;
