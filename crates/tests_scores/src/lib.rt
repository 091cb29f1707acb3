//! Spans, scores and chances, what is kept by them, scans by one table, and the scores of graphs over small networks.
#![tactic(auto)]

#[cfg(test)]
mod profiles;
#[cfg(test)]
mod scores;
#[cfg(test)]
mod spans;
#[cfg(test)]
mod tables;
#[cfg(test)]
mod values;
