//! Graph files over a small network: what is written and read of them, and trips by them.
#![tactic(auto)]

#[cfg(test)]
mod graph_files;
