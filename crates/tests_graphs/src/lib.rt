//! Graphs over small networks, step by step.
#![tactic(auto)]

#[cfg(test)]
mod graphs;
#[cfg(test)]
mod walks;
