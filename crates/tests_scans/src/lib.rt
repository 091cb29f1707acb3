//! The scan over small networks, its order, and the lists and names of a network.
#![tactic(auto)]

#[cfg(test)]
mod names_and_orders;
#[cfg(test)]
mod scans;
#[cfg(test)]
mod walks;
