//! Files and sinks in use, and made files.
#![tactic(auto)]

#[cfg(test)]
mod made;
#[cfg(test)]
mod ports;
