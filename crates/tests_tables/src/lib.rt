//! Small tables of delays, service days and transfers, with what is read of them.
#![tactic(auto)]

#[cfg(test)]
mod changes;
#[cfg(test)]
mod delays;
#[cfg(test)]
mod services;
