//! Strategies of tiny networks one by one, by the plain rules alone: which are safe, when the best of them arrives at
//! the latest, and when it is expected to arrive, exactly. With these values the least worst arrival and the bounds of
//! a plan are compared over many made networks.
#![tactic(auto)]

#[cfg(test)]
mod compared;
#[cfg(test)]
mod made;
#[cfg(test)]
mod reached;
#[cfg(test)]
mod strategies;
