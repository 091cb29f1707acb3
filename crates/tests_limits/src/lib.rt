//! Runs within limits, and journeys over links, through the top call.
#![tactic(auto)]

#[cfg(test)]
mod limits;
#[cfg(test)]
mod links;
