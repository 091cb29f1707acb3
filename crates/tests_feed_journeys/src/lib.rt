//! Journeys over folders, by delays of routes and hours, with trips that repeat and from each place, through the top call.
#![tactic(auto)]

#[cfg(test)]
mod delays;
#[cfg(test)]
mod feeds;
#[cfg(test)]
mod order;
#[cfg(test)]
mod reach;
#[cfg(test)]
mod repeats;
