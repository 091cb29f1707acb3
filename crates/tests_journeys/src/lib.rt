//! Journeys over cut files that are worked out by hand, and refusals of words and files, through the top call.
#![tactic(auto)]

#[cfg(test)]
mod journeys;
#[cfg(test)]
mod reach;
#[cfg(test)]
mod rides;
