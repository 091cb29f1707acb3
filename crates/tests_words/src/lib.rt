//! Words of a command line with what they ask for, texts of moments and numbers, and the lines of faults.
#![tactic(auto)]

#[cfg(test)]
mod clock;
#[cfg(test)]
mod lines;
#[cfg(test)]
mod words;
