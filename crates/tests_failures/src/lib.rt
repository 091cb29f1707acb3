//! Files and sinks that fail at each of their calls, and files that are cut off, through the top call.
#![tactic(auto)]

#[cfg(test)]
mod absent_files;
#[cfg(test)]
mod checks;
#[cfg(test)]
mod cut_off_files;
#[cfg(test)]
mod failing_calls;
#[cfg(test)]
mod failing_writes;
