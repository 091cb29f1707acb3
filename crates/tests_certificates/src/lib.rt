//! Certificates, promises, files that were edited, and the problem of a small cut file.
#![tactic(auto)]

#[cfg(test)]
mod certificates;
#[cfg(test)]
mod edited_files;
#[cfg(test)]
mod problems;
#[cfg(test)]
mod promises;
