//! Tests of YANG modules, data and contents, of what no command tells; the rest are rows of `netm_rows`.
//!
//! They stand apart from the crates that they test, since a crate's functions are proved once more with its tests. Values that own
//! memory are given to `drop`, and a want of memory ends a test at once: so a function that holds some has one end, at one call.
#![tactic(auto)]

#[cfg(test)]
mod config;
#[cfg(test)]
mod content;
#[cfg(test)]
mod path;
#[cfg(test)]
mod statements;
#[cfg(test)]
mod texts;
#[cfg(test)]
mod threads;
#[cfg(test)]
mod tree;
#[cfg(test)]
mod types;
