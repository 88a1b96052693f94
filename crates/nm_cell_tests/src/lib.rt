//! Tests of the cells that serve devices to threads, and of the board and the phases that threads share.
//!
//! They stand apart from the crates that they test, since a crate's functions are proved once more with its tests. A
//! test is a table of scripts, and one interpreter plays each script in a run of its own.
#![tactic(auto)]

#[cfg(test)]
mod begun;
#[cfg(test)]
mod calls;
#[cfg(test)]
mod cells;
#[cfg(test)]
mod faults;
#[cfg(test)]
mod histories;
#[cfg(test)]
mod play;
#[cfg(test)]
mod requests;
#[cfg(test)]
mod seen;
#[cfg(test)]
mod tables;
