//! Tests of what no row of a table tells, since no command does: numbers, tags and tokens; sources, sinks and disks; the journal,
//! links and queues; streams that tell nothing, which file words name, and places beyond what a scenario can hold.
//!
//! They stand apart from the crates that they test, since a crate's functions are proved once more with its tests.
#![tactic(auto)]

#[cfg(test)]
mod base;
#[cfg(test)]
mod disk;
#[cfg(test)]
mod io;
#[cfg(test)]
mod journal;
#[cfg(test)]
mod queues;
#[cfg(test)]
mod reading;
#[cfg(test)]
mod report;
#[cfg(test)]
mod words;
