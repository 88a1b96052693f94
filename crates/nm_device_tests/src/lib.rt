//! Tests of what no command shows of messages and of devices. All else is rows, in crates/netm_rows/data/devices.
//!
//! They stand apart from the crates that they test, since a crate's functions are proved once more with its tests.
#![tactic(auto)]

#[cfg(test)]
mod device;
#[cfg(test)]
mod notices;
#[cfg(test)]
mod proto;
#[cfg(test)]
mod threads;
