//! What the entries of a journal say of each change set: its devices, its verdict, and what was kept.
//!
//! Stands on `nm_base`, `nm_proto` and `nm_journal`. Reports and the manager read a change set's standing
//! from here alone, so both read it alike.
#![tactic(auto)]

pub mod found;
pub mod words;

pub use found::{Found, recover};
pub use words::{devices_in, ended_on, is_ended_in, is_started, kept_in, verdict_in};
