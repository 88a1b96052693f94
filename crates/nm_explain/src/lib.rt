//! What is wrong with a scenario, told in full: the fault, where it is, what stands there and what a schema tree wants there, in words.
//!
//! Stands on `nm_scenario` for the first fault and on `nm_schema_tree` for what nodes want.
#![tactic(auto)]

pub mod laws;
mod led;
mod lines;
mod module;
mod name;
mod numbers;
mod place;
mod sentence;
pub mod status;
pub mod telling;
mod text;
mod tree;
mod types;
pub mod values;
mod wanted;

pub use status::Status;
pub use telling::{Explained, explain_bytes, explain_long_input};
pub use values::put_wanted;
