//! What is valid: what stands where, nine rules, the violation that is told (RFC 7950 section 8), and which rows each rule reads.
//!
//! Stands on `nm_config` and `nm_schema_tree`. The layers above rely on the definitions, and on rules hanging on nothing but
//! the rows that they are said to read.
#![tactic(auto)]

pub mod laws;
pub mod read_laws;
pub mod rule;

pub use rule::Rule;
