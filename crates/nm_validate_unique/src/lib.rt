//! The rule of unique statements: the least path of an entry that has the values of one before it.
//!
//! Stands on `nm_validate_rules`, whose definitions say when the rule is violated, and on `nm_validate_places` for rows in groups and the
//! values of leafs. The layers above rely on what is answered being exactly the least path at which the rule is violated.
#![tactic(auto)]

mod marks;
mod near;
mod unique;
mod ways;

pub use unique::{least_repeated_entry, unique_values};
