//! Access control rules as they stand in a scenario (RFC 8341 section 3.2): groups, lists and their rules, read from JSON, or the
//! first fault with its kind and place.
//!
//! Stands on `nm_access` for what is read and on `nm_scenario_form` for its tables. How a rule's path is written is given by
//! `RulePaths`, since it depends on the schema. The layer above relies on `AccessMember`, which reads by `specs/Table.antt`, and on
//! the laws of `laws`.
#![tactic(auto)]

mod action;
pub mod entries;
pub mod laws;
mod member;
mod names;
pub mod paths;
mod rules;
mod words;

pub use member::{AccessMember, GROUP_LIMIT, LIST_LIMIT, RULE_LIMIT};
pub use paths::RulePaths;
