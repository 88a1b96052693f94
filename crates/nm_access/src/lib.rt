//! Access control rules (RFC 8341): whether a user may ask for an operation, and what rows his edits may touch.
//!
//! Stands on `nm_types` for paths and on `nm_config` for which step stands for which. The layers above rely on each judgement being
//! that of `specs/Judged.antt`, in which the first rule that matches decides, and on the laws of `laws`: a denial names what denied,
//! rules after the first match change nothing, and nobody without a permitting rule comes to a row that a default denies.
#![tactic(auto)]

mod access;
mod covers;
pub mod laws;
mod matches;
pub mod rule;

pub use access::{Access, Judgement, denied_by, is_list_of, rule_denial};
pub use rule::{AccessRules, Accesses, Action, Group, Rule, RuleList, Target};
