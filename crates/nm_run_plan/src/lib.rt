//! The name of a run, and what is planned for it: what it begins with, what operators ask, and which faults come.
//!
//! Stands on `nm_proto` for plans and on `nm_flat` for the first content that a run may be over. The layers above rely on one type
//! telling all that stays through a run, so that what threads share names it and nothing else.
#![tactic(auto)]

pub mod name;
pub mod plan;

pub use name::{RunName, RunPlans};
pub use plan::{OperatorPlan, ScriptEntry};
