//! What managers and devices say to each other, what a journal and a plan hold, what is planned to go wrong, and what a
//! content is.
//!
//! Stands on `nm_base`. The layers above rely on copies and comparisons of messages as equations, and on
//! `Content` with its meaning and its laws.
#![tactic(auto)]

pub mod ask;
pub mod content;
pub mod fault;
pub mod journal;
pub mod kind;
pub mod laws;
pub mod listed;
pub mod message;
pub mod plan;

pub use ask::Ask;
pub use content::{ApplyFault, CheckFault, Content, FindFault, Show, Tables};
pub use fault::{PLAN_LIMIT, PlanEntry, PlanFault};
pub use journal::{AbortCause, Entry, Verdict};
pub use kind::ScenarioKind;
pub use listed::Listed;
pub use message::{DefaultOperation, Marks, Reply, Request, RequestWord, RowAccess, Store};
pub use plan::{ChangePlan, Event, PlannedEdit};
