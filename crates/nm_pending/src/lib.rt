//! The pending confirmed commit of a device: what began it, who went on with it, until when it waits.
//!
//! Stands on `nm_base` and `nm_proto`, and is written once over every content. The layers above rely on each call as
//! an equation, on what a commit or a cancel must name to fit, and on what follow-ups add up to.
#![tactic(auto)]

pub mod fits;
pub mod laws;
pub mod pending;

pub use fits::{cancel_refusal, commit_refusal, ends_at, ends_with, is_stranger};
pub use pending::{Pending, deadline_of};
