//! The links of a change set to a device: what was sent on each, what came back and was handled, and which sides are open.
//!
//! Stands on `nm_base` and `nm_proto`. The layers above rely on one request at most being undelivered on a link, on
//! each reply being handled once and in order, on what was told never being lost, and on delivery and handling taking no memory.
#![tactic(auto)]

pub mod laws;
pub mod link;
pub mod wire;

pub use laws::{
    answers_alone_are_done, locks_were_granted, nothing_comes_twice, requests_alone_are_sent,
    what_was_told_stays,
};
pub use link::{Exchange, Link, Way};
pub use wire::Wire;
