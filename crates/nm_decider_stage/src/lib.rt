//! Where the course of one device stands for a change set: what is asked of it next, and what is learnt of each reply.
//!
//! Stands on `nm_base` and `nm_proto`. The layers above rely on each call as an equation by two tables, in which a stage
//! advances only on the reply that fits what was asked, and on no call taking memory.
#![tactic(auto)]

pub mod stage;

pub use stage::{Stage, trouble_in};
