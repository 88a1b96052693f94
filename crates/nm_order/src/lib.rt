//! The order in which change sets are worked on: one queue per device, and who heads all of its own.
//!
//! Stands on `nm_base`. The layers above rely on the unfinished change set that was submitted first
//! being ready, on two that are ready sharing no device, and on no call taking memory.
#![tactic(auto)]

pub mod order;
pub mod queue;
pub mod ticket;

pub use order::Order;
pub use queue::queues_move_on;
pub use ticket::Ticket;
