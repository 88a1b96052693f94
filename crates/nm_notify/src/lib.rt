//! What a device tells of confirmed commits to those who subscribed (RFC 6470 section 2.2): a stream of notices, one for each
//! start, extension and end of a pending commit.
//!
//! Stands on `nm_history`. The layers above rely on each call of a stream as an equation, on notices that are read from a history
//! alone, and on laws: replaying a history tells the same, notices are whole runs, and each subscriber gets what was told since
//! its subscription.
#![tactic(auto)]

pub mod fault;
pub mod history;
pub mod laws;
pub mod notice;
pub mod stream;
mod subscriber;

pub use fault::SubscribeFault;
pub use history::notices_of;
pub use notice::{ConfirmEvent, Notice};
pub use stream::Stream;
