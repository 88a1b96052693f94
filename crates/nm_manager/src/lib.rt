//! The manager: what it asks of devices for each change set, what it learns of their replies, and what it writes into its journal.
//!
//! Stands on `nm_base`, `nm_decider`, `nm_disk`, `nm_journal`, `nm_order`, `nm_proto`, `nm_recovery`, `nm_resync` and `nm_wire`. The
//! layers above rely on each call being one function of the journal's entries and of what is kept of the change set, on a verdict
//! standing in the journal before anything rests on it, and on what want of memory and a disk's fault leave.
#![tactic(auto)]

pub mod action;
mod journal_queues;
pub mod laws;
pub mod manager;
mod request;
mod slot;

pub use action::{Action, TurnFault};
pub use laws::{change_sets_wait_their_turn, requests_ask_what_is_next, verdicts_are_journalled};
pub use manager::Manager;
pub use request::request_for;
