//! The journal of a manager: what was decided of each change set, on the disk before anybody learns it.
//!
//! Stands on `nm_base`, `nm_disk` and `nm_proto`. The layers above rely on the entries of a journal
//! being those of its disk, at each moment of a call and after a crash.
#![tactic(auto)]

pub mod fault;
mod follow;
pub mod journal;
pub mod laws;
pub mod reading;
mod record;
mod steps;

pub use fault::JournalFault;
pub use follow::{decides, ends, may_follow, starts};
pub use journal::{Journal, read_disk};
pub use reading::read_entries;
