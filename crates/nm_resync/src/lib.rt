//! What is asked of a device after a break, to find out whether it keeps a change set.
//!
//! Stands on `nm_base` and `nm_proto`. The layers above rely on nothing being known before the candidate lock is granted, on the
//! outcome being what one reply told, and on no call taking memory.
#![tactic(auto)]

pub mod laws;
pub mod resync;

pub use laws::{
    fitting_replies_end_it, outcomes_stand_behind_the_lock, replies_alone_tell,
    what_is_aborted_is_not_kept,
};
pub use resync::{Resync, ResyncStage};
