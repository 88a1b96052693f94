//! What the manager does next for a change set, by what each of its devices has answered.
//!
//! Stands on `nm_decider_stage`, which says where the course of one device stands, and on `nm_base` and `nm_proto`. The layers
//! above rely on a commit being decided only where every device has acknowledged, on an abort naming the cause that was noted
//! first, on a confirmed commit being asked once, and on no call taking memory.
#![tactic(auto)]

pub mod choice;
pub mod course;
pub mod laws;
pub mod seat;

pub use course::{Course, NextAction};
pub use laws::{
    acknowledged_commits_were_done, commits_are_asked_once, devices_are_taken_in_order,
    every_action_is_right, first_trouble_stays, replies_alone_tell, settled_devices_stay,
    waits_are_for_replies,
};
pub use nm_decider_stage::Stage;
pub use seat::Seat;
