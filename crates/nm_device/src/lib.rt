//! A device: sessions, global and partial locks, running and candidate, and the pending confirmed commit.
//!
//! Stands on `nm_sessions`, `nm_locks`, `nm_partial`, `nm_pending` and `nm_stores`, and is written once over every content.
//! The layers above rely on each request, loss, rise of the clock and restart as an equation between the device before
//! and after it, and on running, which is valid and changes only by a commit answered Done or by its exact undoing.
#![tactic(auto)]

mod cancel;
mod commit;
pub mod device;
mod edits;
mod partials;
mod sessions;
mod undoing;
pub mod view;

pub use device::Device;
pub use view::PendingView;
