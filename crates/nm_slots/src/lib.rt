//! What the coordinators of change sets keep behind their locks, and the journal with its disk behind its own.
//!
//! Stands on `nm_cells` for what a call at a device finds, on `nm_chronicle` for the board and on `nm_journal`. The layers above
//! rely on a coordinator's pass holding the change set's requests as they go, on an abort having its cause in the pass, and on a
//! verdict coming onto the board only after it came into the journal, as the types keep whenever the locks are free.
#![tactic(auto)]

pub mod book;
pub mod cause;
pub mod course;
pub mod fault;
mod requests;
pub mod slot;

pub use book::Book;
pub use cause::cause_stands;
pub use course::{Reached, may_ask, progress};
pub use fault::RunFault;
pub use slot::{ChangeSlot, ask};
