//! A device of a run with its history and the faults that are planned for it, and what a caller keeps of its own calls.
//!
//! Stands on `nm_device`, `nm_history`, `nm_run_plan` and `nm_chronicle`. The layers above rely on the history of each device being legal and
//! leading from the run's first configuration to the device, as its type keeps, and on each planned fault coming at just
//! the request that it names. Only requests and `room` take memory.
#![tactic(auto)]

pub mod acts;
pub mod asked;
pub mod cell;
pub mod end;
pub mod ended;
pub mod faults;
pub mod kept;
pub mod pass;
pub mod serve;
pub mod state;

pub use asked::Asked;
pub use cell::DeviceCell;
pub use faults::Faults;
pub use kept::{HISTORY_LIMIT, KeptDevice};
pub use pass::{Pass, PassEntry, PassOwner};
pub use state::{CellState, is_in_turn, may_operate};
