//! The board that the threads of a run share, and how far each change set has come at a device.
//!
//! Stands on `nm_run_plan` for the name of the run and on `nm_history` for what has happened at a device. The layers above rely on the board telling
//! what each caller has written, in an order that all callers agree on.
#![tactic(auto)]

pub mod board;
pub mod chronicle;
pub mod count;
pub mod line;
pub mod mark;
pub mod phases;
mod reserve;
pub mod shares;
pub mod token;
mod turn;
pub mod waiting;

pub use board::Board;
pub use chronicle::Chronicle;
pub use count::count_to;
pub use line::BoardLine;
pub use mark::{Mark, Stray};
pub use phases::Phases;
pub use shares::{BookShare, CellShare, Shares, SlotShares};
pub use token::named_by;
pub use turn::commits_for;
pub use waiting::Waiting;
