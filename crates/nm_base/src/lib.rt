//! Numbers, lists of numbers, masks, labels, error tags, decimals and counts of faults: the words that every layer above
//! shares.
//!
//! Stands on `std` alone. The layers above rely on each number's range, on masks as sets of numbers,
//! on labels as their bytes, and on decimals read and written as one spelling.
#![tactic(auto)]

pub mod count;
pub mod decimal;
pub mod fault;
pub mod label;
pub mod mask;
pub mod number;
pub mod numbers;
pub mod steps;
pub mod tag;
pub mod token;
pub mod words;

pub use count::count_fault;
pub use decimal::{read_decimal, write_decimal};
pub use fault::{Failed, NoMemory};
pub use label::Label;
pub use mask::{ChangeMask, DeviceMask};
pub use number::{ChangeNo, DeviceNo, EditNo, SelectNo, SessionId};
pub use numbers::{Groups, Numbers};
pub use steps::Steps;
pub use tag::Tag;
pub use words::{DEFAULT_TIMEOUT, MANAGER, MARKER};
