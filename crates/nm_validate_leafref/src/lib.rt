//! Whether leafrefs reach what they refer to: the least path of a row whose leafref doesn't.
//!
//! Stands on `nm_validate_rules`, whose definitions say what a leafref claims and what reaches it, and on `nm_validate_places` for places and
//! defaults. The layers above rely on what is answered being exactly the least path at which the rule is violated.
#![tactic(auto)]

mod at_hand;
mod kept;
mod known;
mod rows;

pub use kept::as_list;
pub use rows::{is_lost_row, least_unreached};
