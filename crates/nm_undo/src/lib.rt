//! What takes an edit of YANG data back: an edit of its own, and what has been changed in between.
//!
//! Stands on `nm_edit`, which says what an edit makes and changes, and on `nm_edit_json` for the limit on the nodes of an edit.
//! The layers above rely on the inverse of an edit, done to what the edit made, giving back what was, and done later, where
//! nobody has changed what it looks at, giving back each row that the edit changed and leaving all others.
#![tactic(auto)]

pub mod fault;
mod front;
pub mod inverse;
pub mod laws;
mod said;
pub mod since;

pub use fault::InverseFault;
pub use inverse::{Inverse, invert};
pub use since::changed_since;
