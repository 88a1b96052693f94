//! Edits of YANG data (RFC 6241 section 7.2, RFC 7950): what they make of a configuration, what they change of the rows that are
//! there, and edits of rows in place.
//!
//! Stands on `nm_config` and `nm_validate_rules`, whose definitions say what stands where, and on `nm_overlay`, whose definitions say
//! at which paths two configurations differ. The layers above rely on what an edit makes being exactly what its definition says, on a
//! refusal being that of the least refused path and leaving the rows as they were, and on what is told of an edit being what it
//! changes and nothing else.
#![tactic(auto)]

pub mod act;
mod bring;
pub mod change;
pub mod change_laws;
mod clear;
pub mod edit;
pub mod edited;
pub mod fault;
mod front;
mod going;
mod hold;
pub mod laws;
mod limit;
pub mod moves;
pub mod operation;
pub mod refuse;
mod rivals;
mod said;
mod sayings;
pub mod standing;
mod told;

pub use change::{apply_rows, changes_of};
pub use edit::{Edit, EditNode};
pub use edited::apply;
pub use fault::EditFault;
pub use operation::{Effective, Operation};
