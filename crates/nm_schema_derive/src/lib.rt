//! One step of a type's derivation (RFC 7950 sections 9.2 to 9.9): the names of the built-in types,
//! ranges and lengths, and the numbers of enumerations and bits.
//!
//! Stands on `nm_base` and `nm_types`, and on texts alone. The layer above relies on each restriction
//! being read exactly, and finds the statement at fault by the function that refused it.
#![tactic(auto)]

mod assign;
mod blank;
mod bound;
mod copies;
mod cover;
mod derived;
mod form;
pub mod laws;
mod members;
mod names;
mod ordered;
mod parts;
mod restrictions;
mod taken;

pub use assign::{numbered, restricted};
pub use derived::{Derived, Lacking, StepFault};
pub use form::NumberForm;
pub use members::{ListFault, ListFlaw, Listed, Member, Numbering};
pub use names::{BuiltIn, built_in};
pub use parts::read_parts;
pub use restrictions::{Restrictions, step};
pub use taken::Taken;
