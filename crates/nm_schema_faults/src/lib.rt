//! The first fault of YANG modules.
//!
//! Stands on the crates that each tell one kind of flaw: `nm_schema_statements`, `nm_schema_names`, `nm_schema_typing`,
//! `nm_schema_names`, `nm_schema_uses`, `nm_schema_keys` and `nm_schema_leafref`. The layers above rely on the first fault in
//! the order of modules and places, and on what it was found by: the tree, where leafrefs lead, the keys of lists and the
//! defaults of leafs.
#![tactic(auto)]

mod cycle;
mod defaults;
mod fault;
mod first;
mod flaws;
mod grounds;
mod keys;
mod misfits;
mod names;

pub use fault::Fault;
pub use grounds::Grounds;
pub use names::definitions;
