//! The JSON of edits of YANG data: the nodes that an edit names, with what its annotations say of them (RFC 7951, RFC 7952,
//! RFC 6241 section 7.2).
//!
//! Stands on `nm_edit`, whose edits it reads, on `nm_json`, `nm_schema_tree` and `serde_json`. The layers above rely on `read_edit`
//! answering the reading that `specs/Whole.antt` defines, and on what it answers being an edit of the schema.
#![tactic(auto)]

mod absent;
pub mod around;
pub mod fault;
pub mod gathered;
mod keys;
pub mod laws;
pub mod nodes;
mod note;
pub mod read;
pub mod said;
mod value;
mod walk;

pub use read::{NODE_LIMIT, read_edit};
pub use said::Said;
