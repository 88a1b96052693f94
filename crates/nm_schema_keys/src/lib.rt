//! The keys of YANG's lists, and what is unique in them.
//!
//! Stands on `nm_base`, `nm_schema_statements`, `nm_graph`, `nm_schema_names`, `nm_schema_uses` and `nm_yang`. The layers above rely on the flaw of
//! each `key` and `unique` statement, on the key leafs of each list in their order, on the rows that each word of a `unique`
//! leads through, and on which leafs are keys.
#![tactic(auto)]

mod finder;
mod found;
mod key;
mod leafs;
mod marks;
mod members;
mod passage;
mod said;
mod seen;
mod unique;
mod words;

pub use key::{key_flaw, keys_of};
pub use leafs::Keys;
pub use marks::key_leafs;
pub use unique::{Unique, Uniques, flawed_uniques, unique_flaw, uniques_of};
