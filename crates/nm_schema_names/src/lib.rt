//! Where names lead (RFC 7950 sections 5.1, 5.5 and 6.4), and names that come twice among siblings (section 6.2.1).
//!
//! Stands on `nm_schema_statements` and `nm_schema_uses`. The layers above rely on each name that has a meaning leading to the
//! row that it names, and on all clashes of nodes being found, those through `uses` and `augment` too.
#![tactic(auto)]

mod cases;
mod claims;
mod clash;
mod clashes;
mod earlier;
mod flaw;
mod graph;
mod key;
mod known;
mod leads;
mod modules;
mod name_set;
mod names;
mod sources;
mod table;

pub use clashes::{Clashes, clashes_of};
pub use names::{RowNames, is_marker};
