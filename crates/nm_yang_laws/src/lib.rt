//! What the first fault of a module's text says of the text, and that ranges and values are read alike: laws alone.
//!
//! Stands on `nm_yang` for the text of modules, and on `nm_types` and `nm_schema_derive` for values and ranges.
#![tactic(auto)]

pub mod laws;
pub mod type_laws;
