//! Flat contents: numbered cells and marks, so that managers and devices can be used and tried without YANG.
//!
//! Stands on `nm_proto`, whose trait of contents they are an instance of. The layers above rely on each call giving what the
//! content's meaning says.
#![tactic(auto)]

pub mod flat;
pub mod number_map;

pub use flat::{FlatConfig, FlatContent, FlatEdit, FlatNode};
pub use number_map::NumberMap;
