//! The types of `type` statements: what each means along the typedefs that it leads to, and its flaws.
//!
//! Stands on `nm_base`, `nm_schema_statements`, `nm_schema_derive`, `nm_graph` and `nm_types`. The layers above rely on the
//! meaning of each type being that of RFC 7950 section 7.4.
#![tactic(auto)]

mod defaults;
mod edges;
mod flaws;
mod judging;
mod leafref;
mod listing;
mod meaning;
mod restricting;
mod types;

pub use defaults::{Defaults, default_flaw, defaults_of, fits_type, is_default};
pub use edges::type_graph;
pub use judging::{cycle_flaw, type_flaw};
pub use leafref::{LeafrefPath, NodeName, Start, has_predicate, read_path};
pub use listing::{Judged, Judgement, judgements_of};
pub use meaning::Meaning;
pub use restricting::restrictions_of;
pub use types::{Types, types_of};
