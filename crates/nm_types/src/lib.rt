//! YANG types and values, and paths to the nodes of a configuration with their order.
//!
//! Stands on `nm_base`. The layers above rely on each spelling of a value being read, on one canonical
//! text for each value, and on paths that order totally and are equal only where they are one path.
#![tactic(auto)]

mod bits;
mod characters;
mod decimal;
pub mod fault;
pub mod laws;
pub mod leaf_type;
pub mod limits;
pub mod names;
mod numeral;
pub mod parts;
pub mod path;
mod read;
pub mod value;
mod write;

pub use characters::are_characters;
pub use fault::ValueFault;
pub use leaf_type::{LeafType, TypeKind};
pub use limits::meets_range;
pub use names::Names;
pub use numeral::without_sign;
pub use parts::Parts;
pub use path::{Chosen, Path, Step};
pub use read::read_value;
pub use value::Value;
pub use write::write_value;
