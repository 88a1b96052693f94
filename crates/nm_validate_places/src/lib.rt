//! Whether a configuration is valid: for six of the nine rules the least path at which it is violated.
//!
//! Stands on `nm_validate_rules`, whose definitions say when a rule is violated. The layers above rely on what is answered being
//! exactly the violation that is told, whatever the rows lie over.
#![tactic(auto)]

pub mod areas;
pub mod cases;
mod choices;
mod counts;
mod fits;
pub mod keys;
mod leafs;
mod least;
pub mod tables;
mod too_few;
mod too_many;
mod value_types;
pub mod values;

pub use choices::{case_of_choice, choice_count, choice_of, choice_step, least_missing_choice};
pub use counts::has_more;
pub use keys::least_bad_key;
pub use leafs::least_missing_leaf;
pub use least::with_path;
pub use too_few::{front, has_at_least, is_allowed_by, least_too_few};
pub use too_many::least_too_many;
pub use value_types::{fits_row, least_bad_value};
