//! Whether a configuration is valid: the violation that is told of it, of the first rule that is violated, at the least path.
//!
//! Stands on `nm_validate_places`, `nm_validate_leafref` and `nm_validate_unique`, which answer for eight of the nine rules, and on `nm_validate_rules`, whose
//! definitions say when a rule is violated. The layers above rely on nothing being told exactly of what is valid, and on
//! what is told being the least violation.
#![tactic(auto)]

mod checked;
pub mod child;
pub mod laws;
mod one_case;
mod places;
pub mod violation;

pub use checked::check_rows;
pub use one_case::least_other_case;
pub use violation::{Violation, violation_of};
