//! The scenario of a run, read from JSON: contents, change sets, operators and events, or the first fault with its kind and
//! place.
//!
//! Stands on the messages and the flat contents of `nm_proto`, on `nm_scenario_form` and `nm_scenario_events`, which read the parts of JSON
//! values and events, on the forms of `nm_scenario_form`, and for YANG contents on `nm_yang`, `nm_schema`, `nm_json`, `nm_edit_json`
//! and `nm_validate`. The layer above relies on `read_scenario`, which answers the scenario that bytes say or their first fault
//! (`specs/Scenario.antt`), and on the laws of `laws`: bytes say one scenario exactly where nothing is wrong with them.
#![tactic(auto)]

mod causes;
mod changes;
mod contents;
mod data;
mod devices;
mod flat;
pub mod head;
pub mod laws;
mod members;
mod nothing;
mod numbering;
mod operators;
mod read;
pub mod scenario;
mod yang;

pub use nm_scenario_form::{Fault, ReadError, ScenarioKind, Step};
pub use read::{BYTE_LIMIT, read_last_scenario, read_scenario};
pub use scenario::{Body, Scenario};
