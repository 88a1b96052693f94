//! Configurations as JSON: the rows that a JSON value holds by a schema, or its least fault (RFC 7951).
//!
//! Stands on `nm_schema_tree`, `nm_types`, `nm_config`, `nm_path` and `serde_json`. The layers above rely on
//! `config_of` answering the reading that `specs/Whole.antt` defines, on `write_config` writing the value that
//! `specs/Writing.antt` defines, and on what is written of a configuration (`specs/Configs.antt`) being read as that
//! configuration.
#![tactic(auto)]

pub mod config;
pub mod fault;
pub mod gathered;
pub mod keys;
pub mod laws;
pub mod leafs;
pub mod names;
mod put;
mod spelled;
pub mod spot;
mod walk;
pub mod write;

pub use config::{ROW_LIMIT, config_of, read_config};
pub use fault::{JsonFault, JsonKind};
pub use write::{config_value, write_config};
