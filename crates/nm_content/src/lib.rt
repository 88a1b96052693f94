//! YANG data as a content: edits, validity and marks over a schema tree.
//!
//! Stands on `nm_edit` for edits, on `nm_validate` for validity, on `nm_content_place` for nodes, on `nm_overlay` for what a
//! configuration shares with others, on `nm_json` for texts and on `nm_run_plan` for the name of a run. The layers above rely on `YangContent` being a `Content` with
//! all laws, on what its configurations lie over staying as it is, and on the marks of change sets being rows of the marker
//! module.
#![tactic(auto)]

pub mod content;
pub mod laws;
pub mod mark;
pub mod run;
mod touched;

pub use content::{YangContent, yang_content};
pub use mark::{mark_path, marks_path, names_marks, outside_rows};
pub use nm_content_place::YangNode;
