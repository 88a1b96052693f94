//! What is reported of a world, and its text; the texts of a check and of a journal.
//!
//! Stands on `nm_world`, `nm_recovery` and `nm_notify`. The layer above relies on each text as an equation with a definition in
//! `specs/Text.antt`, `specs/Check.antt` or `specs/Journal.antt`.
#![tactic(auto)]

pub mod change_text;
pub mod check;
pub mod details;
pub mod journal_text;
pub mod laws;
pub mod notice_text;
pub mod text;
pub mod trace;

pub use change_text::write_world;
pub use check::write_check;
pub use details::Details;
pub use journal_text::write_journal;
