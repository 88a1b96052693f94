//! The rows that an edit of YANG data touches, and how: what access rules judge (RFC 8341 section 3.2.2).
//!
//! Stands on `nm_edit`, which says what an edit makes and what it changes. The layers above rely on a row being told exactly
//! where what the edit makes differs from what is there, with whether it comes, goes or gets another value.
#![tactic(auto)]

pub mod laws;
pub mod touched;

pub use touched::touched_rows;
