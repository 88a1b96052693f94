//! The words of a picture: what is asked, what is answered, what the manager notes, and what goes wrong.
//!
//! Stands on `nm_base` and `nm_proto`. The layer above relies on each text as an equation with `specs/Words.antt`. Words are short, so that
//! they stand between two lanes: a path that an error names isn't among them.
#![tactic(auto)]

pub mod asked;
pub mod entries;
pub mod faults;
pub mod phrase;
pub mod text;
pub mod told;

pub use asked::put_request;
pub use entries::{put_cause, put_prefix, verdict_words};
pub use faults::{put_broken, put_fold, put_forgot, put_left, put_passed};
pub use phrase::Phrase;
pub use text::{put, put_number};
pub use told::put_reply;
