//! The events of a scenario and the requests of its operators, read from JSON: each with its parts, or the first fault with
//! its kind and place.
//!
//! Stands on the messages of `nm_proto` and on `nm_scenario_form`: `specs/Events.antt` and `specs/Requests.antt` are tables of one line for
//! each word, and a method reads each line. How an edit is written is a form that the layer above gives with its reader, since it
//! depends on the contents. That layer relies on `Events`, which reads by the table, on the laws of `laws`, and on
//! `with_event_numbers`, which numbers the edits as `specs/Numbered.antt` says.
#![tactic(auto)]

mod arguments;
pub mod event;
mod events;
pub mod laws;
pub mod limits;
mod numbering;
mod requests;

pub use arguments::{Counts, Operation};
pub use event::{ReadEvent, ReadRequest};
pub use events::Events;
pub use numbering::{edit_number, with_event_numbers};
