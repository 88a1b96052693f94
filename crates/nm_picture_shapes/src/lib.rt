//! What a picture of a run shows: a row for each event that did something, and what holds at each device meanwhile.
//!
//! Stands on `nm_world`'s trail and on the devices' histories, and knows nothing of coordinates, colours or text. The layer above relies
//! on both lists as equations with `specs/Rows.antt` and `specs/Marks.antt`, and on no decision, fault or refusal being folded away.
#![tactic(auto)]

pub mod effect;
pub mod laws;
pub mod marks;
pub mod rows;

pub use marks::{Bar, BarKind, DeviceMark, LaneMark, lane_marks_of};
pub use rows::{Look, Row, line_from, lines_of, rows_of};
