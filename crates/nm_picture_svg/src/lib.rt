//! Drawings, and their text as SVG 1.1: lines, rectangles, dots, signs of faults and words, in groups with titles.
//!
//! Stands on `nm_base`, and knows nothing of runs. The layer above relies on the text as an equation with `specs/Svg.antt`, and on no
//! text of a drawing being more than text in it.
#![tactic(auto)]

pub mod class;
pub mod element;
pub mod items;
pub mod laws;
pub mod shape;
pub mod style;
pub mod svg;
pub mod tone;
pub mod xml;

pub use items::Items;
pub use shape::{Anchor, Drawing, Fault, Fill, Group, Point, Shape, Stroke, Tip, Tone};
pub use svg::write_svg;
pub use tone::operator_tone;
