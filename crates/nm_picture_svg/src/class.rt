//! The classes of tones, by which the style sheet knows them, and the outlines of signs.

ghost use Rattle.std.specs.Prelude.{◌≡◌};
ghost use Rattle.nm_picture_svg.specs.Class as spec;

use crate::shape::{Anchor, Fault, Fill, Point, Stroke, Tone};

/// The class of a tone.
pub fn class_of(tone: Tone) -> &'static str
    ensures { result.now ≡ spec.class_of tone }
{
    match tone {
        Tone::Plain => "plain",
        Tone::Soft => "soft",
        Tone::Title => "title",
        Tone::Heading => "heading",
        Tone::Lane => "lane",
        Tone::Rule => "rule",
        Tone::Ask => "ask",
        Tone::Answer => "answer",
        Tone::Refused => "refused",
        Tone::Entry => "entry",
        Tone::Decided => "decided",
        Tone::Alarm => "alarm",
        Tone::OnAlarm => "on-alarm",
        Tone::Pending => "pending",
        Tone::Changed => "changed",
        Tone::Manager => "manager",
        Tone::FirstOperator => "first",
        Tone::SecondOperator => "second",
        Tone::ThirdOperator => "third",
        Tone::FourthOperator => "fourth",
        Tone::FifthOperator => "fifth",
    }
}

/// The further class of a line.
pub fn class_of_stroke(stroke: Stroke) -> &'static str
    ensures { result.now ≡ spec.class_of_stroke stroke }
{
    match stroke {
        Stroke::Whole => "",
        Stroke::Dashed => " dashed",
    }
}

/// The further class of a rectangle.
pub fn class_of_fill(fill: Fill) -> &'static str
    ensures { result.now ≡ spec.class_of_fill fill }
{
    match fill {
        Fill::Solid => "",
        Fill::Hollow => " hollow",
    }
}

/// The further class of a text.
pub fn class_of_anchor(anchor: Anchor) -> &'static str
    ensures { result.now ≡ spec.class_of_anchor anchor }
{
    match anchor {
        Anchor::Start => "",
        Anchor::Middle => " middle",
        Anchor::End => " end",
    }
}

/// The outline of a fault's sign, around its center (SVG 1.1 section 8.3).
pub fn outline_of(fault: Fault) -> &'static str
    ensures { result.now ≡ spec.outline_of fault }
{
    match fault {
        Fault::Restart => "M6 -4A7 7 0 1 0 7 2M7 -9V-4H2",
        Fault::Loss => "M-7 0A7 7 0 1 0 7 0A7 7 0 1 0 -7 0M-5 5L5 -5",
        Fault::Break => "M-9 0H-3M3 0H9M-1 -7L-4 7M4 -7L1 7",
        Fault::Timer => "M-7 0A7 7 0 1 0 7 0A7 7 0 1 0 -7 0M0 -4V0L3 2",
        Fault::Crash => "M2 -9L-5 1H0L-2 9L5 -1H0z",
        Fault::Forgetting => "M-5 -8H2L6 -4V8H-5zM2 -8V-4H6",
    }
}

/// The outline of what was lost, around its center.
pub fn outline_of_cross() -> &'static str
    ensures { result.now ≡ spec.outline_of_cross }
{
    "M-5 -5L5 5M-5 5L5 -5"
}

/// The outline of an arrow's tip, whose point is where the line ends: it points left where the line goes left.
pub fn outline_of_tip(from: Point, to: Point) -> &'static str
    ensures { result.now ≡ spec.outline_of_tip from to }
{
    if to.x < from.x {
        "M8 -4L0 0L8 4z"
    } else {
        "M-8 -4L0 0L-8 4z"
    }
}
