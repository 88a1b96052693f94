//! The shapes that rows are made of. A row is 24 pixels high: its words stand above its arrow.

ghost use Rattle.std.specs.Prelude.{◌≡◌, ◌++◌, ◌∷◌, [], OnOk};
ghost use Rattle.nm_picture_events.specs.Pieces as spec;

use nm_base::NoMemory;
use nm_picture_frame::{left_of, right_of};
use nm_picture_svg::{Anchor, Fault, Fill, Items, Point, Shape, Stroke, Tip, Tone};

/// Half of the width of a box of the journal, in pixels.
const HALF_BOX: u32 = 80;

/// Where the words of an arrow stand, above the middle of a line, in pixels.
const WORDS_RISE: u32 = 2;

/// A line from a place to another of the same height.
pub fn level(from: u32, to: u32, y: u32, tip: Tip, stroke: Stroke, tone: Tone) -> Shape
    ensures { result ≡ spec.level from to y tip stroke tone }
{
    Shape::Line {
        from: Point { x: from, y },
        to: Point { x: to, y },
        tip,
        stroke,
        tone,
    }
}

/// What was lost.
pub fn cross(x: u32, y: u32) -> Shape
    ensures { result ≡ spec.cross x y }
{
    Shape::Cross {
        center: Point { x, y },
        tone: Tone::Refused,
    }
}

/// The sign of a fault, in the middle of a line.
pub fn sign(x: u32, y: u32, fault: Fault) -> Shape
    ensures { result ≡ spec.sign x y fault }
{
    Shape::Sign {
        center: Point { x, y },
        fault,
    }
}

/// A box around a lane, in the middle of a line.
pub fn entry_box(x: u32, y: u32, tone: Tone) -> Shape
    ensures { result ≡ spec.entry_box x y tone }
{
    Shape::Rectangle {
        corner: Point {
            x: left_of(x, HALF_BOX),
            y: left_of(y, 10),
        },
        width: 2 * HALF_BOX,
        height: 20,
        fill: Fill::Solid,
        tone,
    }
}

/// Words at a height.
pub fn words_at(x: u32, y: u32, anchor: Anchor, tone: Tone, words: Vec<u8>) -> Shape
    ensures { result ≡ spec.words_at x y anchor tone words.items }
{
    Shape::Text {
        place: Point { x, y },
        anchor,
        tone,
        text: Items::new(words),
    }
}

/// Words above the arrow of a line, from a place on.
pub fn words_above(x: u32, y: u32, tone: Tone, words: Vec<u8>) -> Shape
    ensures { result ≡ spec.words_above x y tone words.items }
{
    words_at(x, left_of(y, WORDS_RISE), Anchor::Start, tone, words)
}

/// Words in the middle of a line.
pub fn words_amid(x: u32, y: u32, anchor: Anchor, tone: Tone, words: Vec<u8>) -> Shape
    ensures { result ≡ spec.words_amid x y anchor tone words.items }
{
    words_at(x, right_of(y, 4), anchor, tone, words)
}

/// Puts a shape over the others.
pub fn push(shapes: &mut Vec<Shape>, shape: Shape) -> Result<(), NoMemory>
    ensures { OnOk result (shapes.new.items ≡ shapes.old.items ++ shape ∷ []) }
{
    shapes.push(shape)?;
    Ok(())
}
