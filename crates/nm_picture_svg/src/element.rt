//! Shapes as elements of SVG.

ghost use Rattle.std.specs.Prelude.{◌≡◌, ◌++◌, OnOk};
ghost use Rattle.nm_picture_svg.specs.Svg as spec;

use crate::class::{
    class_of, class_of_anchor, class_of_fill, class_of_stroke, outline_of, outline_of_cross,
    outline_of_tip,
};
use crate::shape::{Anchor, Fault, Fill, Point, Shape, Stroke, Tip, Tone};
use crate::xml::{close, open, put, put_count, put_escaped, put_name, put_number, put_word};
use nm_base::NoMemory;

// The classes of a shape: its tone's and a further one, which begins with a space where there is one.
fn put_classes(out: &mut Vec<u8>, tone: Tone, more: &str) -> Result<(), NoMemory>
    ensures { OnOk result (out.new.items ≡ out.old.items ++ spec.classes tone more.now) }
{
    put(out, " class=\"")?;
    put(out, class_of(tone))?;
    put(out, more)?;
    put(out, "\"")
}

fn put_point(out: &mut Vec<u8>, x: &str, y: &str, point: Point) -> Result<(), NoMemory>
    ensures { OnOk result (out.new.items ≡ out.old.items ++ spec.at x.now y.now point) }
{
    put_count(out, x, point.x)?;
    put_count(out, y, point.y)
}

fn put_translation(out: &mut Vec<u8>, point: Point) -> Result<(), NoMemory>
    ensures { OnOk result (out.new.items ≡ out.old.items ++ spec.translation point) }
{
    put(out, "translate(")?;
    put_number(out, point.x)?;
    put(out, " ")?;
    put_number(out, point.y)?;
    put(out, ")")
}

// Moves an outline to a point.
fn put_moved(out: &mut Vec<u8>, point: Point) -> Result<(), NoMemory>
    ensures { OnOk result (out.new.items ≡ out.old.items ++ spec.moved point) }
{
    put_name(out, "transform")?;
    put_translation(out, point)?;
    put(out, "\"")
}

// An outline around a point.
fn put_outline(
    out: &mut Vec<u8>,
    tone: Tone,
    more: &str,
    point: Point,
    outline: &str,
) -> Result<(), NoMemory>
    ensures { OnOk result (out.new.items ≡ out.old.items ++ spec.outlined tone more.now point outline.now) }
{
    open(out, "path")?;
    put_classes(out, tone, more)?;
    put_moved(out, point)?;
    put_word(out, "d", outline)?;
    put(out, "/>\n")
}

fn put_tip(out: &mut Vec<u8>, tip: Tip, tone: Tone, from: Point, to: Point) -> Result<(), NoMemory>
    ensures { OnOk result (out.new.items ≡ out.old.items ++ spec.tipped tip tone from to) }
{
    match tip {
        Tip::Bare => Ok(()),
        Tip::Arrow => put_outline(out, tone, " tip", to, outline_of_tip(from, to)),
    }
}

// A line without its tip.
fn put_stroke(
    out: &mut Vec<u8>,
    from: Point,
    to: Point,
    stroke: Stroke,
    tone: Tone,
) -> Result<(), NoMemory>
    ensures { OnOk result (out.new.items ≡ out.old.items ++ spec.stroked from to stroke tone) }
{
    open(out, "line")?;
    put_classes(out, tone, class_of_stroke(stroke))?;
    put_point(out, "x1", "y1", from)?;
    put_point(out, "x2", "y2", to)?;
    put(out, "/>\n")
}

/// Appends a width and a height.
pub fn put_size(out: &mut Vec<u8>, width: u32, height: u32) -> Result<(), NoMemory>
    ensures { OnOk result (out.new.items ≡ out.old.items ++ spec.sized width height) }
{
    put_count(out, "width", width)?;
    put_count(out, "height", height)
}

fn put_rectangle(
    out: &mut Vec<u8>,
    corner: Point,
    width: u32,
    height: u32,
    fill: Fill,
    tone: Tone,
) -> Result<(), NoMemory>
    ensures { OnOk result (out.new.items ≡ out.old.items ++ spec.rectangle corner width height fill tone) }
{
    open(out, "rect")?;
    put_classes(out, tone, class_of_fill(fill))?;
    put_point(out, "x", "y", corner)?;
    put_size(out, width, height)?;
    put(out, "/>\n")
}

fn put_dot(out: &mut Vec<u8>, center: Point, tone: Tone) -> Result<(), NoMemory>
    ensures { OnOk result (out.new.items ≡ out.old.items ++ spec.dot center tone) }
{
    open(out, "circle")?;
    put_classes(out, tone, "")?;
    put_point(out, "cx", "cy", center)?;
    put_word(out, "r", "5")?;
    put(out, "/>\n")
}

fn put_text(
    out: &mut Vec<u8>,
    place: Point,
    anchor: Anchor,
    tone: Tone,
    text: &[u8],
) -> Result<(), NoMemory>
    ensures { OnOk result (out.new.items ≡ out.old.items ++ spec.words place anchor tone text.now) }
{
    open(out, "text")?;
    put_classes(out, tone, class_of_anchor(anchor))?;
    put_point(out, "x", "y", place)?;
    put_content(out, "text", text)
}

/// The content of an element that is a text, and the element's end.
pub fn put_content(out: &mut Vec<u8>, name: &str, text: &[u8]) -> Result<(), NoMemory>
    ensures { OnOk result (out.new.items ≡ out.old.items ++ spec.content name.now text.now) }
{
    put(out, ">")?;
    put_escaped(out, text)?;
    close(out, name)
}

/// Appends the elements of a shape, each on a line of its own.
pub fn put_shape(out: &mut Vec<u8>, shape: &Shape) -> Result<(), NoMemory>
    ensures { OnOk result (out.new.items ≡ out.old.items ++ spec.shape_text shape.now) }
{
    match shape {
        Shape::Line {
            from,
            to,
            tip,
            stroke,
            tone,
        } => {
            put_stroke(out, *from, *to, *stroke, *tone)?;
            put_tip(out, *tip, *tone, *from, *to)
        }
        Shape::Rectangle {
            corner,
            width,
            height,
            fill,
            tone,
        } => put_rectangle(out, *corner, *width, *height, *fill, *tone),
        Shape::Dot { center, tone } => put_dot(out, *center, *tone),
        Shape::Cross { center, tone } => put_outline(
            out,
            *tone,
            " cross",
            *center,
            outline_of_cross(),
        ),
        Shape::Sign { center, fault } => {
            put_outline(out, Tone::Refused, " sign", *center, outline_of(*fault))
        }
        Shape::Text {
            place,
            anchor,
            tone,
            text,
        } => put_text(out, *place, *anchor, *tone, text.as_slice()),
    }
}
