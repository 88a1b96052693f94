//! A drawing as a file of SVG.

ghost use Rattle.std.specs.Prelude.{◌≡◌, ◌++◌, IfOk, OnOk};
ghost use Rattle.std.specs.List.{flat_map};
ghost use Rattle.nm_picture_svg.specs.Svg as spec;

use crate::element::{put_content, put_shape, put_size};
use crate::items::Items;
use crate::shape::{Drawing, Group, Shape};
use crate::style::put_style;
use crate::xml::{close, open, put, put_label, put_name, put_number, put_word};
use nm_base::NoMemory;
use std::alloc::Global;

fn put_title(out: &mut Vec<u8>, title: &Option<Items<u8>>) -> Result<(), NoMemory>
    ensures { OnOk result (out.new.items ≡ out.old.items ++ spec.title_text title.now) }
{
    match title {
        Some(title) => {
            open(out, "title")?;
            put_content(out, "title", title.as_slice())
        }
        None => Ok(()),
    }
}

fn put_shapes(out: &mut Vec<u8>, shapes: &[Shape]) -> Result<(), NoMemory>
    ensures { OnOk result (out.new.items ≡ out.old.items ++ flat_map spec.shape_text shapes.now) }
{
    for shape in shapes {
        put_shape(out, shape)?;
    }
    Ok(())
}

fn put_group(out: &mut Vec<u8>, group: &Group) -> Result<(), NoMemory>
    ensures { OnOk result (out.new.items ≡ out.old.items ++ spec.group_text group.now) }
{
    open(out, "g")?;
    put(out, ">\n")?;
    put_title(out, &group.title)?;
    put_shapes(out, group.shapes.as_slice())?;
    close(out, "g")
}

fn put_groups(out: &mut Vec<u8>, groups: &[Group]) -> Result<(), NoMemory>
    ensures { OnOk result (out.new.items ≡ out.old.items ++ flat_map spec.group_text groups.now) }
{
    for group in groups {
        put_group(out, group)?;
    }
    Ok(())
}

fn put_view(out: &mut Vec<u8>, width: u32, height: u32) -> Result<(), NoMemory>
    ensures { OnOk result (out.new.items ≡ out.old.items ++ spec.view width height) }
{
    put(out, "0 0 ")?;
    put_number(out, width)?;
    put(out, " ")?;
    put_number(out, height)
}

#[tactic(auto, unfolding(crate::specs::Svg::view_box))]
fn put_view_box(out: &mut Vec<u8>, width: u32, height: u32) -> Result<(), NoMemory>
    ensures { OnOk result (out.new.items ≡ out.old.items ++ spec.view_box width height) }
{
    put_name(out, "viewBox")?;
    put_view(out, width, height)?;
    put(out, "\"")
}

#[tactic(auto, unfolding(crate::specs::Svg::labelled))]
fn put_labelled(out: &mut Vec<u8>, label: &[u8]) -> Result<(), NoMemory>
    ensures { OnOk result (out.new.items ≡ out.old.items ++ spec.labelled label.now) }
{
    put_word(out, "role", "img")?;
    put_label(out, "aria-label", label)
}

#[tactic(auto, unfolding(crate::specs::Svg::namespace))]
fn put_namespace(out: &mut Vec<u8>) -> Result<(), NoMemory>
    ensures { OnOk result (out.new.items ≡ out.old.items ++ spec.namespace) }
{
    put_word(out, "xmlns", "http://www.w3.org/2000/svg")
}

#[tactic(auto, unfolding(crate::specs::Svg::framed))]
fn put_framed(out: &mut Vec<u8>, drawing: &Drawing) -> Result<(), NoMemory>
    ensures { OnOk result (out.new.items ≡ out.old.items ++ spec.framed drawing.now) }
{
    put_namespace(out)?;
    put_size(out, drawing.width, drawing.height)?;
    put_view_box(out, drawing.width, drawing.height)?;
    put_labelled(out, drawing.label.as_slice())
}

#[tactic(auto, unfolding(crate::specs::Svg::styled))]
fn put_styled(out: &mut Vec<u8>) -> Result<(), NoMemory>
    ensures { OnOk result (out.new.items ≡ out.old.items ++ spec.styled) }
{
    open(out, "style")?;
    put(out, ">")?;
    put_style(out)?;
    close(out, "style")
}

// All between the tags of a drawing.
#[tactic(auto, unfolding(crate::specs::Svg::within))]
fn put_within(out: &mut Vec<u8>, drawing: &Drawing) -> Result<(), NoMemory>
    ensures { OnOk result (out.new.items ≡ out.old.items ++ spec.within drawing.now) }
{
    put(out, "\n")?;
    put_styled(out)?;
    put_groups(out, drawing.groups.as_slice())
}

/// The file of a drawing: SVG 1.1 in UTF-8, which any browser shows by itself, without a script or a font.
pub fn write_svg(alloc: Global, drawing: &Drawing) -> Result<Vec<u8>, NoMemory>
    ensures { IfOk result (λ out. out.items ≡ spec.svg_of drawing.now) }
{
    let mut out = Vec::new(alloc);
    open(&mut out, "svg")?;
    put_framed(&mut out, drawing)?;
    put(&mut out, ">")?;
    put_within(&mut out, drawing)?;
    close(&mut out, "svg")?;
    Ok(out)
}
