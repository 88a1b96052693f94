//! What is wrong in the text of a module, with its line.

ghost use Rattle.std.specs.Prelude.{◌≡◌, ◌++◌, take, drop, OnOk};
ghost use Rattle.nm_explain.specs.Module as spec;

use crate::lines::{characters, last_line, line_after, rest_of_line, write_blanks};
use crate::name::module_name;
use crate::sentence::of_module;
use crate::text::put;
use nm_base::{Label, NoMemory, write_decimal};
use nm_lines::{printed, put_printed};
use nm_scenario_form::Inner;
use std::alloc::Global;

// Which module it is: by its name, where it has one.
fn put_name(out: &mut Vec<u8>, name: &Option<Label>) -> Result<(), NoMemory>
    ensures { OnOk result (out.new.items ≡ out.old.items ++ spec.named name.now) }
{
    put(out, "module")?;
    match name {
        Some(name) => {
            put(out, " ")?;
            put_printed(out, name.as_str().as_bytes())
        }
        None => Ok(()),
    }
}

// The word that is wrong, where the reader names one.
fn put_about(out: &mut Vec<u8>, about: &Option<Label>) -> Result<(), NoMemory>
    ensures { OnOk result (out.new.items ≡ out.old.items ++ spec.about_text about.now) }
{
    match about {
        Some(word) => {
            put(out, ": ")?;
            put_printed(out, word.as_str().as_bytes())
        }
        None => Ok(()),
    }
}

// Where in the text: its line and its column.
fn put_spot(out: &mut Vec<u8>, front: &[u8]) -> Result<(), NoMemory>
    ensures { OnOk result (out.new.items ≡ out.old.items ++ spec.spot_text front.now) }
{
    put(out, ", line ")?;
    write_decimal(line_after(front), out)?;
    put(out, ", column ")?;
    write_decimal(characters(last_line(front)) + 1, out)?;
    put(out, ": ")
}

// The line of the text, and below it a caret.
fn put_line(alloc: Global, out: &mut Vec<u8>, front: &[u8], behind: &[u8]) -> Result<(), NoMemory>
    ensures { OnOk result (out.new.items ≡ out.old.items ++ spec.line_text front.now behind.now) }
{
    let before = printed(alloc, last_line(front))?;
    out.extend_from_slice(&before)?;
    put_printed(out, rest_of_line(behind))?;
    put(out, "\n")?;
    write_blanks(out, &before)?;
    put(out, "^\n")
}

// Why, and what it is about.
fn put_why(out: &mut Vec<u8>, inner: &Inner) -> Result<(), NoMemory>
    ensures { OnOk result (out.new.items ≡ out.old.items ++ spec.why_text inner.now) }
{
    put(out, of_module(inner.what.as_str()))?;
    put_about(out, &inner.about)?;
    put(out, "\n")
}

// What is wrong behind a front of a module's text.
fn put_split(
    alloc: Global,
    out: &mut Vec<u8>,
    name: &Option<Label>,
    front: &[u8],
    behind: &[u8],
    inner: &Inner,
) -> Result<(), NoMemory>
    ensures { OnOk result (out.new.items ≡ out.old.items ++ spec.split_text name.now front.now behind.now inner.now) }
{
    put_name(out, name)?;
    put_spot(out, front)?;
    put_why(out, inner)?;
    put_line(alloc, out, front, behind)
}

// The bytes before a place.
fn front_of(bytes: &[u8], place: usize) -> &[u8]
    ensures { result.now ≡ take place bytes.now }
{
    match bytes.get(..place) {
        Some(front) => front,
        None => bytes,
    }
}

// The bytes from a place on.
fn behind_of(bytes: &[u8], place: usize) -> &[u8]
    ensures { result.now ≡ drop place bytes.now }
{
    match bytes.get(place..) {
        Some(behind) => behind,
        None => &[],
    }
}

/// Appends what is wrong at a byte of a module's text: which module, its line and column, why, and the line with a caret.
pub(crate) fn put_module(
    alloc: Global,
    out: &mut Vec<u8>,
    text: &str,
    byte: u32,
    inner: &Inner,
) -> Result<(), NoMemory>
    ensures { OnOk result (out.new.items ≡ out.old.items ++ spec.module_text text.now byte inner.now) }
{
    let name = module_name(alloc, text)?;
    let bytes = text.as_bytes();
    let place = byte as usize;
    put_split(
        alloc,
        out,
        &name,
        front_of(bytes, place),
        behind_of(bytes, place),
        inner,
    )
}
