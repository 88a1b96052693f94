//! A table: rows `NAME => PART => WANT` below the lines of their frame. A line that begins with `#` is a remark.

use crate::frame::{Frame, NONE, Part, set};
use crate::template::{put, put_items, put_lines_of};
use crate::written::told_of;
use nm_base::{NoMemory, write_decimal};
use std::alloc::Global;

/// How many rows there are, and what is told of each that isn't so.
#[derive(Drop)]
pub struct Found {
    pub rows: u32,
    pub faults: Vec<u8>,
}

// Where a row stands.
#[derive(Clone, Copy)]
struct Place<'a> {
    table: &'a str,
    line: usize,
    name: &'a str,
}

/// Goes through the rows of a table, or through those of one name, if that isn't empty.
pub fn gone_through(alloc: Global, table: &str, name: &str, text: &str) -> Result<Found, NoMemory> {
    let mut found = Found {
        rows: 0,
        faults: Vec::new(alloc),
    };
    let mut frame = NONE;
    for (before, line) in text.lines().enumerate() {
        let place = Place {
            table,
            line: before,
            name,
        };
        take(alloc, &mut frame, place, line, &mut found)?;
    }
    Ok(found)
}

fn take<'a>(
    alloc: Global,
    frame: &mut Frame<'a>,
    place: Place<'_>,
    line: &'a str,
    found: &mut Found,
) -> Result<(), NoMemory> {
    if line.is_empty() || line.starts_with('#') {
        return Ok(());
    }
    if let Some(rest) = line.strip_prefix(": ") {
        if set(frame, rest) {
            return Ok(());
        }
    }
    match line.split_once(" => ") {
        Some((name, rest)) => count(alloc, frame, place, name, rest, found),
        None => put_fault(place, line, b"a row", b"none", &mut found.faults),
    }
}

fn count(
    alloc: Global,
    frame: &Frame<'_>,
    place: Place<'_>,
    name: &str,
    rest: &str,
    found: &mut Found,
) -> Result<(), NoMemory> {
    if !place.name.is_empty() && place.name != name {
        return Ok(());
    }
    found.rows = found.rows.saturating_add(1);
    let (part, want) = rest.split_once(" => ").unwrap_or((rest, ""));
    let told = told_in(alloc, frame, part)?;
    let wanted = wanted(alloc, frame, want)?;
    if wanted.as_slice() == told.as_slice() {
        return Ok(());
    }
    put_fault(
        place,
        name,
        wanted.as_slice(),
        told.as_slice(),
        &mut found.faults,
    )
}

// What the commands tell of a row.
fn told_in(alloc: Global, frame: &Frame<'_>, part: &str) -> Result<Vec<u8>, NoMemory> {
    let given = given_in(alloc, frame, part)?;
    match frame.part {
        Part::Input => told_of(alloc, frame, frame.commands, given.as_slice(), b""),
        Part::Journal => told_of(alloc, frame, frame.commands, b"", given.as_slice()),
        Part::Words => told_to(alloc, frame, part),
    }
}

// What the command of these words tells.
fn told_to(alloc: Global, frame: &Frame<'_>, words: &str) -> Result<Vec<u8>, NoMemory> {
    let given = given_in(alloc, frame, "")?;
    told_of(alloc, frame, words, given.as_slice(), b"")
}

// The bytes that the commands are given.
fn given_in(alloc: Global, frame: &Frame<'_>, part: &str) -> Result<Vec<u8>, NoMemory> {
    let mut bytes = Vec::new(alloc);
    put(frame.open, &mut bytes)?;
    if frame.each.is_empty() {
        put(part, &mut bytes)?;
    } else {
        put_items(part, frame.each, frame.end, &mut bytes)?;
    }
    put(frame.close, &mut bytes)?;
    Ok(bytes)
}

// What a row wants to be told. A fault has status 3.
fn wanted(alloc: Global, frame: &Frame<'_>, want: &str) -> Result<Vec<u8>, NoMemory> {
    let mut bytes = Vec::new(alloc);
    if want.starts_with("scenario ") {
        put_all("3 ", want, "¶", &mut bytes)?;
    } else if frame.is_numbered {
        put(frame.head, &mut bytes)?;
        put_lines_of(want, &mut bytes)?;
        put(frame.tail, &mut bytes)?;
    } else {
        put_all(frame.head, want, frame.tail, &mut bytes)?;
    }
    Ok(bytes)
}

fn put_all(before: &str, text: &str, behind: &str, out: &mut Vec<u8>) -> Result<(), NoMemory> {
    put(before, out)?;
    put(text, out)?;
    put(behind, out)
}

// The row, as it is named to be run alone, its line, what it wants and what was found.
fn put_fault(
    place: Place<'_>,
    name: &str,
    wanted: &[u8],
    told: &[u8],
    out: &mut Vec<u8>,
) -> Result<(), NoMemory> {
    put_part(place.table.as_bytes(), b": ", out)?;
    put_part(name.as_bytes(), b"\n  line ", out)?;
    put_line_number(place.line, out)?;
    put_part(b"\n  wanted: ", wanted, out)?;
    put_part(b"\n  found:  ", told, out)?;
    out.push(b'\n')?;
    Ok(())
}

// The beginning of a text, so that a long one doesn't hide the others.
fn put_part(before: &[u8], text: &[u8], out: &mut Vec<u8>) -> Result<(), NoMemory> {
    out.extend_from_slice(before)?;
    out.extend_from_slice(text.split_at(text.len().min(2000)).0)?;
    Ok(())
}

// The number of the line behind so many others.
fn put_line_number(before: usize, out: &mut Vec<u8>) -> Result<(), NoMemory> {
    write_decimal((before as u64).saturating_add(1), out)?;
    Ok(())
}
