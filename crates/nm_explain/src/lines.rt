//! Where a byte of a text stands: its line, and its place in the line.

ghost use Rattle.std.specs.Prelude.{◌≡◌, ◌≤◌, ◌+◌, ◌++◌, length, OnOk};
ghost use Rattle.std.specs.List.{position_or_len};
ghost use Rattle.nm_explain.specs.Lines as spec;

use nm_base::NoMemory;

/// The number of the line in which what follows these bytes stands, from 1.
pub(crate) fn line_after(front: &[u8]) -> u64
    ensures { result ≡ spec.line_after front.now }
{
    let mut line = 1;
    let mut rest = front;
    while let [byte, behind @ ..] = rest {
        rest = behind;
        if *byte == b'\n' {
            line += 1;
        }
    }
    line
}

/// The last line of these bytes, which may be empty.
pub(crate) fn last_line(front: &[u8]) -> &[u8]
    ensures value { result.now ≡ spec.last_line front.now }
    ensures within { length result.now ≤ length front.now }
{
    let mut line = front;
    let mut rest = front;
    while let [byte, behind @ ..] = rest {
        rest = behind;
        if *byte == b'\n' {
            line = rest;
        }
    }
    line
}

// Where the first line feed stands, or the length.
fn line_end(bytes: &[u8]) -> usize
    ensures value { result ≡ position_or_len spec.is_break bytes.now }
    ensures within { result ≤ length bytes.now }
{
    bytes
        .iter()
        .position(|byte| *byte == b'\n')
        .unwrap_or(bytes.len())
}

/// The rest of the line that these bytes go on with.
pub(crate) fn rest_of_line(bytes: &[u8]) -> &[u8]
    ensures { result.now ≡ spec.rest_of_line bytes.now }
{
    &bytes[..line_end(bytes)]
}

// Whether a character of UTF-8 begins with this byte (RFC 3629 section 3).
fn begins_character(byte: u8) -> bool
    ensures { result ≡ spec.begins_character byte }
{
    byte < 128 || byte >= 192
}

/// How many characters a text has; a tab is one.
pub(crate) fn characters(text: &[u8]) -> u64
    ensures value { result ≡ spec.characters text.now }
    ensures within { result ≤ length text.now }
{
    let mut count = 0;
    let mut rest = text;
    while let [byte, behind @ ..] = rest {
        rest = behind;
        if begins_character(*byte) {
            count += 1;
        }
    }
    count
}

/// Appends a blank for each character of a text: a tab for a tab, so that what follows stands below what follows the text.
pub(crate) fn write_blanks(out: &mut Vec<u8>, text: &[u8]) -> Result<(), NoMemory>
    ensures { OnOk result (out.new.items ≡ out.old.items ++ spec.blanks text.now) }
{
    let mut rest = text;
    while let [byte, behind @ ..] = rest {
        write_blank(out, *byte)?;
        rest = behind;
    }
    Ok(())
}

// The blank of a byte, where a character begins with it.
fn write_blank(out: &mut Vec<u8>, byte: u8) -> Result<(), NoMemory>
    ensures { OnOk result (out.new.items ≡ out.old.items ++ spec.blank_of byte) }
{
    if byte == b'\t' {
        out.push(b'\t')?;
    } else if begins_character(byte) {
        out.push(b' ')?;
    }
    Ok(())
}
