//! Arguments in quotes.

ghost use Rattle.std.specs.Prelude.{◌≡◌, ◌+◌, ◌≤◌, ◌<◌, ◌++◌, ◌^◌, [], Ok, false, length, IfOk, OnOk};
ghost use Rattle.nm_yang.specs.Page.{Gives, with_front};
ghost use Rattle.nm_yang.specs.Quote as spec;

use crate::fault::{Fault, YangFault, YangKind};
use crate::reader::{Reader, front, refused, tail};
use nm_base::NoMemory;

fn is_escape(byte: u8) -> bool
    ensures { result ≡ spec.is_escape byte }
{
    byte == b'n' || byte == b't' || byte == b'"' || byte == b'\\'
}

fn escaped(byte: u8) -> u8
    ensures { result ≡ spec.escaped byte }
{
    if byte == b'n' {
        b'\n'
    } else if byte == b't' {
        b'\t'
    } else {
        byte
    }
}

fn begins_escape(bytes: &[u8]) -> bool
    ensures { result ≡ spec.begins_escape bytes.now }
{
    match bytes {
        [] => false,
        [byte, ..] => is_escape(*byte),
    }
}

fn begins_other(bytes: &[u8]) -> bool
    ensures { result ≡ spec.begins_other bytes.now }
{
    match bytes {
        [] => false,
        [byte, ..] => !is_escape(*byte),
    }
}

fn is_loose(byte: u8) -> bool
    ensures { result ≡ spec.is_loose byte }
{
    byte == b' ' || byte == b'\t' || byte == b'\r'
}

#[tactic(auto, unfolding(crate::specs::Quote::single_end))]
fn single_end<'a>(reader: &Reader<'_>, opener: u32, bytes: &'a [u8]) -> Result<&'a [u8], YangFault>
    ensures rest { Gives (λ r. r.now) result (spec.single_end reader.now opener bytes.now) }
    ensures shorter { IfOk result (λ r. length r.now ≤ length bytes.now) }
{
    let mut rest = bytes;
    while let [byte, after @ ..] = rest {
        if *byte == b'\'' {
            return Ok(rest);
        }
        rest = after;
    }
    let open = Fault {
        place: opener,
        kind: YangKind::UnclosedQuote,
    };
    Err(refused(reader.at_end(open)))
}

#[tactic(auto, unfolding(crate::specs::Quote::double_end))]
fn double_end<'a>(reader: &Reader<'_>, opener: u32, bytes: &'a [u8]) -> Result<&'a [u8], YangFault>
    ensures rest { Gives (λ r. r.now) result (spec.double_end reader.now opener false bytes.now) }
    ensures shorter { IfOk result (λ r. length r.now ≤ length bytes.now) }
{
    let strict = reader.is_strict();
    let mut after_backslash = false;
    let mut rest = bytes;
    while let [byte, after @ ..] = rest {
        if after_backslash {
            after_backslash = false;
        } else if *byte == b'"' {
            return Ok(rest);
        } else if *byte == b'\\' && strict && begins_other(after) {
            return Err(refused(reader.bad(rest, YangKind::BadEscape)));
        } else {
            after_backslash = *byte == b'\\';
        }
        rest = after;
    }
    let open = Fault {
        place: opener,
        kind: YangKind::UnclosedQuote,
    };
    Err(refused(reader.at_end(open)))
}

/// Appends what stands between double quotes means, after a line break without `room` columns of blanks.
#[tactic(auto, using(crate::proofs::Quotes::rejoined), unfolding(crate::specs::Quote::meaning))]
fn put_meaning(out: &mut Vec<u8>, room: u32, bytes: &[u8]) -> Result<(), NoMemory>
    ensures { OnOk result (out.new.items ≡ out.old.items ++ spec.meaning room 0 false [] bytes.now) }
{
    // What stands from `solid` on are blanks, which go if a line break comes next.
    let mut solid = out.len();
    let mut left = 0;
    let mut after_backslash = false;
    let mut rest = bytes;
    while let [byte, after @ ..] = rest {
        rest = after;
        if after_backslash {
            out.push(escaped(*byte))?;
            after_backslash = false;
            left = 0;
            solid = out.len();
            continue;
        }
        if *byte == b'\n' {
            out.truncate(solid);
            out.push(*byte)?;
            left = room;
            solid = out.len();
            continue;
        }
        if 0 < left && *byte == b' ' {
            left -= 1;
            continue;
        }
        if 0 < left && *byte == b'\t' {
            left = left.saturating_sub(8);
            continue;
        }
        left = 0;
        if is_loose(*byte) {
            out.push(*byte)?;
            continue;
        }
        if *byte == b'\\' && begins_escape(after) {
            after_backslash = true;
            solid = out.len();
            continue;
        }
        out.push(*byte)?;
        solid = out.len();
    }
    Ok(())
}

/// Appends the bytes of one quoted string, and answers what is left after it.
#[tactic(auto, unfolding(crate::specs::Quote::string_at))]
pub fn string_at<'a>(
    reader: &mut Reader<'_>,
    out: &mut Vec<u8>,
    bytes: &'a [u8],
) -> Result<&'a [u8], YangFault>
    ensures read { Gives (λ r. (out.new.items, r.now)) result (with_front out.old.items (spec.string_at reader.old bytes.now)) }
    ensures shorter { IfOk result (λ r. length r.now ≤ length bytes.now) }
    ensures same { reader.new ≡ reader.old }
{
    let (quote, within) = match bytes {
        [] => return Ok(bytes),
        [quote, within @ ..] => (*quote, within),
    };
    let opener = reader.place(bytes);
    if quote == b'\'' {
        let rest = single_end(reader, opener, within)?;
        out.extend_from_slice(front(within, rest))?;
        return Ok(tail(rest));
    }
    let rest = double_end(reader, opener, within)?;
    let room = reader.column(bytes) + 1;
    put_meaning(out, room, front(within, rest))?;
    Ok(tail(rest))
}
