//! A text within a line: its control characters are printed as JSON writes them, and all else as it is.

ghost use Rattle.std.specs.Prelude.{◌≡◌, ◌++◌, ◌<◌, ◌≤◌, IfOk, OnOk};
ghost use Rattle.nm_lines.specs.Printed as spec;

use nm_base::NoMemory;
use std::alloc::Global;

/// The first byte of U+0080 to U+009F, whose second byte is the character's number.
const LEAD_OF_TWO: u8 = 0xC2;

/// The first byte of U+2028 and U+2029.
const LEAD_OF_THREE: u8 = 0xE2;

fn hex_digit(number: u8) -> u8
    requires { number < 16 }
    ensures { result ≡ spec.hex_digit number }
{
    if number < 10 {
        return b'0' + number;
    }
    b'a' + (number - 10)
}

// Appends a backslash, a `u` and the four digits of a number.
fn put_digits(out: &mut Vec<u8>, code: u16) -> Result<(), NoMemory>
    ensures { OnOk result (out.new.items ≡ out.old.items ++ spec.digits_of code) }
{
    let high = hex_digit((code / 4096 % 16) as u8);
    let second = hex_digit((code / 256 % 16) as u8);
    let third = hex_digit((code / 16 % 16) as u8);
    let low = hex_digit((code % 16) as u8);
    out.extend_from_slice(&[b'\\', b'u', high, second, third, low])?;
    Ok(())
}

// Appends a control character as JSON writes it.
fn put_escape(out: &mut Vec<u8>, code: u16) -> Result<(), NoMemory>
    ensures { OnOk result (out.new.items ≡ out.old.items ++ spec.escape_of code) }
{
    if code == 10 {
        out.extend_from_slice(b"\\n")?;
        return Ok(());
    }
    if code == 13 {
        out.extend_from_slice(b"\\r")?;
        return Ok(());
    }
    if code == 9 {
        out.extend_from_slice(b"\\t")?;
        return Ok(());
    }
    put_digits(out, code)
}

// The control character of two bytes, by its second.
fn second_of_two(behind: &[u8]) -> Option<u16>
    ensures { result ≡ spec.second_of_two behind.now }
{
    match behind {
        [] => None,
        [second, ..] => {
            if 128 <= *second && *second < 160 {
                return Some(u16::from(*second));
            }
            None
        }
    }
}

// The line or paragraph separator, by its second and third bytes.
fn rest_of_three(behind: &[u8]) -> Option<u16>
    ensures { result ≡ spec.rest_of_three behind.now }
{
    match behind {
        [] => None,
        [_] => None,
        [second, third, ..] => {
            if *second == 128 && (*third == 168 || *third == 169) {
                return Some(8064 + u16::from(*third));
            }
            None
        }
    }
}

// The control character that begins with a byte.
fn control_at(byte: u8, behind: &[u8]) -> Option<u16>
    ensures { result ≡ spec.control_at byte behind.now }
{
    if byte < 32 || byte == 127 {
        return Some(u16::from(byte));
    }
    if byte == LEAD_OF_TWO {
        return second_of_two(behind);
    }
    if byte == LEAD_OF_THREE {
        return rest_of_three(behind);
    }
    None
}

// How many bytes of a control character stand behind its first.
fn bytes_behind(byte: u8) -> usize
    ensures { result ≡ spec.bytes_behind byte }
{
    if byte == LEAD_OF_TWO {
        return 1;
    }
    if byte == LEAD_OF_THREE {
        return 2;
    }
    0
}

// Appends what begins with a byte: a control character, or the byte alone. Answers how many bytes behind it are printed with it.
fn put_first(out: &mut Vec<u8>, byte: u8, behind: &[u8]) -> Result<usize, NoMemory>
    ensures put { OnOk result (out.new.items ≡ out.old.items ++ spec.piece_of byte (spec.control_at byte behind.now)) }
    ensures done { IfOk result (λ done. done ≡ spec.done_with byte (spec.control_at byte behind.now)) }
{
    match control_at(byte, behind) {
        None => {
            out.push(byte)?;
            Ok(0)
        }
        Some(code) => {
            put_escape(out, code)?;
            Ok(bytes_behind(byte))
        }
    }
}

/// Appends a text, with its control characters as JSON writes them.
#[tactic(auto, unfolding(crate::specs::Printed::printed_behind))]
pub fn put_printed(out: &mut Vec<u8>, text: &[u8]) -> Result<(), NoMemory>
    ensures { OnOk result (out.new.items ≡ out.old.items ++ spec.printed text.now) }
{
    let mut done = 0;
    let mut rest = text;
    while let [byte, behind @ ..] = rest {
        rest = behind;
        if done > 0 {
            done -= 1;
            continue;
        }
        done = put_first(out, *byte, behind)?;
    }
    Ok(())
}

/// A text, with its control characters as JSON writes them.
pub fn printed(alloc: Global, text: &[u8]) -> Result<Vec<u8>, NoMemory>
    ensures { IfOk result (λ out. out.items ≡ spec.printed text.now) }
{
    let mut out = Vec::new(alloc);
    put_printed(&mut out, text)?;
    Ok(out)
}
