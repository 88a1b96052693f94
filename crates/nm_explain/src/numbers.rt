//! The numbers that a type has, in words.

ghost use Rattle.std.specs.Prelude.{◌≡◌, ◌++◌, OnOk};
ghost use Rattle.nm_explain.specs.Numbers as spec;

use crate::text::put;
use nm_base::NoMemory;
use nm_types::{LeafType, TypeKind, Value, write_value};
use std::alloc::Global;

/// What the numbers of a range or a length are.
#[derive(Clone, Copy)]
pub(crate) enum Numbers {
    /// Integers.
    Whole,
    /// Decimals without their points, by how many digits stand behind it.
    Scaled(u8),
    /// How many characters a string has.
    Length,
}

/// The length of a string that may have any number of characters (RFC 7950 section 9.4.4).
const ANY_LENGTH: i128 = 18446744073709551615;

// The value that a number stands for.
fn value_of(numbers: Numbers, number: i128) -> Value
    ensures { result ≡ spec.value_of numbers number }
{
    match numbers {
        Numbers::Scaled(digits) => {
            if -9223372036854775808 <= number && number <= 9223372036854775807 {
                return Value::Decimal(number as i64, digits);
            }
            Value::Int(number)
        }
        _ => Value::Int(number),
    }
}

// A number as the values of its type are written.
fn put_number(
    alloc: Global,
    out: &mut Vec<u8>,
    numbers: Numbers,
    number: i128,
) -> Result<(), NoMemory>
    ensures { OnOk result (out.new.items ≡ out.old.items ++ spec.number_text numbers number) }
{
    let any = LeafType {
        kind: TypeKind::Text,
        limits: None,
    };
    let text = write_value(alloc, &any, &value_of(numbers, number))?;
    put(out, text.as_str())
}

// Numbers from one to another.
fn put_ends(
    alloc: Global,
    out: &mut Vec<u8>,
    numbers: Numbers,
    low: i128,
    high: i128,
) -> Result<(), NoMemory>
    ensures { OnOk result (out.new.items ≡ out.old.items ++ spec.ends_text numbers low high) }
{
    put_number(alloc, out, numbers, low)?;
    put(out, " to ")?;
    put_number(alloc, out, numbers, high)
}

// Numbers of which there are more than one.
fn put_span(
    alloc: Global,
    out: &mut Vec<u8>,
    numbers: Numbers,
    low: i128,
    high: i128,
) -> Result<(), NoMemory>
    ensures { OnOk result (out.new.items ≡ out.old.items ++ spec.span_text numbers low high) }
{
    match numbers {
        Numbers::Length => {
            if high == ANY_LENGTH {
                put_number(alloc, out, numbers, low)?;
                return put(out, " or more");
            }
            put_ends(alloc, out, numbers, low, high)
        }
        _ => {
            put(out, "from ")?;
            put_ends(alloc, out, numbers, low, high)
        }
    }
}

// A part of a range or a length.
fn put_part(
    alloc: Global,
    out: &mut Vec<u8>,
    numbers: Numbers,
    part: &(i128, i128),
) -> Result<(), NoMemory>
    ensures { OnOk result (out.new.items ≡ out.old.items ++ spec.part_text numbers part.now) }
{
    if part.0 == part.1 {
        return put_number(alloc, out, numbers, part.0);
    }
    put_span(alloc, out, numbers, part.0, part.1)
}

// The parts behind the first.
fn put_others(
    alloc: Global,
    out: &mut Vec<u8>,
    numbers: Numbers,
    parts: &[(i128, i128)],
) -> Result<(), NoMemory>
    ensures { OnOk result (out.new.items ≡ out.old.items ++ spec.others_text numbers parts.now) }
{
    let mut rest = parts;
    'parts: while let [part, more @ ..] = rest {
        put(out, " or ")?;
        put_part(alloc, out, numbers, part)?;
        rest = more;
    }
    Ok(())
}

/// Appends the parts of a range or a length, each with ` or ` before the next.
pub(crate) fn put_parts(
    alloc: Global,
    out: &mut Vec<u8>,
    numbers: Numbers,
    parts: &[(i128, i128)],
) -> Result<(), NoMemory>
    ensures { OnOk result (out.new.items ≡ out.old.items ++ spec.parts_text numbers parts.now) }
{
    match parts {
        [] => Ok(()),
        [first, others @ ..] => {
            put_part(alloc, out, numbers, first)?;
            put_others(alloc, out, numbers, others)
        }
    }
}
