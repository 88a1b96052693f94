//! A type in words of YANG, and the JSON values that its values are.

ghost use Rattle.std.specs.Prelude.{◌≡◌, ◌++◌, OnOk};
ghost use Rattle.nm_types.specs.TypeKind.{kind_of};
ghost use Rattle.nm_explain.specs.Types as spec;

use crate::numbers::{Numbers, put_parts};
use crate::text::put;
use nm_base::{Label, NoMemory, write_decimal};
use nm_json::leafs::is_narrow;
use nm_lines::put_printed;
use nm_types::{LeafType, Parts, TypeKind};
use std::alloc::Global;

// The integer type of a highest number.
#[tactic(auto, unfolding(crate::specs::Types::integer_name))]
fn integer_name(high: i128) -> &'static str
    ensures { result.now ≡ spec.integer_name high }
{
    match high {
        127 => "int8",
        32767 => "int16",
        2147483647 => "int32",
        9223372036854775807 => "int64",
        255 => "uint8",
        65535 => "uint16",
        4294967295 => "uint32",
        18446744073709551615 => "uint64",
        _ => "integer",
    }
}

// One digit or more.
fn digits_word(digits: u8) -> &'static str
    ensures { result.now ≡ spec.digits_word digits }
{
    if digits == 1 {
        return " fraction digit";
    }
    " fraction digits"
}

// A number between two texts.
fn put_counted(out: &mut Vec<u8>, lead: &str, count: u64, word: &str) -> Result<(), NoMemory>
    ensures { OnOk result (out.new.items ≡ out.old.items ++ spec.counted_text lead.now count word.now) }
{
    put(out, lead)?;
    write_decimal(count, out)?;
    put(out, word)
}

// A decimal64.
fn put_decimal_name(out: &mut Vec<u8>, digits: u8) -> Result<(), NoMemory>
    ensures { OnOk result (out.new.items ≡ out.old.items ++ spec.decimal_name digits) }
{
    put_counted(
        out,
        "decimal64 with ",
        u64::from(digits),
        digits_word(digits),
    )
}

// A range or a length with a text before it, where there is one.
fn put_limits(
    alloc: Global,
    out: &mut Vec<u8>,
    numbers: Numbers,
    lead: &str,
    limits: &Option<Parts>,
) -> Result<(), NoMemory>
    ensures { OnOk result (out.new.items ≡ out.old.items ++ spec.limits_text numbers lead.now limits.now) }
{
    match limits {
        None => Ok(()),
        Some(parts) => {
            put(out, lead)?;
            put_parts(alloc, out, numbers, parts.as_slice())
        }
    }
}

// The range of an integer type.
fn put_range(
    alloc: Global,
    out: &mut Vec<u8>,
    low: i128,
    high: i128,
    limits: &Option<Parts>,
) -> Result<(), NoMemory>
    ensures { OnOk result (out.new.items ≡ out.old.items ++ spec.range_text low high limits.now) }
{
    put(out, ", ")?;
    match limits {
        None => put_parts(alloc, out, Numbers::Whole, &[(low, high)]),
        Some(parts) => put_parts(alloc, out, Numbers::Whole, parts.as_slice()),
    }
}

// The names behind the first.
fn put_others(out: &mut Vec<u8>, names: &[Label]) -> Result<(), NoMemory>
    ensures { OnOk result (out.new.items ≡ out.old.items ++ spec.others_text names.now) }
{
    let mut rest = names;
    'names: while let [name, more @ ..] = rest {
        put(out, ", ")?;
        put_printed(out, name.as_str().as_bytes())?;
        rest = more;
    }
    Ok(())
}

// Names with commas between them.
fn put_names(out: &mut Vec<u8>, names: &[Label]) -> Result<(), NoMemory>
    ensures { OnOk result (out.new.items ≡ out.old.items ++ spec.names_text names.now) }
{
    match names {
        [] => Ok(()),
        [first, others @ ..] => {
            put_printed(out, first.as_str().as_bytes())?;
            put_others(out, others)
        }
    }
}

// Names behind a text.
fn put_listed(out: &mut Vec<u8>, lead: &str, names: &[Label]) -> Result<(), NoMemory>
    ensures { OnOk result (out.new.items ≡ out.old.items ++ spec.listed_text lead.now names.now) }
{
    put(out, lead)?;
    put_names(out, names)
}

/// Appends a type.
pub(crate) fn put_type(
    alloc: Global,
    out: &mut Vec<u8>,
    leaf_type: &LeafType,
) -> Result<(), NoMemory>
    ensures { OnOk result (out.new.items ≡ out.old.items ++ spec.type_text leaf_type.now) }
{
    let limits = &leaf_type.limits;
    match &leaf_type.kind {
        TypeKind::Integer { low, high } => {
            put(out, integer_name(*high))?;
            put_range(alloc, out, *low, *high, limits)
        }
        TypeKind::Decimal { digits } => {
            put_decimal_name(out, *digits)?;
            put_limits(alloc, out, Numbers::Scaled(*digits), ", ", limits)
        }
        TypeKind::Boolean => put(out, "boolean"),
        TypeKind::Text => {
            put(out, "string")?;
            put_limits(alloc, out, Numbers::Length, ", of length ", limits)
        }
        TypeKind::Names(names) => put_listed(out, "enumeration: ", names.as_slice()),
        TypeKind::Bits(names) => put_listed(out, "bits: ", names.as_slice()),
        TypeKind::Empty => put(out, "empty"),
    }
}

/// The JSON value that a value of a kind is (RFC 7951 section 6).
pub(crate) fn form_of(kind: &TypeKind) -> &'static str
    ensures { result.now ≡ spec.form_text (kind_of kind.now) }
{
    match kind {
        TypeKind::Integer { high, .. } => {
            if is_narrow(*high) {
                return "a JSON number";
            }
            "a JSON string"
        }
        TypeKind::Boolean => "true or false",
        TypeKind::Empty => "[null]",
        _ => "a JSON string",
    }
}
