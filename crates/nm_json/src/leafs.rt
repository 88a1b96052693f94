//! The values of leafs.

ghost use Rattle.std.specs.Prelude.{◌≡◌};
ghost use Rattle.serde_json.specs.View.{view, items_view, number_view};
ghost use Rattle.serde_json.specs.Data.{array};
ghost use Rattle.nm_types.specs.LeafType.{integer};
ghost use Rattle.nm_json.specs.Values as spec;

use crate::fault::{JsonKind, Refusal};
use nm_types::{LeafType, TypeKind, Value, ValueFault, meets_range, read_value};
use serde_json::{Number, Value as Json};
use std::alloc::Global;

/// From this number on the highest one of a type makes its values JSON strings (RFC 7951 section 6.1).
const WIDE: i128 = 4_294_967_296;

/// The bits of the float -0: its sign alone.
const MINUS_ZERO: u64 = 0x8000_0000_0000_0000;

// The value of a JSON string.
fn text_value(alloc: Global, leaf_type: &LeafType, part: &Json) -> Result<Value, Refusal>
    ensures { spec.IsValue result (spec.text_value leaf_type.now (view part.now)) }
{
    let Json::String(text) = part else {
        return Err(Refusal::Bad(JsonKind::BadForm));
    };
    match read_value(alloc, leaf_type, text.as_str()) {
        Ok(value) => Ok(value),
        Err(ValueFault::NoMemory) => Err(Refusal::NoMemory),
        Err(_) => Err(Refusal::Bad(JsonKind::BadValue)),
    }
}

fn is_minus_zero(float: f64) -> bool
    ensures { result ≡ spec.is_minus_zero float }
{
    if float.is_nan() {
        return false;
    }
    float.to_bits() == MINUS_ZERO
}

// Zero, where a number is -0.
fn minus_zero(number: &Number) -> Option<i128>
    ensures { result ≡ spec.minus_zero (number_view number.now) }
{
    match number.as_f64() {
        None => None,
        Some(float) => {
            if is_minus_zero(float) {
                return Some(0);
            }
            None
        }
    }
}

// The integer that a number is.
fn integer_of(number: &Number) -> Option<i128>
    ensures { result ≡ spec.integer_of (number_view number.now) }
{
    match number.as_i128() {
        Some(integer) => Some(integer),
        None => minus_zero(number),
    }
}

// The value of a number of at most 32 bits.
fn number_value(leaf_type: &LeafType, low: i128, high: i128, part: &Json) -> Result<Value, Refusal>
    requires { leaf_type.now.kind ≡ integer low high }
    ensures { spec.IsValue result (spec.number_value leaf_type.now (view part.now)) }
{
    let Json::Number(number) = part else {
        return Err(Refusal::Bad(JsonKind::BadForm));
    };
    let Some(number) = integer_of(number) else {
        return Err(Refusal::Bad(JsonKind::BadValue));
    };
    if low <= number && number <= high && meets_range(&leaf_type.limits, number) {
        return Ok(Value::Int(number));
    }
    Err(Refusal::Bad(JsonKind::BadValue))
}

/// Whether the numbers of a type have at most 32 bits, by the highest one.
#[tactic(auto, unfolding(crate::specs::Values::is_narrow))]
pub fn is_narrow(high: i128) -> bool
    ensures { result ≡ spec.is_narrow high }
{
    high < WIDE
}

// The value of an integer type: of more than 32 bits it is a JSON string.
#[tactic(auto, unfolding(crate::specs::Values::value_of_kind))]
fn integer_value(
    alloc: Global,
    leaf_type: &LeafType,
    low: i128,
    high: i128,
    part: &Json,
) -> Result<Value, Refusal>
    requires { leaf_type.now.kind ≡ integer low high }
    ensures { spec.IsValue result (spec.value_of_kind leaf_type.now (integer low high) (view part.now)) }
{
    if is_narrow(high) {
        return number_value(leaf_type, low, high, part);
    }
    text_value(alloc, leaf_type, part)
}

// A JSON boolean.
fn flag_value(part: &Json) -> Result<Value, Refusal>
    ensures { spec.IsValue result (spec.flag_value (view part.now)) }
{
    match part {
        Json::Bool(flag) => Ok(Value::Bool(*flag)),
        _ => Err(Refusal::Bad(JsonKind::BadForm)),
    }
}

// The array of one null.
fn empty_value(part: &Json) -> Result<Value, Refusal>
    ensures { spec.IsValue result (spec.empty_value (view part.now)) }
{
    match part {
        Json::Array(items) => only_null(items.as_slice()),
        _ => Err(Refusal::Bad(JsonKind::BadForm)),
    }
}

fn only_null(items: &[Json]) -> Result<Value, Refusal>
    ensures { spec.IsValue result (spec.empty_value (array (items_view items.now))) }
{
    if items.len() != 1 {
        return Err(Refusal::Bad(JsonKind::BadValue));
    }
    null_value(&items[0])
}

fn null_value(part: &Json) -> Result<Value, Refusal>
    ensures { spec.IsValue result (spec.null_value (view part.now)) }
{
    match part {
        Json::Null => Ok(Value::Empty),
        _ => Err(Refusal::Bad(JsonKind::BadValue)),
    }
}

/// The value that a JSON value is for a leaf of a type, or why it is none (RFC 7951 section 6).
#[tactic(auto, unfolding(crate::specs::Values::value_of_kind))]
pub fn leaf_value(alloc: Global, leaf_type: &LeafType, part: &Json) -> Result<Value, Refusal>
    ensures { spec.IsValue result (spec.leaf_value leaf_type.now (view part.now)) }
{
    match &leaf_type.kind {
        TypeKind::Integer { low, high } => integer_value(alloc, leaf_type, *low, *high, part),
        TypeKind::Boolean => flag_value(part),
        TypeKind::Empty => empty_value(part),
        TypeKind::Decimal { .. } | TypeKind::Text | TypeKind::Names(_) | TypeKind::Bits(_) => {
            text_value(alloc, leaf_type, part)
        }
    }
}
