//! The JSON values of values.

ghost use Rattle.std.specs.Prelude.{◌≡◌, ◌&&◌, IfOk, true, Some};
ghost use Rattle.serde_json.specs.View.{view};
ghost use Rattle.serde_json.specs.Data.{string};
ghost use Rattle.nm_types.specs.Canonical.{canonical};
ghost use Rattle.nm_json.specs.Writing as spec;

use crate::leafs::is_narrow;
use nm_base::{Label, NoMemory};
use nm_schema_tree::Schema;
use nm_types::{LeafType, TypeKind, Value, write_value};
use serde_json::{Map, Value as Json};
use std::alloc::Global;

// Whether a number is written as a JSON number where its type has at most 32 bits.
#[tactic(auto, unfolding(crate::specs::Writing::is_small))]
fn is_small(number: i128) -> bool
    ensures { result ≡ spec.is_small number }
{
    -2_147_483_648 <= number && number < 4_294_967_296
}

// The canonical text of a value, which depends on the value alone and so on no type.
fn canonical(alloc: Global, value: &Value) -> Result<Label, NoMemory>
    ensures { IfOk result (λ text. text ≡ canonical value.now) }
{
    let any = LeafType {
        kind: TypeKind::Text,
        limits: None,
    };
    write_value(alloc, &any, value)
}

// The canonical text of a value as a JSON string.
fn text_data(alloc: Global, value: &Value) -> Result<Json, NoMemory>
    ensures { IfOk result (λ part. view part ≡ string (canonical value.now)) }
{
    let text = canonical(alloc, value)?;
    let text = String::from_str(alloc, text.as_str())?;
    Ok(Json::String(text))
}

// A number of at most 33 bits as a JSON number.
#[tactic(auto, unfolding(crate::specs::Writing::is_small))]
fn number_data(number: i128) -> Json
    requires { spec.is_small number ≡ true }
    ensures { view result ≡ spec.integer_data true number }
{
    Json::from(number as i64)
}

// An array of one null.
fn empty_data(alloc: Global) -> Result<Json, NoMemory>
    ensures { IfOk result (λ part. view part ≡ spec.value_data true Value.Empty) }
{
    let mut items = Vec::new(alloc);
    items.push(Json::Null)?;
    Ok(Json::Array(items))
}

// The JSON value of an integer.
fn integer_data(alloc: Global, narrow: bool, value: &Value, number: i128) -> Result<Json, NoMemory>
    requires { value.now ≡ Value.Int number }
    ensures { IfOk result (λ part. view part ≡ spec.integer_data (narrow && spec.is_small number) number) }
{
    if !narrow {
        return text_data(alloc, value);
    }
    if !is_small(number) {
        return text_data(alloc, value);
    }
    Ok(number_data(number))
}

/// The JSON value of a value. Integers of a narrow type are JSON numbers (RFC 7951 section 6).
pub fn value_data(alloc: Global, narrow: bool, value: &Value) -> Result<Json, NoMemory>
    ensures { IfOk result (λ part. view part ≡ spec.value_data narrow value.now) }
{
    match value {
        Value::Int(number) => integer_data(alloc, narrow, value, *number),
        Value::Bool(flag) => Ok(Json::Bool(*flag)),
        Value::Empty => empty_data(alloc),
        Value::Present => Ok(Json::Object(Map::new(alloc))),
        Value::Decimal(_, _) => text_data(alloc, value),
        Value::Text(_) => text_data(alloc, value),
        Value::Name(_) => text_data(alloc, value),
        Value::Bits(_) => text_data(alloc, value),
    }
}

// Whether a type has integers of at most 32 bits.
fn narrow_type(leaf_type: &LeafType) -> bool
    ensures { result ≡ spec.narrow_type (Some leaf_type.now) }
{
    match &leaf_type.kind {
        TypeKind::Integer { high, .. } => is_narrow(*high),
        _ => false,
    }
}

/// Whether the type of a node has integers of at most 32 bits.
pub fn narrow_at(schema: &Schema, at: Option<usize>) -> bool
    ensures { result ≡ spec.narrow_at schema.now.nodes at }
{
    let Some(at) = at else {
        return false;
    };
    match schema.leaf_type(at) {
        None => false,
        Some(leaf_type) => narrow_type(leaf_type),
    }
}
