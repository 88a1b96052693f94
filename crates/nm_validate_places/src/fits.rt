//! Values and their types.

ghost use Rattle.std.specs.Prelude.{◌≡◌, IfOk};
ghost use Rattle.nm_types.specs.declared.value.Value.TheVariants as kind;
ghost use Rattle.nm_types.specs.LeafType.{integer, string};
ghost use Rattle.nm_types.specs.Limits as limit;
ghost use Rattle.nm_schema_tree.specs.Nodes.{type_at};
ghost use Rattle.nm_validate_rules.specs.Violated as spec;

use nm_base::NoMemory;
use nm_schema_tree::Schema;
use nm_types::{
    Parts, TypeKind, Value, ValueFault, are_characters, meets_range, read_value, write_value,
};
use std::alloc::Global;

// Whether a text is of a string type with this length, by its characters and their number. It makes no text to find out.
#[tactic(auto, unfolding(nm_validate_rules::specs::Violated::is_of_type))]
fn text_fits(length: &Option<Parts>, text: &str) -> bool
    ensures { result ≡ spec.is_of_type (kind.Text text.now) (record { kind = string; limits = length.now }) }
{
    if !are_characters(text) {
        return false;
    }
    if !meets_range(length, text.chars().count() as i128) {
        return false;
    }
    true
}

// Whether a number is within the bounds of an integer type.
fn is_between(low: i128, high: i128, number: i128) -> bool
    ensures { result ≡ limit.is_within number (low, high) }
{
    low <= number && number <= high
}

// Whether a number is of an integer type with these bounds and ranges. It writes no text to find out.
#[tactic(auto, unfolding(nm_validate_rules::specs::Violated::is_of_type))]
fn number_fits(low: i128, high: i128, range: &Option<Parts>, number: i128) -> bool
    ensures { result ≡ spec.is_of_type (kind.Int number) (record { kind = integer low high; limits = range.now }) }
{
    if !is_between(low, high, number) {
        return false;
    }
    meets_range(range, number)
}

/// Whether a node is a leaf or a leaf-list, and a value is of its type: its canonical text is read as that value (RFC 7950 section 9.1).
#[tactic(auto, unfolding(nm_validate_rules::specs::Violated::is_of_type))]
pub fn fits_at(alloc: Global, schema: &Schema, at: usize, value: &Value) -> Result<bool, NoMemory>
    ensures { IfOk result (λ fits. fits ≡ spec.fits_type value.now (type_at schema.now.nodes at)) }
{
    let Some(leaf_type) = schema.leaf_type(at) else {
        return Ok(false);
    };
    if let (TypeKind::Text, Value::Text(text)) = (&leaf_type.kind, value) {
        return Ok(text_fits(&leaf_type.limits, text.as_str()));
    }
    if let (TypeKind::Integer { low, high }, Value::Int(number)) = (&leaf_type.kind, value) {
        return Ok(number_fits(*low, *high, &leaf_type.limits, *number));
    }
    let text = write_value(alloc, leaf_type, value)?;
    match read_value(alloc, leaf_type, text.as_str()) {
        Ok(read) => Ok(*value == read),
        Err(ValueFault::BadText) => Ok(false),
        Err(ValueFault::OutOfRange) => Ok(false),
        Err(ValueFault::NoMemory) => Err(NoMemory),
    }
}
