//! The value that a text spells, by its type: one function for each kind of type.

ghost use Rattle.std.specs.Prelude.{◌≡◌, ℤ, List, Option, IfOk, IsErrOf};
ghost use Rattle.nm_types.specs.LeafType.{boolean, string, enumeration, empty};
ghost use Rattle.nm_types.specs.Limits.{MeetsLimits};
ghost use Rattle.nm_types.specs.Spells.{SpellsValue};
ghost use Rattle.nm_types.specs.Reading.{reading, Gives};

use crate::bits::read_bits;
use crate::characters::are_characters;
use crate::decimal::read_decimal;
use crate::fault::ValueFault;
use crate::leaf_type::{LeafType, TypeKind};
use crate::limits::meets_range;
use crate::names::Names;
use crate::numeral::read_integer;
use crate::parts::Parts;
use crate::value::Value;
use nm_base::Label;
use std::alloc::Global;

// The truth value that a text spells.
#[tactic(auto, unfolding(crate::specs::Reading::spelled))]
fn read_boolean(text: &str) -> Result<Value, ValueFault>
    ensures { (limits : Option (List (ℤ × ℤ))) → result ≡ reading (record { kind = boolean; limits = limits }) text.now }
{
    if text == "true" {
        Ok(Value::Bool(true))
    } else if text == "false" {
        Ok(Value::Bool(false))
    } else {
        Err(ValueFault::BadText)
    }
}

// The text itself, if its characters are those of strings and it meets the length.
#[tactic(auto, unfolding(crate::specs::Reading::spelled))]
fn read_text(alloc: Global, length: &Option<Parts>, text: &str) -> Result<Value, ValueFault>
    ensures { Gives result (reading (record { kind = string; limits = length.now }) text.now) }
{
    if !are_characters(text) {
        return Err(ValueFault::BadText);
    }
    if !meets_range(length, text.chars().count() as i128) {
        return Err(ValueFault::OutOfRange);
    }
    Ok(Value::Text(Label::new(alloc, text)?))
}

// The name that a text is.
#[tactic(auto, unfolding(crate::specs::Reading::spelled))]
fn read_name(alloc: Global, names: &Names, text: &str) -> Result<Value, ValueFault>
    ensures { (limits : Option (List (ℤ × ℤ))) → Gives result (reading (record { kind = enumeration names.now; limits = limits }) text.now) }
{
    match names.place(&Label::new(alloc, text)?) {
        // The type's own label, so that values of one name share its bytes.
        Some(place) => Ok(Value::Name(names.as_slice()[place].copy()?)),
        None => Err(ValueFault::BadText),
    }
}

// The value of the empty text.
#[tactic(auto, unfolding(crate::specs::Reading::spelled))]
fn read_empty(text: &str) -> Result<Value, ValueFault>
    ensures { (limits : Option (List (ℤ × ℤ))) → result ≡ reading (record { kind = empty; limits = limits }) text.now }
{
    if text.is_empty() {
        Ok(Value::Empty)
    } else {
        Err(ValueFault::BadText)
    }
}

// What reading a text gives.
fn reading(alloc: Global, leaf_type: &LeafType, text: &str) -> Result<Value, ValueFault>
    ensures { Gives result (reading leaf_type.now text.now) }
{
    match &leaf_type.kind {
        TypeKind::Integer { low, high } => read_integer(*low, *high, &leaf_type.limits, text),
        TypeKind::Decimal { digits } => read_decimal(*digits, &leaf_type.limits, text),
        TypeKind::Boolean => read_boolean(text),
        TypeKind::Text => read_text(alloc, &leaf_type.limits, text),
        TypeKind::Names(names) => read_name(alloc, names, text),
        TypeKind::Bits(names) => read_bits(alloc, names, text),
        TypeKind::Empty => read_empty(text),
    }
}

/// The value of a type that a text spells (RFC 7950 section 9).
///
/// Integers are decimal, with or without a sign and leading zeros. Decimals may end in zeros beyond the
/// fraction digits. Bits stand in any order with one space or more between them and any number around. Lengths count
/// characters; a string has no control character below U+0020 but tab, line feed and carriage return, and no noncharacter.
pub fn read_value(alloc: Global, leaf_type: &LeafType, text: &str) -> Result<Value, ValueFault>
    // Ok exactly for the spellings of a value that meets every limit.
    ensures found { IfOk result (λ value. SpellsValue leaf_type.now.kind text.now value × MeetsLimits leaf_type.now value) }
    ensures read { (value : Value) → SpellsValue leaf_type.now.kind text.now value → MeetsLimits leaf_type.now value → Gives result (Ok value) }
    // BadText exactly where the text spells no value.
    ensures bad_text { IsErrOf result ValueFault.BadText → (value : Value) → ¬ SpellsValue leaf_type.now.kind text.now value }
    ensures not_spelled { ((value : Value) → ¬ SpellsValue leaf_type.now.kind text.now value) → Gives result (Err ValueFault.BadText) }
    // OutOfRange exactly where it spells one that misses a limit.
    ensures out_of_range { IsErrOf result ValueFault.OutOfRange
        → (value : Value) × SpellsValue leaf_type.now.kind text.now value × ¬ MeetsLimits leaf_type.now value }
    ensures beyond { (value : Value) → SpellsValue leaf_type.now.kind text.now value → ¬ MeetsLimits leaf_type.now value
        → Gives result (Err ValueFault.OutOfRange) }
    // The answer as a function of the text.
    ensures exact { Gives result (reading leaf_type.now text.now) }
{
    reading(alloc, leaf_type, text)
}
