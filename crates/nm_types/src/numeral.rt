//! Integers as texts, with the digits and the sign that decimals have too.

ghost use Rattle.std.specs.Prelude.{◌≡◌};
ghost use Rattle.std.specs.Str.Parse.{without_leading_sign};
ghost use Rattle.nm_types.specs.Reading.{is_numeral, reading};
ghost use Rattle.nm_types.specs.LeafType.{integer};

use crate::fault::ValueFault;
use crate::limits::meets_bounds;
use crate::parts::Parts;
use crate::value::Value;

// Whether a text is one decimal digit or more.
pub(crate) fn is_numeral(text: &str) -> bool
    ensures { result ≡ is_numeral text.now }
{
    !text.is_empty() && text.as_bytes().iter().all(|byte| byte.is_ascii_digit())
}

/// A text without the sign that it begins with.
pub fn without_sign(text: &str) -> &str
    ensures { result.now ≡ without_leading_sign text.now }
{
    if let Some(rest) = text.strip_prefix('-') {
        return rest;
    }
    if let Some(rest) = text.strip_prefix('+') {
        return rest;
    }
    text
}

// The value of an integer type from `low` to `high` that a text spells.
pub(crate) fn read_integer(
    low: i128,
    high: i128,
    range: &Option<Parts>,
    text: &str,
) -> Result<Value, ValueFault>
    ensures { result ≡ reading (record { kind = integer low high; limits = range.now }) text.now }
{
    if !is_numeral(without_sign(text)) {
        return Err(ValueFault::BadText);
    }
    let Ok(number) = text.parse::<i128>() else {
        return Err(ValueFault::OutOfRange);
    };
    if !meets_bounds(&(low, high), range, number) {
        return Err(ValueFault::OutOfRange);
    }
    Ok(Value::Int(number))
}
