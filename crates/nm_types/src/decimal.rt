//! The scaled value that the text of a decimal64 spells (RFC 7950 section 9.3.1), zeros behind the fraction digits included.

ghost use Rattle.std.specs.Prelude.{◌≡◌, ◌≤◌, ◌^◌, ◌*◌, IsTrue, min, option_map};
ghost use Rattle.std.specs.Str.{all_ascii_digits};
ghost use Rattle.std.specs.Str.Parse.{digits_value_after};
ghost use Rattle.nm_types.specs.Reading.{with_sign, scaled_of, whole_of, pointed_of, magnitude_of, reading};
ghost use Rattle.nm_types.specs.LeafType.{decimal};

use crate::fault::ValueFault;
use crate::limits::meets_bounds;
use crate::numeral::{is_numeral, without_sign};
use crate::parts::Parts;
use crate::value::Value;

/// Where magnitudes stop growing: above every scaled value.
const TOP: u128 = 1 << 64;

// The number of digits behind those of `number`, at most TOP.
fn number_after(number: u128, digits: &[u8]) -> u128
    requires start { number ≤ 2 ^ 64 }
    requires digits { IsTrue (all_ascii_digits digits.now) }
    ensures { result ≡ min (digits_value_after 10 number digits.now) (2 ^ 64) }
{
    let mut number = number;
    for digit in digits {
        number = (number * 10 + u128::from(*digit - b'0')).min(TOP);
    }
    number
}

// A number with its digits moved to the left by some places, at most TOP.
fn moved_left(number: u128, places: usize) -> u128
    requires { number ≤ 2 ^ 64 }
    ensures { result ≡ min (number * 10 ^ places) (2 ^ 64) }
{
    let mut moved = number;
    for _place in 0..places {
        moved = (moved * 10).min(TOP);
    }
    moved
}

// The scaled value of whole digits and those behind the point, at most TOP.
fn scaled(digits: u8, whole: &[u8], part: &[u8]) -> Option<u128>
    requires whole { IsTrue (all_ascii_digits whole.now) }
    requires part { IsTrue (all_ascii_digits part.now) }
    ensures { result ≡ option_map (λ m. min m (2 ^ 64)) (scaled_of digits whole.now part.now) }
{
    let digits = usize::from(digits);
    let (kept, surplus) = part.split_at(part.len().min(digits));
    if !surplus.iter().all(|digit| *digit == b'0') {
        return None;
    }
    let number = number_after(number_after(0, whole), kept);
    Some(moved_left(number, digits - kept.len()))
}

// The scaled value of whole digits alone, at most TOP.
#[tactic(auto, unfolding(crate::specs::Reading::whole_of))]
fn whole_alone(digits: u8, whole: &str) -> Option<u128>
    ensures { result ≡ option_map (λ m. min m (2 ^ 64)) (whole_of digits whole.now) }
{
    if !is_numeral(whole) {
        return None;
    }
    scaled(digits, whole.as_bytes(), &[])
}

// The scaled value of whole digits and those behind a point, at most TOP.
#[tactic(auto, unfolding(crate::specs::Reading::pointed_of))]
fn pointed(digits: u8, whole: &str, part: &str) -> Option<u128>
    ensures { result ≡ option_map (λ m. min m (2 ^ 64)) (pointed_of digits whole.now part.now) }
{
    if !is_numeral(whole) || !is_numeral(part) {
        return None;
    }
    scaled(digits, whole.as_bytes(), part.as_bytes())
}

// The scaled value that a text without its sign spells, at most TOP.
fn magnitude(digits: u8, text: &str) -> Option<u128>
    ensures { result ≡ option_map (λ m. min m (2 ^ 64)) (magnitude_of digits text.now) }
{
    match text.split_once('.') {
        Some((whole, part)) => pointed(digits, whole, part),
        None => whole_alone(digits, text),
    }
}

// A magnitude with the sign that the text begins with.
fn signed(text: &str, magnitude: u128) -> i128
    requires { magnitude ≤ 2 ^ 64 }
    ensures { result ≡ with_sign text.now magnitude }
{
    let number = magnitude as i128;
    if text.starts_with('-') {
        -number
    } else {
        number
    }
}

// The value of a decimal type that a text spells.
pub(crate) fn read_decimal(
    digits: u8,
    range: &Option<Parts>,
    text: &str,
) -> Result<Value, ValueFault>
    ensures { result ≡ reading (record { kind = decimal digits; limits = range.now }) text.now }
{
    let Some(magnitude) = magnitude(digits, without_sign(text)) else {
        return Err(ValueFault::BadText);
    };
    let scaled = signed(text, magnitude);
    if !meets_bounds(&(i128::from(i64::MIN), i128::from(i64::MAX)), range, scaled) {
        return Err(ValueFault::OutOfRange);
    }
    Ok(Value::Decimal(scaled as i64, digits))
}
