//! The one text that is written of a value (RFC 7950 section 9.1, the canonical form).

ghost use Rattle.std.specs.Prelude.{◌≡◌, ◌<◌, ◌++◌, ℕ, List, vec_len, IfOk, OnOk, string_bytes};
ghost use Rattle.std.specs.Str.{IsAscii};
ghost use Rattle.nm_types.specs.Canonical.{minus, padded, shortened, at_least_one, decimal_text, canonical, IsHeld};
ghost use Rattle.nm_types.specs.Spells.{SpellsValue, HasDistinctNames};

use crate::leaf_type::LeafType;
use crate::value::Value;
use itoa::Buffer;
use nm_base::{Label, NoMemory};
use std::alloc::{AllocError, Global};

// The digits of a magnitude with zeros before them, one more than the fraction digits at least.
fn padded(alloc: Global, magnitude: u64, digits: u8) -> Result<Vec<u8>, AllocError>
    ensures value { IfOk result (λ all. all.items ≡ padded digits magnitude) }
    ensures ascii { IfOk result (λ all. IsAscii all.items) }
    ensures long { IfOk result (λ all. digits < vec_len all) }
{
    let mut buffer = Buffer::new();
    let text = buffer.format(magnitude);
    let zeros = (usize::from(digits) + 1).saturating_sub(text.len());
    let mut all = vec![in alloc; b'0'; zeros]?;
    all.extend_from_slice(text.as_bytes())?;
    Ok(all)
}

// Digits without the zeros at their end.
fn shortened(digits: &[u8]) -> &[u8]
    ensures value { result.now ≡ shortened digits.now }
    ensures ascii { IsAscii digits.now → IsAscii result.now }
{
    let mut end = digits.len();
    while end > 0 && digits[end - 1] == b'0' {
        end -= 1;
    }
    &digits[..end]
}

// The digits that are printed behind the point.
fn part_digits(part: &[u8]) -> &[u8]
    ensures value { result.now ≡ at_least_one (shortened part.now) }
    ensures ascii { IsAscii part.now → IsAscii result.now }
{
    let digits = shortened(part);
    if digits.is_empty() { b"0" } else { digits }
}

// Puts digits at the end of a text.
fn push_digits(text: &mut String, digits: &[u8]) -> Result<(), AllocError>
    requires { IsAscii digits.now }
    ensures { OnOk result (string_bytes text.new ≡ string_bytes text.old ++ digits.now) }
{
    for digit in digits {
        text.push(char::from(*digit))?;
    }
    Ok(())
}

// The sign that is printed before a number.
fn sign(number: i64) -> &'static str
    ensures { result.now ≡ minus number }
{
    if number < 0 { "-" } else { "" }
}

// The canonical text of a decimal.
fn write_decimal(alloc: Global, scaled: i64, digits: u8) -> Result<Label, NoMemory>
    ensures { IfOk result (λ label. label ≡ decimal_text scaled digits) }
{
    let all = padded(alloc, scaled.unsigned_abs(), digits)?;
    let (whole, part) = all.split_at(all.len() - usize::from(digits));
    let mut text = String::from_str(alloc, sign(scaled))?;
    push_digits(&mut text, whole)?;
    text.push('.')?;
    push_digits(&mut text, part_digits(part))?;
    Label::new(alloc, text.as_str())
}

// The canonical text of a value, and that the value's number is one that it can hold.
#[tactic(auto, unfolding(crate::specs::Canonical::canonical))]
fn canonical_text(alloc: Global, value: &Value) -> Result<Label, NoMemory>
    ensures text { IfOk result (λ label. label ≡ canonical value.now) }
    ensures held { IsHeld value.now }
{
    match value {
        Value::Int(number) => {
            let mut buffer = Buffer::new();
            Label::new(alloc, buffer.format(*number))
        }
        Value::Decimal(scaled, digits) => write_decimal(alloc, *scaled, *digits),
        Value::Bool(true) => Label::new(alloc, "true"),
        Value::Bool(false) => Label::new(alloc, "false"),
        Value::Text(text) => text.copy(),
        Value::Name(name) => name.copy(),
        Value::Bits(names) => names.copy(),
        Value::Empty | Value::Present => Label::new(alloc, ""),
    }
}

/// The canonical text of a value of a type (RFC 7950 section 9).
///
/// It depends on the value alone: all spellings of a value have one canonical text.
pub fn write_value(alloc: Global, _leaf_type: &LeafType, value: &Value) -> Result<Label, NoMemory>
    ensures text { IfOk result (λ label. label ≡ canonical value.now) }
    // It spells the value where anything does; so it is read again as the value.
    ensures spells { IfOk result (λ label. (text : List ℕ) → HasDistinctNames _leaf_type.now.kind →
        SpellsValue _leaf_type.now.kind text value.now → SpellsValue _leaf_type.now.kind label value.now) }
{
    canonical_text(alloc, value)
}
