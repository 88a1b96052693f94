//! Numbers as ranges, lengths, values and positions write them: one reader for all of their forms.

ghost use Rattle.std.specs.Prelude.{◌≡◌, ◌≤◌, ◌^◌, ◌<◌, ℕ, length, IsTrue, IfSome};
ghost use Rattle.nm_base.specs.Decimal.{digits_after, number_of as digits_of};
ghost use Rattle.nm_schema_derive.specs.Form.{moved, moved_if, behind, fits_point, pointed_of, scaled_of, magnitude_of, signed_of, unsigned_of, may_be_signed, number_of, is_point};

use nm_base::read_decimal;

/// How the numbers of a range, a length, a value or a position are written (RFC 7950 section 14).
#[derive(Clone, Copy)]
pub enum NumberForm {
    /// An `integer-value`: of a range of integers, or of an enumeration.
    Integer,
    /// A `decimal-value` with at most so many digits behind the point. It is read scaled, as an integer.
    Decimal { digits: u8 },
    /// A `non-negative-integer-value`: of a length, or of a bit's position.
    Length,
}

/// The most fraction digits of a decimal64 (RFC 7950 section 9.3.4).
const MOST_DIGITS: u8 = 18;

// The number below 2^64 that more digits make of a number.
fn more_digits(number: u64, digits: &[u8]) -> Option<u64>
    ensures { result ≡ digits_after number digits.now }
{
    let mut value = number;
    for byte in digits {
        if !byte.is_ascii_digit() {
            return None;
        }
        value = value.checked_mul(10)?.checked_add(u64::from(*byte - b'0'))?;
    }
    Some(value)
}

// A number with its digits moved to the left by some places, below 2^64.
fn moved(number: u64, places: usize) -> Option<u64>
    ensures { result ≡ moved places number }
{
    let mut value = number;
    for _place in 0..places {
        value = value.checked_mul(10)?;
    }
    Some(value)
}

// Whether one to so many digits stand behind the point.
fn fits_point(digits: usize, part: &[u8]) -> bool
    ensures value { result ≡ fits_point digits part.now }
    ensures within { IsTrue result → length part.now ≤ digits }
{
    match part {
        [] => false,
        [_, rest @ ..] => rest.len() < digits,
    }
}

// The scaled value of whole digits and those behind the point.
#[tactic(auto, unfolding(crate::specs::Form::pointed_of))]
fn pointed(digits: usize, whole: &[u8], part: &[u8]) -> Option<u64>
    ensures { result ≡ pointed_of digits whole.now part.now }
{
    if !fits_point(digits, part) {
        return None;
    }
    let whole = read_decimal(whole)?;
    let number = more_digits(whole, part)?;
    moved(number, digits - part.len())
}

// The scaled value of whole digits alone.
fn whole(digits: usize, text: &[u8]) -> Option<u64>
    ensures { result ≡ moved_if digits (digits_of text.now) }
{
    match read_decimal(text) {
        Some(number) => moved(number, digits),
        None => None,
    }
}

// The scaled value that a text without its sign spells.
#[tactic(auto, unfolding(crate::specs::Form::scaled_of))]
fn scaled(digits: u8, text: &[u8]) -> Option<u64>
    ensures { result ≡ scaled_of digits text.now }
{
    if MOST_DIGITS < digits {
        return None;
    }
    let digits = usize::from(digits);
    match text.iter().position(|byte| *byte == b'.') {
        Some(place) => pointed(digits, &text[..place], &text[place + 1..]),
        None => whole(digits, text),
    }
}

// The magnitude that a text without its sign spells.
fn magnitude(form: &NumberForm, text: &[u8]) -> Option<u64>
    ensures { result ≡ magnitude_of form.now text.now }
{
    match form {
        NumberForm::Integer => read_decimal(text),
        NumberForm::Decimal { digits } => scaled(*digits, text),
        NumberForm::Length => read_decimal(text),
    }
}

// Whether numbers of a form may have a minus sign.
fn may_be_signed(form: &NumberForm) -> bool
    ensures { result ≡ may_be_signed form.now }
{
    match form {
        NumberForm::Integer => true,
        NumberForm::Decimal { .. } => true,
        NumberForm::Length => false,
    }
}

// The number behind a minus sign.
#[tactic(auto, unfolding(crate::specs::Form::signed_of))]
fn signed(form: &NumberForm, rest: &[u8]) -> Option<i128>
    ensures { result ≡ signed_of form.now rest.now }
{
    if !may_be_signed(form) {
        return None;
    }
    match magnitude(form, rest) {
        Some(number) => Some(-i128::from(number)),
        None => None,
    }
}

// The number without a sign.
#[tactic(auto, unfolding(crate::specs::Form::unsigned_of))]
fn unsigned(form: &NumberForm, text: &[u8]) -> Option<i128>
    ensures { result ≡ unsigned_of form.now text.now }
{
    match magnitude(form, text) {
        Some(number) => Some(i128::from(number)),
        None => None,
    }
}

/// The number that a text spells, and `None` where it has not the form or its magnitude takes more than
/// 64 bits, as no number of a type of RFC 7950 does.
pub(crate) fn read_number(form: &NumberForm, text: &[u8]) -> Option<i128>
    ensures { result ≡ number_of form.now text.now }
{
    match text {
        [] => None,
        [first, rest @ ..] => {
            if *first == b'-' {
                return signed(form, rest);
            }
            unsigned(form, text)
        }
    }
}
