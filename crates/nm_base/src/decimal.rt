//! Numbers as digits, read and written: apart, since journals of names, tokens and texts all spell them alike.

ghost use Rattle.std.specs.Prelude.{◌≡◌, ℕ, ◌++◌, ◌<◌, ◌^◌, Some, IfSome, OnOk, OnErr, decimal};
ghost use Rattle.nm_base.specs.Decimal.{digits_after, number_of};

use crate::fault::NoMemory;
use itoa::Buffer;

/// Reads a number from digits, without a sign and without a leading zero, below 2^64.
///
/// `None` where the text is no such spelling.
pub fn read_decimal(text: &[u8]) -> Option<u64>
    ensures value { result ≡ number_of text.now }
    // What is read is the one spelling, and each spelling is read.
    ensures spelling { IfSome result (λ n. text.now ≡ decimal n) }
    ensures read_back { (n : ℕ) → n < 2 ^ 64 → text.now ≡ decimal n → result ≡ Some n }
{
    number(text)
}

#[tactic(auto, unfolding(crate::specs::Decimal::number_of))]
fn number(text: &[u8]) -> Option<u64>
    ensures { result ≡ number_of text.now }
{
    match text {
        [] => None,
        [b'0', _, ..] => None,
        _ => digits(text),
    }
}

// The value of digits alone.
fn digits(text: &[u8]) -> Option<u64>
    ensures { result ≡ digits_after 0 text.now }
{
    let mut value = 0u64;
    for byte in text {
        if !byte.is_ascii_digit() {
            return None;
        }
        value = value.checked_mul(10)?.checked_add(u64::from(*byte - b'0'))?;
    }
    Some(value)
}

/// Appends the digits of a number, which `read_decimal` reads back.
pub fn write_decimal(number: u64, to: &mut Vec<u8>) -> Result<(), NoMemory>
    ensures ok { OnOk result (to.new.items ≡ to.old.items ++ decimal number) }
    ensures err { OnErr result (to.new.items ≡ to.old.items) }
{
    let mut buffer = Buffer::new();
    to.extend_from_slice(buffer.format(number).as_bytes())?;
    Ok(())
}
