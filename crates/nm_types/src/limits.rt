//! Numbers within the bounds of a type, and within its range or length.

ghost use Rattle.std.specs.Prelude.{◌≡◌, ◌&&◌};
ghost use Rattle.nm_types.specs.Limits.{is_within, meets_range};

use crate::parts::Parts;

// Whether a number is within a part of a range.
fn is_within(part: &(i128, i128), number: i128) -> bool
    ensures { result ≡ is_within number part.now }
{
    part.0 <= number && number <= part.1
}

/// Whether a number is within a range or a length, where there is one (RFC 7950 section 9.2.4).
pub fn meets_range(range: &Option<Parts>, number: i128) -> bool
    ensures { result ≡ meets_range range.now number }
{
    match range {
        Some(parts) => parts.has(number),
        None => true,
    }
}

// Whether a number is within the bounds of its type and within its range, where there is one.
pub(crate) fn meets_bounds(bounds: &(i128, i128), range: &Option<Parts>, number: i128) -> bool
    ensures { result ≡ is_within number bounds.now && meets_range range.now number }
{
    is_within(bounds, number) && meets_range(range, number)
}
