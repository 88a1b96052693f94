//! The parts of a range or a length: that they ascend, and that they lie within the base.

ghost use Rattle.std.specs.Prelude.{◌≡◌, ℤ, List, true, Some, map, option_map, All, IfOk, IfSome};
ghost use Rattle.nm_schema_derive.specs.Bound.{part_of};
ghost use Rattle.nm_types.specs.Parts.{is_ascending};
ghost use Rattle.nm_schema_derive.specs.Cover.{IsInside};
ghost use Rattle.nm_schema_derive.specs.Parts.{pieces, parts_from, parts_of, chosen, parts_read};

use crate::bound::part_of;
use crate::cover::covers_all;
use crate::form::NumberForm;
use nm_base::NoMemory;
use nm_types::Parts;
use nm_types::parts::is_ascending;
use std::alloc::{AllocError, Global};

// The pieces of a text, which `|` parts.
fn pieces(alloc: Global, text: &[u8]) -> Result<Vec<&[u8]>, AllocError>
    ensures { IfOk result (λ all. map (λ piece. piece.now) all.items ≡ pieces text.now) }
{
    text.split(|byte| *byte == b'|').collect(alloc)
}

// The parts that some pieces give.
fn parts_from(
    alloc: Global,
    form: &NumberForm,
    base: &[(i128, i128)],
    pieces: &[&[u8]],
) -> Result<Option<Vec<(i128, i128)>>, NoMemory>
    ensures { IfOk result (λ found. option_map (λ parts. parts.items) found ≡ parts_from form.now base.now (map (λ piece. piece.now) pieces.now)) }
{
    let mut parts = Vec::with_capacity(alloc, pieces.len())?;
    for piece in pieces {
        match part_of(form, base, piece) {
            Some(part) => parts.push(part)?,
            None => return Ok(None),
        }
    }
    Ok(Some(parts))
}

// The parts that a text gives.
#[tactic(auto, unfolding(crate::specs::Parts::parts_of))]
fn parts_of(
    alloc: Global,
    form: &NumberForm,
    base: &[(i128, i128)],
    text: &[u8],
) -> Result<Option<Vec<(i128, i128)>>, NoMemory>
    ensures { IfOk result (λ found. option_map (λ parts. parts.items) found ≡ parts_of form.now base.now text.now) }
{
    let pieces = pieces(alloc, text)?;
    parts_from(alloc, form, base, &pieces)
}

// Those parts, if they ascend and are within the base.
#[tactic(auto, unfolding(crate::specs::Parts::chosen))]
fn chosen(
    alloc: Global,
    base: &[(i128, i128)],
    parts: Vec<(i128, i128)>,
) -> Result<Option<Parts>, NoMemory>
    requires { is_ascending base.now ≡ true }
    ensures { IfOk result (λ found. found ≡ chosen base.now (Some parts.items)) }
{
    if !is_ascending(&parts) {
        return Ok(None);
    }
    if !covers_all(base, &parts) {
        return Ok(None);
    }
    Ok(Some(Parts::new(alloc, parts)?))
}

// The parts that a text makes of a base whose parts ascend.
#[tactic(auto, unfolding(crate::specs::Parts::parts_read, crate::specs::Parts::chosen))]
fn read(
    alloc: Global,
    form: &NumberForm,
    text: &[u8],
    base: &[(i128, i128)],
) -> Result<Option<Parts>, NoMemory>
    requires { is_ascending base.now ≡ true }
    ensures { IfOk result (λ found. found ≡ parts_read form.now base.now text.now) }
{
    match parts_of(alloc, form, base, text)? {
        Some(parts) => chosen(alloc, base, parts),
        None => Ok(None),
    }
}

// The parts of a range or a length that restricts another.
pub(crate) fn read_within(
    alloc: Global,
    form: &NumberForm,
    text: &str,
    base: &Parts,
) -> Result<Option<Parts>, NoMemory>
    ensures { IfOk result (λ found. found ≡ parts_read form.now base.now text.now) }
{
    read(alloc, form, text.as_bytes(), base.as_slice())
}

/// The parts of a range or a length that restricts a base (RFC 7950 sections 9.2.4 and 9.4.4).
///
/// A part is the lowest and the highest number of it; of decimals the numbers are scaled, and of lengths
/// they count characters. The base is the range or length along the derivation that is nearest, or what
/// the built-in type has: its own bounds, or 0 to 2^64 - 1 for a length.
///
/// `None` exactly where the text is no such range: a bound is no number, a part ends below its beginning
/// or begins at or below the end of the part before, or the base, whose parts ascend too, lacks a number.
#[tactic(auto, unfolding(crate::specs::Parts::parts_read))]
pub fn read_parts(
    alloc: Global,
    form: &NumberForm,
    text: &str,
    base: &[(i128, i128)],
) -> Result<Option<Parts>, NoMemory>
    // The answer as a function of the text.
    ensures exact { IfOk result (λ found. found ≡ parts_read form.now base.now text.now) }
    // What is answered ascends, is what the text gives, and each number of it is a number of the base.
    ensures given { IfOk result (λ found. IfSome found (λ parts. parts_of form.now base.now text.now ≡ Some parts)) }
    ensures ascending { IfOk result (λ found. IfSome found (λ parts. is_ascending parts ≡ true)) }
    ensures inside { IfOk result (λ found. IfSome found (λ parts. All (IsInside base.now) parts)) }
    // What the text gives is answered, if it ascends and each number of it is a number of the base.
    ensures found { (parts : List (ℤ × ℤ)) → is_ascending base.now ≡ true → parts_of form.now base.now text.now ≡ Some parts
        → is_ascending parts ≡ true → All (IsInside base.now) parts → IfOk result (λ found. found ≡ Some parts) }
{
    if !is_ascending(base) {
        return Ok(None);
    }
    read(alloc, form, text.as_bytes(), base)
}
