//! All restrictions of a `type` statement, made one after the other: the order decides which fault is told.

ghost use Rattle.std.specs.Prelude.{◌≡◌, Result};
ghost use Rattle.nm_schema_derive.specs.declared.derived.StepFault.{StepFault};
ghost use Rattle.nm_schema_derive.specs.Built.{Derivation};
ghost use Rattle.nm_schema_derive.specs.Step.{Gives};
ghost use Rattle.nm_schema_derive.specs.Restricted.{digits_if, range_if, length_if, names_if, bits_if, then_range, then_length, then_names, then_bits, step};

use crate::derived::{Derived, StepFault};
use crate::members::Listed;
use nm_base::Label;
use std::alloc::Global;

/// The restrictions that stand in a `type` statement (RFC 7950 section 7.4).
#[derive(Drop)]
pub struct Restrictions {
    /// The argument of `fraction-digits`.
    pub digits: Option<Label>,
    /// The argument of `range`.
    pub range: Option<Label>,
    /// The argument of `length`.
    pub length: Option<Label>,
    /// The `enum` statements, in order.
    pub names: Vec<Listed>,
    /// The `bit` statements, in order.
    pub bits: Vec<Listed>,
}

// A type with fraction digits, if there are any.
fn digits_if(base: Derived, digits: &Option<Label>) -> Result<Derived, StepFault>
    ensures { Gives result (digits_if base digits.now) }
{
    match digits {
        Some(text) => base.with_digits(text.as_str()),
        None => Ok(base),
    }
}

// A type with a range, if there is one.
fn range_if(alloc: Global, base: Derived, range: &Option<Label>) -> Result<Derived, StepFault>
    ensures { Gives result (range_if base range.now) }
{
    match range {
        Some(text) => base.with_range(alloc, text.as_str()),
        None => Ok(base),
    }
}

// A type with a length, if there is one.
fn length_if(alloc: Global, base: Derived, length: &Option<Label>) -> Result<Derived, StepFault>
    ensures { Gives result (length_if base length.now) }
{
    match length {
        Some(text) => base.with_length(alloc, text.as_str()),
        None => Ok(base),
    }
}

// A type with the names of an enumeration, if there are any.
fn names_if(alloc: Global, base: Derived, names: &[Listed]) -> Result<Derived, StepFault>
    ensures { Gives result (names_if base names.now) }
{
    if names.is_empty() {
        return Ok(base);
    }
    base.with_names(alloc, names)
}

// A type with the names of bits, if there are any.
fn bits_if(alloc: Global, base: Derived, bits: &[Listed]) -> Result<Derived, StepFault>
    ensures { Gives result (bits_if base bits.now) }
{
    if bits.is_empty() {
        return Ok(base);
    }
    base.with_bits(alloc, bits)
}

// The step behind the names of an enumeration.
fn then_bits(
    alloc: Global,
    made: Result<Derived, StepFault>,
    restrictions: &Restrictions,
) -> Result<Derived, StepFault>
    ensures { (meant : Result Derivation StepFault) → Gives made meant → Gives result (then_bits restrictions.now meant) }
{
    match made {
        Ok(derived) => bits_if(alloc, derived, &restrictions.bits),
        Err(fault) => Err(fault),
    }
}

// The step behind the length.
fn then_names(
    alloc: Global,
    made: Result<Derived, StepFault>,
    restrictions: &Restrictions,
) -> Result<Derived, StepFault>
    ensures { (meant : Result Derivation StepFault) → Gives made meant → Gives result (then_names restrictions.now meant) }
{
    match made {
        Ok(derived) => then_bits(
            alloc,
            names_if(alloc, derived, &restrictions.names),
            restrictions,
        ),
        Err(fault) => Err(fault),
    }
}

// The step behind the range.
fn then_length(
    alloc: Global,
    made: Result<Derived, StepFault>,
    restrictions: &Restrictions,
) -> Result<Derived, StepFault>
    ensures { (meant : Result Derivation StepFault) → Gives made meant → Gives result (then_length restrictions.now meant) }
{
    match made {
        Ok(derived) => then_names(
            alloc,
            length_if(alloc, derived, &restrictions.length),
            restrictions,
        ),
        Err(fault) => Err(fault),
    }
}

// The step behind the fraction digits.
fn then_range(
    alloc: Global,
    made: Result<Derived, StepFault>,
    restrictions: &Restrictions,
) -> Result<Derived, StepFault>
    ensures { (meant : Result Derivation StepFault) → Gives made meant → Gives result (then_range restrictions.now meant) }
{
    match made {
        Ok(derived) => then_length(
            alloc,
            range_if(alloc, derived, &restrictions.range),
            restrictions,
        ),
        Err(fault) => Err(fault),
    }
}

/// The type that a `type` statement makes of the one that it names: the restrictions that stand in it,
/// fraction digits, range, length, names and bits one after the other.
///
/// A fault is that of the first of them that is refused; each alone answers for itself by the method of
/// `Derived` for it. What the type still lacks is no fault here (`Derived::lacks`).
pub fn step(alloc: Global, base: Derived, restrictions: &Restrictions) -> Result<Derived, StepFault>
    ensures exact { Gives result (step base restrictions.now) }
{
    then_range(alloc, digits_if(base, &restrictions.digits), restrictions)
}
