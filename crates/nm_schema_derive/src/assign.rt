//! The numbers of the names in an enumeration or a bits type: given, those of the base, or the next ones (RFC 7950 sections
//! 9.6.4.2 and 9.7.4.2).

ghost use Rattle.std.specs.Prelude.{◌≡◌, Some, None, IfOk, map, option_map};
ghost use Rattle.nm_types.specs.Spells.{IsOnce};
ghost use Rattle.nm_schema_derive.specs.Kinds.{member_name};
ghost use Rattle.nm_schema_derive.specs.Members.{form_of, between, within, given_number, own_number, based_number, number_for, members_of, listed_name, Gives};

use crate::form::{NumberForm, read_number};
use crate::members::{ListFault, ListFlaw, Listed, Numbering};
use crate::taken::Taken;
use nm_base::Label;
use std::alloc::Global;

// How the numbers of a numbering are written.
fn form_of(numbering: &Numbering) -> NumberForm
    ensures { result ≡ form_of numbering.now }
{
    match numbering {
        Numbering::Values => NumberForm::Integer,
        Numbering::Positions => NumberForm::Length,
    }
}

// A number that is from one to another.
#[tactic(auto, unfolding(crate::specs::Members::between))]
fn between(low: i64, high: i64, number: i128) -> Option<i64>
    ensures { result ≡ between (low, high) number }
{
    if number < i128::from(low) {
        return None;
    }
    if i128::from(high) < number {
        return None;
    }
    Some(number as i64)
}

// A number that is within the limits of a numbering.
fn within(numbering: &Numbering, number: i128) -> Option<i64>
    ensures { result ≡ within numbering.now number }
{
    match numbering {
        Numbering::Values => between(-2147483648, 2147483647, number),
        Numbering::Positions => between(0, 4294967295, number),
    }
}

// The number that a text gives.
#[tactic(auto, unfolding(crate::specs::Members::given_number))]
fn given_number(numbering: &Numbering, text: &Label) -> Option<i64>
    ensures { result ≡ given_number numbering.now text.now }
{
    match read_number(&form_of(numbering), text.as_str().as_bytes()) {
        Some(number) => within(numbering, number),
        None => None,
    }
}

// The number of a statement of a type that restricts no other.
fn own_number(
    numbering: &Numbering,
    before: &Taken,
    number: &Option<Label>,
) -> Result<i64, ListFlaw>
    ensures { result ≡ own_number numbering.now before.now number.now }
{
    match number {
        Some(text) => match given_number(numbering, text) {
            Some(given) => {
                if before.has_number(given) {
                    return Err(ListFlaw::NumberRepeated);
                }
                Ok(given)
            }
            None => Err(ListFlaw::BadNumber),
        },
        None => match within(numbering, before.next()) {
            Some(next) => Ok(next),
            None => Err(ListFlaw::NoNumberLeft),
        },
    }
}

// The number of a statement whose name has one in the type that is restricted.
fn based_number(numbering: &Numbering, base: i64, number: &Option<Label>) -> Result<i64, ListFlaw>
    ensures { result ≡ based_number numbering.now (Some base) number.now }
{
    match number {
        Some(text) => match given_number(numbering, text) {
            Some(given) => {
                if given == base {
                    return Ok(base);
                }
                Err(ListFlaw::OtherThanBase)
            }
            None => Err(ListFlaw::BadNumber),
        },
        None => Ok(base),
    }
}

// The number of a statement after others.
#[tactic(auto, unfolding(crate::specs::Members::number_for))]
fn number_for(
    numbering: &Numbering,
    base: Option<&Taken>,
    before: &Taken,
    listed: &Listed,
) -> Result<i64, ListFlaw>
    ensures { result ≡ number_for numbering.now (option_map (λ members. members.now) base.entry) before.now listed.now }
{
    if before.number_in(&listed.name).is_some() {
        return Err(ListFlaw::NameRepeated);
    }
    match base {
        None => own_number(numbering, before, &listed.number),
        Some(members) => match members.number_in(&listed.name) {
            None => Err(ListFlaw::NotInBase),
            Some(number) => based_number(numbering, number, &listed.number),
        },
    }
}

// The members that statements make.
fn members_of(
    alloc: Global,
    numbering: &Numbering,
    base: Option<&Taken>,
    statements: &[Listed],
) -> Result<Taken, ListFault>
    ensures { Gives result (members_of numbering.now (option_map (λ members. members.now) base.entry) statements.now) }
{
    let mut taken = Taken::new(alloc);
    for listed in statements {
        match number_for(numbering, base, &taken, listed) {
            Ok(number) => taken = taken.with(&listed.name, number)?,
            Err(flaw) => {
                return Err(ListFault::Flawed {
                    at: taken.len(),
                    flaw,
                });
            }
        }
    }
    Ok(taken)
}

/// The names and the numbers of an enumeration or of bits, from its `enum` or `bit` statements in order
/// (RFC 7950 sections 9.6.4 and 9.7.4).
///
/// A statement without a number has one above the highest before it, and the first has 0. The first
/// statement with a flaw answers, and of its flaws a repeated name before one of the number.
pub fn numbered(
    alloc: Global,
    numbering: &Numbering,
    statements: &[Listed],
) -> Result<Taken, ListFault>
    ensures exact { Gives result (members_of numbering.now None statements.now) }
    // The names are those of the statements, and no two are one (RFC 7950 sections 9.6.4 and 9.7.4).
    ensures named { IfOk result (λ members. map member_name members ≡ map listed_name statements.now) }
    ensures once { IfOk result (λ members. IsOnce (map member_name members)) }
{
    members_of(alloc, numbering, None, statements)
}

/// The names and the numbers of an enumeration or of bits that restricts another to some of its names
/// (RFC 7950 sections 9.6.4 and 9.7.4).
///
/// A statement without a number has that of its name in the base, and one with a number has the same.
/// The first statement with a flaw answers.
pub fn restricted(
    alloc: Global,
    numbering: &Numbering,
    base: &Taken,
    statements: &[Listed],
) -> Result<Taken, ListFault>
    ensures exact { Gives result (members_of numbering.now (Some base.now) statements.now) }
    // The names are those of the statements, and no two are one (RFC 7950 sections 9.6.4 and 9.7.4).
    ensures named { IfOk result (λ members. map member_name members ≡ map listed_name statements.now) }
    ensures once { IfOk result (λ members. IsOnce (map member_name members)) }
{
    members_of(alloc, numbering, Some(base), statements)
}
