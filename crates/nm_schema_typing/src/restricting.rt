//! The restrictions that stand in a `type` statement.

ghost use Rattle.std.specs.Prelude.{◌≡◌, IfOk, OnOk, Some, None, slice_get, map};
ghost use Rattle.nm_schema_statements.specs.Rows.{has_word};
ghost use Rattle.nm_schema_statements.specs.Flaw.{text_of};
ghost use Rattle.nm_schema_statements.specs.declared.word.Word.TheVariants as word;
ghost use Rattle.nm_schema_typing.specs.Restricting as spec;

use nm_base::{Label, NoMemory};
use nm_schema_derive::{Listed, Restrictions};
use nm_schema_statements::{Rows, Word};
use std::alloc::Global;

// The argument of a row, if there is one.
pub(crate) fn argument_at(rows: &Rows, at: Option<usize>) -> Result<Option<Label>, NoMemory>
    ensures { IfOk result (λ found. found ≡ spec.argument_at rows.now at) }
{
    let Some(at) = at else {
        return Ok(None);
    };
    let Some(row) = rows.row(at) else {
        return Ok(None);
    };
    match &row.argument {
        None => Ok(None),
        Some(text) => Ok(Some(text.copy()?)),
    }
}

// The argument of a row, empty where there is none.
pub(crate) fn text_at(alloc: Global, rows: &Rows, at: usize) -> Result<Label, NoMemory>
    ensures { IfOk result (λ text. text ≡ text_of (spec.argument_at rows.now (Some at))) }
{
    match argument_at(rows, Some(at))? {
        None => Label::new(alloc, ""),
        Some(text) => Ok(text),
    }
}

// The argument of the first row with a word that stands directly in a row.
pub(crate) fn argument_below(
    rows: &Rows,
    at: usize,
    wanted: Word,
) -> Result<Option<Label>, NoMemory>
    ensures { IfOk result (λ found. found ≡ spec.argument_below rows.now at wanted) }
{
    argument_at(rows, rows.first_below(at, wanted))
}

pub(crate) fn has_word(rows: &Rows, at: usize, wanted: Word) -> bool
    ensures { result ≡ has_word wanted (slice_get rows.now at) }
{
    match rows.row(at) {
        None => false,
        Some(row) => row.word.same(wanted),
    }
}

// Those of some rows that have a word.
fn those_with(
    alloc: Global,
    rows: &Rows,
    wanted: Word,
    numbers: &[usize],
) -> Result<Vec<usize>, NoMemory>
    ensures { IfOk result (λ found. found.items ≡ spec.those_with rows.now wanted numbers.now) }
{
    let mut found = Vec::new(alloc);
    for number in numbers {
        if has_word(rows, *number, wanted) {
            found.push(*number)?;
        }
    }
    Ok(found)
}

// The rows with a word that stand directly in a row, in order.
#[tactic(auto, unfolding(crate::specs::Restricting::rows_with))]
pub(crate) fn rows_with(
    alloc: Global,
    rows: &Rows,
    at: usize,
    wanted: Word,
) -> Result<Vec<usize>, NoMemory>
    ensures { IfOk result (λ found. found.items ≡ spec.rows_with rows.now at wanted) }
{
    those_with(alloc, rows, wanted, rows.below(at))
}

// The `enum` or `bit` statement of a row.
#[tactic(auto, unfolding(crate::specs::Restricting::listed_at))]
fn listed_at(alloc: Global, rows: &Rows, number: Word, at: usize) -> Result<Listed, NoMemory>
    ensures { IfOk result (λ listed. listed ≡ spec.listed_at rows.now number at) }
{
    let name = text_at(alloc, rows, at)?;
    let number = argument_below(rows, at, number)?;
    Ok(Listed { name, number })
}

// The `enum` or `bit` statements of some rows.
pub(crate) fn listed_of(
    alloc: Global,
    rows: &Rows,
    number: Word,
    numbers: &[usize],
) -> Result<Vec<Listed>, NoMemory>
    ensures { IfOk result (λ listed. listed.items ≡ map (spec.listed_at rows.now number) numbers.now) }
{
    let mut listed = Vec::with_capacity(alloc, numbers.len())?;
    for at in numbers {
        listed.push(listed_at(alloc, rows, number, *at)?)?;
    }
    Ok(listed)
}

// The `enum` or `bit` statements that stand directly in a row.
fn listed_below(
    alloc: Global,
    rows: &Rows,
    at: usize,
    wanted: Word,
    number: Word,
) -> Result<Vec<Listed>, NoMemory>
    ensures { IfOk result (λ listed. listed.items ≡ map (spec.listed_at rows.now number) (spec.rows_with rows.now at wanted)) }
{
    let numbers = rows_with(alloc, rows, at, wanted)?;
    listed_of(alloc, rows, number, &numbers)
}

// Puts the arguments that restrict a type into its restrictions.
fn put_arguments(rows: &Rows, at: usize, restrictions: &mut Restrictions) -> Result<(), NoMemory>
    ensures digits { OnOk result (restrictions.new.digits ≡ spec.argument_below rows.now at word.FractionDigits) }
    ensures range { OnOk result (restrictions.new.range ≡ spec.argument_below rows.now at word.Range) }
    ensures longest { OnOk result (restrictions.new.length ≡ spec.argument_below rows.now at word.Length) }
{
    restrictions.digits = argument_below(rows, at, Word::FractionDigits)?;
    restrictions.range = argument_below(rows, at, Word::Range)?;
    restrictions.length = argument_below(rows, at, Word::Length)?;
    Ok(())
}

// Puts the `enum` and `bit` statements into its restrictions.
fn put_listed(
    alloc: Global,
    rows: &Rows,
    at: usize,
    restrictions: &mut Restrictions,
) -> Result<(), NoMemory>
    ensures names { OnOk result (restrictions.new.names.items ≡ map (spec.listed_at rows.now word.Value) (spec.rows_with rows.now at word.Enum)) }
    ensures bits { OnOk result (restrictions.new.bits.items ≡ map (spec.listed_at rows.now word.Position) (spec.rows_with rows.now at word.Bit)) }
    ensures digits { OnOk result (restrictions.new.digits ≡ restrictions.old.digits) }
    ensures range { OnOk result (restrictions.new.range ≡ restrictions.old.range) }
    ensures longest { OnOk result (restrictions.new.length ≡ restrictions.old.length) }
{
    restrictions.names = listed_below(alloc, rows, at, Word::Enum, Word::Value)?;
    restrictions.bits = listed_below(alloc, rows, at, Word::Bit, Word::Position)?;
    Ok(())
}

/// The restrictions that stand directly in a `type` statement, by its row's number (RFC 7950 section 7.4). There are
/// none past the last row.
#[tactic(auto, unfolding(crate::specs::Restricting::restrictions_of))]
pub fn restrictions_of(alloc: Global, rows: &Rows, at: usize) -> Result<Restrictions, NoMemory>
    ensures exact { IfOk result (λ restrictions. spec.restrictions_in restrictions ≡ spec.restrictions_of rows.now at) }
{
    let mut restrictions = Restrictions {
        digits: None,
        range: None,
        length: None,
        names: Vec::new(alloc),
        bits: Vec::new(alloc),
    };
    put_arguments(rows, at, &mut restrictions)?;
    put_listed(alloc, rows, at, &mut restrictions)?;
    Ok(restrictions)
}
