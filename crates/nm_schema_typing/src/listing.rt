//! What is wrong with the `enum` and `bit` statements of types.

ghost use Rattle.std.specs.Prelude.{◌≡◌, ℕ, List, Option, Result, Some, None, IfOk, map, slice_get, slice_index_or};
ghost use Rattle.nm_schema_derive.specs.Built.{Derivation};
ghost use Rattle.nm_schema_derive.specs.Step.{Gives};
ghost use Rattle.nm_schema_derive.specs.declared.derived.StepFault.{StepFault};
ghost use Rattle.nm_schema_derive.specs.declared.members.Numbering.TheVariants.{Values, Positions};
ghost use Rattle.nm_schema_statements.specs.declared.flaw.Flaw.TheVariants.{BadArgument, Duplicate};
ghost use Rattle.nm_schema_statements.specs.declared.row.Row.{Row};
ghost use Rattle.nm_schema_statements.specs.Flaw.{text_of};
ghost use Rattle.nm_schema_typing.specs.Flaws.{AreMeanings};
ghost use Rattle.nm_schema_typing.specs.Restricting.{listed_at};
ghost use Rattle.nm_schema_typing.specs.Listing as spec;

use crate::flaws::base_above;
use crate::restricting::{listed_of, rows_with};
use crate::types::Types;
use nm_base::{Label, NoMemory};
use nm_schema_derive::{Derived, ListFlaw, Listed, Numbering, StepFault};
use nm_schema_statements::{Flaw, Row, Rows, Word};
use std::alloc::Global;

/// What is wrong with the `enum` or the `bit` statements of a type.
#[derive(Clone, Copy)]
pub enum Judged {
    Fine,
    /// The type that is restricted takes none.
    Misplaced,
    /// The row of the first that is flawed, and its flaw.
    Flawed { row: usize, flaw: ListFlaw },
}

/// What is wrong with the `enum` statements and with the `bit` statements of a type.
#[derive(Clone, Copy)]
pub struct Judgement {
    pub names: Judged,
    pub bits: Judged,
}

fn lister(numbering: &Numbering) -> Word
    ensures { result ≡ spec.lister numbering.now }
{
    match numbering {
        Numbering::Values => Word::Enum,
        Numbering::Positions => Word::Bit,
    }
}

fn numberer(numbering: &Numbering) -> Word
    ensures { result ≡ spec.numberer numbering.now }
{
    match numbering {
        Numbering::Values => Word::Value,
        Numbering::Positions => Word::Position,
    }
}

// A type with names.
fn with_listed(
    alloc: Global,
    numbering: &Numbering,
    base: Derived,
    statements: &[Listed],
) -> Result<Derived, StepFault>
    ensures { Gives result (spec.with_listed numbering.now base statements.now) }
{
    if statements.is_empty() {
        return Ok(base);
    }
    match numbering {
        Numbering::Values => base.with_names(alloc, statements),
        Numbering::Positions => base.with_bits(alloc, statements),
    }
}

// What is wrong with the statements of some rows, by the step with them.
fn judged_of(numbers: &[usize], made: Result<Derived, StepFault>) -> Result<Judged, NoMemory>
    ensures { (given : Result Derivation StepFault) → Gives made given → IfOk result (λ judged. judged ≡ spec.judged_of numbers.now given) }
{
    match made {
        Ok(_) => Ok(Judged::Fine),
        Err(StepFault::Misplaced) => Ok(Judged::Misplaced),
        Err(StepFault::BadArgument) => Ok(Judged::Fine),
        Err(StepFault::Listed { at, flaw }) => {
            if at >= numbers.len() {
                return Ok(Judged::Fine);
            }
            Ok(Judged::Flawed {
                row: numbers[at],
                flaw,
            })
        }
        Err(StepFault::NoMemory) => Err(NoMemory),
    }
}

// The type that the `enum` or `bit` statements of some rows make of another.
fn made_of(
    alloc: Global,
    rows: &Rows,
    numbers: &[usize],
    numbering: &Numbering,
    base: &Derived,
) -> Result<Derived, StepFault>
    ensures { Gives result (spec.with_listed numbering.now base.now (map (listed_at rows.now (spec.numberer numbering.now)) numbers.now)) }
{
    let listed = listed_of(alloc, rows, numberer(numbering), numbers)?;
    with_listed(alloc, numbering, base.copy()?, &listed)
}

// What is wrong with the `enum` or `bit` statements in a row, if they restrict a type.
#[tactic(auto, unfolding(crate::specs::Listing::judged_on))]
fn judged_on(
    alloc: Global,
    rows: &Rows,
    at: usize,
    numbering: &Numbering,
    base: &Derived,
) -> Result<Judged, NoMemory>
    ensures { IfOk result (λ judged. judged ≡ spec.judged_on rows.now at numbering.now base.now) }
{
    let numbers = rows_with(alloc, rows, at, lister(numbering))?;
    if numbers.is_empty() {
        return Ok(Judged::Fine);
    }
    judged_of(&numbers, made_of(alloc, rows, &numbers, numbering, base))
}

// What is wrong with those in a row, if they restrict a type.
fn judgement_on(
    alloc: Global,
    rows: &Rows,
    at: usize,
    base: &Derived,
) -> Result<Judgement, NoMemory>
    ensures { IfOk result (λ judgement. judgement
        ≡ record { names = spec.judged_on rows.now at Values base.now; bits = spec.judged_on rows.now at Positions base.now }) }
{
    let names = judged_on(alloc, rows, at, &Numbering::Values, base)?;
    let bits = judged_on(alloc, rows, at, &Numbering::Positions, base)?;
    Ok(Judgement { names, bits })
}

// What is wrong with those in the `type` statement of a row, if it is one.
#[tactic(auto, unfolding(crate::specs::Listing::judgement_at, crate::specs::Listing::judged_at))]
fn judgement_at(
    alloc: Global,
    rows: &Rows,
    typedefs: &[Option<usize>],
    types: &Types,
    at: usize,
) -> Result<Judgement, NoMemory>
    requires meanings { AreMeanings rows.now typedefs.now types.now.meanings }
    ensures { IfOk result (λ judgement. judgement ≡ spec.judgement_at rows.now typedefs.now at) }
{
    match base_above(alloc, rows, typedefs, types, Some(at))? {
        None => Ok(Judgement {
            names: Judged::Fine,
            bits: Judged::Fine,
        }),
        Some(base) => judgement_on(alloc, rows, at, &base),
    }
}

/// What is wrong with the `enum` and `bit` statements of each row that is a `type` statement, one place for each row.
pub fn judgements_of(
    alloc: Global,
    rows: &Rows,
    typedefs: &[Option<usize>],
    types: &Types,
) -> Result<Vec<Judgement>, NoMemory>
    requires meanings { AreMeanings rows.now typedefs.now types.now.meanings }
    ensures exact { IfOk result (λ judgements. spec.AreJudgements rows.now typedefs.now judgements.items) }
{
    let mut judgements = Vec::with_capacity(alloc, rows.len())?;
    for at in 0..rows.len() {
        judgements.push(judgement_at(alloc, rows, typedefs, types, at)?)?;
    }
    Ok(judgements)
}

// The argument of a row, empty where there is none.
fn argument_text(alloc: Global, row: &Row) -> Result<Label, NoMemory>
    ensures { IfOk result (λ text. text ≡ text_of row.now.argument) }
{
    match &row.argument {
        None => Label::new(alloc, ""),
        Some(text) => text.copy(),
    }
}

// A second one of a name or a number, by the text of the statement.
fn duplicate(alloc: Global, row: &Row) -> Result<Option<Flaw>, NoMemory>
    ensures { IfOk result (λ found. found ≡ Some (Duplicate (text_of row.now.argument))) }
{
    Ok(Some(Flaw::Duplicate(argument_text(alloc, row)?)))
}

// A bad argument, by the keyword of the statement.
pub(crate) fn bad_argument(row: &Row) -> Result<Option<Flaw>, NoMemory>
    ensures { IfOk result (λ found. found ≡ Some (BadArgument row.now.keyword)) }
{
    Ok(Some(Flaw::BadArgument(row.keyword.copy()?)))
}

// A flaw told at the `enum` or `bit` statement itself.
fn own_flaw(
    alloc: Global,
    row: &Row,
    numbered: bool,
    flaw: ListFlaw,
) -> Result<Option<Flaw>, NoMemory>
    ensures { IfOk result (λ found. found ≡ spec.own_flaw row.now numbered flaw) }
{
    match flaw {
        ListFlaw::NameRepeated => duplicate(alloc, row),
        ListFlaw::NumberRepeated => {
            if numbered {
                return Ok(None);
            }
            duplicate(alloc, row)
        }
        ListFlaw::BadNumber => Ok(None),
        ListFlaw::OtherThanBase => Ok(None),
        ListFlaw::NoNumberLeft => bad_argument(row),
        ListFlaw::NotInBase => bad_argument(row),
    }
}

fn lister_flaw(
    alloc: Global,
    at: usize,
    row: &Row,
    numbered: bool,
    judged: &Judged,
) -> Result<Option<Flaw>, NoMemory>
    ensures { IfOk result (λ found. found ≡ spec.lister_flaw at row.now numbered judged.now) }
{
    match judged {
        Judged::Fine => Ok(None),
        Judged::Misplaced => Ok(Some(Flaw::Unknown(row.keyword.copy()?))),
        Judged::Flawed { row: flawed, flaw } => {
            if *flawed == at {
                return own_flaw(alloc, row, numbered, *flaw);
            }
            Ok(None)
        }
    }
}

// A flaw told at the `value` or `position` statement.
fn number_flaw(alloc: Global, row: &Row, flaw: ListFlaw) -> Result<Option<Flaw>, NoMemory>
    ensures { IfOk result (λ found. found ≡ spec.number_flaw row.now flaw) }
{
    match flaw {
        ListFlaw::NameRepeated => Ok(None),
        ListFlaw::NumberRepeated => duplicate(alloc, row),
        ListFlaw::BadNumber => bad_argument(row),
        ListFlaw::OtherThanBase => bad_argument(row),
        ListFlaw::NoNumberLeft => Ok(None),
        ListFlaw::NotInBase => Ok(None),
    }
}

fn numberer_flaw(
    alloc: Global,
    above: usize,
    row: &Row,
    judged: &Judged,
) -> Result<Option<Flaw>, NoMemory>
    ensures { IfOk result (λ found. found ≡ spec.numberer_flaw above row.now judged.now) }
{
    match judged {
        Judged::Fine => Ok(None),
        Judged::Misplaced => Ok(None),
        Judged::Flawed { row: flawed, flaw } => {
            if *flawed == above {
                return number_flaw(alloc, row, *flaw);
            }
            Ok(None)
        }
    }
}

// The judgement of a row, and that nothing is wrong past the last.
fn judgement_or_fine(judgements: &[Judgement], at: usize) -> Judgement
    ensures { result ≡ slice_index_or judgements.now at spec.all_fine }
{
    if at >= judgements.len() {
        return Judgement {
            names: Judged::Fine,
            bits: Judged::Fine,
        };
    }
    judgements[at]
}

// What is wrong with the `enum` or `bit` statements in the row above.
fn judged_above(judgements: &[Judgement], numbering: &Numbering, parent: Option<usize>) -> Judged
    ensures { (rows : List Row) (typedefs : List (Option ℕ)) → spec.AreJudgements rows typedefs judgements.now
        → result ≡ spec.judged_above rows typedefs numbering.now parent }
{
    match parent {
        None => Judged::Fine,
        Some(at) => match numbering {
            Numbering::Values => judgement_or_fine(judgements, at).names,
            Numbering::Positions => judgement_or_fine(judgements, at).bits,
        },
    }
}

fn parent_of(rows: &Rows, at: usize) -> Option<usize>
    ensures { result ≡ spec.parent_in (slice_get rows.now at) }
{
    match rows.row(at) {
        None => None,
        Some(row) => row.parent,
    }
}

// The flaw of an `enum` or `bit` statement.
fn flaw_of_lister(
    alloc: Global,
    rows: &Rows,
    judgements: &[Judgement],
    at: usize,
    row: &Row,
    numbering: &Numbering,
) -> Result<Option<Flaw>, NoMemory>
    ensures { (typedefs : List (Option ℕ)) → spec.AreJudgements rows.now typedefs judgements.now
        → IfOk result (λ found. found ≡ spec.flaw_of_lister rows.now typedefs at row.now numbering.now) }
{
    let numbered = rows.first_below(at, numberer(numbering)).is_some();
    let judged = judged_above(judgements, numbering, row.parent);
    lister_flaw(alloc, at, row, numbered, &judged)
}

pub(crate) fn is_at(number: Option<usize>, at: usize) -> bool
    ensures { result ≡ spec.is_at number at }
{
    match number {
        None => false,
        Some(number) => number == at,
    }
}

// The flaw of a `value` or `position` statement.
fn flaw_of_numberer(
    alloc: Global,
    rows: &Rows,
    judgements: &[Judgement],
    at: usize,
    row: &Row,
    numbering: &Numbering,
) -> Result<Option<Flaw>, NoMemory>
    ensures { (typedefs : List (Option ℕ)) → spec.AreJudgements rows.now typedefs judgements.now
        → IfOk result (λ found. found ≡ spec.flaw_of_numberer rows.now typedefs at row.now numbering.now row.now.parent) }
{
    let Some(above) = row.parent else {
        return Ok(None);
    };
    if !is_at(rows.first_below(above, numberer(numbering)), at) {
        return Ok(None);
    }
    let judged = judged_above(judgements, numbering, parent_of(rows, above));
    numberer_flaw(alloc, above, row, &judged)
}

/// What is wrong with an `enum`, `bit`, `value` or `position` statement, by its row's number. None for other rows.
///
/// A type that takes no such statement makes each `enum` and `bit` unknown. Else the first that is flawed has the flaw: a name or a
/// number that is there twice is Duplicate, by its text; a number that is none, that is another than the base's or that is
/// missing with none left, and a name that the base lacks, are bad arguments.
#[tactic(auto, unfolding(crate::specs::Listing::listed_flaw))]
pub(crate) fn listed_flaw(
    alloc: Global,
    rows: &Rows,
    judgements: &[Judgement],
    at: usize,
) -> Result<Option<Flaw>, NoMemory>
    ensures exact { (typedefs : List (Option ℕ)) → spec.AreJudgements rows.now typedefs judgements.now
        → IfOk result (λ found. found ≡ spec.listed_flaw rows.now typedefs at) }
{
    let Some(row) = rows.row(at) else {
        return Ok(None);
    };
    match row.word {
        Word::Enum => flaw_of_lister(alloc, rows, judgements, at, row, &Numbering::Values),
        Word::Bit => flaw_of_lister(alloc, rows, judgements, at, row, &Numbering::Positions),
        Word::Value => flaw_of_numberer(alloc, rows, judgements, at, row, &Numbering::Values),
        Word::Position => {
            flaw_of_numberer(alloc, rows, judgements, at, row, &Numbering::Positions)
        }
        _ => Ok(None),
    }
}
