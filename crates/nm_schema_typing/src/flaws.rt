//! What is wrong with the restrictions of types.

ghost use Rattle.std.specs.Prelude.{◌≡◌, Result, Some, None, IfOk, option_map};
ghost use Rattle.std.specs.Arc.{arc_value};
ghost use Rattle.nm_schema_statements.specs.Word.{word_text};
ghost use Rattle.nm_schema_derive.specs.Built.{Derivation};
ghost use Rattle.nm_schema_derive.specs.Step.{Gives, with_digits};
ghost use Rattle.nm_schema_derive.specs.declared.derived.StepFault.{StepFault};
ghost use Rattle.nm_schema_typing.specs.Meaning.{bare, built_in_named};
ghost use Rattle.nm_schema_typing.specs.Flaws as spec;

use crate::edges::named_typedef;
use crate::leafref::{has_predicate, read_path};
use crate::meaning::{built_in_named, is_leafref};
use crate::restricting::{argument_below, has_word};
use crate::types::Types;
use nm_base::{Label, NoMemory};
use nm_schema_derive::{Derived, Lacking, StepFault};
use nm_schema_statements::{Flaw, Row, Rows, Word};
use std::alloc::Global;
use std::sync::Arc;

// The built-in type that a row names, before any restriction.
fn built_in_base(alloc: Global, rows: &Rows, at: usize) -> Result<Option<Arc<Derived>>, NoMemory>
    ensures { IfOk result (λ base. option_map (λ derived. arc_value derived) base ≡ option_map bare (built_in_named rows.now at)) }
{
    match built_in_named(rows, at)? {
        None => Ok(None),
        Some(built_in) => Ok(Some(Arc::new(alloc, Derived::of_built_in(&built_in))?)),
    }
}

// The type that a `type` statement restricts.
#[tactic(auto, unfolding(crate::specs::Flaws::base_of))]
fn base_of(
    alloc: Global,
    rows: &Rows,
    typedefs: &[Option<usize>],
    types: &Types,
    at: usize,
) -> Result<Option<Arc<Derived>>, NoMemory>
    requires meanings { spec.AreMeanings rows.now typedefs.now types.now.meanings }
    ensures { IfOk result (λ base. option_map (λ derived. arc_value derived) base ≡ spec.base_of rows.now typedefs.now at) }
{
    let Some(typedef) = named_typedef(rows, typedefs, at) else {
        return built_in_base(alloc, rows, at);
    };
    match types.meaning(typedef) {
        None => Ok(None),
        Some(meaning) => Ok(Some(meaning.to_restrict(alloc)?)),
    }
}

// The type that what stands in a `type` statement restricts.
#[tactic(auto, unfolding(crate::specs::Flaws::base_above))]
pub(crate) fn base_above(
    alloc: Global,
    rows: &Rows,
    typedefs: &[Option<usize>],
    types: &Types,
    parent: Option<usize>,
) -> Result<Option<Arc<Derived>>, NoMemory>
    requires meanings { spec.AreMeanings rows.now typedefs.now types.now.meanings }
    ensures { IfOk result (λ base. option_map (λ derived. arc_value derived) base ≡ spec.base_above rows.now typedefs.now parent) }
{
    let Some(at) = parent else {
        return Ok(None);
    };
    if !has_word(rows, at, Word::Type) {
        return Ok(None);
    }
    base_of(alloc, rows, typedefs, types, at)
}

// The flaw of a restriction, by its keyword.
fn flaw_on(keyword: &Label, made: Result<Derived, StepFault>) -> Result<Option<Flaw>, NoMemory>
    ensures { (given : Result Derivation StepFault) → Gives made given → IfOk result (λ flaw. flaw ≡ spec.flaw_on keyword.now given) }
{
    match made {
        Ok(_) => Ok(None),
        Err(StepFault::Misplaced) => Ok(Some(Flaw::Unknown(keyword.copy()?))),
        Err(StepFault::BadArgument) => Ok(Some(Flaw::BadArgument(keyword.copy()?))),
        Err(StepFault::Listed { .. }) => Ok(None),
        Err(StepFault::NoMemory) => Err(NoMemory),
    }
}

// The type that fraction digits make, and the type itself where they are refused.
fn digits_kept(base: &Derived, digits: &str) -> Result<Derived, NoMemory>
    ensures { IfOk result (λ derived. derived ≡ spec.kept base.now (with_digits base.now digits.now)) }
{
    match base.copy()?.with_digits(digits) {
        Ok(derived) => Ok(derived),
        Err(StepFault::NoMemory) => Err(NoMemory),
        Err(_) => base.copy(),
    }
}

// A type with its fraction digits, if they stand in a row.
#[tactic(auto, unfolding(crate::specs::Flaws::after_digits))]
fn after_digits(rows: &Rows, parent: Option<usize>, base: &Derived) -> Result<Derived, NoMemory>
    ensures { IfOk result (λ derived. derived ≡ spec.after_digits rows.now parent base.now) }
{
    let Some(at) = parent else {
        return base.copy();
    };
    match argument_below(rows, at, Word::FractionDigits)? {
        None => base.copy(),
        Some(digits) => digits_kept(base, digits.as_str()),
    }
}

// The flaw of the restriction of a row.
fn restriction_on(
    alloc: Global,
    rows: &Rows,
    row: &Row,
    text: &str,
    base: &Derived,
) -> Result<Option<Flaw>, NoMemory>
    ensures { IfOk result (λ flaw. flaw ≡ spec.flaw_on row.now.keyword (spec.restricted_by rows.now row.now text.now base.now row.now.word)) }
{
    match row.word {
        Word::Range => {
            let derived = after_digits(rows, row.parent, base)?;
            flaw_on(&row.keyword, derived.with_range(alloc, text))
        }
        Word::Length => flaw_on(&row.keyword, base.copy()?.with_length(alloc, text)),
        Word::FractionDigits => flaw_on(&row.keyword, base.copy()?.with_digits(text)),
        _ => Ok(None),
    }
}

/// What is wrong with a `range`, `length` or `fraction-digits` statement in a `type` statement: the type takes no such
/// restriction, which is then unknown, or refuses the argument. None for other rows, and where the type that is
/// restricted has no meaning.
#[tactic(auto, unfolding(crate::specs::Flaws::restriction_flaw))]
pub(crate) fn restriction_flaw(
    alloc: Global,
    rows: &Rows,
    typedefs: &[Option<usize>],
    types: &Types,
    row: &Row,
) -> Result<Option<Flaw>, NoMemory>
    requires meanings { spec.AreMeanings rows.now typedefs.now types.now.meanings }
    ensures exact { IfOk result (λ flaw. flaw ≡ spec.restriction_flaw rows.now typedefs.now row.now) }
{
    let Some(text) = &row.argument else {
        return Ok(None);
    };
    match base_above(alloc, rows, typedefs, types, row.parent)? {
        None => Ok(None),
        Some(base) => restriction_on(alloc, rows, row, text.as_str(), &base),
    }
}

// Whether a `type` statement is that of the built-in leafref.
#[tactic(auto, unfolding(crate::specs::Flaws::takes_path))]
fn takes_path(rows: &Rows, typedefs: &[Option<usize>], at: usize) -> Result<bool, NoMemory>
    ensures { IfOk result (λ takes. takes ≡ spec.takes_path rows.now typedefs.now at) }
{
    if named_typedef(rows, typedefs, at).is_some() {
        return Ok(false);
    }
    match built_in_named(rows, at)? {
        None => Ok(false),
        Some(built_in) => Ok(is_leafref(&built_in)),
    }
}

// The name of a keyword.
fn word_label(alloc: Global, word: Word) -> Result<Label, NoMemory>
    ensures { IfOk result (λ label. label ≡ word_text word) }
{
    Label::new(alloc, word.text())
}

// What is wrong with the text of a path.
#[tactic(auto, unfolding(crate::specs::Flaws::path_form))]
fn path_form(alloc: Global, text: &str) -> Result<Option<Flaw>, NoMemory>
    ensures { IfOk result (λ flaw. flaw ≡ spec.path_form text.now) }
{
    if has_predicate(text) {
        return Ok(Some(Flaw::Unsupported(word_label(alloc, Word::Path)?)));
    }
    match read_path(alloc, text)? {
        None => Ok(Some(Flaw::BadArgument(word_label(alloc, Word::Path)?))),
        Some(_) => Ok(None),
    }
}

/// What is wrong with a `path` statement in a `type` statement: it has its place in the built-in leafref alone, a
/// predicate is left out, and the argument must be a path. None where the type has no meaning.
#[tactic(auto, unfolding(crate::specs::Flaws::path_flaw))]
pub(crate) fn path_flaw(
    alloc: Global,
    rows: &Rows,
    typedefs: &[Option<usize>],
    types: &Types,
    row: &Row,
) -> Result<Option<Flaw>, NoMemory>
    requires meanings { spec.AreMeanings rows.now typedefs.now types.now.meanings }
    ensures exact { IfOk result (λ flaw. flaw ≡ spec.path_flaw rows.now typedefs.now row.now) }
{
    let Some(at) = row.parent else {
        return Ok(None);
    };
    let Some(text) = &row.argument else {
        return Ok(None);
    };
    if base_above(alloc, rows, typedefs, types, Some(at))?.is_none() {
        return Ok(None);
    }
    if takes_path(rows, typedefs, at)? {
        return path_form(alloc, text.as_str());
    }
    Ok(Some(Flaw::Unknown(word_label(alloc, Word::Path)?)))
}

fn word_lacking(lacking: Lacking) -> Word
    ensures { result ≡ spec.word_lacking lacking }
{
    match lacking {
        Lacking::FractionDigits => Word::FractionDigits,
        Lacking::Enum => Word::Enum,
        Lacking::Bit => Word::Bit,
    }
}

// A statement that must stand in a row.
fn needs(alloc: Global, rows: &Rows, at: usize, wanted: Word) -> Result<Option<Flaw>, NoMemory>
    ensures { IfOk result (λ flaw. flaw ≡ spec.needs rows.now at wanted) }
{
    if rows.first_below(at, wanted).is_some() {
        return Ok(None);
    }
    Ok(Some(Flaw::BadArgument(word_label(alloc, wanted)?)))
}

/// What a `type` statement lacks, by its row's number: fraction digits, names, bits or a path. None where the type that
/// it restricts has no meaning.
#[tactic(auto, unfolding(crate::specs::Flaws::lacking_flaw))]
pub(crate) fn lacking_flaw(
    alloc: Global,
    rows: &Rows,
    typedefs: &[Option<usize>],
    types: &Types,
    at: usize,
) -> Result<Option<Flaw>, NoMemory>
    requires meanings { spec.AreMeanings rows.now typedefs.now types.now.meanings }
    ensures exact { IfOk result (λ flaw. flaw ≡ spec.lacking_flaw rows.now typedefs.now at) }
{
    if takes_path(rows, typedefs, at)? {
        return needs(alloc, rows, at, Word::Path);
    }
    match base_of(alloc, rows, typedefs, types, at)? {
        None => Ok(None),
        Some(base) => match base.lacks() {
            None => Ok(None),
            Some(lacking) => needs(alloc, rows, at, word_lacking(lacking)),
        },
    }
}
