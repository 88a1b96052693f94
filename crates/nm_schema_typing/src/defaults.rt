//! Defaults.

ghost use Rattle.std.specs.Prelude.{◌≡◌, ℕ, Result, Some, None, IfOk, MatchOption, slice_index_or};
ghost use Rattle.nm_types.specs.declared.value.Value.{Value};
ghost use Rattle.nm_types.specs.declared.fault.ValueFault.{ValueFault};
ghost use Rattle.nm_types.specs.Reading.{Gives};
ghost use Rattle.nm_types.specs.TypeKind.{kind_of};
ghost use Rattle.nm_schema_typing.specs.Flaws.{AreMeanings};
ghost use Rattle.nm_schema_typing.specs.Defaults as spec;

use crate::edges::{is_type, is_typed, type_graph};
use crate::listing::bad_argument;
use crate::meaning::Meaning;
use crate::restricting::argument_below;
use crate::types::Types;
use nm_base::{Label, NoMemory};
use nm_graph::{Visitor, order, values};
use nm_schema_statements::{Flaw, Rows, Word};
use nm_types::{LeafType, TypeKind, Value, ValueFault, read_value, without_sign};
use std::alloc::Global;
use std::marker::Model;

fn is_empty(kind: &TypeKind) -> bool
    ensures { result ≡ spec.is_empty (kind_of kind.now) }
{
    match kind {
        TypeKind::Empty => true,
        _ => false,
    }
}

fn has_leading_zero(digits: &[u8]) -> bool
    ensures { result ≡ spec.has_leading_zero digits.now }
{
    match digits {
        [] => false,
        [_] => false,
        [first, _, ..] => *first == b'0',
    }
}

// Whether a text is an integer in octal notation, by the kind of a type.
fn is_octal(kind: &TypeKind, text: &str) -> bool
    ensures { result ≡ spec.is_octal (kind_of kind.now) text.now }
{
    match kind {
        TypeKind::Integer { .. } => has_leading_zero(without_sign(text).as_bytes()),
        _ => false,
    }
}

// Whether a text was read.
fn is_read(read: Result<Value, ValueFault>) -> Result<bool, NoMemory>
    ensures { (given : Result Value ValueFault) → Gives read given → IfOk result (λ is. is ≡ spec.is_read given) }
{
    match read {
        Ok(_) => Ok(true),
        Err(ValueFault::BadText) => Ok(false),
        Err(ValueFault::OutOfRange) => Ok(false),
        Err(ValueFault::NoMemory) => Err(NoMemory),
    }
}

/// Whether a text may be a default of a type: a value of it, an integer in decimal notation, and the type isn't empty
/// (RFC 7950 sections 7.6.4, 9.2.1 and 9.11.1).
pub fn fits_type(alloc: Global, text: &str, leaf_type: &LeafType) -> Result<bool, NoMemory>
    ensures { IfOk result (λ fits. fits ≡ spec.fits_type text.now (Some leaf_type.now)) }
{
    if is_empty(&leaf_type.kind) {
        return Ok(false);
    }
    if is_octal(&leaf_type.kind, text) {
        return Ok(false);
    }
    is_read(read_value(alloc, leaf_type, text))
}

// The same of a type that may be missing, which each text fits.
fn fits_if(alloc: Global, text: &str, found: &Option<LeafType>) -> Result<bool, NoMemory>
    ensures { IfOk result (λ fits. fits ≡ spec.fits_type text.now found.now) }
{
    match found {
        None => Ok(true),
        Some(leaf_type) => fits_type(alloc, text, leaf_type),
    }
}

// Whether a text may be a default of what has a meaning.
fn fits_meaning(alloc: Global, text: &str, meaning: &Meaning) -> Result<bool, NoMemory>
    ensures { IfOk result (λ fits. fits ≡ spec.fits text.now (Some meaning.now)) }
{
    match meaning.derived() {
        None => Ok(true),
        Some(derived) => {
            let leaf_type = derived.leaf_type()?;
            fits_if(alloc, text, &leaf_type)
        }
    }
}

/// Whether a text may be a default of a leaf or typedef, by its row's number: a value of its type, which isn't empty. Each may
/// where that is a leafref or has no meaning.
#[tactic(auto, unfolding(crate::specs::Defaults::is_default))]
pub fn is_default(
    alloc: Global,
    rows: &Rows,
    typedefs: &[Option<usize>],
    types: &Types,
    at: usize,
    text: &str,
) -> Result<bool, NoMemory>
    requires meanings { AreMeanings rows.now typedefs.now types.now.meanings }
    ensures exact { IfOk result (λ is. is ≡ spec.is_default rows.now typedefs.now at text.now) }
{
    match types.meaning(at) {
        None => Ok(true),
        Some(meaning) => fits_meaning(alloc, text, meaning),
    }
}

// Whether a row is mandatory, by its number.
#[tactic(auto, unfolding(crate::specs::Defaults::is_mandatory))]
fn is_mandatory(rows: &Rows, at: usize) -> Result<bool, NoMemory>
    ensures { IfOk result (λ is. is ≡ spec.is_mandatory rows.now at) }
{
    match argument_below(rows, at, Word::Mandatory)? {
        None => Ok(false),
        Some(text) => Ok(text.as_str() == "true"),
    }
}

/// What is wrong with a `default` statement, by its row's number: a bad argument where its text may be no default of
/// what it stands in, or where that is mandatory. None for other rows.
#[tactic(auto, unfolding(crate::specs::Defaults::default_flaw))]
pub fn default_flaw(
    alloc: Global,
    rows: &Rows,
    typedefs: &[Option<usize>],
    types: &Types,
    at: usize,
) -> Result<Option<Flaw>, NoMemory>
    requires meanings { AreMeanings rows.now typedefs.now types.now.meanings }
    ensures exact { IfOk result (λ flaw. flaw ≡ spec.default_flaw rows.now typedefs.now at) }
{
    let Some(row) = rows.row(at) else {
        return Ok(None);
    };
    if !row.word.same(Word::Default) {
        return Ok(None);
    }
    let Some(text) = &row.argument else {
        return Ok(None);
    };
    let Some(parent) = row.parent else {
        return Ok(None);
    };
    if !is_default(alloc, rows, typedefs, types, parent, text.as_str())? {
        return bad_argument(row);
    }
    if is_mandatory(rows, parent)? {
        return bad_argument(row);
    }
    Ok(None)
}

/// The text of a default, if there is one.
#[derive(Drop)]
struct DefaultText {
    text: Option<Label>,
}

impl Model for DefaultText {
    ghost use Rattle.std.specs.Prelude.{List, ℕ, Option};

    ghost Value = { Option (List ℕ) };

    ghost view = { λ d. d.text };
}

// The text of a default that may be missing.
fn joined(found: &Option<DefaultText>) -> Result<Option<Label>, NoMemory>
    ensures { IfOk result (λ text. text ≡ spec.joined found.now) }
{
    match found {
        None => Ok(None),
        Some(found) => match &found.text {
            None => Ok(None),
            Some(text) => Ok(Some(text.copy()?)),
        },
    }
}

// The default of a row, by that of the row that it leads to.
#[tactic(auto, unfolding(crate::specs::Defaults::default_at))]
fn default_at(rows: &Rows, at: usize, base: &Option<DefaultText>) -> Result<Option<Label>, NoMemory>
    ensures { IfOk result (λ text. text ≡ spec.default_at rows.now at (spec.joined base.now)) }
{
    let Some(row) = rows.row(at) else {
        return Ok(None);
    };
    if is_typed(row.word) {
        return match argument_below(rows, at, Word::Default)? {
            None => joined(base),
            Some(text) => Ok(Some(text)),
        };
    }
    if is_type(row.word) {
        return joined(base);
    }
    Ok(None)
}

// Gives each row its default, from that of the row that it leads to.
#[derive(Drop)]
struct Defaulting<'a> {
    rows: &'a Rows,
}

impl Visitor for Defaulting<'_> {
    ghost use Rattle.nm_schema_typing.specs.Defaults.{default_step};

    type Value = DefaultText;

    ghost step = { λ defaulting. default_step defaulting.rows.now };

    fn visit(
        &self,
        _alloc: Global,
        node: usize,
        values: &[Option<DefaultText>],
        successors: &[usize],
    ) -> Result<Option<DefaultText>, NoMemory> {
        match successors {
            [] => Ok(Some(DefaultText {
                text: default_at(self.rows, node, &None)?,
            })),
            [first, ..] => Ok(Some(DefaultText {
                text: default_at(self.rows, node, &values[*first])?,
            })),
        }
    }
}

/// The defaults of rows.
#[derive(Drop)]
pub struct Defaults {
    texts: Vec<Option<DefaultText>>,
}

impl Model for Defaults {
    ghost use Rattle.std.specs.Prelude.{List, ℕ, Option};

    ghost Value = { List (Option (Option (List ℕ))) };

    ghost view = { λ d. d.texts.items };
}

impl Defaults {
    /// The default of a leaf or typedef, by its row's number: its own, else that of the typedef that its type names, and so on.
    pub fn text(&self, at: usize) -> Option<&Label>
        ensures exact { MatchOption result (spec.joined (slice_index_or self.now at None) ≡ None)
            (λ text. spec.joined (slice_index_or self.now at None) ≡ Some text.now) }
    {
        if at >= self.texts.len() {
            return None;
        }
        match &self.texts[at] {
            None => None,
            Some(found) => found.text.as_ref(),
        }
    }
}

/// The defaults of rows. The typedef that each `type` statement names is given by its row, one place for each row.
pub fn defaults_of(
    alloc: Global,
    rows: &Rows,
    typedefs: &[Option<usize>],
) -> Result<Defaults, NoMemory>
    ensures exact { IfOk result (λ defaults. (i : ℕ) → spec.joined (slice_index_or defaults i None) ≡ spec.default_of rows.now typedefs.now i) }
{
    let graph = type_graph(alloc, rows, typedefs)?;
    let ordered = order(alloc, &graph)?;
    let texts = values(alloc, &Defaulting { rows }, &graph, &ordered.nodes)?;
    Ok(Defaults { texts })
}
