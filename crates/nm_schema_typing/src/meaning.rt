//! What types mean.

ghost use Rattle.std.specs.Prelude.{◌≡◌, Result, Some, None, IfOk, MatchOption};
ghost use Rattle.std.specs.Arc.{arc_value};
ghost use Rattle.nm_schema_derive.specs.Built.{Derivation};
ghost use Rattle.nm_schema_derive.specs.Step.{Gives};
ghost use Rattle.nm_schema_derive.specs.declared.derived.StepFault.{StepFault};
ghost use Rattle.nm_schema_typing.specs.Restricting.{restrictions_in, restrictions_of};
ghost use Rattle.nm_schema_typing.specs.Flaws.{to_restrict};
ghost use Rattle.nm_schema_typing.specs.Meaning as spec;

use crate::edges::{is_type, is_typed};
use crate::leafref::read_path;
use crate::restricting::{argument_at, restrictions_of, text_at};
use nm_base::NoMemory;
use nm_schema_derive::{BuiltIn, Derived, Listed, Restrictions, StepFault, built_in, step};
use nm_schema_statements::{Rows, Word};
use std::alloc::Global;
use std::marker::Model;
use std::sync::Arc;

/// What a type is, apart from where it is named.
#[derive(Drop)]
pub enum Kind {
    Plain(Arc<Derived>),
    Reference(usize),
}

/// What a type means: a type of its own, or a leafref by the row of its `path` statement. Equal meanings share their memory.
#[derive(Drop)]
pub struct Meaning {
    kind: Kind,
}

impl Model for Meaning {
    ghost use Rattle.nm_schema_typing.specs.Meaning as spec;

    ghost Value = { spec.Meaning };

    ghost use Rattle.nm_schema_typing.specs.Kinds.{meaning_in};

    ghost view = { λ m. meaning_in m.kind };
}

impl Meaning {
    /// The type, where it is no leafref.
    pub fn derived(&self) -> Option<&Derived>
        ensures { MatchOption result (spec.derivation_of self.now ≡ None) (λ derived. spec.derivation_of self.now ≡ Some derived.now) }
    {
        match &self.kind {
            Kind::Plain(derived) => Some(derived),
            Kind::Reference(_) => None,
        }
    }

    /// The row of the `path` statement of a leafref.
    pub fn path(&self) -> Option<usize>
        ensures { result ≡ spec.path_of self.now }
    {
        match &self.kind {
            Kind::Plain(_) => None,
            Kind::Reference(path) => Some(*path),
        }
    }

    // The type to restrict; a leafref takes no restriction, as the built-in type doesn't.
    pub(crate) fn to_restrict(&self, alloc: Global) -> Result<Arc<Derived>, NoMemory>
        ensures { IfOk result (λ derived. arc_value derived ≡ to_restrict self.now) }
    {
        match &self.kind {
            Kind::Plain(derived) => Ok(Arc::try_clone(derived)?),
            Kind::Reference(_) => Ok(Arc::new(alloc, Derived::of_built_in(&BuiltIn::Leafref))?),
        }
    }

    // An equal meaning.
    fn copy(&self) -> Result<Meaning, NoMemory>
        ensures { IfOk result (λ copied. copied ≡ self.now) }
    {
        match &self.kind {
            Kind::Plain(derived) => Ok(Meaning {
                kind: Kind::Plain(Arc::try_clone(derived)?),
            }),
            Kind::Reference(path) => Ok(Meaning {
                kind: Kind::Reference(*path),
            }),
        }
    }
}

fn copy_of(meaning: &Option<Meaning>) -> Result<Option<Meaning>, NoMemory>
    ensures { IfOk result (λ copied. copied ≡ meaning.now) }
{
    match meaning {
        None => Ok(None),
        Some(meaning) => Ok(Some(meaning.copy()?)),
    }
}

fn has_no(listed: &[Listed]) -> bool
    ensures { result ≡ spec.has_no listed.now }
{
    match listed {
        [] => true,
        [_, ..] => false,
    }
}

// Whether nothing is restricted.
fn is_unrestricted(restrictions: &Restrictions) -> bool
    ensures { result ≡ spec.is_unrestricted (restrictions_in restrictions.now) }
{
    restrictions.digits.is_none()
        && restrictions.range.is_none()
        && restrictions.length.is_none()
        && has_no(&restrictions.names)
        && has_no(&restrictions.bits)
}

// A type that lacks nothing.
fn whole(derived: Arc<Derived>) -> Option<Meaning>
    ensures { result ≡ spec.whole_of (arc_value derived) }
{
    if derived.lacks().is_some() {
        return None;
    }
    Some(Meaning {
        kind: Kind::Plain(derived),
    })
}

// What a step makes, whole.
fn whole_step(alloc: Global, made: Result<Derived, StepFault>) -> Result<Option<Meaning>, NoMemory>
    ensures { (given : Result Derivation StepFault) → Gives made given → IfOk result (λ meaning. meaning ≡ spec.whole given) }
{
    match made {
        Ok(derived) => Ok(whole(Arc::new(alloc, derived)?)),
        Err(StepFault::NoMemory) => Err(NoMemory),
        Err(_) => Ok(None),
    }
}

// The type that restrictions make of another, whole.
fn restricted(
    alloc: Global,
    base: &Arc<Derived>,
    restrictions: &Restrictions,
) -> Result<Option<Meaning>, NoMemory>
    ensures { IfOk result (λ meaning. meaning ≡ spec.whole (spec.restricted (restrictions_in restrictions.now) (arc_value base.now))) }
{
    if is_unrestricted(restrictions) {
        return Ok(whole(Arc::try_clone(base)?));
    }
    let copied = base.copy()?;
    whole_step(alloc, step(alloc, copied, restrictions))
}

// A type that is no leafref, as a `type` statement restricts it.
#[tactic(auto, unfolding(crate::specs::Meaning::restricted_at))]
fn restricted_at(
    alloc: Global,
    rows: &Rows,
    at: usize,
    base: &Arc<Derived>,
) -> Result<Option<Meaning>, NoMemory>
    ensures { IfOk result (λ meaning. meaning ≡ spec.restricted_at rows.now at (arc_value base.now)) }
{
    if rows.first_below(at, Word::Path).is_some() {
        return Ok(None);
    }
    let restrictions = restrictions_of(alloc, rows, at)?;
    restricted(alloc, base, &restrictions)
}

// Whether the argument of a row is a path.
#[tactic(auto, unfolding(crate::specs::Meaning::is_path))]
fn is_path(alloc: Global, rows: &Rows, at: usize) -> Result<bool, NoMemory>
    ensures { IfOk result (λ is. is ≡ spec.is_path rows.now at) }
{
    let text = text_at(alloc, rows, at)?;
    let path = read_path(alloc, text.as_str())?;
    Ok(path.is_some())
}

// Whether nothing is restricted in a row.
fn is_bare_at(alloc: Global, rows: &Rows, at: usize) -> Result<bool, NoMemory>
    ensures { IfOk result (λ is. is ≡ spec.is_unrestricted (restrictions_of rows.now at)) }
{
    let restrictions = restrictions_of(alloc, rows, at)?;
    Ok(is_unrestricted(&restrictions))
}

// A leafref with its path and no restriction.
#[tactic(auto, unfolding(crate::specs::Meaning::leafref_at))]
fn leafref_at(alloc: Global, rows: &Rows, at: usize) -> Result<Option<Meaning>, NoMemory>
    ensures { IfOk result (λ meaning. meaning ≡ spec.leafref_at rows.now at) }
{
    if !is_bare_at(alloc, rows, at)? {
        return Ok(None);
    }
    let Some(path) = rows.first_below(at, Word::Path) else {
        return Ok(None);
    };
    if !is_path(alloc, rows, path)? {
        return Ok(None);
    }
    Ok(Some(Meaning {
        kind: Kind::Reference(path),
    }))
}

// A type that leads to a leafref.
#[tactic(auto, unfolding(crate::specs::Meaning::kept_at))]
fn kept_at(alloc: Global, rows: &Rows, at: usize, path: usize) -> Result<Option<Meaning>, NoMemory>
    ensures { IfOk result (λ meaning. meaning ≡ spec.kept_at rows.now at path) }
{
    if rows.first_below(at, Word::Path).is_some() {
        return Ok(None);
    }
    if !is_bare_at(alloc, rows, at)? {
        return Ok(None);
    }
    Ok(Some(Meaning {
        kind: Kind::Reference(path),
    }))
}

// A type of that meaning, as a row restricts it.
fn narrowed_at(
    alloc: Global,
    rows: &Rows,
    at: usize,
    base: &Meaning,
) -> Result<Option<Meaning>, NoMemory>
    ensures { IfOk result (λ meaning. meaning ≡ spec.narrowed_at rows.now at base.now) }
{
    match &base.kind {
        Kind::Plain(derived) => restricted_at(alloc, rows, at, derived),
        Kind::Reference(path) => kept_at(alloc, rows, at, *path),
    }
}

pub(crate) fn is_leafref(built_in: &BuiltIn) -> bool
    ensures { result ≡ spec.is_leafref built_in.now }
{
    match built_in {
        BuiltIn::Leafref => true,
        _ => false,
    }
}

// The built-in type that a row names.
#[tactic(auto, unfolding(crate::specs::Meaning::built_in_named))]
pub(crate) fn built_in_named(rows: &Rows, at: usize) -> Result<Option<BuiltIn>, NoMemory>
    ensures { IfOk result (λ named. named ≡ spec.built_in_named rows.now at) }
{
    match argument_at(rows, Some(at))? {
        None => Ok(None),
        Some(name) => Ok(built_in(name.as_str())),
    }
}

// The meaning of a `type` statement that names a built-in type.
fn built_in_at(
    alloc: Global,
    rows: &Rows,
    at: usize,
    named: &Option<BuiltIn>,
) -> Result<Option<Meaning>, NoMemory>
    ensures { IfOk result (λ meaning. meaning ≡ spec.built_in_at rows.now at named.now) }
{
    match named {
        None => Ok(None),
        Some(built_in) => {
            if is_leafref(built_in) {
                return leafref_at(alloc, rows, at);
            }
            let bare = Arc::new(alloc, Derived::of_built_in(built_in))?;
            restricted_at(alloc, rows, at, &bare)
        }
    }
}

// The meaning of a `type` statement, by that of the typedef that it names.
fn type_meaning(
    alloc: Global,
    rows: &Rows,
    at: usize,
    base: &Option<Meaning>,
) -> Result<Option<Meaning>, NoMemory>
    ensures { IfOk result (λ meaning. meaning ≡ spec.type_meaning rows.now at base.now) }
{
    match base {
        None => {
            let named = built_in_named(rows, at)?;
            built_in_at(alloc, rows, at, &named)
        }
        Some(base) => narrowed_at(alloc, rows, at, base),
    }
}

/// The meaning of a row, by that of the row that it leads to.
#[tactic(auto, unfolding(crate::specs::Meaning::meaning_at))]
pub(crate) fn meaning_at(
    alloc: Global,
    rows: &Rows,
    at: usize,
    base: &Option<Meaning>,
) -> Result<Option<Meaning>, NoMemory>
    ensures { IfOk result (λ meaning. meaning ≡ spec.meaning_at rows.now at base.now) }
{
    let Some(row) = rows.row(at) else {
        return Ok(None);
    };
    if is_typed(row.word) {
        return copy_of(base);
    }
    if is_type(row.word) {
        return type_meaning(alloc, rows, at, base);
    }
    Ok(None)
}
