//! What is wrong with defaults, by the types of rows.

ghost use Rattle.std.specs.Prelude.{◌≡◌, Some, IfOk, slice_get};
ghost use Rattle.nm_schema_names.specs.Named.{parent_of};
ghost use Rattle.nm_schema_typing.specs.Defaults as typing;
ghost use Rattle.nm_schema_faults.specs.Facts.{definitions};
ghost use Rattle.nm_schema_faults.specs.Flaw as spec;
ghost use Rattle.nm_schema_faults.specs.Misfit.{base_of};

use crate::grounds::Grounds;
use nm_base::{Label, NoMemory};
use nm_schema_statements::{Flaw, Word};
use nm_schema_typing::{default_flaw, is_default};
use std::alloc::Global;

/// A bad argument by its keyword, where something holds.
pub(crate) fn bad_if(alloc: Global, holds: bool, keyword: Word) -> Result<Option<Flaw>, NoMemory>
    ensures { IfOk result (λ flaw. flaw ≡ spec.bad_if holds keyword) }
{
    if holds {
        return Ok(Some(Flaw::BadArgument(Label::new(alloc, keyword.text())?)));
    }
    Ok(None)
}

fn is_defaulted(word: Word) -> bool
    ensures { result ≡ spec.is_defaulted word }
{
    match word {
        Word::Leaf => true,
        Word::Typedef => true,
        _ => false,
    }
}

impl<'g, 'a> Grounds<'g, 'a> {
    // Whether a row is a key leaf.
    #[tactic(auto, unfolding(crate::specs::Facts::is_marked))]
    fn is_key(&self, at: usize) -> bool
        ensures { result ≡ spec.is_marked_in self.now.facts.keys (Some at) }
    {
        if at < self.is_key.len() {
            return self.is_key[at];
        }
        false
    }

    fn stands_in_key(&self, at: usize) -> bool
        ensures { result ≡ spec.is_marked_in self.now.facts.keys (parent_of self.now.rows at) }
    {
        match self.names.parent_of(at) {
            None => false,
            Some(parent) => self.is_key(parent),
        }
    }

    /// A `default` statement that its leaf or typedef doesn't take, unless that is a key.
    #[tactic(auto, unfolding(crate::specs::Flaw::own_flaw))]
    pub(crate) fn own_flaw(&self, alloc: Global, at: usize) -> Result<Option<Flaw>, NoMemory>
        ensures { IfOk result (λ flaw. flaw ≡ spec.own_flaw self.now.rows self.now.facts at) }
    {
        if self.stands_in_key(at) {
            return Ok(None);
        }
        default_flaw(alloc, self.names.rows(), self.definitions, &self.types, at)
    }

    fn is_defaulted_at(&self, at: usize) -> bool
        ensures { result ≡ spec.is_defaulted_in (slice_get self.now.rows at) }
    {
        match self.names.rows().row(at) {
            None => false,
            Some(row) => is_defaulted(row.word),
        }
    }

    // Whether a leaf or typedef may take over a default.
    #[tactic(auto, unfolding(crate::specs::Flaw::takes_over))]
    fn takes_over(&self, at: usize) -> bool
        ensures { result ≡ spec.takes_over self.now.rows self.now.facts at }
    {
        if !self.is_defaulted_at(at) {
            return false;
        }
        if self.names.rows().first_below(at, Word::Default).is_some() {
            return false;
        }
        !self.is_key(at)
    }

    // The typedef that the type of a row names.
    #[tactic(auto, unfolding(crate::specs::Misfit::base_of))]
    pub(crate) fn base_of(&self, at: usize) -> Option<usize>
        ensures { result ≡ base_of self.now.rows at }
    {
        match self.names.rows().first_below(at, Word::Type) {
            None => None,
            Some(row) => self.names.leads_to(row),
        }
    }

    // Whether a text may be a default of a row.
    pub(crate) fn is_default(&self, alloc: Global, at: usize, text: &str) -> Result<bool, NoMemory>
        ensures { IfOk result (λ is. is ≡ typing.is_default self.now.rows (definitions self.now.rows) at text.now) }
    {
        is_default(
            alloc,
            self.names.rows(),
            self.definitions,
            &self.types,
            at,
            text,
        )
    }

    // Whether a text is a default of a typedef, and none of a row.
    fn is_narrowed(&self, alloc: Global, at: usize, base: Option<usize>) -> Result<bool, NoMemory>
        ensures { IfOk result (λ is. is ≡ spec.is_narrowed self.now.rows at base (typing.default_of self.now.rows (definitions self.now.rows) at)) }
    {
        let Some(base) = base else {
            return Ok(false);
        };
        match self.default_text(at) {
            None => Ok(false),
            Some(text) => {
                if !self.is_default(alloc, base, text.as_str())? {
                    return Ok(false);
                }
                Ok(!self.is_default(alloc, at, text.as_str())?)
            }
        }
    }

    /// A default that a leaf or typedef takes over from its type, which takes it, but doesn't take itself.
    #[tactic(auto, unfolding(crate::specs::Flaw::inherited_flaw))]
    pub(crate) fn inherited_flaw(&self, alloc: Global, at: usize) -> Result<Option<Flaw>, NoMemory>
        ensures { IfOk result (λ flaw. flaw ≡ spec.inherited_flaw self.now.rows self.now.facts at) }
    {
        if !self.takes_over(at) {
            return Ok(None);
        }
        let narrowed = self.is_narrowed(alloc, at, self.base_of(at))?;
        bad_if(alloc, narrowed, Word::Default)
    }
}
