//! What is wrong with a row.

ghost use Rattle.std.specs.Prelude.{◌≡◌, ◌<◌, IfOk, is_some, length};
ghost use Rattle.nm_schema_keys.specs.Keys as keys;
ghost use Rattle.nm_schema_keys.specs.Uniques as uniques;
ghost use Rattle.nm_schema_faults.specs.Facts.{definitions, standing};
ghost use Rattle.nm_schema_faults.specs.Flaw as spec;
ghost use Rattle.nm_schema_faults.specs.Misfit.{AreMisfits};

use crate::cycle::cycle_flaw;
use crate::defaults::bad_if;
use crate::grounds::Grounds;
use nm_base::NoMemory;
use nm_schema_keys::{key_flaw, unique_flaw};
use nm_schema_statements::{Flaw, Word, grammar_flaw};
use nm_schema_typing::type_flaw;
use std::alloc::Global;

impl<'g, 'a> Grounds<'g, 'a> {
    #[tactic(auto, unfolding(crate::specs::Flaw::said_flaw))]
    fn said_flaw(&self, alloc: Global, at: usize) -> Result<Option<Flaw>, NoMemory>
        ensures { IfOk result (λ flaw. flaw ≡ spec.said_flaw self.now.rows self.now.facts at) }
    {
        if let Some(flaw) = grammar_flaw(alloc, self.names.rows(), at)? {
            return Ok(Some(flaw));
        }
        if let Some(flaw) = self.names.name_flaw(at)? {
            return Ok(Some(flaw));
        }
        cycle_flaw(alloc, self.names.rows(), self.cycle, at)
    }

    fn config_flaw(&self, alloc: Global, at: usize) -> Result<Option<Flaw>, NoMemory>
        ensures { IfOk result (λ flaw. flaw ≡ spec.config_flaw self.now.rows self.now.facts at) }
    {
        self.shape.config_flaw(alloc, at)
    }

    fn list_flaw(&self, alloc: Global, at: usize) -> Result<Option<Flaw>, NoMemory>
        ensures { IfOk result (λ flaw. flaw ≡ spec.list_flaw self.now.rows self.now.facts at) }
    {
        self.shape.list_flaw(alloc, at)
    }

    #[tactic(auto, unfolding(crate::specs::Flaw::placed_flaw))]
    fn placed_flaw(&self, alloc: Global, at: usize) -> Result<Option<Flaw>, NoMemory>
        ensures { IfOk result (λ flaw. flaw ≡ spec.placed_flaw self.now.rows self.now.facts at) }
    {
        if let Some(flaw) = type_flaw(
            alloc,
            self.names.rows(),
            self.definitions,
            &self.types,
            &self.judgements,
            at,
        )? {
            return Ok(Some(flaw));
        }
        if let Some(flaw) = self.clashes.clash_flaw(at)? {
            return Ok(Some(flaw));
        }
        if let Some(flaw) = self.config_flaw(alloc, at)? {
            return Ok(Some(flaw));
        }
        self.list_flaw(alloc, at)
    }

    fn key_flaw(&self, alloc: Global, at: usize) -> Result<Option<Flaw>, NoMemory>
        ensures { IfOk result (λ flaw. flaw ≡ keys.key_flaw self.now.rows (definitions self.now.rows) (standing self.now.facts) at) }
    {
        key_flaw(alloc, self.names, self.shape, at)
    }

    // Whether a row is a `unique` statement that has a flaw.
    fn has_unique_flaw(&self, at: usize) -> bool
        ensures { result ≡ is_some (uniques.unique_flaw self.now.rows (definitions self.now.rows) (standing self.now.facts) at) }
    {
        if at < self.flawed_uniques.len() {
            return self.flawed_uniques[at];
        }
        false
    }

    // The members of the list are sought only where the statement has a flaw, and so at one row at most.
    fn unique_flaw(&self, alloc: Global, at: usize) -> Result<Option<Flaw>, NoMemory>
        ensures { IfOk result (λ flaw. flaw ≡ uniques.unique_flaw self.now.rows (definitions self.now.rows) (standing self.now.facts) at) }
    {
        if !self.has_unique_flaw(at) {
            return Ok(None);
        }
        unique_flaw(alloc, self.names, self.shape, at)
    }

    #[tactic(auto, unfolding(crate::specs::Flaw::listed_flaw))]
    fn listed_flaw(&self, alloc: Global, at: usize) -> Result<Option<Flaw>, NoMemory>
        ensures { IfOk result (λ flaw. flaw ≡ spec.listed_flaw self.now.rows self.now.facts at) }
    {
        if let Some(flaw) = self.key_flaw(alloc, at)? {
            return Ok(Some(flaw));
        }
        self.unique_flaw(alloc, at)
    }

    #[tactic(auto, unfolding(crate::specs::Flaw::path_flaw))]
    fn path_flaw(&self, alloc: Global, at: usize) -> Result<Option<Flaw>, NoMemory>
        ensures { IfOk result (λ flaw. flaw ≡ spec.path_flaw self.now.rows self.now.facts at) }
    {
        self.leafrefs.path_flaw(alloc, self.names.rows(), at)
    }

    #[tactic(auto, unfolding(crate::specs::Flaw::misfit_flaw))]
    fn misfit_flaw(
        &self,
        alloc: Global,
        misfits: &[bool],
        at: usize,
    ) -> Result<Option<Flaw>, NoMemory>
        requires misfits { AreMisfits self.now.rows self.now.facts misfits.now }
        requires within { at < length self.now.rows }
        ensures { IfOk result (λ flaw. flaw ≡ spec.misfit_flaw self.now.rows self.now.facts at) }
    {
        bad_if(alloc, misfits[at], Word::Default)
    }

    #[tactic(auto, unfolding(crate::specs::Flaw::valued_flaw))]
    fn valued_flaw(
        &self,
        alloc: Global,
        misfits: &[bool],
        at: usize,
    ) -> Result<Option<Flaw>, NoMemory>
        requires misfits { AreMisfits self.now.rows self.now.facts misfits.now }
        requires within { at < length self.now.rows }
        ensures { IfOk result (λ flaw. flaw ≡ spec.valued_flaw self.now.rows self.now.facts at) }
    {
        if let Some(flaw) = self.own_flaw(alloc, at)? {
            return Ok(Some(flaw));
        }
        if let Some(flaw) = self.inherited_flaw(alloc, at)? {
            return Ok(Some(flaw));
        }
        if let Some(flaw) = self.path_flaw(alloc, at)? {
            return Ok(Some(flaw));
        }
        self.misfit_flaw(alloc, misfits, at)
    }

    /// The first flaw of a row, given the rows at which a misfit is told.
    #[tactic(auto, unfolding(crate::specs::Flaw::flaw_at))]
    pub(crate) fn flaw_at(
        &self,
        alloc: Global,
        misfits: &[bool],
        at: usize,
    ) -> Result<Option<Flaw>, NoMemory>
        requires misfits { AreMisfits self.now.rows self.now.facts misfits.now }
        requires within { at < length self.now.rows }
        ensures { IfOk result (λ flaw. flaw ≡ spec.flaw_at self.now.rows self.now.facts at) }
    {
        if let Some(flaw) = self.said_flaw(alloc, at)? {
            return Ok(Some(flaw));
        }
        if let Some(flaw) = self.placed_flaw(alloc, at)? {
            return Ok(Some(flaw));
        }
        if let Some(flaw) = self.listed_flaw(alloc, at)? {
            return Ok(Some(flaw));
        }
        self.valued_flaw(alloc, misfits, at)
    }
}
