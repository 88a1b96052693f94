//! The names that the earlier parts of a row bring to it.

ghost use Rattle.std.specs.Prelude.{◌≡◌, ◌||◌, true, IfOk, OnOk};
ghost use Rattle.std.specs.List.{find, list_any};
ghost use Rattle.nm_schema_names.specs.Clash as spec;

use crate::known::{FEW, Known};
use crate::name_set::{NameSet, add_names, name_at};
use nm_base::{Label, NoMemory};
use std::alloc::Global;
use std::marker::Model;

/// What nodes and uses bring to the row that they stand in: the names of those that bring few, and the rows that bring many.
#[derive(Drop)]
pub(crate) struct Earlier {
    names: NameSet,
    wide: Vec<usize>,
}

impl Model for Earlier {
    ghost use Rattle.nm_schema_names.specs.Clash.{Parts, parts};

    ghost Value = { Parts };

    ghost view = { λ e. parts e.names e.wide.items };
}

// Whether a row brings one of the names that another brings, which are fewer.
#[tactic(auto, unfolding(crate::specs::Clash::names_at, crate::specs::Clash::brings))]
fn meet(alloc: Global, known: &Known<'_>, other: usize, at: usize) -> Result<bool, NoMemory>
    ensures { IfOk result (λ meet. meet ≡ list_any (spec.brought_by known.now at) (spec.names_at known.now other)) }
{
    for node in known.nodes(other) {
        let name = name_at(alloc, known.rows(), *node)?;
        if known.brings(at, &name) {
            return Ok(true);
        }
    }
    Ok(false)
}

// Whether two rows bring no name both. It looks the names of the one that brings fewer up in the other.
fn are_apart(alloc: Global, known: &Known<'_>, other: usize, at: usize) -> Result<bool, NoMemory>
    ensures { IfOk result (λ apart. apart ≡ true → spec.AreApart (spec.brought_by known.now other) (spec.brought_by known.now at)) }
{
    if known.nodes(other).len() <= known.nodes(at).len() {
        let meet = meet(alloc, known, other, at)?;
        return Ok(!meet);
    }
    let meet = meet(alloc, known, at, other)?;
    Ok(!meet)
}

// Whether a row brings one of some names, which are more than it brings.
#[tactic(auto, unfolding(crate::specs::Clash::names_at))]
fn meet_names(
    alloc: Global,
    known: &Known<'_>,
    names: &NameSet,
    at: usize,
) -> Result<bool, NoMemory>
    ensures { IfOk result (λ meet. meet ≡ list_any (spec.has_name names.now) (spec.names_at known.now at)) }
{
    for node in known.nodes(at) {
        let name = name_at(alloc, known.rows(), *node)?;
        if names.has(&name) {
            return Ok(true);
        }
    }
    Ok(false)
}

// Whether a row brings none of some names. It looks the fewer up in the more.
fn are_apart_from(
    alloc: Global,
    known: &Known<'_>,
    names: &NameSet,
    at: usize,
) -> Result<bool, NoMemory>
    ensures { IfOk result (λ apart. apart ≡ true → spec.AreApart (spec.has_name names.now) (spec.brought_by known.now at)) }
{
    if names.len() <= known.nodes(at).len() {
        let meet = names.meet(known, at);
        return Ok(!meet);
    }
    let meet = meet_names(alloc, known, names, at)?;
    Ok(!meet)
}

// Whether one of some rows brings a name.
fn is_brought(known: &Known<'_>, wide: &[usize], name: &Label) -> bool
    ensures { result ≡ list_any (λ i. spec.brings known.now name.now i) wide.now }
{
    for at in wide {
        if known.brings(*at, name) {
            return true;
        }
    }
    false
}

impl Earlier {
    /// Nothing.
    pub fn new(alloc: Global) -> Earlier
        ensures { result ≡ spec.no_parts }
    {
        Earlier {
            names: NameSet::new(alloc),
            wide: Vec::new(alloc),
        }
    }

    // Whether a name is brought.
    #[tactic(auto, unfolding(crate::specs::Clash::has_part))]
    fn has(&self, known: &Known<'_>, name: &Label) -> bool
        ensures { result ≡ spec.has_part known.now self.now name.now }
    {
        self.names.has(name) || is_brought(known, &self.wide, name)
    }

    // The first name that a row brings and that is brought.
    #[tactic(auto, unfolding(crate::specs::Clash::names_at))]
    fn first_of(
        &self,
        alloc: Global,
        known: &Known<'_>,
        at: usize,
    ) -> Result<Option<Label>, NoMemory>
        ensures { IfOk result (λ name. name ≡ find (spec.has_part known.now self.now) (spec.names_at known.now at)) }
    {
        for node in known.nodes(at) {
            let name = name_at(alloc, known.rows(), *node)?;
            if self.has(known, &name) {
                return Ok(Some(name));
            }
        }
        Ok(None)
    }

    // Whether no name that a row brings is brought.
    fn is_apart(&self, alloc: Global, known: &Known<'_>, at: usize) -> Result<bool, NoMemory>
        ensures { IfOk result (λ apart. apart ≡ true → spec.AreApart (spec.has_part known.now self.now) (spec.brought_by known.now at)) }
    {
        if !are_apart_from(alloc, known, &self.names, at)? {
            return Ok(false);
        }
        for wide in &self.wide {
            if !are_apart(alloc, known, *wide, at)? {
                return Ok(false);
            }
        }
        Ok(true)
    }

    // Makes the sets of the rows that bring many.
    fn prepare(&self, alloc: Global, known: &mut Known<'_>, lookups: usize) -> Result<(), NoMemory>
        ensures { OnOk result (known.new ≡ known.old) }
    {
        for wide in &self.wide {
            known.prepare(alloc, *wide, lookups)?;
        }
        Ok(())
    }

    // The clash of a row that brings few names. They are copied.
    fn take_few(
        &mut self,
        alloc: Global,
        known: &mut Known<'_>,
        at: usize,
    ) -> Result<Option<Label>, NoMemory>
        ensures known { OnOk result (known.new ≡ known.old) }
        ensures clash { IfOk result (λ clash. clash ≡ find (spec.has_part known.old self.old) (spec.names_at known.old at)) }
        ensures taken { OnOk result (spec.TakesAlso known.old at self.old self.new) }
    {
        self.prepare(alloc, known, known.nodes(at).len())?;
        let clash = self.first_of(alloc, known, at)?;
        add_names(alloc, known.rows(), &mut self.names, known.nodes(at))?;
        Ok(clash)
    }

    // The clash of a row that brings many names. It looks at each of them only where there is a clash.
    fn take_many(
        &mut self,
        alloc: Global,
        known: &mut Known<'_>,
        at: usize,
    ) -> Result<Option<Label>, NoMemory>
        ensures known { OnOk result (known.new ≡ known.old) }
        ensures clash { IfOk result (λ clash. clash ≡ find (spec.has_part known.old self.old) (spec.names_at known.old at)) }
        ensures taken { OnOk result (spec.TakesAlso known.old at self.old self.new) }
    {
        let lookups = self.wide.len().saturating_mul(FEW);
        known.prepare(alloc, at, lookups.saturating_add(self.names.len()))?;
        self.prepare(alloc, known, known.nodes(at).len())?;
        let clash = self.clash_of(alloc, known, at)?;
        self.wide.push(at)?;
        Ok(clash)
    }

    // The first name that a row brings and that is brought. It looks at each only where there is one.
    fn clash_of(
        &self,
        alloc: Global,
        known: &Known<'_>,
        at: usize,
    ) -> Result<Option<Label>, NoMemory>
        ensures { IfOk result (λ name. name ≡ find (spec.has_part known.now self.now) (spec.names_at known.now at)) }
    {
        if self.is_apart(alloc, known, at)? {
            return Ok(None);
        }
        self.first_of(alloc, known, at)
    }

    /// The first name that a row brings and that is brought already. Then the row brings its own too.
    pub fn take(
        &mut self,
        alloc: Global,
        known: &mut Known<'_>,
        at: usize,
    ) -> Result<Option<Label>, NoMemory>
        ensures known { OnOk result (known.new ≡ known.old) }
        ensures clash { IfOk result (λ clash. clash ≡ find (spec.has_part known.old self.old) (spec.names_at known.old at)) }
        ensures taken { OnOk result (spec.TakesAlso known.old at self.old self.new) }
    {
        if known.nodes(at).len() > FEW {
            return self.take_many(alloc, known, at);
        }
        self.take_few(alloc, known, at)
    }
}
