//! What rows bring, and the names of it.
//!
//! A set of the names that a row brings is made once, for the row whose list others share, and only after more than a few names
//! were looked up there. So the sets take no more than a few times the memory of the lists, and a look-up in a wide grouping takes
//! the logarithm of its width.

ghost use Rattle.std.specs.Prelude.{◌≡◌, ◌||◌, [], List, ℕ, None, IfOk, OnOk, map, replicate};
ghost use Rattle.nm_schema_uses.specs.Arguments.{argument_at};
ghost use Rattle.nm_schema_names.specs.Clash as spec;

use crate::name_set::{NameSet, add_names};
use nm_base::{Label, NoMemory};
use nm_schema_statements::Rows;
use nm_schema_uses::{Nodes, argument_at};
use std::alloc::Global;
use std::marker::Model;

/// How many names are few: so many are copied where they are brought, and looked up without a set.
pub(crate) const FEW: usize = 8;

/// What each row brings. It is seen as the rows and what each brings.
#[derive(Drop)]
pub(crate) struct Known<'a> {
    rows: &'a Rows,
    brought: &'a [Option<Nodes>],
    // How many names were looked up among those that each row brings.
    asked: Vec<usize>,
    // The names that each row brings, where they are kept.
    sets: Vec<Option<NameSet>>,
}

impl<'a> Model for Known<'a> {
    ghost use Rattle.nm_schema_names.specs.Clash.{Knowledge, knowledge, AreSetsOfNames};

    ghost Value = { Knowledge };

    ghost view = { λ k. knowledge k.rows.now k.brought.now };

    ghost invariant = { λ k. AreSetsOfNames (knowledge k.rows.now k.brought.now) k.sets.items };
}

// No names for any row.
fn no_names(alloc: Global, count: usize) -> Result<Vec<Option<NameSet>>, NoMemory>
    ensures { IfOk result (λ sets. sets.items ≡ replicate count None) }
{
    let mut sets = Vec::new(alloc);
    for _ in 0..count {
        sets.push(None)?;
    }
    Ok(sets)
}

// Whether one of some rows has a name.
fn has_name(rows: &Rows, nodes: &[usize], name: &Label) -> bool
    ensures { result ≡ spec.has_name (map (argument_at rows.now) nodes.now) name.now }
{
    for node in nodes {
        if name.as_str() == argument_at(rows, *node) {
            return true;
        }
    }
    false
}

impl<'a> Known<'a> {
    /// What rows bring.
    pub fn new(
        alloc: Global,
        rows: &'a Rows,
        brought: &'a [Option<Nodes>],
    ) -> Result<Known<'a>, NoMemory>
        ensures { IfOk result (λ known. known ≡ spec.knowledge rows.now brought.now) }
    {
        let asked = vec![in alloc; 0; rows.len()]?;
        let sets = no_names(alloc, rows.len())?;
        Ok(Known {
            rows,
            brought,
            asked,
            sets,
        })
    }

    /// The rows.
    pub fn rows(&self) -> &Rows
        ensures { result.now ≡ self.now.rows }
    {
        self.rows
    }

    /// The rows that a row brings.
    #[tactic(auto, unfolding(crate::specs::Clash::known_at))]
    pub fn nodes(&self, at: usize) -> &[usize]
        ensures { result.now ≡ spec.nodes_at self.now at }
    {
        if at < self.brought.len()
            && let Some(nodes) = &self.brought[at]
        {
            return nodes.as_slice();
        }
        &[]
    }

    /// Whether a row brings a name.
    pub fn brings(&self, at: usize, name: &Label) -> bool
        ensures { result ≡ spec.brings self.now name.now at }
    {
        if at < self.sets.len()
            && let Some(names) = &self.sets[at]
        {
            return names.has(name);
        }
        has_name(self.rows, self.nodes(at), name)
    }

    // Keeps the names that a row brings.
    fn keep(&mut self, alloc: Global, at: usize) -> Result<(), NoMemory>
        ensures { OnOk result (self.new ≡ self.old) }
    {
        let mut names = NameSet::new(alloc);
        add_names(alloc, self.rows, &mut names, self.nodes(at))?;
        if at >= self.sets.len() {
            return Ok(());
        }
        self.sets[at] = Some(names);
        Ok(())
    }

    /// Makes the set of the names that a row brings once it is worth it, before so many names are looked up there.
    pub fn prepare(&mut self, alloc: Global, at: usize, lookups: usize) -> Result<(), NoMemory>
        ensures { OnOk result (self.new ≡ self.old) }
    {
        if at >= self.sets.len() || at >= self.asked.len() || self.sets[at].is_some() {
            return Ok(());
        }
        self.asked[at] = self.asked[at].saturating_add(lookups);
        if self.asked[at] > FEW {
            return self.keep(alloc, at);
        }
        Ok(())
    }
}
