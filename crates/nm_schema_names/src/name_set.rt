//! Sets of names.

ghost use Rattle.std.specs.Prelude.{◌≡◌, ◌||◌, [], List, ℕ, IfOk, OnOk, length, map};
ghost use Rattle.std.specs.List.{list_any};
ghost use Rattle.std.specs.Str.{bytes_eq};
ghost use Rattle.nm_schema_uses.specs.Arguments.{argument_at};
ghost use Rattle.nm_schema_names.specs.Clash.{brings, has_name};

use crate::known::Known;
use nm_base::{Label, NoMemory};
use nm_schema_statements::Rows;
use std::alloc::Global;
use std::collections::BTreeSet;
use std::marker::Model;

/// A set of names. It is seen as the list of them.
#[derive(Drop)]
pub(crate) struct NameSet {
    set: BTreeSet<Label>,
}

impl Model for NameSet {
    ghost use Rattle.std.specs.Prelude.{List, ℕ};

    ghost Value = { List (List ℕ) };

    ghost view = { λ n. n.set.keys };
}

impl NameSet {
    /// No names.
    pub fn new(alloc: Global) -> NameSet
        ensures { result ≡ [] }
    {
        NameSet {
            set: BTreeSet::new(alloc),
        }
    }

    /// Whether a name is there.
    #[tactic(auto, using(crate::proofs::Naming::contained))]
    pub fn has(&self, name: &Label) -> bool
        ensures { result ≡ has_name self.now name.now }
    {
        self.set.contains(name)
    }

    /// Adds a name.
    pub fn add(&mut self, name: Label) -> Result<(), NoMemory>
        ensures { OnOk result ((n : List ℕ) → has_name self.new n ≡ (bytes_eq n name || has_name self.old n)) }
    {
        self.set.insert(name)?;
        Ok(())
    }

    /// How many names these are.
    pub fn len(&self) -> usize
        ensures { result ≡ length self.now }
    {
        self.set.len()
    }

    /// Whether a row brings one of these names.
    pub fn meet(&self, known: &Known<'_>, at: usize) -> bool
        ensures { result ≡ list_any (λ name. brings known.now name at) self.now }
    {
        self.set.iter().any(|name| known.brings(at, name))
    }
}

// The argument of a row, as a label that shares its bytes: of a node, its name.
#[tactic(auto, unfolding(nm_schema_uses::specs::Arguments::argument_at))]
pub(crate) fn name_at(alloc: Global, rows: &Rows, at: usize) -> Result<Label, NoMemory>
    ensures { IfOk result (λ name. name ≡ argument_at rows.now at) }
{
    if let Some(row) = rows.row(at)
        && let Some(argument) = &row.argument
    {
        return argument.copy();
    }
    Label::new(alloc, "")
}

// Adds the names of some rows.
pub(crate) fn add_names(
    alloc: Global,
    rows: &Rows,
    names: &mut NameSet,
    nodes: &[usize],
) -> Result<(), NoMemory>
    ensures { OnOk result ((n : List ℕ) → has_name names.new n ≡ (has_name (map (argument_at rows.now) nodes.now) n || has_name names.old n)) }
{
    for node in nodes {
        let name = name_at(alloc, rows, *node)?;
        match names.add(name) {
            Ok(()) => {}
            Err(error) => return Err(error),
        }
    }
    Ok(())
}
