//! The members of a statement by name.

ghost use Rattle.std.specs.Prelude.{◌≡◌, [], IfOk, is_some, length, unwrap_or};
ghost use Rattle.nm_schema_uses.specs.Members as shape_spec;
ghost use Rattle.nm_schema_uses.specs.Passing as passing;
ghost use Rattle.nm_schema_keys.specs.Found as spec;
ghost use Rattle.nm_schema_keys.specs.Membership.{Leads, membership};

use crate::found::{Found, argument_at, fitting};
use crate::words::own_name;
use nm_base::NoMemory;
use nm_schema_names::RowNames;
use nm_schema_statements::Word;
use nm_schema_uses::{Nodes, Shape};
use std::alloc::Global;
use std::collections::BTreeMap;
use std::marker::Model;

/// The members of a statement by name, if they are known. They are seen as the rows of the modules and the members.
///
/// To find one takes time as the logarithm of how many there are.
#[derive(Drop)]
pub struct Members<'n, 'a> {
    names: &'n RowNames<'a>,
    nodes: Option<Nodes>,
    first: BTreeMap<&'a str, usize>,
}

impl<'n, 'a> Model for Members<'n, 'a> {
    ghost use Rattle.std.specs.Prelude.{[], unwrap_or};
    ghost use Rattle.nm_schema_keys.specs.Membership.{Membership, membership, Leads};

    ghost Value = { Membership };

    ghost view = { λ m. membership m.names.now m.nodes };

    ghost invariant = { λ m. Leads m.names.now (unwrap_or m.nodes []) m.first };
}

// Lets each name lead to the first node that has it.
fn first_of_each<'a>(
    alloc: Global,
    names: &RowNames<'a>,
    nodes: &[usize],
) -> Result<BTreeMap<&'a str, usize>, NoMemory>
    ensures { IfOk result (Leads names.now nodes.now) }
{
    let mut first = BTreeMap::new(alloc);
    let mut at = nodes.len();
    while at > 0 {
        at -= 1;
        let node = nodes[at];
        first.insert(argument_at(names.rows(), node), node)?;
    }
    Ok(first)
}

fn slice_of(nodes: &Option<Nodes>) -> &[usize]
    ensures { result.now ≡ unwrap_or nodes.now [] }
{
    match nodes {
        None => &[],
        Some(nodes) => nodes.as_slice(),
    }
}

impl<'n, 'a> Members<'n, 'a> {
    /// The members of a row.
    pub fn new(
        alloc: Global,
        names: &'n RowNames<'a>,
        shape: &Shape<'_>,
        at: usize,
    ) -> Result<Members<'n, 'a>, NoMemory>
        requires { names.now ≡ shape.now.rows }
        ensures { IfOk result (λ members. members ≡ membership names.now (shape_spec.members names.now shape.now.groupings at)) }
    {
        let nodes = shape.members(alloc, at)?;
        Members::of(alloc, names, nodes)
    }

    // Some nodes of the modules by name, if they are known.
    fn of(
        alloc: Global,
        names: &'n RowNames<'a>,
        nodes: Option<Nodes>,
    ) -> Result<Members<'n, 'a>, NoMemory>
        ensures { IfOk result (λ members. members ≡ membership names.now nodes) }
    {
        let first = first_of_each(alloc, names, slice_of(&nodes))?;
        Ok(Members {
            names,
            nodes,
            first,
        })
    }

    /// The members of a row that stand in no choice.
    pub fn plain(
        alloc: Global,
        names: &'n RowNames<'a>,
        shape: &Shape<'_>,
        at: usize,
    ) -> Result<Members<'n, 'a>, NoMemory>
        requires { names.now ≡ shape.now.rows }
        ensures { IfOk result (λ members. members ≡ membership names.now (passing.plain_members names.now shape.now.groupings at)) }
    {
        let nodes = shape.plain_members(alloc, at)?;
        Members::of(alloc, names, nodes)
    }

    /// The members of a row that are no state themselves and stand in no choice that is.
    pub fn kept(
        alloc: Global,
        names: &'n RowNames<'a>,
        shape: &Shape<'_>,
        at: usize,
    ) -> Result<Members<'n, 'a>, NoMemory>
        requires { names.now ≡ shape.now.rows }
        ensures { IfOk result (λ members. members ≡ membership names.now (passing.kept_members names.now shape.now.groupings at)) }
    {
        let nodes = shape.kept_members(alloc, at)?;
        Members::of(alloc, names, nodes)
    }

    /// Whether the members are known.
    pub fn are_known(&self) -> bool
        ensures { result ≡ is_some self.now.nodes }
    {
        self.nodes.is_some()
    }

    /// How many members there are. Where they aren't known, none.
    pub fn len(&self) -> usize
        ensures { result ≡ length (unwrap_or self.now.nodes []) }
    {
        slice_of(&self.nodes).len()
    }

    /// The first member that has a name.
    pub fn named(&self, name: &'a str) -> Found
        ensures { result ≡ spec.found_among self.now.rows self.now.nodes name.now }
    {
        if self.nodes.is_none() {
            return Found::Unknown;
        }
        match self.first.get(&name) {
            None => Found::Missing,
            Some(node) => Found::Row(*node),
        }
    }

    /// The member that a word in the module of a number names, where it has a word and isn't lost.
    #[tactic(auto, unfolding(crate::specs::Found::fit_among))]
    pub fn fit(&self, loses: bool, owner: usize, wanted: Word, word: &'a str) -> Found
        ensures { result ≡ spec.fit_among self.now.rows self.now.nodes loses owner wanted word.now }
    {
        match own_name(self.names, owner, word) {
            None => Found::Missing,
            Some(name) => fitting(self.names.rows(), loses, wanted, self.named(name)),
        }
    }
}
