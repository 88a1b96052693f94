//! A tree of modules, and what is known of what stands in it.

ghost use Rattle.std.specs.Prelude.{◌≡◌, ℕ, IfOk, false, slice_index_or};
ghost use Rattle.nm_schema_nodes.specs.Expansion.{owner_of, row_of};
ghost use Rattle.nm_schema_leafref.specs.Place as spec;

use crate::led::is_marked;
use nm_base::NoMemory;
use nm_schema_names::RowNames;
use nm_schema_nodes::{Expansion, Instance};
use nm_schema_statements::{Rows, Word};
use nm_schema_uses::Shape;
use std::alloc::Global;
use std::marker::Model;

/// A tree of modules with its names, and what is known of what stands in each node and at the top of each module. It is seen
/// as the tree.
#[derive(Drop)]
pub struct Tree<'g, 'a, 'b> {
    names: &'g RowNames<'a>,
    expansion: &'g Expansion<'b>,
    nodes: Vec<bool>,
    modules: Vec<bool>,
}

impl<'g, 'a, 'b> Model for Tree<'g, 'a, 'b> {
    ghost use Rattle.nm_schema_nodes.specs.Expansion.{Expanded};
    ghost use Rattle.nm_schema_leafref.specs.Place.{IsTree};

    ghost Value = { Expanded };

    ghost view = { λ g. g.expansion.now };

    ghost invariant = { λ g. IsTree g.expansion.now g.names.now g.nodes.items g.modules.items };
}

// Whether what stands in a row is known.
fn is_known(alloc: Global, shape: &Shape<'_>, at: Option<usize>) -> Result<bool, NoMemory>
    ensures { IfOk result (λ known. known ≡ spec.is_known shape.now.rows shape.now.groupings at) }
{
    match at {
        None => Ok(false),
        Some(at) => Ok(shape.members(alloc, at)?.is_some()),
    }
}

// The row of a node.
#[tactic(auto, unfolding(nm_schema_nodes::specs::Expansion::row_of))]
fn row_of(expansion: &Expansion<'_>, at: usize) -> Option<usize>
    ensures { result ≡ row_of expansion.now.nodes at }
{
    match expansion.nodes().get(at) {
        None => None,
        Some(node) => Some(node.row),
    }
}

// Whether what stands in each node is known.
fn known_nodes(
    alloc: Global,
    shape: &Shape<'_>,
    expansion: &Expansion<'_>,
) -> Result<Vec<bool>, NoMemory>
    requires rows { shape.now.rows ≡ expansion.now.rows }
    requires groupings { shape.now.groupings ≡ expansion.now.groupings }
    ensures { IfOk result (λ known. (i : ℕ) → slice_index_or known.items i false ≡ spec.is_known_node expansion.now i) }
{
    let count = expansion.nodes().len();
    let mut known = Vec::with_capacity(alloc, count)?;
    for node in 0..count {
        match is_known(alloc, shape, row_of(expansion, node)) {
            Ok(found) => known.push(found)?,
            Err(error) => return Err(error),
        }
    }
    Ok(known)
}

// Whether a module is expanded and what stands at its top is known.
#[tactic(auto, unfolding(crate::specs::Place::is_known_module))]
fn is_known_module(
    alloc: Global,
    names: &RowNames<'_>,
    shape: &Shape<'_>,
    expansion: &Expansion<'_>,
    owner: usize,
) -> Result<bool, NoMemory>
    requires names { names.now ≡ expansion.now.rows }
    requires rows { shape.now.rows ≡ expansion.now.rows }
    requires groupings { shape.now.groupings ≡ expansion.now.groupings }
    ensures { IfOk result (λ known. known ≡ spec.is_known_module expansion.now owner) }
{
    if !expansion.is_grown(owner) {
        return Ok(false);
    }
    is_known(alloc, shape, names.top(owner))
}

// The same of each module.
fn known_modules(
    alloc: Global,
    names: &RowNames<'_>,
    shape: &Shape<'_>,
    expansion: &Expansion<'_>,
) -> Result<Vec<bool>, NoMemory>
    requires names { names.now ≡ expansion.now.rows }
    requires rows { shape.now.rows ≡ expansion.now.rows }
    requires groupings { shape.now.groupings ≡ expansion.now.groupings }
    ensures { IfOk result (λ known. (m : ℕ) → slice_index_or known.items m false ≡ spec.is_known_module expansion.now m) }
{
    let count = names.rows().roots().len();
    let mut known = Vec::with_capacity(alloc, count)?;
    for owner in 0..count {
        match is_known_module(alloc, names, shape, expansion, owner) {
            Ok(found) => known.push(found)?,
            Err(error) => return Err(error),
        }
    }
    Ok(known)
}

/// A tree with its names, and what is known of it.
pub fn tree_of<'g, 'a, 'b>(
    alloc: Global,
    names: &'g RowNames<'a>,
    shape: &Shape<'_>,
    expansion: &'g Expansion<'b>,
) -> Result<Tree<'g, 'a, 'b>, NoMemory>
    requires names { names.now ≡ expansion.now.rows }
    requires rows { shape.now.rows ≡ expansion.now.rows }
    requires groupings { shape.now.groupings ≡ expansion.now.groupings }
    ensures { IfOk result (λ tree. tree ≡ expansion.now) }
{
    let nodes = known_nodes(alloc, shape, expansion)?;
    let modules = known_modules(alloc, names, shape, expansion)?;
    Ok(Tree {
        names,
        expansion,
        nodes,
        modules,
    })
}

fn is_leaf(word: Word) -> bool
    ensures { result ≡ spec.is_leaf word }
{
    match word {
        Word::Leaf => true,
        Word::LeafList => true,
        _ => false,
    }
}

impl<'g, 'a, 'b> Tree<'g, 'a, 'b> {
    /// The names of the modules.
    pub fn names(&self) -> &'g RowNames<'a>
        ensures { result.now ≡ self.now.rows }
    {
        self.names
    }

    /// The tree.
    pub fn expansion(&self) -> &'g Expansion<'b>
        ensures { result.now ≡ self.now }
    {
        self.expansion
    }

    /// The rows of the modules.
    pub fn rows(&self) -> &'a Rows
        ensures { result.now ≡ self.now.rows }
    {
        self.names.rows()
    }

    /// The nodes of the tree.
    pub fn nodes(&self) -> &'g [Instance]
        ensures { result.now ≡ self.now.nodes }
    {
        self.expansion.nodes()
    }

    /// The row of a node.
    pub fn row_of(&self, at: usize) -> Option<usize>
        ensures { result ≡ row_of self.now.nodes at }
    {
        row_of(self.expansion, at)
    }

    /// The module whose tree a node is in.
    #[tactic(auto, unfolding(nm_schema_nodes::specs::Expansion::owner_of))]
    pub fn owner_of(&self, at: usize) -> Option<usize>
        ensures { result ≡ owner_of self.now.nodes at }
    {
        match self.nodes().get(at) {
            None => None,
            Some(node) => Some(node.owner),
        }
    }

    /// The node that a node stands in.
    #[tactic(auto, unfolding(crate::specs::Place::parent_of))]
    pub fn parent_of(&self, at: usize) -> Option<usize>
        ensures { result ≡ spec.parent_of self.now.nodes at }
    {
        match self.nodes().get(at) {
            None => None,
            Some(node) => node.parent,
        }
    }

    /// How many nodes there are from a node up to the top, itself included.
    #[tactic(auto, unfolding(crate::specs::Place::levels_of))]
    pub fn levels_of(&self, at: usize) -> usize
        ensures { result ≡ spec.levels_of self.now.nodes at }
    {
        let mut left = self.nodes().len();
        let mut spot = Some(at);
        let mut levels = 0;
        while left > 0 {
            let Some(node) = spot else {
                return levels;
            };
            spot = self.parent_of(node);
            levels += 1;
            left -= 1;
        }
        levels
    }

    /// Whether a node is a leaf or leaf-list.
    #[tactic(auto, unfolding(crate::specs::Place::is_leaf_node))]
    pub fn is_leaf_node(&self, at: usize) -> bool
        ensures { result ≡ spec.is_leaf_node self.now at }
    {
        let Some(row) = self.row_of(at) else {
            return false;
        };
        match self.rows().row(row) {
            None => false,
            Some(row) => is_leaf(row.word),
        }
    }

    /// Whether what stands in a node is known.
    pub fn is_known_node(&self, at: usize) -> bool
        ensures { result ≡ spec.is_known_node self.now at }
    {
        is_marked(&self.nodes, at)
    }

    /// Whether a module is expanded and what stands at its top is known.
    pub fn is_known_module(&self, owner: usize) -> bool
        ensures { result ≡ spec.is_known_module self.now owner }
    {
        is_marked(&self.modules, owner)
    }

    /// Whether a node is in the tree of a module.
    #[tactic(auto, unfolding(crate::specs::Place::is_of_module))]
    pub fn is_of_module(&self, at: usize, owner: usize) -> bool
        ensures { result ≡ spec.is_of_module self.now at owner }
    {
        match self.owner_of(at) {
            None => false,
            Some(found) => found == owner,
        }
    }
}
