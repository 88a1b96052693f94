//! The tree of modules.

ghost use Rattle.std.specs.Prelude.{◌≡◌, IfOk};
ghost use Rattle.nm_schema_nodes.specs.Expansion as spec;
ghost use Rattle.nm_schema_nodes.specs.Named as named;

use crate::grow::nodes_of;
use crate::index::{Index, index_of};
use crate::instance::Instance;
use crate::limits::{first_large, is_grown};
use crate::table::{Key, Table, table_of};
use nm_base::NoMemory;
use nm_schema_uses::Shape;
use std::alloc::Global;
use std::marker::Model;

/// The tree of modules. It is seen as the rows of the modules, the grouping of each uses, and the nodes of the tree.
#[derive(Drop)]
pub struct Expansion<'a> {
    shape: &'a Shape<'a>,
    large: Option<usize>,
    nodes: Vec<Instance>,
    index: Index,
    table: Table<'a>,
}

impl<'a> Model for Expansion<'a> {
    ghost use Rattle.nm_schema_nodes.specs.Expansion.{Expanded, expanded};
    ghost use Rattle.nm_schema_nodes.specs.Index.{IsFound};

    ghost Value = { Expanded };

    ghost view = { λ e. expanded e.shape.now.rows e.shape.now.groupings e.nodes.items };

    ghost invariant = { λ e. IsFound e.shape.now.rows e.shape.now.groupings e.nodes.items e.large e.index e.table };
}

impl<'a> Expansion<'a> {
    /// The nodes of the tree, by number from 0: first those at the top of the modules, module by module, and then what stands
    /// directly in each node, in the order of the nodes.
    pub fn nodes(&self) -> &[Instance]
        ensures { result.now ≡ self.now.nodes }
    {
        self.nodes.as_slice()
    }

    /// The numbers of the nodes directly in a node, in order, and none past the last node.
    pub fn children(&self, at: usize) -> &[usize]
        ensures { result.now ≡ spec.children self.now.nodes at }
    {
        if at < self.index.below.len() {
            return self.index.below[at].as_slice();
        }
        &[]
    }

    /// The numbers of the nodes at the top of the module of a number from 0, in order, and none past the last module.
    pub fn tops(&self, owner: usize) -> &[usize]
        ensures { result.now ≡ spec.tops self.now.nodes owner }
    {
        if owner < self.index.tops.len() {
            return self.index.tops[owner].as_slice();
        }
        &[]
    }

    /// The first node directly in a node that has a name.
    pub fn child_named(&self, at: usize, name: &'a str) -> Option<usize>
        ensures { result ≡ named.child_named self.now.rows self.now.nodes at name.now }
    {
        self.table.get(&Key {
            parent: Some(at),
            owner: None,
            name,
        })
    }

    /// The first node at the top of the module of a number from 0 that has a name.
    pub fn top_named(&self, owner: usize, name: &'a str) -> Option<usize>
        ensures { result ≡ named.top_named self.now.rows self.now.nodes owner name.now }
    {
        self.table.get(&Key {
            parent: None,
            owner: Some(owner),
            name,
        })
    }

    /// Whether the module of a number from 0 is expanded: it comes before each that is too large, and its nodes can be counted.
    pub fn is_grown(&self, owner: usize) -> bool
        ensures { result ≡ spec.is_grown self.now.rows self.now.groupings owner }
    {
        is_grown(self.shape, self.large, owner)
    }

    /// What stands in what, and that the tree keeps to the limits. It does nothing: its contract is the law.
    pub fn laws(&self)
        ensures { spec.IsExpansion self.now.rows self.now.groupings self.now.nodes }
    {
        let _count = self.nodes.len();
    }
}

/// The tree of modules, each uses in the place of what its grouping holds, and without state (RFC 7950 sections 7.13 and
/// 7.21.1). Only modules before the first that is too large are expanded, so that nothing is spent on what lies beyond the
/// limits.
pub fn expand<'a>(alloc: Global, shape: &'a Shape<'a>) -> Result<Expansion<'a>, NoMemory>
    ensures { IfOk result (λ e. (e.rows ≡ shape.now.rows) × (e.groupings ≡ shape.now.groupings)) }
{
    let large = first_large(shape);
    let nodes = nodes_of(alloc, shape, large)?;
    let index = index_of(alloc, shape.rows().roots().len(), &nodes)?;
    let table = table_of(alloc, shape.rows(), &nodes)?;
    Ok(Expansion {
        shape,
        large,
        nodes,
        index,
        table,
    })
}
