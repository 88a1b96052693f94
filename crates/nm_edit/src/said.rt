//! What an edit says of its nodes themselves, by their paths.

ghost use Rattle.std.specs.Prelude.{◌≡◌, IfOk, OnOk};
ghost use Rattle.std.specs.FinMap as map;
ghost use Rattle.nm_edit.specs.Standing as spec;

use crate::edit::EditNode;
use crate::operation::Operation;
use nm_base::NoMemory;
use nm_types::Path;
use std::alloc::Global;
use std::collections::BTreeMap;
use std::marker::Model;

/// The operations of the nodes that an edit says one of. It is seen as a finite map from their paths.
#[derive(Drop)]
pub struct Said {
    tree: BTreeMap<Path, Operation>,
}

impl Model for Said {
    ghost use Rattle.std.specs.FinMap as map;
    ghost use Rattle.nm_types.specs.Path.{path_cmp};
    ghost use Rattle.nm_types.specs.contracts.path.Path as path;
    ghost use Rattle.nm_edit.specs.declared.operation.Operation.{Operation};
    ghost use Rattle.nm_edit.specs.contracts.operation.Operation as operation;

    ghost Value = { map.FinMap path_cmp Operation };

    ghost coded = { map.code path.the_row.coded operation.the_row.coded };

    ghost view = { λ said. map.from_entries said.tree.entries };
}

impl Said {
    /// Nothing is said of any node.
    pub fn new(alloc: Global) -> Said
        ensures { result ≡ map.empty }
    {
        Said {
            tree: BTreeMap::new(alloc),
        }
    }

    /// What is said of a node.
    pub fn get(&self, path: &Path) -> Option<Operation>
        ensures { result ≡ map.get self.now path.now }
    {
        self.tree.get(path).copied()
    }

    /// Says an operation of a node.
    pub fn put(&mut self, path: Path, operation: Operation) -> Result<(), NoMemory>
        ensures { OnOk result (self.new ≡ map.insert self.old path operation) }
    {
        self.tree.insert(path, operation)?;
        Ok(())
    }

    // Says what a node of the edit says of itself.
    fn put_node(&mut self, alloc: Global, node: &EditNode) -> Result<(), NoMemory>
        ensures { OnOk result (self.new ≡ spec.with_node self.old node.now) }
    {
        let Some(operation) = node.operation else {
            return Ok(());
        };
        let path = node.path.copy(alloc)?;
        self.put(path, operation)
    }
}

/// What an edit of these nodes says.
pub fn said_of(alloc: Global, nodes: &[EditNode]) -> Result<Said, NoMemory>
    ensures { IfOk result (λ said. said ≡ spec.said nodes.now) }
{
    let mut said = Said::new(alloc);
    for node in nodes {
        said.put_node(alloc, node)?;
    }
    Ok(said)
}
