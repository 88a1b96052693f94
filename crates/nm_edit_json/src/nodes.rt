//! The nodes of an edit by their paths.

ghost use Rattle.std.specs.Prelude.{◌≡◌, ◌∷◌, ◌++◌, [], IfOk, OnOk, is_some};
ghost use Rattle.std.specs.FinMap as map;
ghost use Rattle.nm_edit_json.specs.Whole as spec;

use nm_base::NoMemory;
use nm_edit::{Edit, EditNode, Operation};
use nm_types::{Path, Value};
use std::alloc::Global;
use std::collections::BTreeMap;
use std::marker::Model;

/// What a node of an edit has besides its path.
#[derive(Drop)]
pub struct Told {
    pub operation: Option<Operation>,
    pub value: Option<Value>,
}

/// The nodes of an edit. They are seen as a finite map from their paths.
#[derive(Drop)]
pub struct Nodes {
    tree: BTreeMap<Path, Told>,
}

impl Model for Nodes {
    ghost use Rattle.std.specs.FinMap as map;
    ghost use Rattle.nm_types.specs.Path.{path_cmp};
    ghost use Rattle.nm_types.specs.contracts.path.Path as path;
    ghost use Rattle.nm_edit_json.specs.declared.nodes.Told.{Told as ToldOf};
    ghost use Rattle.nm_edit_json.specs.contracts.nodes.Told as told;

    ghost Value = { map.FinMap path_cmp ToldOf };

    ghost coded = { map.code path.the_row.coded told.the_row.coded };

    ghost view = { λ nodes. map.from_entries nodes.tree.entries };
}

impl Nodes {
    /// No nodes.
    pub fn new(alloc: Global) -> Nodes
        ensures { result ≡ map.empty }
    {
        Nodes {
            tree: BTreeMap::new(alloc),
        }
    }

    /// How many nodes there are.
    pub fn len(&self) -> usize
        ensures { result ≡ map.len self.now }
    {
        self.tree.len()
    }

    /// Whether there is a node with a path.
    pub fn has(&self, path: &Path) -> bool
        ensures { result ≡ is_some (map.get self.now path.now) }
    {
        self.tree.get(path).is_some()
    }

    /// Puts a node among the others.
    pub fn put(&mut self, path: Path, told: Told) -> Result<(), NoMemory>
        ensures { OnOk result (self.new ≡ map.insert self.old path told) }
    {
        let before = self.tree.insert(path, told)?;
        drop(before);
        Ok(())
    }

    /// The edit of these nodes.
    pub fn to_edit(&self, alloc: Global) -> Result<Edit, NoMemory>
        ensures { IfOk result (λ edit. edit ≡ spec.nodes_in self.now) }
    {
        let mut nodes = Vec::with_capacity(alloc, self.tree.len())?;
        for (path, told) in self.tree.iter() {
            match push_node(alloc, &mut nodes, path, told) {
                Ok(()) => {}
                Err(error) => {
                    drop(nodes);
                    return Err(error);
                }
            }
        }
        Ok(Edit { nodes })
    }
}

fn copy_value(value: &Option<Value>) -> Result<Option<Value>, NoMemory>
    ensures { IfOk result (λ copied. copied ≡ value.now) }
{
    match value {
        None => Ok(None),
        Some(value) => Ok(Some(value.copy()?)),
    }
}

// Puts the node of a path behind others.
fn push_node(
    alloc: Global,
    nodes: &mut Vec<EditNode>,
    path: &Path,
    told: &Told,
) -> Result<(), NoMemory>
    ensures { OnOk result (nodes.new.items ≡ nodes.old.items ++ spec.node_at (path.now, told.now) ∷ []) }
{
    nodes.push(node_at(alloc, path, told)?)?;
    Ok(())
}

// The node of a path.
fn node_at(alloc: Global, path: &Path, told: &Told) -> Result<EditNode, NoMemory>
    ensures { IfOk result (λ node. node ≡ spec.node_at (path.now, told.now)) }
{
    let value = copy_value(&told.value)?;
    match path.copy(alloc) {
        Ok(path) => Ok(EditNode {
            path,
            operation: told.operation,
            value,
        }),
        Err(error) => {
            drop(value);
            Err(error)
        }
    }
}
