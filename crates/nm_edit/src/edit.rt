//! Edits.

use crate::operation::Operation;
use nm_types::{Path, Value};
use std::marker::Model;

/// A node that an edit names: a container, an entry of a list or leaf-list, or a leaf that is no key.
#[derive(Drop)]
pub struct EditNode {
    pub path: Path,
    /// What the edit says of this node itself, if anything.
    pub operation: Option<Operation>,
    /// The value of its row: none of a container without presence, and of a leaf that is only taken away.
    pub value: Option<Value>,
}

/// An edit: the nodes that it names, in path order. It is seen as their list.
#[derive(Drop)]
pub struct Edit {
    pub nodes: Vec<EditNode>,
}

impl Model for Edit {
    ghost use Rattle.std.specs.Prelude.{List};
    ghost use Rattle.nm_edit.specs.declared.edit.EditNode.{EditNode as NamedNode};

    ghost Value = { List NamedNode };

    ghost view = { λ e. e.nodes.items };
}
