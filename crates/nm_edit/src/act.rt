//! What an edit does at each of its nodes.

ghost use Rattle.std.specs.Prelude.{◌≡◌, ◌++◌, IfOk, OnOk};
ghost use Rattle.nm_edit.specs.Acts as spec;

use crate::edit::{Edit, EditNode};
use crate::operation::Effective;
use crate::said::{Said, said_of};
use crate::standing::{Standing, standing_at};
use nm_base::NoMemory;
use nm_proto::DefaultOperation;
use nm_types::{Path, Value};
use std::alloc::Global;

/// What an edit does at a node that it looks at.
#[derive(Drop)]
pub struct Act {
    pub path: Path,
    pub operation: Effective,
    /// Whether the edit says it of the node itself.
    pub is_explicit: bool,
    pub value: Option<Value>,
}

fn copied(value: &Option<Value>) -> Result<Option<Value>, NoMemory>
    ensures { IfOk result (λ copied. copied ≡ value.now) }
{
    match value {
        None => Ok(None),
        Some(value) => Ok(Some(value.copy()?)),
    }
}

// What is done at a node at which this stands.
fn act_of(alloc: Global, node: &EditNode, standing: Standing) -> Result<Act, NoMemory>
    ensures { IfOk result (λ act. act ≡ spec.act_of node.now standing) }
{
    Ok(Act {
        path: node.path.copy(alloc)?,
        operation: standing.operation,
        is_explicit: standing.is_explicit,
        value: copied(&node.value)?,
    })
}

// Puts what is done at a node behind the others, where it is looked at.
fn put_act(
    alloc: Global,
    said: &Said,
    default_operation: DefaultOperation,
    node: &EditNode,
    acts: &mut Vec<Act>,
) -> Result<(), NoMemory>
    ensures { OnOk result (acts.new.items ≡ acts.old.items ++ spec.acts_at said.now default_operation node.now) }
{
    let standing = standing_at(alloc, said, default_operation, &node.path)?;
    if standing.is_cut {
        return Ok(());
    }
    let act = act_of(alloc, node, standing)?;
    acts.push(act)?;
    Ok(())
}

/// What an edit does at each node that it looks at, in path order.
pub fn acts_of(
    alloc: Global,
    edit: &Edit,
    default_operation: DefaultOperation,
) -> Result<Vec<Act>, NoMemory>
    ensures { IfOk result (λ acts. acts.items ≡ spec.acts edit.now default_operation) }
{
    let said = said_of(alloc, &edit.nodes)?;
    let mut acts = Vec::new(alloc);
    for node in &edit.nodes {
        put_act(alloc, &said, default_operation, node, &mut acts)?;
    }
    Ok(acts)
}
