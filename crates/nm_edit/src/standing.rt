//! The operation that stands at a node of an edit.

ghost use Rattle.std.specs.Prelude.{◌≡◌, IfOk};
ghost use Rattle.nm_edit.specs.Standing as spec;

use crate::front::{go_on, top};
use crate::operation::{Effective, Operation};
use crate::said::Said;
use nm_base::NoMemory;
use nm_proto::DefaultOperation;
use nm_types::Path;
use std::alloc::Global;

/// What stands at a node of an edit.
#[derive(Clone, Copy)]
pub struct Standing {
    /// What is done to the node.
    pub operation: Effective,
    /// Whether the edit says it of the node itself.
    pub is_explicit: bool,
    /// Whether a node above it goes with all below it.
    pub is_cut: bool,
}

// What stands above all nodes: the default operation.
fn at_top(default_operation: DefaultOperation) -> Standing
    ensures { result ≡ spec.at_top default_operation }
{
    Standing {
        operation: Effective::of_default(default_operation),
        is_explicit: false,
        is_cut: false,
    }
}

// What stands at a node, by what the edit says of it and what stands above.
fn stepped(own: Option<Operation>, above: Standing) -> Standing
    ensures { result ≡ spec.stepped own above }
{
    let is_cut = above.is_cut || above.operation.takes_away();
    match own {
        Some(operation) => Standing {
            operation: operation.effective(),
            is_explicit: true,
            is_cut,
        },
        None => Standing {
            operation: above.operation,
            is_explicit: false,
            is_cut,
        },
    }
}

/// What stands at a path, by what the edit says of the nodes on the way from the top down to it.
pub fn standing_at(
    alloc: Global,
    said: &Said,
    default_operation: DefaultOperation,
    path: &Path,
) -> Result<Standing, NoMemory>
    ensures { IfOk result (λ found. found ≡ spec.standing said.now default_operation path.now) }
{
    let mut front = top(alloc);
    let mut found = at_top(default_operation);
    for step in &path.steps {
        go_on(alloc, &mut front, step)?;
        found = stepped(said.get(&front), found);
    }
    Ok(found)
}
