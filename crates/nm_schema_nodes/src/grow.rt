//! How the tree grows: the nodes at the top of each module first, and then what stands in each node, in order.

ghost use Rattle.std.specs.Prelude.{◌≡◌, ◌++◌, ◌<◌, length, map, IfOk, OnOk};
ghost use Rattle.nm_schema_statements.specs.Rows.{roots};
ghost use Rattle.nm_schema_nodes.specs.Expansion as spec;
ghost use Rattle.nm_schema_nodes.specs.Growing as growing;

use crate::instance::Instance;
use crate::limits::{is_grown, module_row};
use nm_base::NoMemory;
use nm_schema_uses::Shape;
use std::alloc::Global;

// The members of a row that are neither state themselves nor in a choice that is, and none where they aren't known.
#[tactic(auto, unfolding(crate::specs::Expansion::kept_below))]
fn kept_below(alloc: Global, shape: &Shape<'_>, at: usize) -> Result<Vec<usize>, NoMemory>
    ensures { IfOk result (λ kept. kept.items ≡ spec.kept_below shape.now.rows shape.now.groupings at) }
{
    let Some(members) = shape.kept_members(alloc, at)? else {
        return Ok(Vec::new(alloc));
    };
    let kept = members.as_slice().iter().copied().collect(alloc)?;
    Ok(kept)
}

// Adds nodes for some rows.
#[tactic(auto, unfolding(crate::specs::Growing::instance))]
fn push_all(
    nodes: &mut Vec<Instance>,
    parent: Option<usize>,
    owner: usize,
    rows: &[usize],
) -> Result<(), NoMemory>
    ensures { OnOk result (nodes.new.items ≡ nodes.old.items ++ map (growing.instance parent owner) rows.now) }
{
    for row in rows {
        nodes.push(Instance {
            parent,
            row: *row,
            owner,
        })?;
    }
    Ok(())
}

// Adds the nodes that stand directly in a row.
fn push_below(
    alloc: Global,
    shape: &Shape<'_>,
    nodes: &mut Vec<Instance>,
    parent: Option<usize>,
    owner: usize,
    row: usize,
) -> Result<(), NoMemory>
    ensures { OnOk result (nodes.new.items ≡ nodes.old.items ++ map (growing.instance parent owner) (spec.kept_below shape.now.rows shape.now.groupings row)) }
{
    let rows = kept_below(alloc, shape, row)?;
    push_all(nodes, parent, owner, rows.as_slice())
}

// Adds the nodes at the top of a module, if it is expanded.
#[tactic(auto, unfolding(crate::specs::Expansion::grown_members))]
fn push_tops(
    alloc: Global,
    shape: &Shape<'_>,
    large: Option<usize>,
    nodes: &mut Vec<Instance>,
    owner: usize,
) -> Result<(), NoMemory>
    requires { large ≡ spec.first_large shape.now.rows shape.now.groupings }
    ensures { OnOk result
        (nodes.new.items ≡ nodes.old.items ++ map (growing.instance None owner) (spec.grown_members shape.now.rows shape.now.groupings owner)) }
{
    if !is_grown(shape, large, owner) {
        return Ok(());
    }
    match module_row(shape, owner) {
        None => Ok(()),
        Some(root) => push_below(alloc, shape, nodes, None, owner, root),
    }
}

// The nodes at the top of the modules.
fn seeds(alloc: Global, shape: &Shape<'_>, large: Option<usize>) -> Result<Vec<Instance>, NoMemory>
    requires { large ≡ spec.first_large shape.now.rows shape.now.groupings }
    ensures { IfOk result (λ nodes. growing.IsGrowing shape.now.rows shape.now.groupings (length (roots shape.now.rows)) 0 nodes.items) }
{
    let mut nodes = Vec::new(alloc);
    for owner in 0..shape.rows().roots().len() {
        push_tops(alloc, shape, large, &mut nodes, owner)?;
    }
    Ok(nodes)
}

/// The nodes of the tree. The work is that of the nodes that there are in the end.
pub(crate) fn nodes_of(
    alloc: Global,
    shape: &Shape<'_>,
    large: Option<usize>,
) -> Result<Vec<Instance>, NoMemory>
    requires { large ≡ spec.first_large shape.now.rows shape.now.groupings }
    ensures { IfOk result (λ nodes. spec.IsExpansion shape.now.rows shape.now.groupings nodes.items) }
{
    let mut nodes = seeds(alloc, shape, large)?;
    let mut next = 0;
    while next < nodes.len() {
        let node = nodes[next];
        push_below(alloc, shape, &mut nodes, Some(next), node.owner, node.row)?;
        next += 1;
    }
    Ok(nodes)
}
