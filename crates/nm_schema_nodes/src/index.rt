//! The nodes in each node and at the top of each module.

ghost use Rattle.std.specs.Prelude.{◌≡◌, ◌<◌, [], length, IfOk, OnOk, IfSome, All, replicate};
ghost use Rattle.nm_schema_nodes.specs.Index as spec;

use crate::instance::Instance;
use nm_base::{NoMemory, Numbers};
use std::alloc::Global;

/// The nodes in each node, and those at the top of each module.
#[derive(Drop)]
pub struct Index {
    /// The children of each node.
    pub below: Vec<Numbers>,
    /// The nodes at the top of each module.
    pub tops: Vec<Numbers>,
}

// So many empty lists.
fn empty(alloc: Global, count: usize) -> Result<Vec<Numbers>, NoMemory>
    ensures { IfOk result (λ lists. lists.items ≡ replicate count []) }
{
    let mut lists = Vec::with_capacity(alloc, count)?;
    for _ in 0..count {
        lists.push(Numbers::new(alloc))?;
    }
    Ok(lists)
}

// Adds a number at the end of the list of a holder, if there is one.
fn add_number(
    lists: &mut Vec<Numbers>,
    holder: Option<usize>,
    number: usize,
) -> Result<(), NoMemory>
    requires { IfSome holder (λ h. h < length lists.old.items) }
    ensures { OnOk result (lists.new.items ≡ spec.listed_with lists.old.items holder number) }
{
    match holder {
        None => Ok(()),
        Some(holder) => lists[holder].push(number),
    }
}

// The children of each node.
fn below_each(alloc: Global, nodes: &[Instance]) -> Result<Vec<Numbers>, NoMemory>
    requires { All (λ node. IfSome node.parent (λ p. p < length nodes.now)) nodes.now }
    ensures { IfOk result (λ below. spec.AreChildren nodes.now below.items) }
{
    let mut below = empty(alloc, nodes.len())?;
    for at in 0..nodes.len() {
        add_number(&mut below, nodes[at].parent, at)?;
    }
    Ok(below)
}

/// The module whose top a node stands at, if it stands at one.
pub(crate) fn module_above(node: &Instance) -> Option<usize>
    ensures { result ≡ spec.module_above node.now.parent node.now.owner }
{
    match node.parent {
        None => Some(node.owner),
        Some(_) => None,
    }
}

// The nodes at the top of each module.
fn tops_each(alloc: Global, count: usize, nodes: &[Instance]) -> Result<Vec<Numbers>, NoMemory>
    requires { All (λ node. node.owner < count) nodes.now }
    ensures { IfOk result (λ tops. spec.AreTops count nodes.now tops.items) }
{
    let mut tops = empty(alloc, count)?;
    for at in 0..nodes.len() {
        add_number(&mut tops, module_above(&nodes[at]), at)?;
    }
    Ok(tops)
}

/// The nodes in each node, and those at the top of each of so many modules.
pub(crate) fn index_of(alloc: Global, count: usize, nodes: &[Instance]) -> Result<Index, NoMemory>
    requires parents { All (λ node. IfSome node.parent (λ p. p < length nodes.now)) nodes.now }
    requires owners { All (λ node. node.owner < count) nodes.now }
    ensures { IfOk result (spec.IsIndex count nodes.now) }
{
    let below = below_each(alloc, nodes)?;
    let tops = tops_each(alloc, count, nodes)?;
    Ok(Index { below, tops })
}
