//! An order that grows, as two vectors: its nodes, and for each node of the graph whether it is there.

ghost use Rattle.std.specs.Prelude.{◌≡◌, ◌<◌, ◌+◌, ℕ, IsTrue, IfSome, IfNone, IfOk, OnOk, OnErr, All, Contains, length, true, false, vec_len};
ghost use Rattle.nm_graph.specs.Graph.{successors_of, IsGraph};
ghost use Rattle.nm_graph.specs.Order.{IsMarked, IsSettled, AreSettled, Tells};

use crate::edges::successors_of;
use nm_base::NoMemory;

// The first of some nodes that isn't marked.
fn first_unmarked(marks: &[bool], nodes: &[usize]) -> Option<usize>
    requires { All (λ node. node < length marks.now) nodes.now }
    ensures found { IfSome result (λ node. Contains nodes.now node × (¬ (IsMarked marks.now node))) }
    ensures none { IfNone result (All (IsMarked marks.now) nodes.now) }
{
    for node in nodes {
        if !marks[*node] {
            return Some(*node);
        }
    }
    None
}

// Adds a node at the end of the order.
fn add(
    successors: &[Vec<usize>],
    nodes: &mut Vec<usize>,
    marks: &mut Vec<bool>,
    node: usize,
) -> Result<(), NoMemory>
    requires tells { Tells successors.now nodes.old.items marks.old.items }
    requires within { node < length successors.now }
    requires ready { All (IsMarked marks.old.items) (successors_of successors.now node) }
    requires new { ¬ (IsMarked marks.old.items node) }
    ensures tells { Tells successors.now nodes.new.items marks.new.items }
    ensures longer { OnOk result (length nodes.new.items ≡ length nodes.old.items + 1) }
    ensures unchanged { OnErr result (nodes.new.items ≡ nodes.old.items) }
{
    nodes.push(node)?;
    marks[node] = true;
    Ok(())
}

/// Adds a node, unless it is there or leads to one that isn't. Whether it was added.
pub(crate) fn settle(
    successors: &[Vec<usize>],
    nodes: &mut Vec<usize>,
    marks: &mut Vec<bool>,
    node: usize,
) -> Result<bool, NoMemory>
    requires graph { IsGraph successors.now }
    requires tells { Tells successors.now nodes.old.items marks.old.items }
    requires within { node < length successors.now }
    ensures tells { Tells successors.now nodes.new.items marks.new.items }
    ensures longer { IfOk result (λ added. IsTrue added → length nodes.old.items < length nodes.new.items) }
    ensures unchanged { IfOk result (λ added. added ≡ false → nodes.new.items ≡ nodes.old.items) }
    ensures settled { IfOk result (λ added. added ≡ false → IsSettled successors.now nodes.new.items node) }
{
    if marks[node] {
        return Ok(false);
    }
    if let Some(_) = first_unmarked(marks, successors_of(successors, node)) {
        return Ok(false);
    }
    add(successors, nodes, marks, node)?;
    Ok(true)
}

// Goes once over all nodes. Whether one was added.
fn round(
    successors: &[Vec<usize>],
    nodes: &mut Vec<usize>,
    marks: &mut Vec<bool>,
) -> Result<bool, NoMemory>
    requires graph { IsGraph successors.now }
    requires tells { Tells successors.now nodes.old.items marks.old.items }
    ensures tells { IfOk result (λ added. Tells successors.now nodes.new.items marks.new.items) }
    ensures longer { IfOk result (λ added. IsTrue added → length nodes.old.items < length nodes.new.items) }
    ensures settled { IfOk result (λ added. added ≡ false → AreSettled successors.now nodes.new.items (length successors.now)) }
{
    let mut added = false;
    for node in 0..successors.len() {
        match settle(successors, nodes, marks, node) {
            Ok(true) => added = true,
            Ok(false) => {}
            Err(error) => return Err(error),
        }
    }
    Ok(added)
}

/// Adds nodes until each that isn't there leads to one that isn't there.
pub(crate) fn complete(
    successors: &[Vec<usize>],
    nodes: &mut Vec<usize>,
    marks: &mut Vec<bool>,
) -> Result<(), NoMemory>
    requires graph { IsGraph successors.now }
    requires tells { Tells successors.now nodes.old.items marks.old.items }
    ensures tells { OnOk result (Tells successors.now nodes.new.items marks.new.items) }
    ensures settled { OnOk result (AreSettled successors.now nodes.new.items (length successors.now)) }
{
    while round(successors, nodes, marks)? {}
    Ok(())
}
