//! Orders of a graph, and its least node that leads to itself.

ghost use Rattle.std.specs.Prelude.{◌≡◌, ◌<◌, ◌↔◌, ℕ, IsTrue, IfOk, IfSome, IfNone, OnOk, length};
ghost use Rattle.nm_graph.specs.Graph.{IsGraph, Leads};
ghost use Rattle.nm_graph.specs.Order.{IsMarked, IsWholeOrder, IsLeastCycle, IsAcyclic, Tells};

use crate::candidate::candidate;
use crate::edges::successors_of;
use crate::growing::{complete, settle};
use crate::reach::reached;
use nm_base::NoMemory;
use std::alloc::Global;

// Adds these nodes in turn, where they fit.
fn add_each(
    successors: &[Vec<usize>],
    nodes: &mut Vec<usize>,
    marks: &mut Vec<bool>,
    guess: &[usize],
) -> Result<(), NoMemory>
    requires graph { IsGraph successors.now }
    requires tells { Tells successors.now nodes.old.items marks.old.items }
    ensures tells { OnOk result (Tells successors.now nodes.new.items marks.new.items) }
{
    for node in guess {
        if *node < successors.len() {
            match settle(successors, nodes, marks, *node) {
                Ok(_) => {}
                Err(error) => return Err(error),
            }
        }
    }
    Ok(())
}

// Whether a node leads to itself.
fn leads_to_itself(alloc: Global, successors: &[Vec<usize>], node: usize) -> Result<bool, NoMemory>
    requires graph { IsGraph successors.now }
    requires within { node < length successors.now }
    ensures { IfOk result (λ leads. IsTrue leads ↔ Leads successors.now node node) }
{
    let reached = reached(alloc, successors, successors_of(successors, node))?;
    Ok(reached[node])
}

// The least node that leads to itself, where those that are marked don't.
fn least_cycle(
    alloc: Global,
    successors: &[Vec<usize>],
    marks: &[bool],
) -> Result<Option<usize>, NoMemory>
    requires graph { IsGraph successors.now }
    requires size { length marks.now ≡ length successors.now }
    requires marked { (node : ℕ) → IsMarked marks.now node → ¬ (Leads successors.now node node) }
    ensures found { IfOk result (λ found. IfSome found (IsLeastCycle successors.now)) }
    ensures none { IfOk result (λ found. IfNone found (IsAcyclic successors.now)) }
{
    for node in 0..successors.len() {
        if marks[node] {
            continue;
        }
        match leads_to_itself(alloc, successors, node) {
            Ok(true) => return Ok(Some(node)),
            Ok(false) => {}
            Err(error) => return Err(error),
        }
    }
    Ok(None)
}

/// What is found of a graph.
#[derive(Drop)]
pub struct Ordered {
    /// The nodes that lead to no cycle: each comes once, and after all that it leads to.
    pub nodes: Vec<usize>,
    /// The least node that leads to itself.
    pub cycle: Option<usize>,
}

/// An order of the nodes that lead to no cycle, and the least node that leads to itself. A node that isn't in the order
/// leads to one that isn't there.
///
/// Takes time in proportion to the nodes and edges where no node leads to itself. Else a search is made from each node that
/// leads to a cycle and is less than the node that is answered.
pub fn order(alloc: Global, successors: &[Vec<usize>]) -> Result<Ordered, NoMemory>
    requires graph { IsGraph successors.now }
    ensures order { IfOk result (λ found. IsWholeOrder successors.now found.nodes.items) }
    ensures cycle { IfOk result (λ found. IfSome found.cycle (IsLeastCycle successors.now)) }
    ensures acyclic { IfOk result (λ found. IfNone found.cycle (IsAcyclic successors.now)) }
{
    let guess = candidate(alloc, successors)?;
    let mut nodes = Vec::new(alloc);
    let mut marks = vec![in alloc; false; successors.len()]?;
    add_each(successors, &mut nodes, &mut marks, &guess)?;
    complete(successors, &mut nodes, &mut marks)?;
    let cycle = least_cycle(alloc, successors, &marks)?;
    Ok(Ordered { nodes, cycle })
}
