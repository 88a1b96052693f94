//! A guess at an order, by how many of a node's successors are still to come. Nothing is promised of it but speed: with it
//! an order is complete at once.

use nm_base::NoMemory;
use std::alloc::Global;

// For each node the nodes that lead to it, once for each edge.
fn predecessors(alloc: Global, successors: &[Vec<usize>]) -> Result<Vec<Vec<usize>>, NoMemory> {
    let mut before = Vec::with_capacity(alloc, successors.len())?;
    for _ in 0..successors.len() {
        before.push(Vec::new(alloc))?;
    }
    for node in 0..successors.len() {
        note_node(&mut before, &successors[node], node)?;
    }
    Ok(before)
}

fn note_node(before: &mut Vec<Vec<usize>>, nodes: &[usize], node: usize) -> Result<(), NoMemory> {
    for next in nodes {
        if let Some(list) = before.get_mut(*next) {
            list.push(node)?;
        }
    }
    Ok(())
}

// The nodes that lead nowhere, and how many successors of each node are still to come.
fn begin(
    waiting: &mut Vec<usize>,
    guess: &mut Vec<usize>,
    successors: &[Vec<usize>],
) -> Result<(), NoMemory> {
    for node in 0..successors.len() {
        waiting.push(successors[node].len())?;
        if successors[node].is_empty() {
            guess.push(node)?;
        }
    }
    Ok(())
}

// One successor of each of these came.
fn come(
    waiting: &mut Vec<usize>,
    guess: &mut Vec<usize>,
    before: &[usize],
) -> Result<(), NoMemory> {
    for node in before {
        if let Some(count) = waiting.get_mut(*node) {
            *count = count.saturating_sub(1);
            if *count == 0 {
                guess.push(*node)?;
            }
        }
    }
    Ok(())
}

/// Nodes so that mostly each comes after all that it leads to.
pub(crate) fn candidate(alloc: Global, successors: &[Vec<usize>]) -> Result<Vec<usize>, NoMemory> {
    let before = predecessors(alloc, successors)?;
    let mut waiting = Vec::with_capacity(alloc, successors.len())?;
    let mut guess = Vec::new(alloc);
    begin(&mut waiting, &mut guess, successors)?;
    for place in 0..successors.len() {
        let Some(node) = guess.get(place).copied() else {
            return Ok(guess);
        };
        let Some(nodes) = before.get(node) else {
            return Ok(guess);
        };
        come(&mut waiting, &mut guess, nodes)?;
    }
    Ok(guess)
}
