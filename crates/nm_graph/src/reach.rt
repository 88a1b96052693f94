//! What is reached from some nodes, by a search without recursion.

ghost use Rattle.std.specs.Prelude.{◌≡◌, ℕ, ◌<◌, ◌↔◌, [], ◌∷◌, IfOk, OnOk, All, length, slice_index_or, true, false, vec_len};
ghost use Rattle.nm_graph.specs.Graph.{IsGraph, ReachedFrom};
ghost use Rattle.nm_graph.specs.Search.{IsSearch, Finds};

use crate::edges::successors_of;
use nm_base::NoMemory;
use std::alloc::Global;

// What a search has found: for each node whether it is found, and those nodes as they were found.
#[derive(Drop)]
pub struct Search {
    pub is_found: Vec<bool>,
    pub nodes: Vec<usize>,
}

// Finds a node, unless it is found already.
fn find(search: &mut Search, node: usize) -> Result<(), NoMemory>
    requires sound { IsSearch search.old }
    requires within { node < length search.old.is_found.items }
    ensures sound { OnOk result (IsSearch search.new) }
    ensures found { OnOk result (Finds search.old (node ∷ []) search.new) }
{
    if search.is_found[node] {
        return Ok(());
    }
    search.nodes.push(node)?;
    search.is_found[node] = true;
    Ok(())
}

// Finds each of some nodes.
fn find_all(search: &mut Search, nodes: &[usize]) -> Result<(), NoMemory>
    requires sound { IsSearch search.old }
    requires within { All (λ node. node < length search.old.is_found.items) nodes.now }
    ensures sound { OnOk result (IsSearch search.new) }
    ensures found { OnOk result (Finds search.old nodes.now search.new) }
{
    for node in nodes {
        match find(search, *node) {
            Ok(()) => {}
            Err(error) => return Err(error),
        }
    }
    Ok(())
}

/// Which nodes are reached from some of these in zero or more steps, by the number of the node.
pub fn reached(
    alloc: Global,
    successors: &[Vec<usize>],
    starts: &[usize],
) -> Result<Vec<bool>, NoMemory>
    requires graph { IsGraph successors.now }
    requires starts { All (λ start. start < length successors.now) starts.now }
    ensures size { IfOk result (λ reached. vec_len reached ≡ length successors.now) }
    ensures exactly { IfOk result (λ reached. (node : ℕ) → (slice_index_or reached.items node false ≡ true) ↔ ReachedFrom successors.now starts.now node) }
{
    let is_found = vec![in alloc; false; successors.len()]?;
    let mut search = Search {
        is_found,
        nodes: Vec::new(alloc),
    };
    find_all(&mut search, starts)?;
    let mut next = 0;
    while next < search.nodes.len() {
        let node = search.nodes[next];
        find_all(&mut search, successors_of(successors, node))?;
        next += 1;
    }
    let Search { is_found, nodes: _ } = search;
    Ok(is_found)
}
