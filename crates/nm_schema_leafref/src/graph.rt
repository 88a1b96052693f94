//! The graph of leafrefs.

ghost use Rattle.std.specs.Prelude.{◌≡◌, ◌<◌, ◌↔◌, ℕ, IsTrue, IfOk, All, Contains, IfSome, None, length, slice_index_or, true, false};
ghost use Rattle.nm_graph.specs.Graph.{IsGraph, Leads};
ghost use Rattle.nm_graph.specs.Order.{IsWholeOrder};
ghost use Rattle.nm_schema_uses.specs.Config.{Marks};
ghost use Rattle.nm_schema_uses.specs.Holding.{Draws};
ghost use Rattle.nm_schema_leafref.specs.Known as known;
ghost use Rattle.nm_schema_leafref.specs.Target as spec;

use crate::led::{Led, is_marked, led_at};
use nm_base::NoMemory;
use nm_graph::reached;
use std::alloc::Global;

// What a node leads to.
fn target_in(alloc: Global, led: Option<Led>) -> Result<Vec<usize>, NoMemory>
    ensures { IfOk result (λ nodes. nodes.items ≡ spec.target_in led) }
{
    let mut nodes = Vec::new(alloc);
    match led {
        Some(Led::Node(node)) => {
            nodes.push(node)?;
            Ok(nodes)
        }
        _ => Ok(nodes),
    }
}

/// The graph that leads each node to what it leads to.
pub fn graph_of(alloc: Global, leds: &[Option<Led>]) -> Result<Vec<Vec<usize>>, NoMemory>
    requires { known.AreWithin leds.now }
    ensures draws { IfOk result (λ graph. Draws (known.targets_in leds.now) (length leds.now) graph.items) }
    ensures graph { IfOk result (λ graph. IsGraph graph.items) }
{
    let mut graph = Vec::with_capacity(alloc, leds.len())?;
    for node in 0..leds.len() {
        let nodes = target_in(alloc, led_at(leds, node))?;
        graph.push(nodes)?;
    }
    Ok(graph)
}

// Marks nodes.
fn marked(alloc: Global, count: usize, nodes: &[usize]) -> Result<Vec<bool>, NoMemory>
    ensures size { IfOk result (λ marks. length marks.items ≡ count) }
    ensures only { IfOk result (λ marks. (i : ℕ) → slice_index_or marks.items i false ≡ true → Contains nodes.now i) }
{
    let mut marks = vec![in alloc; false; count]?;
    for node in nodes {
        if *node < marks.len() {
            marks[*node] = true;
        }
    }
    Ok(marks)
}

// Whether a node leads to itself.
fn leads_to_itself(alloc: Global, graph: &[Vec<usize>], node: usize) -> Result<bool, NoMemory>
    requires graph { IsGraph graph.now }
    requires within { node < length graph.now }
    ensures { IfOk result (λ leads. (leads ≡ true) ↔ known.LeadsBack graph.now node) }
{
    let found = reached(alloc, graph, graph[node].as_slice())?;
    Ok(is_marked(&found, node))
}

/// Which nodes lead to themselves, given an order of those that lead to no cycle. A search is made from each other node.
pub fn circular(alloc: Global, graph: &[Vec<usize>], order: &[usize]) -> Result<Vec<bool>, NoMemory>
    requires graph { IsGraph graph.now }
    requires order { IsWholeOrder graph.now order.now }
    ensures size { IfOk result (λ marks. length marks.items ≡ length graph.now) }
    ensures marks { IfOk result (λ marks. Marks (known.LeadsBack graph.now) marks.items) }
{
    let ordered = marked(alloc, graph.len(), order)?;
    let mut marks = Vec::with_capacity(alloc, graph.len())?;
    for node in 0..graph.len() {
        if is_marked(&ordered, node) {
            marks.push(false)?;
        } else {
            let leads = leads_to_itself(alloc, graph, node)?;
            marks.push(leads)?;
        }
    }
    Ok(marks)
}
