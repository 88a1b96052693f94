//! Values of the nodes of a graph, each from those of the nodes that it leads to.

ghost use Rattle.std.specs.Prelude.{◌≡◌, ◌<◌, ℕ, List, IfOk, All, length, replicate, Option, Some, None, is_some};
ghost use Rattle.nm_graph.specs.Graph.{IsGraph, successors_of};
ghost use Rattle.nm_graph.specs.Order.{IsWholeOrder};
ghost use Rattle.nm_graph.specs.Value.{strict, all_there, values_at, Holds};

use crate::edges::successors_of;
use nm_base::NoMemory;
use std::alloc::Global;

/// What gives a node its value, from those of the nodes that it leads to.
pub trait Visitor {
    type Value: Drop;

    /// The value of a node, from those of its successors.
    ghost step: { Self → ℕ → List Self.Value → Option Self.Value };

    /// The value of a node whose successors have theirs, in a list of one place for each node of the graph.
    fn visit(
        &self,
        alloc: Global,
        node: usize,
        values: &[Option<Self::Value>],
        successors: &[usize],
    ) -> Result<Option<Self::Value>, NoMemory>
        requires within { All (λ next. next < length values.now) successors.now }
        ensures { (known : List Self.Value) → all_there (values_at values.now successors.now) ≡ Some known
            → IfOk result (λ value. value ≡ step self.now node known) };
}

// Whether each of some nodes has a value.
fn are_there<T>(values: &[Option<T>], nodes: &[usize]) -> bool
    requires { All (λ node. node < length values.now) nodes.now }
    ensures { result ≡ is_some (all_there (values_at values.now nodes.now)) }
{
    for node in nodes {
        match &values[*node] {
            None => return false,
            Some(_) => {}
        }
    }
    true
}

// The value of a node, where each of its successors has one.
fn next_value<V: Visitor>(
    alloc: Global,
    visitor: &V,
    node: usize,
    values: &[Option<V::Value>],
    successors: &[usize],
) -> Result<Option<V::Value>, NoMemory>
    requires { All (λ next. next < length values.now) successors.now }
    ensures { IfOk result (λ value. value ≡ strict (V.step visitor.now) node (values_at values.now successors.now)) }
{
    if !are_there(values, successors) {
        return Ok(None);
    }
    visitor.visit(alloc, node, values, successors)
}

// No value for any node.
fn no_values<T: Drop>(alloc: Global, count: usize) -> Result<Vec<Option<T>>, NoMemory>
    ensures { IfOk result (λ values. values.items ≡ replicate count None) }
{
    let mut values = Vec::new(alloc);
    for _ in 0..count {
        values.push(None)?;
    }
    Ok(values)
}

/// The values of all nodes, in the order of their numbers. A node has none where it leads to a cycle, or to a node without
/// a value.
pub fn values<V: Visitor>(
    alloc: Global,
    visitor: &V,
    successors: &[Vec<usize>],
    order: &[usize],
) -> Result<Vec<Option<V::Value>>, NoMemory>
    requires graph { IsGraph successors.now }
    requires order { IsWholeOrder successors.now order.now }
    ensures { IfOk result (λ values. Holds (strict (V.step visitor.now)) successors.now values.items) }
{
    let mut values = no_values(alloc, successors.len())?;
    for node in order {
        let nexts = successors_of(successors, *node);
        match next_value(alloc, visitor, *node, &values, nexts) {
            Ok(value) => values[*node] = value,
            Err(error) => return Err(error),
        }
    }
    Ok(values)
}
