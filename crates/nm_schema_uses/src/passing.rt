//! The nodes that rows bring along some of what they lead to: all but state, and all but what stands in choices. Where no row is
//! state, or none is a choice or a case, these are all that they bring, and the lists are shared.

ghost use Rattle.std.specs.Prelude.{◌≡◌, ℕ, IfOk, false, filter, length};
ghost use Rattle.nm_graph.specs.Graph.{IsGraph, successors_of};
ghost use Rattle.nm_schema_uses.specs.Holding.{Draws, IsBringing, is_fork_at};
ghost use Rattle.nm_schema_uses.specs.Members.{brought};
ghost use Rattle.nm_schema_uses.specs.Worth.{AreWorth};
ghost use Rattle.nm_schema_uses.specs.Passing as spec;

use crate::config::{has_state, kept_graph};
use crate::kinds::is_fork_at;
use crate::members::Bringing;
use crate::nodes::Nodes;
use nm_base::NoMemory;
use nm_graph::{order, values};
use nm_schema_statements::Rows;
use std::alloc::Global;

#[tactic(auto, unfolding(crate::specs::Passing::is_plain))]
fn is_plain(rows: &Rows, at: usize) -> bool
    ensures { result ≡ spec.is_plain rows.now at }
{
    !is_fork_at(rows, at)
}

// Those of some rows that are neither choices nor cases.
pub(crate) fn plain_among(
    alloc: Global,
    rows: &Rows,
    numbers: &[usize],
) -> Result<Vec<usize>, NoMemory>
    ensures { IfOk result (λ plain. plain.items ≡ filter (spec.is_plain rows.now) numbers.now) }
{
    let plain = numbers
        .iter()
        .copied()
        .filter(|number| is_plain(rows, *number))
        .collect(alloc)?;
    Ok(plain)
}

// What each row leads to, but for choices and cases.
fn plain_graph(
    alloc: Global,
    rows: &Rows,
    graph: &[Vec<usize>],
) -> Result<Vec<Vec<usize>>, NoMemory>
    requires { IsGraph graph.now }
    ensures plain { IfOk result (λ plain. Draws (spec.plain_of (successors_of graph.now) rows.now) (length graph.now) plain.items) }
    ensures graph { IfOk result (λ plain. IsGraph plain.items) }
{
    let mut plain = Vec::new(alloc);
    for nodes in graph {
        let nodes = plain_among(alloc, rows, nodes.as_slice())?;
        plain.push(nodes)?;
    }
    Ok(plain)
}

// What each row brings along a graph.
fn brought_along(
    alloc: Global,
    rows: &Rows,
    groupings: &[Option<usize>],
    graph: &[Vec<usize>],
) -> Result<Vec<Option<Nodes>>, NoMemory>
    requires graph { IsGraph graph.now }
    requires size { length graph.now ≡ length rows.now }
    ensures { IfOk result (λ values. AreWorth (spec.brought_along rows.now groupings.now (successors_of graph.now)) (length rows.now) values.items) }
{
    let ordered = order(alloc, graph)?;
    values(alloc, &Bringing { rows, groupings }, graph, &ordered.nodes)
}

fn copy_of(nodes: &Option<Nodes>) -> Result<Option<Nodes>, NoMemory>
    ensures { IfOk result (λ copy. copy ≡ nodes.now) }
{
    match nodes {
        None => Ok(None),
        Some(nodes) => Ok(Some(nodes.copy()?)),
    }
}

// The same lists once more.
fn copied(alloc: Global, known: &[Option<Nodes>]) -> Result<Vec<Option<Nodes>>, NoMemory>
    ensures { IfOk result (λ copies. copies.items ≡ known.now) }
{
    let mut copies = Vec::new(alloc);
    for nodes in known {
        let copy = copy_of(nodes)?;
        copies.push(copy)?;
    }
    Ok(copies)
}

// Whether some row is a choice or a case.
fn has_fork(rows: &Rows) -> bool
    ensures { result ≡ false → (i : ℕ) → is_fork_at rows.now i ≡ false }
{
    for at in 0..rows.len() {
        if is_fork_at(rows, at) {
            return true;
        }
    }
    false
}

// What each row brings, but for state. `known` has what each brings in all.
pub(crate) fn brought_kept(
    alloc: Global,
    rows: &Rows,
    groupings: &[Option<usize>],
    graph: &[Vec<usize>],
    known: &[Option<Nodes>],
) -> Result<Vec<Option<Nodes>>, NoMemory>
    requires graph { IsGraph graph.now }
    requires bringing { IsBringing rows.now groupings.now graph.now }
    requires known { AreWorth (brought rows.now groupings.now) (length rows.now) known.now }
    ensures { IfOk result (λ values. spec.AreWithoutState rows.now groupings.now values.items) }
{
    if !has_state(rows) {
        return copied(alloc, known);
    }
    let kept = kept_graph(alloc, rows, graph)?;
    brought_along(alloc, rows, groupings, &kept)
}

// What each row brings, but for what stands in choices. `known` has what each brings in all.
pub(crate) fn brought_plain(
    alloc: Global,
    rows: &Rows,
    groupings: &[Option<usize>],
    graph: &[Vec<usize>],
    known: &[Option<Nodes>],
) -> Result<Vec<Option<Nodes>>, NoMemory>
    requires graph { IsGraph graph.now }
    requires bringing { IsBringing rows.now groupings.now graph.now }
    requires known { AreWorth (brought rows.now groupings.now) (length rows.now) known.now }
    ensures { IfOk result (λ values. spec.ArePlain rows.now groupings.now values.items) }
{
    if !has_fork(rows) {
        return copied(alloc, known);
    }
    let plain = plain_graph(alloc, rows, graph)?;
    brought_along(alloc, rows, groupings, &plain)
}
