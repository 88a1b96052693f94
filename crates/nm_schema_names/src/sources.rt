//! Rows that bring what one other row brings: for each, the row that they all share the list of.

ghost use Rattle.std.specs.Prelude.{◌≡◌, ℕ, IfOk, is_some};
ghost use Rattle.nm_graph.specs.Graph.{successors_of};
ghost use Rattle.nm_schema_names.specs.Sharing as spec;
ghost use Rattle.nm_schema_names.specs.Clash.{known_at};

use nm_base::NoMemory;
use nm_schema_statements::Rows;
use nm_schema_uses::Nodes;
use std::alloc::Global;

fn leads_to(graph: &[Vec<usize>], at: usize) -> &[usize]
    ensures { result.now ≡ successors_of graph.now at }
{
    if at < graph.len() {
        return graph[at].as_slice();
    }
    &[]
}

// The one row of a list of one.
fn lone(nodes: &[usize]) -> Option<usize>
    ensures { result ≡ spec.lone_of nodes.now }
{
    match nodes {
        [only] => Some(*only),
        _ => None,
    }
}

pub(crate) fn source_at(sources: &[usize], at: usize) -> usize
    ensures { result ≡ spec.source_at sources.now at }
{
    if at < sources.len() {
        return sources[at];
    }
    at
}

#[tactic(auto, unfolding(crate::specs::Clash::known_at))]
fn is_known(brought: &[Option<Nodes>], at: usize) -> bool
    ensures { result ≡ is_some (known_at brought.now at) }
{
    if at < brought.len() {
        return brought[at].is_some();
    }
    false
}

// The source of a row: that of the one row whose list it shares, and else the row itself.
fn next_source(
    graph: &[Vec<usize>],
    brought: &[Option<Nodes>],
    sources: &[usize],
    at: usize,
) -> usize
    requires shared { spec.AreShared graph.now brought.now }
    requires sources { spec.AreSources brought.now sources.now }
    ensures { known_at brought.now result ≡ known_at brought.now at }
{
    if !is_known(brought, at) {
        return at;
    }
    match lone(leads_to(graph, at)) {
        None => at,
        Some(other) => source_at(sources, other),
    }
}

// Each row is its own source.
fn own_sources(alloc: Global, count: usize) -> Result<Vec<usize>, NoMemory>
    ensures { IfOk result (λ sources. (i : ℕ) → spec.source_at sources.items i ≡ i) }
{
    let mut sources = Vec::new(alloc);
    for at in 0..count {
        sources.push(at)?;
    }
    Ok(sources)
}

// For each row the row whose list it shares, at last, in an order in which each row comes after those that it leads to.
pub(crate) fn sources(
    alloc: Global,
    rows: &Rows,
    graph: &[Vec<usize>],
    brought: &[Option<Nodes>],
    order: &[usize],
) -> Result<Vec<usize>, NoMemory>
    requires shared { spec.AreShared graph.now brought.now }
    ensures { IfOk result (λ sources. spec.AreSources brought.now sources.items) }
{
    let mut sources = own_sources(alloc, rows.len())?;
    for node in order {
        let source = next_source(graph, brought, &sources, *node);
        if *node < sources.len() {
            sources[*node] = source;
        }
    }
    Ok(sources)
}
