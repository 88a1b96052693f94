//! What each row brings along, but for state.

ghost use Rattle.std.specs.Prelude.{◌≡◌, IfOk, filter, length};
ghost use Rattle.nm_schema_statements.specs.Flaw as grammar;
ghost use Rattle.nm_graph.specs.Graph.{IsGraph};
ghost use Rattle.nm_schema_uses.specs.Config.{is_kept, kept_of};
ghost use Rattle.nm_schema_uses.specs.Holding.{Draws, bringing, is_data_at};

use nm_base::NoMemory;
use nm_schema_statements::{Rows, Word};
use nm_schema_uses::{Shape, is_kept};
use std::alloc::Global;

pub(crate) fn is_data(word: Word) -> bool
    ensures { result ≡ grammar.is_data word }
{
    match word {
        Word::Container | Word::Leaf | Word::LeafList | Word::List => true,
        _ => false,
    }
}

fn is_data_at(rows: &Rows, at: usize) -> bool
    ensures { result ≡ is_data_at rows.now at }
{
    match rows.row(at) {
        None => false,
        Some(row) => is_data(row.word),
    }
}

// Those of some rows that are no state themselves.
pub(crate) fn kept_among(
    alloc: Global,
    rows: &Rows,
    numbers: &[usize],
) -> Result<Vec<usize>, NoMemory>
    ensures { IfOk result (λ kept. kept.items ≡ filter (is_kept rows.now) numbers.now) }
{
    let kept = numbers
        .iter()
        .copied()
        .filter(|number| is_kept(rows, *number))
        .collect(alloc)?;
    Ok(kept)
}

// What the nodes that a row brings rest on, but for state.
#[tactic(auto, unfolding(nm_schema_uses::specs::Holding::bringing, nm_schema_uses::specs::Config::kept_of))]
pub(crate) fn kept_bringing(
    alloc: Global,
    shape: &Shape<'_>,
    at: usize,
) -> Result<Vec<usize>, NoMemory>
    ensures { IfOk result (λ nodes. nodes.items ≡ kept_of (bringing shape.now.rows shape.now.groupings) shape.now.rows at) }
{
    if is_data_at(shape.rows(), at) {
        return Ok(Vec::new(alloc));
    }
    kept_among(alloc, shape.rows(), shape.leads_to(at))
}

/// What the nodes that each row brings rest on, but for state.
pub(crate) fn kept_graph(alloc: Global, shape: &Shape<'_>) -> Result<Vec<Vec<usize>>, NoMemory>
    ensures kept { IfOk result (λ graph. Draws (kept_of (bringing shape.now.rows shape.now.groupings) shape.now.rows) (length shape.now.rows) graph.items) }
    ensures graph { IfOk result (λ graph. IsGraph graph.items) }
{
    shape.laws();
    let mut graph = Vec::with_capacity(alloc, shape.rows().len())?;
    for at in 0..shape.rows().len() {
        let nodes = kept_bringing(alloc, shape, at)?;
        graph.push(nodes)?;
    }
    Ok(graph)
}
