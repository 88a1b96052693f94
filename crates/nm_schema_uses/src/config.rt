//! State and configuration.

ghost use Rattle.std.specs.Prelude.{◌≡◌, ◌<◌, ℕ, All, Contains, IfOk, filter, length, true, false};
ghost use Rattle.nm_schema_statements.specs.Flaw.{text_of};
ghost use Rattle.nm_graph.specs.Graph.{IsGraph, successors_of};
ghost use Rattle.nm_schema_uses.specs.Arguments.{argument_at};
ghost use Rattle.nm_schema_uses.specs.Holding.{Draws};
ghost use Rattle.nm_schema_uses.specs.Config as spec;

use crate::kinds::is_node;
use nm_base::{Label, NoMemory};
use nm_graph::reached;
use nm_schema_statements::{Rows, Word};
use std::alloc::Global;

/// The argument of a row, and an empty text where it has none.
#[tactic(auto, unfolding(crate::specs::Arguments::argument_at))]
pub fn argument_at(rows: &Rows, at: usize) -> &str
    ensures { result.now ≡ argument_at rows.now at }
{
    if let Some(row) = rows.row(at)
        && let Some(argument) = &row.argument
    {
        return argument.as_str();
    }
    ""
}

#[tactic(auto, unfolding(crate::specs::Config::is_false))]
fn says_false(rows: &Rows, config: Option<usize>) -> bool
    ensures { result ≡ spec.says_false rows.now config }
{
    match config {
        None => false,
        Some(config) => argument_at(rows, config) == "false",
    }
}

// Whether a row is a node or a choice that has `config false` directly.
#[tactic(auto, unfolding(crate::specs::Config::is_state))]
pub(crate) fn is_state(rows: &Rows, at: usize) -> bool
    ensures { result ≡ spec.is_state rows.now at }
{
    let word = match rows.row(at) {
        None => return false,
        Some(row) => row.word,
    };
    is_node(word) && says_false(rows, rows.first_below(at, Word::Config))
}

/// Whether a row isn't a node or a choice that has `config false` directly.
#[tactic(auto, unfolding(crate::specs::Config::is_kept))]
pub fn is_kept(rows: &Rows, at: usize) -> bool
    ensures { result ≡ spec.is_kept rows.now at }
{
    !is_state(rows, at)
}

// Where a row that is `config true` stands.
#[tactic(auto, unfolding(crate::specs::Config::claim_at, crate::specs::Config::is_true))]
pub(crate) fn claim_at(rows: &Rows, at: usize) -> Option<usize>
    ensures { result ≡ spec.claim_at rows.now at }
{
    match rows.row(at) {
        None => None,
        Some(row) => {
            if row.word.same(Word::Config) && text_of(&row.argument) == "true" {
                return row.parent;
            }
            None
        }
    }
}

fn text_of(argument: &Option<Label>) -> &str
    ensures { result.now ≡ text_of argument.now }
{
    match argument {
        None => "",
        Some(label) => label.as_str(),
    }
}

// Whether a row is a list without a key.
#[tactic(auto, unfolding(crate::specs::Config::is_keyless))]
pub(crate) fn is_keyless(rows: &Rows, at: usize) -> bool
    ensures { result ≡ spec.is_keyless rows.now at }
{
    match rows.row(at) {
        None => false,
        Some(row) => row.word.same(Word::List) && rows.first_below(at, Word::Key).is_none(),
    }
}

// Those of some rows that aren't state.
pub(crate) fn kept_among(
    alloc: Global,
    rows: &Rows,
    numbers: &[usize],
) -> Result<Vec<usize>, NoMemory>
    ensures { IfOk result (λ kept. kept.items ≡ filter (spec.is_kept rows.now) numbers.now) }
{
    let kept = numbers
        .iter()
        .copied()
        .filter(|number| is_kept(rows, *number))
        .collect(alloc)?;
    Ok(kept)
}

// What each row leads to, but for state.
pub(crate) fn kept_graph(
    alloc: Global,
    rows: &Rows,
    graph: &[Vec<usize>],
) -> Result<Vec<Vec<usize>>, NoMemory>
    requires { IsGraph graph.now }
    ensures kept { IfOk result (λ kept. Draws (spec.kept_of (successors_of graph.now) rows.now) (length graph.now) kept.items) }
    ensures graph { IfOk result (λ kept. IsGraph kept.items) }
{
    let mut kept = Vec::new(alloc);
    for nodes in graph {
        let nodes = kept_among(alloc, rows, nodes.as_slice())?;
        kept.push(nodes)?;
    }
    Ok(kept)
}

// Whether some row is state.
pub(crate) fn has_state(rows: &Rows) -> bool
    ensures { result ≡ false → (i : ℕ) → spec.is_state rows.now i ≡ false }
{
    for at in 0..rows.len() {
        if is_state(rows, at) {
            return true;
        }
    }
    false
}

// The rows that are state.
fn states(alloc: Global, rows: &Rows) -> Result<Vec<usize>, NoMemory>
    ensures each { IfOk result (λ states. All (λ i. spec.is_state rows.now i ≡ true) states.items) }
    ensures listed { IfOk result (λ states. (i : ℕ) → spec.is_state rows.now i ≡ true → Contains states.items i) }
    ensures within { IfOk result (λ states. All (λ i. i < length rows.now) states.items) }
{
    let mut states = Vec::new(alloc);
    for at in 0..rows.len() {
        if is_state(rows, at) {
            states.push(at)?;
        }
    }
    Ok(states)
}

// Which rows are reached from state, themselves included.
pub(crate) fn below_state(
    alloc: Global,
    rows: &Rows,
    graph: &[Vec<usize>],
) -> Result<Vec<bool>, NoMemory>
    requires graph { IsGraph graph.now }
    requires size { length graph.now ≡ length rows.now }
    ensures marks { IfOk result (λ marks. spec.Marks (spec.IsBelowState (successors_of graph.now) rows.now) marks.items) }
    ensures size { IfOk result (λ marks. length marks.items ≡ length rows.now) }
{
    let states = states(alloc, rows)?;
    let marks = reached(alloc, graph, &states)?;
    Ok(marks)
}

// Which rows are reached from the rows of modules.
pub(crate) fn rooted(
    alloc: Global,
    rows: &Rows,
    graph: &[Vec<usize>],
) -> Result<Vec<bool>, NoMemory>
    requires graph { IsGraph graph.now }
    requires size { length graph.now ≡ length rows.now }
    ensures marks { IfOk result (λ marks. spec.Marks (spec.IsRooted (successors_of graph.now) rows.now) marks.items) }
    ensures size { IfOk result (λ marks. length marks.items ≡ length rows.now) }
{
    rows.laws();
    let marks = reached(alloc, graph, rows.roots())?;
    Ok(marks)
}
