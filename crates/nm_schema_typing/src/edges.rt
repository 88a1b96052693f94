//! Where the type of a row comes from.

ghost use Rattle.std.specs.Prelude.{◌≡◌, ◌<◌, IfOk, Some, None, MatchOption, All, length, slice_get, slice_index_or};
ghost use Rattle.nm_graph.specs.Graph.{IsGraph};
ghost use Rattle.nm_schema_typing.specs.TypeGraph as spec;

use nm_base::NoMemory;
use nm_schema_statements::{Rows, Word};
use std::alloc::Global;

// Whether a statement's type is that of the `type` statement in it.
pub(crate) fn is_typed(word: Word) -> bool
    ensures { result ≡ spec.is_typed word }
{
    match word {
        Word::Typedef => true,
        Word::Leaf => true,
        Word::LeafList => true,
        _ => false,
    }
}

pub(crate) fn is_type(word: Word) -> bool
    ensures { result ≡ spec.is_type word }
{
    match word {
        Word::Type => true,
        _ => false,
    }
}

// A list of one number, or of none.
fn at_most_one(alloc: Global, number: Option<usize>) -> Result<Vec<usize>, NoMemory>
    ensures { IfOk result (λ numbers. numbers.items ≡ spec.at_most_one number) }
{
    let mut numbers = Vec::new(alloc);
    match number {
        None => Ok(numbers),
        Some(number) => {
            numbers.push(number)?;
            Ok(numbers)
        }
    }
}

// The typedef that is given for a row, if it is one.
#[tactic(auto, unfolding(crate::specs::TypeGraph::named_typedef))]
pub(crate) fn named_typedef(rows: &Rows, typedefs: &[Option<usize>], at: usize) -> Option<usize>
    ensures { spec.at_most_one result ≡ spec.named_typedef rows.now typedefs.now at }
{
    if at >= typedefs.len() {
        return None;
    }
    let Some(number) = typedefs[at] else {
        return None;
    };
    let Some(row) = rows.row(number) else {
        return None;
    };
    if row.word.same(Word::Typedef) {
        return Some(number);
    }
    None
}

// Where the type of a row comes from.
#[tactic(auto, unfolding(crate::specs::TypeGraph::leads, crate::specs::TypeGraph::type_below))]
fn leads(rows: &Rows, typedefs: &[Option<usize>], at: usize) -> Option<usize>
    ensures { spec.at_most_one result ≡ spec.leads rows.now typedefs.now at }
{
    let Some(row) = rows.row(at) else {
        return None;
    };
    if is_typed(row.word) {
        return rows.first_below(at, Word::Type);
    }
    if is_type(row.word) {
        return named_typedef(rows, typedefs, at);
    }
    None
}

/// The graph of where the type of each row comes from: a typedef, leaf or leaf-list leads to its `type` statement, that
/// to the typedef that it names; `typedefs` has the row of that for each row, and numbers that are no typedef's row count as None.
pub fn type_graph(
    alloc: Global,
    rows: &Rows,
    typedefs: &[Option<usize>],
) -> Result<Vec<Vec<usize>>, NoMemory>
    ensures exact { IfOk result (λ graph. spec.IsTypeGraph rows.now typedefs.now graph.items) }
    ensures graph { IfOk result (λ graph. IsGraph graph.items) }
{
    let mut graph = Vec::with_capacity(alloc, rows.len())?;
    for at in 0..rows.len() {
        let nexts = at_most_one(alloc, leads(rows, typedefs, at))?;
        graph.push(nexts)?;
    }
    Ok(graph)
}
