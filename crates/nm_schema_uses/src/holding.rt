//! What each row leads to.

ghost use Rattle.std.specs.Prelude.{◌≡◌, ◌↔◌, ◌<◌, IsTrue, IfOk, IfSome, length, filter, option_to_list};
ghost use Rattle.nm_schema_statements.specs.Rows.{children};
ghost use Rattle.nm_graph.specs.Graph.{IsGraph};
ghost use Rattle.nm_schema_uses.specs.Holding as spec;

use crate::kinds::{is_data_at, is_holder, is_part_at, is_uses};
use nm_base::NoMemory;
use nm_schema_statements::Rows;
use std::alloc::Global;

// Those of some rows that are nodes of data, uses, choices or cases.
fn parts_among(alloc: Global, rows: &Rows, numbers: &[usize]) -> Result<Vec<usize>, NoMemory>
    ensures { IfOk result (λ parts. parts.items ≡ filter (spec.is_part_at rows.now) numbers.now) }
{
    let parts = numbers
        .iter()
        .copied()
        .filter(|number| is_part_at(rows, *number))
        .collect(alloc)?;
    Ok(parts)
}

pub fn grouping_at(groupings: &[Option<usize>], at: usize) -> Option<usize>
    ensures { result ≡ spec.grouping_at groupings.now at }
{
    if at < groupings.len() {
        return groupings[at];
    }
    None
}

pub fn one_or_none(alloc: Global, node: Option<usize>) -> Result<Vec<usize>, NoMemory>
    ensures { IfOk result (λ nodes. nodes.items ≡ option_to_list node) }
{
    let mut nodes = Vec::new(alloc);
    if let Some(node) = node {
        nodes.push(node)?;
    }
    Ok(nodes)
}

// What a row leads to.
#[tactic(auto, unfolding(crate::specs::Holding::holding))]
fn led_to(
    alloc: Global,
    rows: &Rows,
    groupings: &[Option<usize>],
    at: usize,
) -> Result<Vec<usize>, NoMemory>
    ensures { IfOk result (λ nodes. nodes.items ≡ spec.holding rows.now groupings.now at) }
{
    let word = match rows.row(at) {
        None => return Ok(Vec::new(alloc)),
        Some(row) => row.word,
    };
    if is_holder(word) {
        return parts_among(alloc, rows, rows.below(at));
    }
    if is_uses(word) {
        return one_or_none(alloc, grouping_at(groupings, at));
    }
    Ok(Vec::new(alloc))
}

// What the nodes that a row brings rest on.
#[tactic(auto, unfolding(crate::specs::Holding::bringing))]
fn rested_on(
    alloc: Global,
    rows: &Rows,
    groupings: &[Option<usize>],
    at: usize,
) -> Result<Vec<usize>, NoMemory>
    ensures { IfOk result (λ nodes. nodes.items ≡ spec.bringing rows.now groupings.now at) }
{
    if is_data_at(rows, at) {
        return Ok(Vec::new(alloc));
    }
    led_to(alloc, rows, groupings, at)
}

/// Whether each grouping that is given is a row.
pub fn are_named(rows: &Rows, groupings: &[Option<usize>]) -> bool
    ensures { IsTrue result ↔ spec.AreNamed rows.now groupings.now }
{
    for grouping in groupings {
        if !is_named(rows, grouping) {
            return false;
        }
    }
    true
}

fn is_named(rows: &Rows, grouping: &Option<usize>) -> bool
    ensures { IsTrue result ↔ IfSome grouping.now (λ g. g < length rows.now) }
{
    match grouping {
        None => true,
        Some(grouping) => *grouping < rows.len(),
    }
}

// What each row leads to in one step: a module, container, list, grouping, choice or case to the nodes of data, the uses, the
// choices and the cases that stand directly in it, in order, a uses to the grouping that it names, and any other row to nothing.
//
// `groupings` has for the row of a uses the row of the grouping that it names.
pub(crate) fn graph_of(
    alloc: Global,
    rows: &Rows,
    groupings: &[Option<usize>],
) -> Result<Vec<Vec<usize>>, NoMemory>
    requires { spec.AreNamed rows.now groupings.now }
    ensures holding { IfOk result (λ graph. spec.IsHolding rows.now groupings.now graph.items) }
    ensures graph { IfOk result (λ graph. IsGraph graph.items) }
{
    rows.laws();
    let mut graph = Vec::new(alloc);
    for at in 0..rows.len() {
        let nodes = led_to(alloc, rows, groupings, at)?;
        graph.push(nodes)?;
    }
    Ok(graph)
}

// What the nodes that each row brings rest on: a uses on its grouping, a module, a grouping, a choice and a case on what stands in
// them, and a node of data, which brings itself, on nothing.
pub(crate) fn bringing_of(
    alloc: Global,
    rows: &Rows,
    groupings: &[Option<usize>],
) -> Result<Vec<Vec<usize>>, NoMemory>
    requires { spec.AreNamed rows.now groupings.now }
    ensures bringing { IfOk result (λ graph. spec.IsBringing rows.now groupings.now graph.items) }
    ensures graph { IfOk result (λ graph. IsGraph graph.items) }
{
    rows.laws();
    let mut graph = Vec::new(alloc);
    for at in 0..rows.len() {
        let nodes = rested_on(alloc, rows, groupings, at)?;
        graph.push(nodes)?;
    }
    Ok(graph)
}
