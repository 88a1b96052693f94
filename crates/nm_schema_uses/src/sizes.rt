//! How many nodes of configuration stand in rows, and how deep.

ghost use Rattle.std.specs.Prelude.{◌≡◌, ◌<◌, ◌≤◌, ◌+◌, min, All, IfOk, length};
ghost use Rattle.nm_graph.specs.Graph.{IsGraph};
ghost use Rattle.nm_graph.specs.Order.{IsWholeOrder};
ghost use Rattle.nm_graph.specs.Value.{Holds, all_there, strict, values_at};
ghost use Rattle.nm_schema_uses.specs.Sizes as spec;

use crate::kinds::is_data;
use nm_base::NoMemory;
use nm_graph::{Visitor, values};
use nm_schema_statements::Rows;
use std::alloc::Global;

/// The greatest count of nodes that is told apart: one more than the nodes that a schema may have.
pub(crate) const COUNT_LIMIT: usize = 20_001;

/// The greatest height that is told apart: one more than the nodes that may stand one in another.
pub(crate) const HEIGHT_LIMIT: usize = 66;

// One for a node of data, and none for another row.
#[tactic(auto, unfolding(crate::specs::Sizes::unit_at))]
fn unit_at(rows: &Rows, at: usize) -> usize
    ensures unit { result ≡ spec.unit_at rows.now at }
    ensures small { result ≤ 1 }
{
    match rows.row(at) {
        None => 0,
        Some(row) => {
            if is_data(row.word) {
                return 1;
            }
            0
        }
    }
}

// The sum of two numbers, no more than a limit.
fn add_capped(limit: usize, first: usize, second: usize) -> usize
    ensures { result ≡ min limit (first + second) }
{
    first.saturating_add(second).min(limit)
}

// The sum of what some rows have and one more, no more than a limit.
fn summed(
    limit: usize,
    first: usize,
    values: &[Option<usize>],
    successors: &[usize],
) -> Option<usize>
    requires { All (λ next. next < length values.now) successors.now }
    ensures { result ≡ spec.summed limit first (all_there (values_at values.now successors.now)) }
{
    let mut total = first.min(limit);
    for next in successors {
        match &values[*next] {
            None => return None,
            Some(number) => total = add_capped(limit, total, *number),
        }
    }
    Some(total)
}

// The greatest of what some rows have.
fn highest(values: &[Option<usize>], successors: &[usize]) -> Option<usize>
    requires { All (λ next. next < length values.now) successors.now }
    ensures { result ≡ spec.highest 0 (all_there (values_at values.now successors.now)) }
{
    let mut top = 0;
    for next in successors {
        match &values[*next] {
            None => return None,
            Some(number) => top = top.max(*number),
        }
    }
    Some(top)
}

// How many nodes stand at and below each row, no more than a limit.
#[derive(Drop)]
struct Counting<'a> {
    rows: &'a Rows,
    limit: usize,
}

impl Visitor for Counting<'_> {
    type Value = usize;

    ghost step = { λ c. spec.capped_count c.rows.now c.limit };

    #[tactic(auto, unfolding(crate::specs::Sizes::capped_count))]
    fn visit(
        &self,
        _alloc: Global,
        node: usize,
        values: &[Option<usize>],
        successors: &[usize],
    ) -> Result<Option<usize>, NoMemory> {
        let unit = unit_at(self.rows, node);
        Ok(summed(self.limit, unit, values, successors))
    }
}

// How many nodes stand one in another at and below each row, no more than a limit.
#[derive(Drop)]
struct Measuring<'a> {
    rows: &'a Rows,
    limit: usize,
}

impl Visitor for Measuring<'_> {
    type Value = usize;

    ghost step = { λ m. spec.capped_height m.rows.now m.limit };

    #[tactic(auto, unfolding(crate::specs::Sizes::capped_height))]
    fn visit(
        &self,
        _alloc: Global,
        node: usize,
        values: &[Option<usize>],
        successors: &[usize],
    ) -> Result<Option<usize>, NoMemory> {
        let unit = unit_at(self.rows, node);
        match highest(values, successors) {
            None => Ok(None),
            Some(top) => Ok(Some(add_capped(self.limit, unit, top))),
        }
    }
}

pub(crate) fn counts(
    alloc: Global,
    rows: &Rows,
    graph: &[Vec<usize>],
    order: &[usize],
) -> Result<Vec<Option<usize>>, NoMemory>
    requires graph { IsGraph graph.now }
    requires order { IsWholeOrder graph.now order.now }
    ensures { IfOk result (λ counts. Holds (strict (spec.capped_count rows.now COUNT_LIMIT)) graph.now counts.items) }
{
    let limit = COUNT_LIMIT;
    values(alloc, &Counting { rows, limit }, graph, order)
}

pub(crate) fn heights(
    alloc: Global,
    rows: &Rows,
    graph: &[Vec<usize>],
    order: &[usize],
) -> Result<Vec<Option<usize>>, NoMemory>
    requires graph { IsGraph graph.now }
    requires order { IsWholeOrder graph.now order.now }
    ensures { IfOk result (λ heights. Holds (strict (spec.capped_height rows.now HEIGHT_LIMIT)) graph.now heights.items) }
{
    let limit = HEIGHT_LIMIT;
    values(alloc, &Measuring { rows, limit }, graph, order)
}
