//! The nodes that stand in each row, once each uses stands for what its grouping holds, and choices and cases for what they hold.
//!
//! A node of data brings itself, whatever stands in it. So what stands in a row isn't known only where a uses directly in it, or in
//! the groupings that these use, has no grouping or leads to itself.
//!
//! A row that brings what one other row brings, as a uses does, shares its list. So the lists take the memory of what the modules and
//! the groupings of several parts bring, however often these are used.

ghost use Rattle.std.specs.Prelude.{◌≡◌, ◌<◌, ◌∷◌, [], IfOk, Some, All, length};
ghost use Rattle.nm_graph.specs.Graph.{IsGraph};
ghost use Rattle.nm_graph.specs.Order.{IsWholeOrder};
ghost use Rattle.nm_graph.specs.Value.{all_there, values_at};
ghost use Rattle.nm_schema_uses.specs.Holding.{IsBringing};
ghost use Rattle.nm_schema_uses.specs.Worth.{AreWorth};
ghost use Rattle.nm_schema_uses.specs.Members as spec;

use crate::holding::grouping_at;
use crate::kinds::{is_data, is_uses};
use crate::nodes::Nodes;
use nm_base::NoMemory;
use nm_graph::{Visitor, values};
use nm_schema_statements::{Row, Rows};
use std::alloc::Global;

// What one row brings, at most so many: the same list, shared.
fn shared(limit: usize, nodes: &Option<Nodes>) -> Result<Option<Nodes>, NoMemory>
    ensures { IfOk result (λ shared. shared ≡ spec.gathered limit (all_there (nodes.now ∷ []))) }
{
    match nodes {
        None => Ok(None),
        Some(nodes) => {
            if nodes.len() > limit {
                return Ok(None);
            }
            Ok(Some(nodes.copy()?))
        }
    }
}

// What some rows bring, at most so many, in a list of its own.
fn joined(
    alloc: Global,
    limit: usize,
    values: &[Option<Nodes>],
    successors: &[usize],
) -> Result<Option<Nodes>, NoMemory>
    requires { All (λ next. next < length values.now) successors.now }
    ensures { IfOk result (λ nodes. nodes ≡ spec.gathered limit (all_there (values_at values.now successors.now))) }
{
    let mut nodes = Vec::new(alloc);
    for next in successors {
        match &values[*next] {
            None => return Ok(None),
            Some(more) => {
                if more.len() > limit - nodes.len() {
                    return Ok(None);
                }
                nodes.extend_from_slice(more.as_slice())?;
            }
        }
    }
    Ok(Some(Nodes::new(alloc, nodes)?))
}

// What some rows bring, at most so many. What one row brings is shared, and not copied.
pub fn gathered(
    alloc: Global,
    limit: usize,
    values: &[Option<Nodes>],
    successors: &[usize],
) -> Result<Option<Nodes>, NoMemory>
    requires { All (λ next. next < length values.now) successors.now }
    ensures { IfOk result (λ nodes. nodes ≡ spec.gathered limit (all_there (values_at values.now successors.now))) }
{
    if successors.len() == 1 {
        return shared(limit, &values[successors[0]]);
    }
    joined(alloc, limit, values, successors)
}

pub fn is_astray(groupings: &[Option<usize>], at: usize, row: &Row) -> bool
    ensures { result ≡ spec.is_astray groupings.now at row.now }
{
    is_uses(row.word) && grouping_at(groupings, at).is_none()
}

// What each row brings.
#[derive(Drop)]
pub(crate) struct Bringing<'a> {
    pub rows: &'a Rows,
    pub groupings: &'a [Option<usize>],
}

impl Visitor for Bringing<'_> {
    type Value = Nodes;

    ghost step = { λ b. spec.bring_step b.rows.now b.groupings.now };

    #[tactic(auto, unfolding(crate::specs::Members::bring_step))]
    fn visit(
        &self,
        alloc: Global,
        node: usize,
        values: &[Option<Nodes>],
        successors: &[usize],
    ) -> Result<Option<Nodes>, NoMemory> {
        let row = match self.rows.row(node) {
            None => return Ok(None),
            Some(row) => row,
        };
        if is_data(row.word) {
            return Ok(Some(Nodes::new(alloc, vec![in alloc; node; 1]?)?));
        }
        if is_astray(self.groupings, node, row) {
            return Ok(None);
        }
        gathered(alloc, self.rows.len(), values, successors)
    }
}

// What each row brings to the statement that it stands in, along what this rests on.
pub(crate) fn brought(
    alloc: Global,
    rows: &Rows,
    groupings: &[Option<usize>],
    graph: &[Vec<usize>],
    order: &[usize],
) -> Result<Vec<Option<Nodes>>, NoMemory>
    requires graph { IsGraph graph.now }
    requires bringing { IsBringing rows.now groupings.now graph.now }
    requires order { IsWholeOrder graph.now order.now }
    ensures { IfOk result (λ values. AreWorth (spec.brought rows.now groupings.now) (length rows.now) values.items) }
{
    values(alloc, &Bringing { rows, groupings }, graph, order)
}
