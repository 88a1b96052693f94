//! The types of nodes.

ghost use Rattle.std.specs.Prelude.{◌≡◌, ℕ, List, Option, Some, None, IfOk, OnOk, length, slice_index_or};
ghost use Rattle.nm_graph.specs.Graph.{IsGraph};
ghost use Rattle.nm_graph.specs.Order.{IsWholeOrder};
ghost use Rattle.nm_graph.specs.Value.{Holds, strict};
ghost use Rattle.nm_types.specs.LeafType.{TypeOfLeaf};
ghost use Rattle.nm_schema_typing.specs.Meaning.{Meaning};
ghost use Rattle.nm_schema_nodes.specs.Expansion.{row_of};
ghost use Rattle.nm_schema_leafref.specs.Known as known;
ghost use Rattle.nm_schema_leafref.specs.Target as spec;

use crate::leds::Scene;
use nm_base::NoMemory;
use nm_graph::{Visitor, values};
use nm_schema_tree::SharedType;
use nm_schema_typing::Types;
use std::alloc::Global;

fn copy_of(found: &Option<SharedType>) -> Result<Option<SharedType>, NoMemory>
    ensures { IfOk result (λ copied. copied ≡ found.now) }
{
    match found {
        None => Ok(None),
        Some(shared) => Ok(Some(shared.copy()?)),
    }
}

// The type of a row that is no leafref.
fn made(alloc: Global, types: &Types, at: usize) -> Result<Option<SharedType>, NoMemory>
    ensures { IfOk result (λ found. found ≡ spec.plain_in (slice_index_or types.now.meanings at None)) }
{
    let Some(meaning) = types.meaning(at) else {
        return Ok(None);
    };
    let Some(derived) = meaning.derived() else {
        return Ok(None);
    };
    match derived.leaf_type()? {
        None => Ok(None),
        Some(leaf_type) => Ok(Some(SharedType::new(alloc, leaf_type)?)),
    }
}

// The type of the row of a node, kept for the next node of the row.
fn own_type(
    alloc: Global,
    types: &Types,
    kept: &mut Vec<Option<SharedType>>,
    row: Option<usize>,
) -> Result<Option<SharedType>, NoMemory>
    requires { known.AreOwnTypes types.now.meanings kept.old.items }
    ensures value { IfOk result (λ found. found ≡ known.own_in types.now.meanings row) }
    ensures kept { OnOk result (known.AreOwnTypes types.now.meanings kept.new.items) }
{
    let Some(at) = row else {
        return Ok(None);
    };
    if at >= kept.len() {
        return made(alloc, types, at);
    }
    if let Some(shared) = &kept[at] {
        return Ok(Some(shared.copy()?));
    }
    let found = made(alloc, types, at)?;
    kept[at] = copy_of(&found)?;
    Ok(found)
}

// No types for so many rows.
fn none_kept(alloc: Global, count: usize) -> Result<Vec<Option<SharedType>>, NoMemory>
    ensures { IfOk result (λ kept. (meanings : List (Option Meaning)) → known.AreOwnTypes meanings kept.items) }
{
    let mut kept = Vec::with_capacity(alloc, count)?;
    for _ in 0..count {
        kept.push(None)?;
    }
    Ok(kept)
}

// The own type of each node. Nodes of one row share theirs.
fn plain_types<'a: 'b, 'b>(
    alloc: Global,
    scene: &Scene<'_, 'a, 'b>,
) -> Result<Vec<Option<SharedType>>, NoMemory>
    ensures { IfOk result
        (λ all. (x : ℕ) → slice_index_or all.items x None ≡ spec.plain_at scene.now.tree.rows scene.now.typedefs (row_of scene.now.tree.nodes x)) }
{
    let types = scene.types();
    let tree = scene.tree();
    let count = tree.nodes().len();
    let mut kept = none_kept(alloc, tree.rows().len())?;
    let mut all = Vec::with_capacity(alloc, count)?;
    for node in 0..count {
        match own_type(alloc, types, &mut kept, tree.row_of(node)) {
            Ok(found) => all.push(found)?,
            Err(error) => return Err(error),
        }
    }
    Ok(all)
}

// Gives each node its type: that of the node that it leads to, or else its own.
#[derive(Drop)]
struct Typing<'p> {
    plain: &'p [Option<SharedType>],
}

impl Visitor for Typing<'_> {
    ghost use Rattle.nm_schema_leafref.specs.Known.{known_step};

    type Value = SharedType;

    ghost step = { λ typing. known_step typing.plain.now };

    fn visit(
        &self,
        _alloc: Global,
        node: usize,
        values: &[Option<SharedType>],
        successors: &[usize],
    ) -> Result<Option<SharedType>, NoMemory> {
        match successors {
            [] => {
                if node >= self.plain.len() {
                    return Ok(None);
                }
                copy_of(&self.plain[node])
            }
            [first, ..] => copy_of(&values[*first]),
        }
    }
}

/// The type of each node, by the graph of leafrefs and its order.
pub fn types_of_nodes<'a: 'b, 'b>(
    alloc: Global,
    scene: &Scene<'_, 'a, 'b>,
    graph: &[Vec<usize>],
    order: &[usize],
) -> Result<Vec<Option<SharedType>>, NoMemory>
    requires graph { IsGraph graph.now }
    requires order { IsWholeOrder graph.now order.now }
    ensures { IfOk result (λ types. Holds (strict (spec.type_step scene.now.typedefs scene.now.tree)) graph.now types.items) }
{
    let plain = plain_types(alloc, scene)?;
    values(alloc, &Typing { plain: &plain }, graph, order)
}
