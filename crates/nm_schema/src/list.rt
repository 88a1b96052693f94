//! Lists: their keys, and what is unique in them.

ghost use Rattle.std.specs.Prelude.{◌≡◌, IfOk, Some, map};
ghost use Rattle.nm_graph.specs.Value.{all_there};
ghost use Rattle.nm_schema_uses.specs.Arguments.{argument_at};
ghost use Rattle.nm_schema.specs.Kind as spec;

use crate::kind::{elements_of, is_filled};
use nm_base::{Groups, NoMemory, Numbers};
use nm_schema_faults::Grounds;
use nm_schema_keys::Unique;
use nm_schema_nodes::Instance;
use nm_schema_statements::Rows;
use nm_schema_tree::NodeKind;
use std::alloc::Global;

// The argument of a row, and an empty text without one.
#[tactic(auto, unfolding(nm_schema_uses::specs::Arguments::argument_at))]
fn name_at(rows: &Rows, at: usize) -> &str
    ensures { result.now ≡ argument_at rows.now at }
{
    let Some(row) = rows.row(at) else {
        return "";
    };
    match &row.argument {
        None => "",
        Some(text) => text.as_str(),
    }
}

// The node directly in a node that has the name of a row.
#[tactic(auto, unfolding(crate::specs::Kind::named_as))]
fn named_as(grounds: &Grounds<'_, '_>, number: usize, row: usize) -> Option<usize>
    ensures { result ≡ spec.named_as grounds.now.rows grounds.now.facts number row }
{
    let name = name_at(grounds.rows(), row);
    grounds.expansion().child_named(number, name)
}

// The nodes directly in a node that have the names of some rows.
fn all_named(
    alloc: Global,
    grounds: &Grounds<'_, '_>,
    number: usize,
    rows: &[usize],
) -> Result<Option<Numbers>, NoMemory>
    ensures { IfOk result (λ nodes. nodes ≡ all_there (map (spec.named_as grounds.now.rows grounds.now.facts number) rows.now)) }
{
    let mut nodes = Numbers::new(alloc);
    for row in rows {
        match named_as(grounds, number, *row) {
            None => return Ok(None),
            Some(node) => nodes.push(node)?,
        }
    }
    Ok(Some(nodes))
}

// The key leafs of a list. None where they aren't known.
#[tactic(auto, unfolding(crate::specs::Kind::keys_in))]
fn keys_in(
    alloc: Global,
    grounds: &Grounds<'_, '_>,
    number: usize,
    row: usize,
) -> Result<Option<Numbers>, NoMemory>
    ensures { IfOk result (λ keys. keys ≡ spec.keys_in grounds.now.rows grounds.now.facts number row) }
{
    match grounds.keys_of(row) {
        None => Ok(None),
        Some(keys) => all_named(alloc, grounds, number, keys.as_slice()),
    }
}

fn further(grounds: &Grounds<'_, '_>, number: Option<usize>, row: usize) -> Option<usize>
    ensures { result ≡ spec.further grounds.now.rows grounds.now.facts number row }
{
    match number {
        None => None,
        Some(number) => named_as(grounds, number, row),
    }
}

// The node that is reached from a node by the names of some rows.
#[tactic(auto, unfolding(crate::specs::Kind::reached))]
fn reached(grounds: &Grounds<'_, '_>, number: usize, way: &Numbers) -> Option<usize>
    ensures { result ≡ spec.reached grounds.now.rows grounds.now.facts number way.now }
{
    let mut spot = Some(number);
    for row in way.as_slice() {
        spot = further(grounds, spot, *row);
    }
    spot
}

// The leafs of a list that a `unique` names. None where they aren't known.
#[tactic(auto, unfolding(crate::specs::Kind::group_in))]
fn group_in(
    alloc: Global,
    grounds: &Grounds<'_, '_>,
    number: usize,
    unique: &Unique,
) -> Result<Option<Numbers>, NoMemory>
    ensures { IfOk result (λ group. group ≡ spec.group_in grounds.now.rows grounds.now.facts number unique.now) }
{
    let mut group = Numbers::new(alloc);
    for way in unique.ways() {
        match reached(grounds, number, way) {
            None => return Ok(None),
            Some(leaf) => group.push(leaf)?,
        }
    }
    Ok(Some(group))
}

// Those of each of some `unique` statements.
fn all_groups(
    alloc: Global,
    grounds: &Grounds<'_, '_>,
    number: usize,
    uniques: &[Unique],
) -> Result<Option<Groups>, NoMemory>
    ensures { IfOk result (λ groups. groups ≡ all_there (map (spec.group_in grounds.now.rows grounds.now.facts number) uniques.now)) }
{
    let mut groups = Groups::new(alloc);
    for unique in uniques {
        match group_in(alloc, grounds, number, unique) {
            Ok(Some(group)) => groups.push(group)?,
            Ok(None) => return Ok(None),
            Err(error) => return Err(error),
        }
    }
    Ok(Some(groups))
}

// What the `unique` statements of a list name. None where that isn't known.
#[tactic(auto, unfolding(crate::specs::Kind::groups_in))]
fn groups_in(
    alloc: Global,
    grounds: &Grounds<'_, '_>,
    number: usize,
    row: usize,
) -> Result<Option<Groups>, NoMemory>
    ensures { IfOk result (λ groups. groups ≡ spec.groups_in grounds.now.rows grounds.now.facts number row) }
{
    match grounds.uniques_of(alloc, row)? {
        None => Ok(None),
        Some(uniques) => all_groups(alloc, grounds, number, uniques.as_slice()),
    }
}

/// A node as a list. None where what stands in it, its keys or what is unique in it isn't known.
#[tactic(auto, unfolding(crate::specs::Kind::list_of))]
pub(crate) fn list_of(
    alloc: Global,
    grounds: &Grounds<'_, '_>,
    number: usize,
    node: Instance,
) -> Result<Option<NodeKind>, NoMemory>
    ensures { IfOk result (λ kind. kind ≡ spec.list_of grounds.now.rows grounds.now.facts number node) }
{
    if !is_filled(alloc, grounds, node.row)? {
        return Ok(None);
    }
    let Some(keys) = keys_in(alloc, grounds, number, node.row)? else {
        return Ok(None);
    };
    let Some(uniques) = groups_in(alloc, grounds, number, node.row)? else {
        return Ok(None);
    };
    Ok(Some(NodeKind::List {
        keys,
        uniques,
        elements: elements_of(grounds.rows(), node.row),
    }))
}
