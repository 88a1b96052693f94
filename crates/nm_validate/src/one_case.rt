//! The rule of choices: no two cases of one have nodes.

ghost use Rattle.std.specs.Prelude.{◌≡◌, IfOk, filter, length};
ghost use Rattle.std.specs.List.{flat_map};
ghost use Rattle.nm_schema_tree.specs.Nodes.{same_parent};
ghost use Rattle.nm_path.specs.Spelling.{node_of};
ghost use Rattle.nm_validate_rules.specs.declared.rule.Rule.TheVariants as rule;
ghost use Rattle.nm_validate_rules.specs.Cases.{numbers};
ghost use Rattle.nm_validate_rules.specs.Guards as guard;
ghost use Rattle.nm_validate_rules.specs.Values.{is_same_path};
ghost use Rattle.nm_validate_rules.specs.Violated.{is_of_choice};
ghost use Rattle.nm_validate_rules.specs.Violation.{least_at};
ghost use Rattle.nm_validate_places.specs.Groups.{IsGrouped};
ghost use Rattle.nm_validate_places.specs.Least.{least_with};
ghost use Rattle.nm_validate.specs.Led.{AreLed, paths_of};
ghost use Rattle.nm_validate.specs.Others as spec;

use crate::child::first_other;
use crate::places::{NodePlace, places_of, with_nodes};
use nm_base::NoMemory;
use nm_config::RowMap;
use nm_schema_tree::Schema;
use nm_types::Path;
use nm_validate_places::areas::Grouped;
use nm_validate_places::tables::{by_choice, nodes_in};
use nm_validate_places::{front, with_path};
use std::alloc::Global;

// Whether two nodes stand in one node, or both at the top, by what they stand in.
fn is_same(one: Option<usize>, other: Option<usize>) -> bool
    ensures { result ≡ same_parent one other }
{
    match (one, other) {
        (None, None) => true,
        (Some(one), Some(other)) => one == other,
        _ => false,
    }
}

// Whether one of some nodes stands directly in a node, or at the top for none.
fn any_below(schema: &Schema, nodes: &[usize], within: Option<usize>) -> bool
    ensures { result ≡ spec.any_in schema.now nodes.now within }
{
    for at in nodes {
        if is_same(schema.parent(*at), within) {
            return true;
        }
    }
    false
}

// Whether a path stands directly below a place.
fn is_at(alloc: Global, path: &Path, above: &Path) -> Result<bool, NoMemory>
    ensures { IfOk result (λ is. is ≡ is_same_path (guard.front path.now) above.now) }
{
    let place = front(alloc, path)?;
    Ok(place == *above)
}

// The lesser of what was found so far and the first child of another case of a choice at a place, where that stands
// directly below the place.
fn with_other<M: RowMap>(
    alloc: Global,
    schema: &Schema,
    config: &M,
    choice: usize,
    above: &Path,
    found: Option<Path>,
) -> Result<Option<Path>, NoMemory>
    ensures { IfOk result (λ least. least ≡ least_with found (spec.other_at schema.now (M.rows config.now) choice above.now)) }
{
    let Some(child) = first_other(alloc, schema, config, choice, above)? else {
        return Ok(found);
    };
    if !is_at(alloc, &child.path, above)? {
        return Ok(found);
    }
    Ok(with_path(found, child.path))
}

// The same, where one of the nodes of the choice may stand there.
fn with_other_below<M: RowMap>(
    alloc: Global,
    schema: &Schema,
    config: &M,
    choice: usize,
    nodes: &[usize],
    place: &NodePlace<'_>,
    found: Option<Path>,
) -> Result<Option<Path>, NoMemory>
    requires { place.now.node ≡ node_of schema.now place.now.path.now }
    ensures { IfOk result (λ least. least ≡ least_with found (spec.other_below schema.now (M.rows config.now) choice nodes.now place.now.path.now)) }
{
    if !any_below(schema, nodes, place.node) {
        return Ok(found);
    }
    with_other(alloc, schema, config, choice, place.path, found)
}

// The least of what was found so far and of such children of a choice that has these nodes, at these places.
fn least_among<M: RowMap>(
    alloc: Global,
    schema: &Schema,
    config: &M,
    choice: usize,
    nodes: &[usize],
    places: &[NodePlace<'_>],
    found: Option<Path>,
) -> Result<Option<Path>, NoMemory>
    requires { AreLed schema.now places.now }
    ensures { IfOk result
        (λ least. least ≡ least_with found (flat_map (spec.other_below schema.now (M.rows config.now) choice nodes.now) (paths_of places.now))) }
{
    let mut least = found;
    for place in places {
        least = with_other_below(alloc, schema, config, choice, nodes, place, least)?;
    }
    Ok(least)
}

// The least of what was found so far and of such children of a choice whose nodes these are, at these places.
fn least_of_choice<M: RowMap>(
    alloc: Global,
    schema: &Schema,
    config: &M,
    choice: usize,
    nodes: &[usize],
    places: &[NodePlace<'_>],
    found: Option<Path>,
) -> Result<Option<Path>, NoMemory>
    requires nodes { nodes.now ≡ filter (is_of_choice schema.now choice) (numbers schema.now.nodes) }
    requires places { AreLed schema.now places.now }
    ensures { IfOk result (λ least. least ≡ least_with found (spec.others_of schema.now (M.rows config.now) choice (paths_of places.now))) }
{
    let least = least_among(alloc, schema, config, choice, nodes, places, found)?;
    Ok(least)
}

// How many choices there are.
fn choice_count(schema: &Schema) -> usize
    ensures { result ≡ length schema.now.choices }
{
    schema.choices().len()
}

/// The least path of a child that is of another case than the first child of its choice (RFC 7950 section 7.9).
pub fn least_other_case<M: RowMap>(
    alloc: Global,
    schema: &Schema,
    config: &M,
    grouped: &Grouped<'_>,
) -> Result<Option<Path>, NoMemory>
    requires { IsGrouped schema.now (M.rows config.now) grouped.now }
    ensures { IfOk result (λ found. found ≡ least_at schema.now (M.rows config.now) rule.OneCase) }
{
    if choice_count(schema) == 0 {
        return Ok(None);
    }
    schema.laws();
    let paths = places_of(alloc, &grouped.rows)?;
    let places = with_nodes(alloc, schema, &paths)?;
    let table = by_choice(alloc, schema)?;
    let choices = table.as_slice();
    let mut least = None;
    for choice in 0..choice_count(schema) {
        let nodes = nodes_in(choices, choice);
        least = least_of_choice(alloc, schema, config, choice, nodes, &places, least)?;
    }
    Ok(least)
}
