//! The places at which nodes may stand, in the configuration at hand.

ghost use Rattle.std.specs.Prelude.{◌≡◌, ◌∷◌, ◌++◌, [], IfOk, OnOk};
ghost use Rattle.nm_validate_rules.specs.Places as spec;
ghost use Rattle.nm_validate_places.specs.Groups as group;
ghost use Rattle.nm_validate_places.specs.Placing.{place_at};

use crate::cases::{bare, is_allowed};
use crate::tables::by_case;
use nm_base::NoMemory;
use nm_config::RowMap;
use nm_path::node_of;
use nm_schema_tree::Schema;
use nm_types::{Path, Value};
use std::alloc::Global;

/// A row with the node that its path leads to.
#[derive(Drop)]
pub struct NodeRow<'r> {
    pub path: &'r Path,
    pub value: &'r Value,
    pub node: Option<usize>,
}

/// The rows of a configuration in path order, the paths of each node's rows, and the nodes of each case.
#[derive(Drop)]
pub struct Grouped<'r> {
    pub rows: Vec<NodeRow<'r>>,
    pub groups: Vec<Vec<&'r Path>>,
    pub cases: Vec<Vec<usize>>,
}

// So many groups without paths.
fn no_groups<'r>(alloc: Global, count: usize) -> Result<Vec<Vec<&'r Path>>, NoMemory>
    ensures { IfOk result (λ groups. group.AreEmpty count groups.items) }
{
    let mut groups = Vec::with_capacity(alloc, count)?;
    for _at in 0..count {
        groups.push(Vec::new(alloc))?;
    }
    Ok(groups)
}

// Puts a path into the group of the node that it leads to, where it leads to one.
fn put_into<'r>(
    groups: &mut Vec<Vec<&'r Path>>,
    node: Option<usize>,
    path: &'r Path,
) -> Result<(), NoMemory>
    ensures { OnOk result (group.Puts path.now node groups.old.items groups.new.items) }
{
    let Some(at) = node else {
        return Ok(());
    };
    if let Some(paths) = groups.get_mut(at) {
        paths.push(path)?;
    }
    Ok(())
}

/// The rows of a configuration, each with its node, the paths of each node's rows, and the nodes of each case. It is made once for all rules.
pub fn group_rows<'r, M: RowMap>(
    alloc: Global,
    schema: &Schema,
    config: &'r M,
) -> Result<Grouped<'r>, NoMemory>
    ensures { IfOk result (group.IsGrouped schema.now (M.rows config.now)) }
{
    let all = config.listed(alloc)?;
    let mut rows = Vec::with_capacity(alloc, all.len())?;
    let mut groups = no_groups(alloc, schema.len())?;
    for (path, value) in &all {
        let node = node_of(schema, path);
        put_into(&mut groups, node, path)?;
        rows.push(NodeRow { path, value, node })?;
    }
    let cases = by_case(alloc, schema)?;
    Ok(Grouped {
        rows,
        groups,
        cases,
    })
}

// Copies of the paths of a group, and none where there is no group of this number.
fn copies(alloc: Global, groups: &[Vec<&Path>], at: usize) -> Result<Vec<Path>, NoMemory>
    ensures { IfOk result (λ paths. paths.items ≡ group.in_group groups.now at) }
{
    let mut paths = Vec::new(alloc);
    let Some(group) = groups.get(at) else {
        return Ok(paths);
    };
    for path in group {
        paths.push(path.copy(alloc)?)?;
    }
    Ok(paths)
}

// Puts the path of a node at a place behind others, where its case holds.
fn put_place<M: RowMap>(
    alloc: Global,
    schema: &Schema,
    config: &M,
    grouped: &Grouped<'_>,
    above: &Path,
    at: usize,
    paths: &mut Vec<Path>,
) -> Result<(), NoMemory>
    requires { group.IsGrouped schema.now (M.rows config.now) grouped.now }
    ensures { OnOk result (paths.new.items ≡ paths.old.items ++ place_at schema.now (M.rows config.now) at above.now) }
{
    if !is_allowed(alloc, schema, config, grouped, above, schema.case_in(at))? {
        return Ok(());
    }
    let step = bare(alloc, schema, at)?;
    let path = above.with_step(alloc, step)?;
    paths.push(path)?;
    Ok(())
}

/// The paths of a node at these places: those where its case holds.
#[tactic(auto, using(crate::proofs::Below::placed_is))]
pub fn placed<M: RowMap>(
    alloc: Global,
    schema: &Schema,
    config: &M,
    grouped: &Grouped<'_>,
    areas: &[Path],
    at: usize,
) -> Result<Vec<Path>, NoMemory>
    requires { group.IsGrouped schema.now (M.rows config.now) grouped.now }
    ensures { IfOk result (λ paths. paths.items ≡ spec.placed schema.now (M.rows config.now) areas.now at) }
{
    let mut paths = Vec::new(alloc);
    for above in areas {
        put_place(alloc, schema, config, grouped, above, at, &mut paths)?;
    }
    Ok(paths)
}

/// The places directly below a node, and the top for none.
#[tactic(auto, using(crate::proofs::Below::other_areas))]
pub fn areas<M: RowMap>(
    alloc: Global,
    schema: &Schema,
    config: &M,
    grouped: &Grouped<'_>,
    parent: Option<usize>,
) -> Result<Vec<Path>, NoMemory>
    requires { group.IsGrouped schema.now (M.rows config.now) grouped.now }
    ensures { IfOk result (λ paths. paths.items ≡ spec.areas schema.now (M.rows config.now) parent) }
{
    let Some(at) = parent else {
        let mut top = Vec::new(alloc);
        let steps = Vec::new(alloc);
        top.push(Path { steps })?;
        return Ok(top);
    };
    schema.laws();
    if schema.is_guard(at) {
        let paths = copies(alloc, &grouped.groups, at)?;
        return Ok(paths);
    }
    let above = areas(alloc, schema, config, grouped, schema.parent(at))?;
    let paths = placed(alloc, schema, config, grouped, &above, at)?;
    Ok(paths)
}

/// The places of a node: where it may stand.
#[tactic(auto, unfolding(nm_validate_rules::specs::Places::places))]
pub fn places<M: RowMap>(
    alloc: Global,
    schema: &Schema,
    config: &M,
    grouped: &Grouped<'_>,
    at: usize,
) -> Result<Vec<Path>, NoMemory>
    requires { group.IsGrouped schema.now (M.rows config.now) grouped.now }
    ensures { IfOk result (λ paths. paths.items ≡ spec.places schema.now (M.rows config.now) at) }
{
    let above = areas(alloc, schema, config, grouped, schema.parent(at))?;
    placed(alloc, schema, config, grouped, &above, at)
}
