//! The nodes that go before the rows of an edit come.

ghost use Rattle.std.specs.Prelude.{◌≡◌, ◌++◌, ◌∷◌, [], IfOk, OnOk, None, Some};
ghost use Rattle.nm_path.specs.Spelling.{node_of as found_at};
ghost use Rattle.nm_validate_rules.specs.Cases as cases;
ghost use Rattle.nm_edit.specs.Edited as spec;
ghost use Rattle.nm_edit.specs.Rivals as rival_spec;

use crate::act::Act;
use crate::front::{further, top};
use crate::rivals::are_rivals;
use nm_base::{Label, NoMemory};
use nm_path::node_of;
use nm_schema_tree::{Node, Schema};
use nm_types::{Chosen, Path, Step, Value};
use std::alloc::Global;

// Puts the path of a node behind the others, where the edit says that it goes.
fn put_gone(alloc: Global, act: &Act, nodes: &mut Vec<Path>) -> Result<(), NoMemory>
    ensures { OnOk result (nodes.new.items ≡ nodes.old.items ++ spec.gone_at act.now) }
{
    if !act.is_explicit {
        return Ok(());
    }
    if !act.operation.clears() {
        return Ok(());
    }
    nodes.push(act.path.copy(alloc)?)?;
    Ok(())
}

/// The nodes of which the edit says that they go.
pub fn gone_of(alloc: Global, acts: &[Act]) -> Result<Vec<Path>, NoMemory>
    ensures { IfOk result (λ nodes. nodes.items ≡ spec.gone acts.now) }
{
    let mut nodes = Vec::new(alloc);
    for act in acts {
        put_gone(alloc, act, &mut nodes)?;
    }
    Ok(nodes)
}

// A step that leads nowhere.
fn nameless(alloc: Global) -> Result<Step, NoMemory>
    ensures { IfOk result (λ step. step ≡ cases.bare_in None) }
{
    let name = Label::new(alloc, "")?;
    Ok(Step {
        module: name.copy()?,
        name,
        chosen: Chosen::Whole,
    })
}

fn step_to(node: &Node) -> Result<Step, NoMemory>
    ensures { IfOk result (λ step. step ≡ cases.bare_in (Some node.now)) }
{
    let module = node.module.copy()?;
    Ok(Step {
        module,
        name: node.name.copy()?,
        chosen: Chosen::Whole,
    })
}

// The step to a node that chooses no entry.
fn bare(alloc: Global, schema: &Schema, at: usize) -> Result<Step, NoMemory>
    ensures { IfOk result (λ step. step ≡ cases.bare schema.now.nodes at) }
{
    match schema.node(at) {
        None => nameless(alloc),
        Some(node) => step_to(node),
    }
}

// Puts the path of a node at a place behind the others, where it is a rival of a node that comes there.
fn put_rival(
    alloc: Global,
    schema: &Schema,
    above: &Path,
    at: usize,
    other: usize,
    nodes: &mut Vec<Path>,
) -> Result<(), NoMemory>
    ensures { OnOk result (nodes.new.items ≡ nodes.old.items ++ rival_spec.rival_at schema.now above.now at other) }
{
    if !are_rivals(schema, at, other) {
        return Ok(());
    }
    let step = bare(alloc, schema, other)?;
    nodes.push(above.with_step(alloc, step)?)?;
    Ok(())
}

// Puts the paths of all rivals of a node that stands in a case behind the others.
fn put_all_rivals(
    alloc: Global,
    schema: &Schema,
    above: &Path,
    at: usize,
    nodes: &mut Vec<Path>,
) -> Result<(), NoMemory>
    ensures { OnOk result (nodes.new.items ≡ nodes.old.items ++ rival_spec.rivals_of schema.now above.now at) }
{
    for other in 0..schema.len() {
        put_rival(alloc, schema, above, at, other, nodes)?;
    }
    Ok(())
}

// Puts the paths of the rivals of a node that comes at a place behind the others.
fn put_rivals(
    alloc: Global,
    schema: &Schema,
    above: &Path,
    at: Option<usize>,
    nodes: &mut Vec<Path>,
) -> Result<(), NoMemory>
    ensures { OnOk result (nodes.new.items ≡ nodes.old.items ++ rival_spec.rivals_at schema.now above.now at) }
{
    let Some(at) = at else {
        return Ok(());
    };
    if schema.case_in(at).is_none() {
        return Ok(());
    }
    put_all_rivals(alloc, schema, above, at, nodes)
}

// Goes a step on, and puts the paths of the rivals of the node there behind the others.
fn put_next(
    alloc: Global,
    schema: &Schema,
    above: &mut Path,
    step: &Step,
    nodes: &mut Vec<Path>,
) -> Result<(), NoMemory>
    ensures above { OnOk result (above.new ≡ above.old ++ step.now ∷ []) }
    ensures nodes { OnOk result (nodes.new.items ≡ nodes.old.items
        ++ rival_spec.rivals_at schema.now above.old (found_at schema.now (above.old ++ step.now ∷ []))) }
{
    let next = further(alloc, above, step)?;
    put_rivals(alloc, schema, above, node_of(schema, &next), nodes)?;
    *above = next;
    Ok(())
}

// Puts the paths of the rivals of each node on the way to a row that comes behind the others.
fn put_along(
    alloc: Global,
    schema: &Schema,
    path: &Path,
    nodes: &mut Vec<Path>,
) -> Result<(), NoMemory>
    ensures { OnOk result (nodes.new.items ≡ nodes.old.items ++ rival_spec.ousted_by schema.now path.now) }
{
    let mut above = top(alloc);
    for step in &path.steps {
        put_next(alloc, schema, &mut above, step, nodes)?;
    }
    Ok(())
}

/// Puts the paths of the nodes that are of another case than the rows that come behind the others.
pub fn put_ousted(
    alloc: Global,
    schema: &Schema,
    rows: &[(Path, Value)],
    nodes: &mut Vec<Path>,
) -> Result<(), NoMemory>
    ensures { OnOk result (nodes.new.items ≡ nodes.old.items ++ spec.ousted schema.now rows.now) }
{
    for (path, _) in rows {
        put_along(alloc, schema, path, nodes)?;
    }
    Ok(())
}
