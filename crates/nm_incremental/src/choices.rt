//! The rules on choices: mandatory ones have a node, and no two cases have nodes.

ghost use Rattle.std.specs.Prelude.{◌≡◌, ◌<◌, IfOk, length, slice_get};
ghost use Rattle.nm_validate_rules.specs.declared.rule.Rule.TheVariants as rule;
ghost use Rattle.nm_validate_rules.specs.Guards as guard;
ghost use Rattle.nm_validate_rules.specs.Violated as spec;
ghost use Rattle.nm_validate_places.specs.Tables.{AreOfCases, AreOfChoices};
ghost use Rattle.nm_incremental.specs.Members.{AreMembers};
ghost use Rattle.nm_incremental.specs.Wanted.{is_wanted};

use crate::groups::Members;
use nm_base::NoMemory;
use nm_config::RowMap;
use nm_path::node_of;
use nm_schema_tree::{ChoiceNode, Schema};
use nm_types::Path;
use nm_validate::child::{Child, first_other};
use nm_validate_places::cases::{any_at, is_allowed_in};
use nm_validate_places::tables::nodes_in;
use nm_validate_places::values::{holds_at, step_count};
use nm_validate_places::{choice_count, choice_of, choice_step, front};
use std::alloc::Global;

/// Whether a path leads to a node, or is the top, where there is none.
pub fn is_area_of(schema: &Schema, parent: Option<usize>, path: &Path) -> bool
    ensures { result ≡ spec.is_area_of schema.now parent path.now }
{
    match parent {
        None => path.steps.is_empty(),
        Some(at) => match node_of(schema, path) {
            None => false,
            Some(other) => other == at,
        },
    }
}

/// Whether a path is that of a choice, given what is above it.
pub fn is_choice_path(
    alloc: Global,
    schema: &Schema,
    choice: &ChoiceNode,
    above: &Path,
    path: &Path,
) -> Result<bool, NoMemory>
    requires { above.now ≡ guard.front path.now }
    ensures { IfOk result (λ is. is ≡ spec.is_choice_path schema.now choice.now path.now) }
{
    let step = choice_step(choice)?;
    let own = above.with_step(alloc, step)?;
    if *path != own {
        return Ok(false);
    }
    Ok(is_area_of(schema, choice.parent, above))
}

// Whether a node of a choice exists at a place.
fn has_node<M: RowMap>(
    alloc: Global,
    schema: &Schema,
    config: &M,
    choices: &[Vec<usize>],
    above: &Path,
    at: usize,
) -> Result<bool, NoMemory>
    requires choices { AreOfChoices schema.now choices.now }
    requires within { at < length schema.now.choices }
    ensures { IfOk result (λ has. has ≡ spec.has_node schema.now (M.rows config.now) above.now at) }
{
    any_at(alloc, schema, config, above, nodes_in(choices, at))
}

// Whether a choice may be wanted at a place: its case holds there, and what guards the place.
fn is_wanted<M: RowMap>(
    alloc: Global,
    schema: &Schema,
    config: &M,
    cases: &[Vec<usize>],
    above: &Path,
    choice: &ChoiceNode,
) -> Result<bool, NoMemory>
    requires { AreOfCases schema.now cases.now }
    ensures { IfOk result (λ is. is ≡ is_wanted schema.now (M.rows config.now) above.now choice.now) }
{
    if !holds_at(alloc, schema, config, cases, &[], above, step_count(above))? {
        return Ok(false);
    }
    is_allowed_in(alloc, schema, config, cases, above, choice.case_in)
}

// Whether a path is that of a choice of a number that has no node though it has to have one, given what is above the path.
fn is_missing<M: RowMap>(
    alloc: Global,
    schema: &Schema,
    config: &M,
    members: &Members,
    above: &Path,
    path: &Path,
    at: usize,
) -> Result<bool, NoMemory>
    requires members { AreMembers schema.now members.now }
    requires above { above.now ≡ guard.front path.now }
    requires within { at < length schema.now.choices }
    ensures { IfOk result (λ is. is ≡ spec.is_missing schema.now (M.rows config.now) path.now at (slice_get schema.now.choices at)) }
{
    let Some(choice) = choice_of(schema, at) else {
        return Ok(false);
    };
    if !choice.mandatory {
        return Ok(false);
    }
    if !is_choice_path(alloc, schema, choice, above, path)? {
        return Ok(false);
    }
    if !is_wanted(alloc, schema, config, &members.cases, above, choice)? {
        return Ok(false);
    }
    let has = has_node(alloc, schema, config, &members.choices, above, at)?;
    Ok(!has)
}

/// Whether a path is that of a mandatory choice without any node, where its guard holds (RFC 7950 section 7.9.4).
pub fn is_missing_choice<M: RowMap>(
    alloc: Global,
    schema: &Schema,
    config: &M,
    members: &Members,
    path: &Path,
) -> Result<bool, NoMemory>
    requires { AreMembers schema.now members.now }
    ensures { IfOk result (λ is. is ≡ spec.violated schema.now (M.rows config.now) rule.MandatoryChoice path.now) }
{
    let above = front(alloc, path)?;
    for at in 0..choice_count(schema) {
        let is = is_missing(alloc, schema, config, members, &above, path, at)?;
        if is {
            return Ok(true);
        }
    }
    Ok(false)
}

// Whether a path is that of a child.
fn is_path_of(path: &Path, child: &Option<Child>) -> bool
    ensures { result ≡ spec.is_path_of path.now child.now }
{
    match child {
        None => false,
        Some(child) => *path == child.path,
    }
}

// Whether a path is that of the first child of a choice at a place that is of another case than the first.
fn is_other_in<M: RowMap>(
    alloc: Global,
    schema: &Schema,
    config: &M,
    path: &Path,
    choice: usize,
    above: &Path,
) -> Result<bool, NoMemory>
    ensures { IfOk result (λ is. is ≡ spec.is_path_of path.now (spec.first_other (spec.children_of schema.now (M.rows config.now) choice above.now))) }
{
    let child = first_other(alloc, schema, config, choice, above)?;
    Ok(is_path_of(path, &child))
}

/// Whether a path is that of the first child that is of another case than the first child of its choice (RFC 7950 section 7.9).
pub fn is_other_case<M: RowMap>(
    alloc: Global,
    schema: &Schema,
    config: &M,
    path: &Path,
) -> Result<bool, NoMemory>
    ensures { IfOk result (λ is. is ≡ spec.violated schema.now (M.rows config.now) rule.OneCase path.now) }
{
    let above = front(alloc, path)?;
    for choice in 0..choice_count(schema) {
        let is = is_other_in(alloc, schema, config, path, choice, &above)?;
        if is {
            return Ok(true);
        }
    }
    Ok(false)
}
