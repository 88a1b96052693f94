//! Whether a rule on single places reads a row at a path.

ghost use Rattle.std.specs.Prelude.{◌≡◌, ◌<◌, IfOk, length, slice_get, true};
ghost use Rattle.nm_path.specs.Spelling as path_spec;
ghost use Rattle.nm_validate_rules.specs.Guards as guard;
ghost use Rattle.nm_validate_places.specs.Tables.{AreOfCases, AreOfChoices};
ghost use Rattle.nm_incremental.specs.Members.{AreMembers};
ghost use Rattle.nm_validate_rules.specs.Reads as spec;
ghost use Rattle.nm_validate_rules.specs.Candidates.{has_candidates};
ghost use Rattle.nm_incremental.specs.Parts as parts;

use crate::Members;
use crate::choices::is_choice_path;
use crate::guarded::{allowed_reads, any_tells, beside_reads, holds_reads, stands_reads};
use nm_base::NoMemory;
use nm_config::is_under;
use nm_path::node_of;
use nm_schema_tree::{ChoiceNode, Schema};
use nm_types::Path;
use nm_validate_places::tables::nodes_in;
use nm_validate_places::values::{is_whole, step_count};
use nm_validate_places::{choice_count, choice_of, front};
use nm_validate_rules::Rule;
use std::alloc::Global;

// Whether the rule of mandatory leafs reads a row at a path.
fn mandatory_reads(
    alloc: Global,
    schema: &Schema,
    cases: &[Vec<usize>],
    path: &Path,
    row: &Path,
) -> Result<bool, NoMemory>
    requires { AreOfCases schema.now cases.now }
    ensures { IfOk result (λ is. is ≡ parts.mandatory_reads schema.now path.now row.now) }
{
    let Some(at) = node_of(schema, path) else {
        return Ok(false);
    };
    if !schema.is_mandatory(at) {
        return Ok(false);
    }
    if !is_whole(path) {
        return Ok(false);
    }
    if *path == *row {
        return Ok(true);
    }
    stands_reads(alloc, schema, cases, path, row)
}

// Whether a row is an entry of the list or leaf-list at a path.
fn is_counted(path: &Path, row: &Path) -> bool
    ensures { result ≡ spec.is_counted path.now row.now }
{
    row.steps.len() == path.steps.len() && is_under(path, row)
}

// Whether the rule of min-elements reads a row at a path.
fn min_reads(
    alloc: Global,
    schema: &Schema,
    cases: &[Vec<usize>],
    path: &Path,
    row: &Path,
) -> Result<bool, NoMemory>
    requires { AreOfCases schema.now cases.now }
    ensures { IfOk result (λ is. is ≡ spec.min_reads schema.now path.now (path_spec.node_of schema.now path.now) row.now) }
{
    let Some(at) = node_of(schema, path) else {
        return Ok(false);
    };
    if schema.elements(at).min.is_none() {
        return Ok(false);
    }
    if !is_whole(path) {
        return Ok(false);
    }
    if is_counted(path, row) {
        return Ok(true);
    }
    if stands_reads(alloc, schema, cases, path, row)? {
        return Ok(true);
    }
    let above = front(alloc, path)?;
    beside_reads(alloc, schema, cases, &above, at, row)
}

// Whether the rule of max-elements reads a row at a path.
fn max_reads(
    alloc: Global,
    schema: &Schema,
    cases: &[Vec<usize>],
    path: &Path,
    row: &Path,
) -> Result<bool, NoMemory>
    requires { AreOfCases schema.now cases.now }
    ensures { IfOk result (λ is. is ≡ spec.max_reads schema.now path.now (path_spec.node_of schema.now path.now) row.now) }
{
    let Some(at) = node_of(schema, path) else {
        return Ok(false);
    };
    if schema.elements(at).max.is_none() {
        return Ok(false);
    }
    if !is_whole(path) {
        return Ok(false);
    }
    if is_counted(path, row) {
        return Ok(true);
    }
    stands_reads(alloc, schema, cases, path, row)
}

// Whether a row tells that a choice has a node at a place.
fn choice_reads(
    alloc: Global,
    schema: &Schema,
    choices: &[Vec<usize>],
    above: &Path,
    at: usize,
    row: &Path,
) -> Result<bool, NoMemory>
    requires choices { AreOfChoices schema.now choices.now }
    requires within { at < length schema.now.choices }
    ensures { IfOk result (λ is. is ≡ spec.choice_reads schema.now above.now at row.now) }
{
    any_tells(alloc, schema, above, nodes_in(choices, at), row)
}

// Whether a row is read to tell whether a choice is missing at its place.
fn wanted_reads(
    alloc: Global,
    schema: &Schema,
    members: &Members,
    above: &Path,
    at: usize,
    choice: &ChoiceNode,
    row: &Path,
) -> Result<bool, NoMemory>
    requires members { AreMembers schema.now members.now }
    requires within { at < length schema.now.choices }
    ensures { IfOk result (λ is. is ≡ parts.wanted_reads schema.now above.now at choice.now row.now) }
{
    if choice_reads(alloc, schema, &members.choices, above, at, row)? {
        return Ok(true);
    }
    if allowed_reads(alloc, schema, &members.cases, above, choice.case_in, row)? {
        return Ok(true);
    }
    let count = step_count(above);
    holds_reads(alloc, schema, &members.cases, above, count, row)
}

// Whether a row is read of a choice of a number at a path, given what is above the path.
fn missing_reads(
    alloc: Global,
    schema: &Schema,
    members: &Members,
    above: &Path,
    path: &Path,
    at: usize,
    row: &Path,
) -> Result<bool, NoMemory>
    requires members { AreMembers schema.now members.now }
    requires above { above.now ≡ guard.front path.now }
    requires within { at < length schema.now.choices }
    ensures { IfOk result (λ is. is ≡ spec.missing_reads schema.now path.now at (slice_get schema.now.choices at) row.now) }
{
    let Some(choice) = choice_of(schema, at) else {
        return Ok(false);
    };
    if !choice.mandatory {
        return Ok(false);
    }
    if !is_choice_path(alloc, schema, choice, above, path)? {
        return Ok(false);
    }
    wanted_reads(alloc, schema, members, above, at, choice, row)
}

// Whether the rule of mandatory choices reads a row at a path.
fn choices_read(
    alloc: Global,
    schema: &Schema,
    members: &Members,
    path: &Path,
    row: &Path,
) -> Result<bool, NoMemory>
    requires { AreMembers schema.now members.now }
    ensures { IfOk result (λ is. is ≡ parts.choices_read schema.now path.now row.now) }
{
    let above = front(alloc, path)?;
    for at in 0..choice_count(schema) {
        let is = missing_reads(alloc, schema, members, &above, path, at, row)?;
        if is {
            return Ok(true);
        }
    }
    Ok(false)
}

/// Whether a rule on single places, none of cases, reads a row at a path.
pub fn reads_at(
    alloc: Global,
    schema: &Schema,
    members: &Members,
    rule: Rule,
    path: &Path,
    row: &Path,
) -> Result<bool, NoMemory>
    requires members { AreMembers schema.now members.now }
    requires alone { has_candidates rule ≡ true }
    ensures { IfOk result (λ is. is ≡ spec.reads schema.now rule path.now row.now) }
{
    match rule {
        Rule::ValueType => Ok(*path == *row),
        Rule::Key => Ok(*path == *row),
        Rule::Mandatory => mandatory_reads(alloc, schema, &members.cases, path, row),
        Rule::MinElements => min_reads(alloc, schema, &members.cases, path, row),
        Rule::MaxElements => max_reads(alloc, schema, &members.cases, path, row),
        Rule::MandatoryChoice => choices_read(alloc, schema, members, path, row),
        Rule::Leafref => Ok(false),
        Rule::Unique => Ok(false),
        Rule::OneCase => Ok(false),
    }
}
