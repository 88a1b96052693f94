//! Whether a row concerns leafrefs or unique statements, told by the nodes that it leads to.

ghost use Rattle.std.specs.Prelude.{◌≡◌, IfOk, Some};
ghost use Rattle.std.specs.List.{list_any};
ghost use Rattle.nm_schema_tree.specs.Nodes.{same_parent, reference_at};
ghost use Rattle.nm_validate_rules.specs.declared.rule.Rule.TheVariants as rule;
ghost use Rattle.nm_validate_rules.specs.Places.{chain};
ghost use Rattle.nm_validate_rules.specs.Reads as read;
ghost use Rattle.nm_validate_rules.specs.Concerns as spec;
ghost use Rattle.nm_validate_places.specs.Tables.{AreOfCases};
ghost use Rattle.nm_incremental.specs.Hanging as hanging;

use crate::choices::is_area_of;
use crate::guarded::case_reads;
use crate::paths::{begin, front_count, leads_to, path_of};
use nm_base::{NoMemory, Numbers};
use nm_path::node_of;
use nm_schema_tree::{Reference, Schema};
use nm_types::Path;
use nm_validate_places::front;
use std::alloc::Global;

// Whether two nodes stand in one node, or both at the top, by what they stand in.
fn is_same(one: Option<usize>, other: Option<usize>) -> bool
    ensures { result ≡ same_parent one other }
{
    match (one, other) {
        (None, None) => true,
        (Some(one), Some(other)) => one == other,
        _ => false,
    }
}

// Whether a row has a value of a node: it leads to it, or to a list whose key it is.
fn has_value_of(schema: &Schema, at: usize, row: &Path) -> bool
    ensures { result ≡ read.has_value_of schema.now at row.now }
{
    if leads_to(schema, at, row) {
        return true;
    }
    if !schema.is_key(at) {
        return false;
    }
    is_same(schema.parent(at), node_of(schema, row))
}

// Whether a row tells that a case of a node holds at one of the places that the row is at or below, at which the node may stand.
fn case_hangs_in(
    alloc: Global,
    schema: &Schema,
    cases: &[Vec<usize>],
    at: usize,
    case: usize,
    row: &Path,
) -> Result<bool, NoMemory>
    requires { AreOfCases schema.now cases.now }
    ensures { IfOk result (λ is. is ≡ read.case_hangs schema.now at (Some case) row.now) }
{
    for count in 0..front_count(row) {
        let front = begin(alloc, row, count)?;
        let is = tells_case(alloc, schema, cases, at, case, &front, row)?;
        if is {
            return Ok(true);
        }
    }
    Ok(false)
}

// Whether a row tells that a case of a node holds at a place, at which the node may stand.
fn tells_case(
    alloc: Global,
    schema: &Schema,
    cases: &[Vec<usize>],
    at: usize,
    case: usize,
    above: &Path,
    row: &Path,
) -> Result<bool, NoMemory>
    requires { AreOfCases schema.now cases.now }
    ensures { IfOk result (λ is. is ≡ hanging.tells_case schema.now at case above.now row.now) }
{
    if !is_area_of(schema, schema.parent(at), above) {
        return Ok(false);
    }
    case_reads(alloc, schema, cases, above, case, row)
}

// Whether it may hang on a row whether something stands at or below a node.
fn hangs(
    alloc: Global,
    schema: &Schema,
    cases: &[Vec<usize>],
    at: usize,
    row: &Path,
) -> Result<bool, NoMemory>
    requires { AreOfCases schema.now cases.now }
    ensures { IfOk result (λ is. is ≡ read.hangs schema.now row.now at) }
{
    if schema.is_guard(at) && leads_to(schema, at, row) {
        return Ok(true);
    }
    match schema.case_in(at) {
        None => Ok(false),
        Some(case) => case_hangs_in(alloc, schema, cases, at, case, row),
    }
}

// Whether that of a node or of one above it may hang on a row.
fn any_hangs(
    alloc: Global,
    schema: &Schema,
    cases: &[Vec<usize>],
    at: Option<usize>,
    row: &Path,
) -> Result<bool, NoMemory>
    requires { AreOfCases schema.now cases.now }
    ensures { IfOk result (λ is. is ≡ list_any (read.hangs schema.now row.now) (chain schema.now.nodes at)) }
{
    let Some(node) = at else {
        return Ok(false);
    };
    schema.laws();
    let here = hangs(alloc, schema, cases, node, row)?;
    if here {
        return Ok(true);
    }
    any_hangs(alloc, schema, cases, schema.parent(node), row)
}

// Whether it may hang on a row where the default of a leaf is in use.
#[tactic(auto, unfolding(nm_validate_rules::specs::Reads::default_reads))]
fn default_reads(
    alloc: Global,
    schema: &Schema,
    cases: &[Vec<usize>],
    at: usize,
    row: &Path,
) -> Result<bool, NoMemory>
    requires { AreOfCases schema.now cases.now }
    ensures { IfOk result (λ is. is ≡ read.default_reads schema.now at row.now) }
{
    if schema.default(at).is_none() {
        return Ok(false);
    }
    any_hangs(alloc, schema, cases, Some(at), row)
}

// Whether a row concerns the leafref of a node.
fn reference_concerns(
    alloc: Global,
    schema: &Schema,
    cases: &[Vec<usize>],
    at: usize,
    reference: Option<Reference>,
    row: &Path,
) -> Result<bool, NoMemory>
    requires { AreOfCases schema.now cases.now }
    ensures { IfOk result (λ is. is ≡ spec.reference_concerns schema.now at reference row.now) }
{
    let Some(reference) = reference else {
        return Ok(false);
    };
    if has_value_of(schema, at, row) {
        return Ok(true);
    }
    if has_value_of(schema, reference.target, row) {
        return Ok(true);
    }
    default_reads(alloc, schema, cases, reference.target, row)
}

/// Whether a row concerns some leafref.
pub fn concerns_leafrefs(
    alloc: Global,
    schema: &Schema,
    cases: &[Vec<usize>],
    row: &Path,
) -> Result<bool, NoMemory>
    requires { AreOfCases schema.now cases.now }
    ensures { IfOk result (λ is. is ≡ spec.concerns schema.now rule.Leafref row.now) }
{
    for at in 0..schema.len() {
        let reference = schema.reference(at);
        let is = reference_concerns(alloc, schema, cases, at, reference, row)?;
        if is {
            return Ok(true);
        }
    }
    Ok(false)
}

// Whether a row is at or below a path that leads to a node.
fn passes(alloc: Global, schema: &Schema, at: usize, row: &Path) -> Result<bool, NoMemory>
    ensures { IfOk result (λ is. is ≡ spec.passes schema.now at row.now) }
{
    for count in 0..front_count(row) {
        let front = begin(alloc, row, count)?;
        if leads_to(schema, at, &front) {
            return Ok(true);
        }
    }
    Ok(false)
}

// Whether a row ends with the step of a node.
fn ends_at(alloc: Global, schema: &Schema, at: usize, row: &Path) -> Result<bool, NoMemory>
    ensures { IfOk result (λ is. is ≡ spec.ends_at schema.now at row.now) }
{
    let above = front(alloc, row)?;
    let path = path_of(alloc, schema, &above, at)?;
    Ok(*row == path)
}

// Whether a row in an entry may tell the value of a leaf there.
fn leaf_concerns(alloc: Global, schema: &Schema, leaf: usize, row: &Path) -> Result<bool, NoMemory>
    ensures { IfOk result (λ is. is ≡ spec.leaf_concerns schema.now leaf row.now) }
{
    if schema.is_key(leaf) {
        return Ok(false);
    }
    if schema.default(leaf).is_some() {
        return Ok(true);
    }
    ends_at(alloc, schema, leaf, row)
}

// Whether a row in an entry may tell the value of one of some leafs there.
fn leafs_concern(
    alloc: Global,
    schema: &Schema,
    leafs: &[usize],
    row: &Path,
) -> Result<bool, NoMemory>
    ensures { IfOk result (λ is. is ≡ list_any (λ x. spec.leaf_concerns schema.now x row.now) leafs.now) }
{
    for leaf in leafs {
        if leaf_concerns(alloc, schema, *leaf, row)? {
            return Ok(true);
        }
    }
    Ok(false)
}

// Whether a row concerns a unique statement of a list, which names these leafs.
fn unique_concerns(
    alloc: Global,
    schema: &Schema,
    list: usize,
    leafs: &[usize],
    row: &Path,
) -> Result<bool, NoMemory>
    ensures { IfOk result (λ is. is ≡ spec.unique_concerns schema.now list leafs.now row.now) }
{
    if leads_to(schema, list, row) {
        return Ok(true);
    }
    if !passes(alloc, schema, list, row)? {
        return Ok(false);
    }
    leafs_concern(alloc, schema, leafs, row)
}

// Whether a row concerns one of some unique statements of a list.
fn uniques_concern(
    alloc: Global,
    schema: &Schema,
    list: usize,
    uniques: &[Numbers],
    row: &Path,
) -> Result<bool, NoMemory>
    ensures { IfOk result (λ is. is ≡ list_any (λ leafs. spec.unique_concerns schema.now list leafs row.now) uniques.now) }
{
    for leafs in uniques {
        let leafs = leafs.as_slice();
        let is = unique_concerns(alloc, schema, list, leafs, row)?;
        if is {
            return Ok(true);
        }
    }
    Ok(false)
}

/// Whether a row concerns some unique statement.
pub fn concerns_uniques(alloc: Global, schema: &Schema, row: &Path) -> Result<bool, NoMemory>
    ensures { IfOk result (λ is. is ≡ spec.concerns schema.now rule.Unique row.now) }
{
    for at in 0..schema.len() {
        let is = uniques_concern(alloc, schema, at, schema.uniques(at), row)?;
        if is {
            return Ok(true);
        }
    }
    Ok(false)
}
