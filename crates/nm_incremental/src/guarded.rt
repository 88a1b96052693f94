//! Whether a row is read to tell whether guards hold.

ghost use Rattle.std.specs.Prelude.{◌≡◌, IfOk, length};
ghost use Rattle.std.specs.List.{list_any};
ghost use Rattle.nm_schema_tree.specs.Nodes.{case_at};
ghost use Rattle.nm_path.specs.Spelling as path_spec;
ghost use Rattle.nm_config.specs.Under as under;
ghost use Rattle.nm_validate_rules.specs.Standing as standing;
ghost use Rattle.nm_validate_places.specs.Tables.{AreOfCases};
ghost use Rattle.nm_validate_rules.specs.Reads as spec;
ghost use Rattle.nm_incremental.specs.Guarded as guard;

use crate::members::nodes_of;
use crate::paths::path_of;
use nm_base::NoMemory;
use nm_config::is_under;
use nm_path::node_of;
use nm_schema_tree::Schema;
use nm_types::Path;
use nm_validate_places::cases::others_of;
use nm_validate_places::front;
use nm_validate_places::tables::nodes_in;
use nm_validate_places::values::{is_whole, step_count};
use std::alloc::Global;

// Whether a row tells that a node exists at a place.
fn tells(
    alloc: Global,
    schema: &Schema,
    above: &Path,
    at: usize,
    row: &Path,
) -> Result<bool, NoMemory>
    ensures { IfOk result (λ is. is ≡ spec.tells schema.now above.now at row.now) }
{
    let path = path_of(alloc, schema, above, at)?;
    Ok(is_under(&path, row))
}

/// Whether a row tells that one of some nodes exists at a place.
pub fn any_tells(
    alloc: Global,
    schema: &Schema,
    above: &Path,
    nodes: &[usize],
    row: &Path,
) -> Result<bool, NoMemory>
    ensures { IfOk result (λ is. is ≡ list_any (λ x. spec.tells schema.now above.now x row.now) nodes.now) }
{
    for at in nodes {
        if tells(alloc, schema, above, *at, row)? {
            return Ok(true);
        }
    }
    Ok(false)
}

/// Whether a row tells that a case holds at a place.
pub fn case_reads(
    alloc: Global,
    schema: &Schema,
    cases: &[Vec<usize>],
    above: &Path,
    case: usize,
    row: &Path,
) -> Result<bool, NoMemory>
    requires { AreOfCases schema.now cases.now }
    ensures { IfOk result (λ is. is ≡ spec.case_reads schema.now above.now case row.now) }
{
    if case < cases.len() {
        return any_tells(alloc, schema, above, nodes_in(cases, case), row);
    }
    let nodes = nodes_of(alloc, schema, case)?;
    any_tells(alloc, schema, above, &nodes, row)
}

/// Whether a row is read to tell whether a case, if there is one, holds at a place.
pub fn allowed_reads(
    alloc: Global,
    schema: &Schema,
    cases: &[Vec<usize>],
    above: &Path,
    case: Option<usize>,
    row: &Path,
) -> Result<bool, NoMemory>
    requires { AreOfCases schema.now cases.now }
    ensures { IfOk result (λ is. is ≡ spec.allowed_reads schema.now above.now case row.now) }
{
    match case {
        None => Ok(false),
        Some(case) => case_reads(alloc, schema, cases, above, case, row),
    }
}

/// Whether a row is read to tell whether the case of a node has another node at a place.
pub fn beside_reads(
    alloc: Global,
    schema: &Schema,
    cases: &[Vec<usize>],
    above: &Path,
    at: usize,
    row: &Path,
) -> Result<bool, NoMemory>
    requires { AreOfCases schema.now cases.now }
    ensures { IfOk result (λ is. is ≡ spec.beside_reads schema.now above.now at (case_at schema.now.nodes at) row.now) }
{
    let others = others_of(alloc, schema, cases, at)?;
    let Some(nodes) = others else {
        return Ok(false);
    };
    any_tells(alloc, schema, above, &nodes, row)
}

// Whether a row is read to tell whether the last step of a path is open, by whether it is read above.
fn open_reads(
    alloc: Global,
    schema: &Schema,
    cases: &[Vec<usize>],
    so_far: bool,
    above: &Path,
    path: &Path,
    row: &Path,
) -> Result<bool, NoMemory>
    requires { AreOfCases schema.now cases.now }
    ensures { IfOk result (λ is. is ≡ guard.open_by schema.now so_far above.now path.now row.now) }
{
    let Some(at) = node_of(schema, path) else {
        return Ok(false);
    };
    if !is_whole(path) {
        return Ok(false);
    }
    if so_far {
        return Ok(true);
    }
    allowed_reads(alloc, schema, cases, above, schema.case_in(at), row)
}

// Whether a path is the top.
fn is_top(path: &Path) -> bool
    ensures { result ≡ under.is_end path.now }
{
    path.steps.is_empty()
}

// Whether a path leads to a list or a container with presence.
fn is_own(schema: &Schema, path: &Path) -> bool
    ensures { result ≡ standing.is_own_at schema.now.nodes (path_spec.node_of schema.now path.now) }
{
    match node_of(schema, path) {
        None => false,
        Some(at) => schema.is_guard(at),
    }
}

/// Whether a row is read to tell whether what guards a place of so many steps holds.
pub fn holds_reads(
    alloc: Global,
    schema: &Schema,
    cases: &[Vec<usize>],
    path: &Path,
    count: usize,
    row: &Path,
) -> Result<bool, NoMemory>
    requires cases { AreOfCases schema.now cases.now }
    requires counted { count ≡ length path.now }
    ensures { IfOk result (λ is. is ≡ spec.holds_reads schema.now path.now row.now) }
{
    if is_top(path) {
        return Ok(false);
    }
    if is_own(schema, path) {
        return Ok(*path == *row);
    }
    let above = front(alloc, path)?;
    let so_far = holds_reads(alloc, schema, cases, &above, count - 1, row)?;
    open_reads(alloc, schema, cases, so_far, &above, path, row)
}

/// Whether a row is read to tell whether a leaf, or a list or leaf-list as a whole, may stand at a path.
pub fn stands_reads(
    alloc: Global,
    schema: &Schema,
    cases: &[Vec<usize>],
    path: &Path,
    row: &Path,
) -> Result<bool, NoMemory>
    requires { AreOfCases schema.now cases.now }
    ensures { IfOk result (λ is. is ≡ spec.stands_reads schema.now path.now row.now) }
{
    if is_top(path) {
        return Ok(false);
    }
    let above = front(alloc, path)?;
    let so_far = holds_reads(alloc, schema, cases, &above, step_count(&above), row)?;
    open_reads(alloc, schema, cases, so_far, &above, path, row)
}
