//! Nodes of a configuration: what names them, and what it has there.

ghost use Rattle.std.specs.Prelude.{◌≡◌, ◌||◌, not, is_some, IfOk, option_copied};
ghost use Rattle.std.specs.List.{list_all};
ghost use Rattle.std.specs.FinMap as map;
ghost use Rattle.nm_path.specs.Spelling.{node_of as found_at};
ghost use Rattle.nm_validate_rules.specs.Guards.{front};
ghost use Rattle.nm_proto.specs.Content.{Finds};
ghost use Rattle.nm_content_place.specs.Place as spec;
ghost use Rattle.nm_content_place.specs.Walk.{below_after};

use crate::walk::next_below;
use nm_base::{Label, NoMemory};
use nm_config::RowMap;
use nm_path::{PathFault, node_of, read_path};
use nm_proto::FindFault;
use nm_schema_tree::Schema;
use nm_types::{Path, Value};
use std::alloc::Global;

/// A node of a configuration.
#[derive(Drop)]
pub struct YangNode {
    pub path: Path,
    /// Where the row is that it exists by: of a key leaf its entry, of others their own path.
    pub row: Path,
}

// Whether a path leads to a key leaf.
fn is_key(schema: &Schema, path: &Path) -> bool
    ensures { result ≡ spec.is_key_at schema.now (found_at schema.now path.now) }
{
    match node_of(schema, path) {
        None => false,
        Some(at) => schema.is_key(at),
    }
}

// A path without its last step.
fn front_of(alloc: Global, path: &Path) -> Result<Path, NoMemory>
    ensures { IfOk result (λ front_path. front_path ≡ front path.now) }
{
    let mut steps = Vec::new(alloc);
    let mut rest = path.steps.as_slice();
    'steps: while let [step, more @ ..] = rest {
        if more.is_empty() {
            return Ok(Path { steps });
        }
        steps.push(step.copy(alloc)?)?;
        rest = more;
    }
    Ok(Path { steps })
}

// Where the row of a node is.
fn row_of(alloc: Global, schema: &Schema, path: &Path) -> Result<Path, NoMemory>
    ensures { IfOk result (λ row. row ≡ spec.row_of schema.now path.now) }
{
    if is_key(schema, path) {
        return front_of(alloc, path);
    }
    path.copy(alloc)
}

// The path that a text spells.
fn path_of(alloc: Global, schema: &Schema, text: &Label) -> Result<Path, FindFault>
    ensures { Finds result (spec.path_found schema.now text.now) }
{
    match read_path(alloc, schema, text.as_str()) {
        Ok(path) => Ok(path),
        Err(PathFault::Unknown) => Err(FindFault::BadPath),
        Err(PathFault::BadText) => Err(FindFault::BadPath),
        Err(PathFault::NoMemory) => Err(FindFault::NoMemory),
    }
}

/// The node that a text names.
pub fn found(alloc: Global, schema: &Schema, text: &Label) -> Result<YangNode, FindFault>
    ensures { Finds result (spec.found schema.now text.now) }
{
    match path_of(alloc, schema, text) {
        Ok(path) => {
            let row = row_of(alloc, schema, &path)?;
            Ok(YangNode { path, row })
        }
        Err(fault) => Err(fault),
    }
}

fn same_value(one: Option<&Value>, other: Option<&Value>) -> bool
    ensures { result ≡ spec.same_value (option_copied one.entry) (option_copied other.entry) }
{
    match (one, other) {
        (None, None) => true,
        (Some(value), Some(other)) => value == other,
        _ => false,
    }
}

// Whether there is no row of the one at a path, or it is one of the other.
fn is_kept<M: RowMap>(other: &M, one: &M, path: &Path) -> bool
    ensures { result ≡ (not (is_some (map.get (M.rows one.now) path.now))
        || spec.same_value (map.get (M.rows one.now) path.now) (map.get (M.rows other.now) path.now)) }
{
    let value = one.value(path);
    value.is_none() || same_value(value, other.value(path))
}

// Whether each row of the one below a node is a row of the other.
fn has_rest_of<M: RowMap>(other: &M, one: &M, path: &Path) -> bool
    ensures { result ≡ list_all (spec.is_shared (M.rows one.now) (M.rows other.now) path.now) (below_after (M.rows one.now) path.now path.now) }
{
    let mut passed = path;
    'walk: while let Some(next) = next_below(one, path, passed) {
        if !same_value(one.value(next), other.value(next)) {
            return false;
        }
        passed = next;
    }
    true
}

// Whether each row of the one at and below a node is a row of the other.
fn has_part_of<M: RowMap>(other: &M, one: &M, path: &Path) -> bool
    ensures { result ≡ spec.has_part_of (M.rows other.now) (M.rows one.now) path.now }
{
    is_kept(other, one, path) && has_rest_of(other, one, path)
}

/// Whether two configurations have the same rows at and below a node, and the same row that it exists by. It takes no memory.
pub fn same_at<M: RowMap>(one: &M, other: &M, node: &YangNode) -> bool
    ensures { result ≡ spec.same_at (M.rows one.now) (M.rows other.now) node.now }
{
    let same_below = has_part_of(other, one, &node.path) && has_part_of(one, other, &node.path);
    same_below && same_value(one.value(&node.row), other.value(&node.row))
}
