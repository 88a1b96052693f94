//! The rules on how many entries lists and leaf-lists have.

ghost use Rattle.std.specs.Prelude.{◌≡◌, IfOk};
ghost use Rattle.nm_schema_tree.specs.Nodes.{case_at};
ghost use Rattle.nm_validate_rules.specs.declared.rule.Rule.TheVariants as rule;
ghost use Rattle.nm_validate_rules.specs.Violated as spec;
ghost use Rattle.nm_validate_places.specs.Tables.{AreOfCases};

use nm_base::NoMemory;
use nm_config::RowMap;
use nm_path::node_of;
use nm_schema_tree::Schema;
use nm_types::Path;
use nm_validate_places::cases::others_of;
use nm_validate_places::values::stands;
use nm_validate_places::{front, has_at_least, has_more, is_allowed_by};
use std::alloc::Global;

// Whether another node of the case that a node stands in is there at a place, or the node stands in none.
fn has_beside<M: RowMap>(
    alloc: Global,
    schema: &Schema,
    config: &M,
    cases: &[Vec<usize>],
    above: &Path,
    at: usize,
) -> Result<bool, NoMemory>
    requires { AreOfCases schema.now cases.now }
    ensures { IfOk result (λ has. has ≡ spec.has_beside schema.now (M.rows config.now) above.now at (case_at schema.now.nodes at)) }
{
    let others = others_of(alloc, schema, cases, at)?;
    is_allowed_by(alloc, schema, config, above, &others)
}

// Whether min-elements of a node are wanted at a path.
fn wants_elements<M: RowMap>(
    alloc: Global,
    schema: &Schema,
    config: &M,
    cases: &[Vec<usize>],
    path: &Path,
    at: usize,
) -> Result<bool, NoMemory>
    requires { AreOfCases schema.now cases.now }
    ensures { IfOk result (λ wants. wants ≡ spec.wants_elements schema.now (M.rows config.now) path.now at) }
{
    if !stands(alloc, schema, config, cases, &[], path)? {
        return Ok(false);
    }
    let above = front(alloc, path)?;
    has_beside(alloc, schema, config, cases, &above, at)
}

/// Whether a path is that of a list or a leaf-list with too few entries, where they are wanted (RFC 7950 section 7.7.5).
pub fn has_too_few<M: RowMap>(
    alloc: Global,
    schema: &Schema,
    config: &M,
    cases: &[Vec<usize>],
    path: &Path,
) -> Result<bool, NoMemory>
    requires { AreOfCases schema.now cases.now }
    ensures { IfOk result (λ is. is ≡ spec.violated schema.now (M.rows config.now) rule.MinElements path.now) }
{
    let Some(at) = node_of(schema, path) else {
        return Ok(false);
    };
    let Some(min) = schema.elements(at).min else {
        return Ok(false);
    };
    if has_at_least(config, path, min) {
        return Ok(false);
    }
    wants_elements(alloc, schema, config, cases, path, at)
}

/// Whether a path is that of a list or a leaf-list with too many entries (RFC 7950 section 7.7.6).
pub fn has_too_many<M: RowMap>(
    alloc: Global,
    schema: &Schema,
    config: &M,
    cases: &[Vec<usize>],
    path: &Path,
) -> Result<bool, NoMemory>
    requires { AreOfCases schema.now cases.now }
    ensures { IfOk result (λ is. is ≡ spec.violated schema.now (M.rows config.now) rule.MaxElements path.now) }
{
    let Some(at) = node_of(schema, path) else {
        return Ok(false);
    };
    let Some(max) = schema.elements(at).max else {
        return Ok(false);
    };
    if !has_more(config, path, max) {
        return Ok(false);
    }
    stands(alloc, schema, config, cases, &[], path)
}
