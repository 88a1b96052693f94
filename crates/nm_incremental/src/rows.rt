//! The rules on single rows: types, keys and leafrefs.

ghost use Rattle.std.specs.Prelude.{◌≡◌, IfOk};
ghost use Rattle.nm_validate_rules.specs.declared.rule.Rule.TheVariants as rule;
ghost use Rattle.nm_validate_rules.specs.Violated.{violated};
ghost use Rattle.nm_validate_places.specs.Groups.{IsGrouped};
ghost use Rattle.nm_validate_leafref.specs.Lost.{is_lost_at};

use nm_base::NoMemory;
use nm_config::{Config, RowMap};
use nm_path::node_of;
use nm_schema_tree::Schema;
use nm_types::Path;
use nm_validate_leafref::is_lost_row;
use nm_validate_places::areas::{Grouped, NodeRow, group_rows};
use nm_validate_places::fits_row;
use nm_validate_places::keys::has_keys;
use std::alloc::Global;

/// Whether the row at a path has a value that isn't of its type (RFC 7950 sections 9.1, 7.6.3 and 7.7.3).
pub fn has_bad_value<M: RowMap>(
    alloc: Global,
    schema: &Schema,
    config: &M,
    path: &Path,
) -> Result<bool, NoMemory>
    ensures { IfOk result (λ is. is ≡ violated schema.now (M.rows config.now) rule.ValueType path.now) }
{
    let Some(value) = config.value(path) else {
        return Ok(false);
    };
    let node = node_of(schema, path);
    let row = NodeRow { path, value, node };
    let fits = fits_row(alloc, schema, &row)?;
    Ok(!fits)
}

/// Whether the row at a path is an entry that lacks a key or has a bad one (RFC 7950 section 7.8.2).
pub fn has_bad_key<M: RowMap>(
    alloc: Global,
    schema: &Schema,
    config: &M,
    path: &Path,
) -> Result<bool, NoMemory>
    ensures { IfOk result (λ is. is ≡ violated schema.now (M.rows config.now) rule.Key path.now) }
{
    let Some(value) = config.value(path) else {
        return Ok(false);
    };
    let node = node_of(schema, path);
    let row = NodeRow { path, value, node };
    let has = has_keys(alloc, schema, &row)?;
    Ok(!has)
}

// Whether a row has a leafref that isn't reached, by the rows as they are grouped.
fn is_lost<M: RowMap>(
    alloc: Global,
    schema: &Schema,
    config: &M,
    grouped: &Grouped<'_>,
    row: &NodeRow<'_>,
) -> Result<bool, NoMemory>
    requires { IsGrouped schema.now (M.rows config.now) grouped.now }
    ensures { IfOk result (λ lost. lost ≡ is_lost_at schema.now (M.rows config.now) row.now.node row.now.path.now row.now.value.now) }
{
    let mut kept = Config::new(alloc);
    is_lost_row(alloc, schema, config, grouped, row, &mut kept)
}

/// Whether the row at a path has a leafref, its own or that of a key, that doesn't reach what it refers to (RFC 7950 section
/// 9.9). It goes over all rows.
pub fn is_unreached<M: RowMap>(
    alloc: Global,
    schema: &Schema,
    config: &M,
    path: &Path,
) -> Result<bool, NoMemory>
    ensures { IfOk result (λ is. is ≡ violated schema.now (M.rows config.now) rule.Leafref path.now) }
{
    let Some(value) = config.value(path) else {
        return Ok(false);
    };
    let grouped = group_rows(alloc, schema, config)?;
    let node = node_of(schema, path);
    let row = NodeRow { path, value, node };
    is_lost(alloc, schema, config, &grouped, &row)
}
