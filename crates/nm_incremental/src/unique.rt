//! The rule of unique statements.

ghost use Rattle.std.specs.Prelude.{◌≡◌, IfOk, map as each};
ghost use Rattle.std.specs.List.{list_any};
ghost use Rattle.std.specs.Ordering.{eq_by_cmp};
ghost use Rattle.std.specs.Cmp.Lexicographic.{slice_cmp};
ghost use Rattle.nm_types.specs.Value.{value_cmp};
ghost use Rattle.nm_validate_rules.specs.declared.rule.Rule.TheVariants as rule;
ghost use Rattle.nm_validate_rules.specs.Values as spec;
ghost use Rattle.nm_validate_rules.specs.Violated.{violated};
ghost use Rattle.nm_validate_places.specs.Groups.{IsGrouped};
ghost use Rattle.nm_incremental.specs.Repeats as repeats;

use nm_base::{NoMemory, Numbers};
use nm_config::RowMap;
use nm_path::node_of;
use nm_schema_tree::Schema;
use nm_types::{Path, Value};
use nm_validate_leafref::as_list;
use nm_validate_places::areas::{Grouped, NodeRow, group_rows};
use nm_validate_unique::unique_values;
use std::alloc::Global;

// Whether another entry of the same list stands before an entry.
fn is_before(alloc: Global, entry: &Path, other: &Path) -> Result<bool, NoMemory>
    ensures { IfOk result (λ is. is ≡ spec.is_before entry.now other.now) }
{
    if other >= entry {
        return Ok(false);
    }
    let theirs = as_list(alloc, other)?;
    let own = as_list(alloc, entry)?;
    Ok(theirs == own)
}

// Whether some values are others.
fn are_same(values: &[Value], others: &[Value]) -> bool
    ensures { result ≡ eq_by_cmp (slice_cmp value_cmp) values.now others.now }
{
    values.cmp(others).is_eq()
}

// Whether a row is an entry before another that has these values in some leafs.
fn is_repeated_by<M: RowMap>(
    alloc: Global,
    schema: &Schema,
    config: &M,
    grouped: &Grouped<'_>,
    entry: &Path,
    leafs: &[usize],
    values: &[Value],
    other: &Path,
) -> Result<bool, NoMemory>
    requires { IsGrouped schema.now (M.rows config.now) grouped.now }
    ensures { IfOk result (λ is. is ≡ repeats.is_repeated_by schema.now (M.rows config.now) entry.now leafs.now values.now other.now) }
{
    if !is_before(alloc, entry, other)? {
        return Ok(false);
    }
    let Some(others) = unique_values(alloc, schema, config, grouped, &[], other, leafs)? else {
        return Ok(false);
    };
    Ok(are_same(values, &others))
}

// Whether one of some rows is an entry before another that has these values in some leafs.
fn is_repeated_in<M: RowMap>(
    alloc: Global,
    schema: &Schema,
    config: &M,
    grouped: &Grouped<'_>,
    rows: &[NodeRow<'_>],
    entry: &Path,
    leafs: &[usize],
    values: &[Value],
) -> Result<bool, NoMemory>
    requires { IsGrouped schema.now (M.rows config.now) grouped.now }
    ensures { IfOk result (λ is. is ≡ repeats.is_repeated_in schema.now (M.rows config.now) entry.now leafs.now values.now rows.now) }
{
    for row in rows {
        let is = is_repeated_by(
            alloc, schema, config, grouped, entry, leafs, values, row.path,
        )?;
        if is {
            return Ok(true);
        }
    }
    Ok(false)
}

// Whether an entry before another has the same values in some leafs.
fn is_repeated<M: RowMap>(
    alloc: Global,
    schema: &Schema,
    config: &M,
    grouped: &Grouped<'_>,
    entry: &Path,
    leafs: &[usize],
) -> Result<bool, NoMemory>
    requires { IsGrouped schema.now (M.rows config.now) grouped.now }
    ensures { IfOk result (λ is. is ≡ repeats.is_repeated_at schema.now (M.rows config.now) entry.now leafs.now) }
{
    let found = unique_values(alloc, schema, config, grouped, &[], entry, leafs)?;
    let Some(values) = found else {
        return Ok(false);
    };
    let rows = grouped.rows.as_slice();
    is_repeated_in(alloc, schema, config, grouped, rows, entry, leafs, &values)
}

// Whether an entry before another has the same values in all leafs that one of some statements names.
fn is_repeated_in_all<M: RowMap>(
    alloc: Global,
    schema: &Schema,
    config: &M,
    grouped: &Grouped<'_>,
    entry: &Path,
    uniques: &[Numbers],
) -> Result<bool, NoMemory>
    requires { IsGrouped schema.now (M.rows config.now) grouped.now }
    ensures { IfOk result (λ is. is ≡ list_any (repeats.is_repeated_at schema.now (M.rows config.now) entry.now) uniques.now) }
{
    for leafs in uniques {
        let leafs = leafs.as_slice();
        let is = is_repeated(alloc, schema, config, grouped, entry, leafs)?;
        if is {
            return Ok(true);
        }
    }
    Ok(false)
}

/// Whether a path is that of an entry that has the same values as an entry before it, in all leafs that a unique statement names
/// (RFC 7950 section 7.8.3). It goes over all rows.
pub fn is_repeated_entry<M: RowMap>(
    alloc: Global,
    schema: &Schema,
    config: &M,
    path: &Path,
) -> Result<bool, NoMemory>
    ensures { IfOk result (λ is. is ≡ violated schema.now (M.rows config.now) rule.Unique path.now) }
{
    let Some(_row) = config.value(path) else {
        return Ok(false);
    };
    let Some(at) = node_of(schema, path) else {
        return Ok(false);
    };
    let grouped = group_rows(alloc, schema, config)?;
    let uniques = schema.uniques(at);
    is_repeated_in_all(alloc, schema, config, &grouped, path, uniques)
}
