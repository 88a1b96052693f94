//! The rules that are judged whole, where a row that differs concerns them.

ghost use Rattle.std.specs.Prelude.{◌≡◌, IfOk};
ghost use Rattle.std.specs.List.{list_any};
ghost use Rattle.nm_validate_rules.specs.declared.rule.Rule.TheVariants as rule;
ghost use Rattle.nm_path.specs.Spelling as path_spec;
ghost use Rattle.nm_validate_places.specs.Tables.{AreOfCases};
ghost use Rattle.nm_validate_rules.specs.Concerns.{concerns};
ghost use Rattle.nm_incremental.specs.Whole as spec;

use crate::concerned::{concerns_leafrefs, concerns_uniques};
use crate::paths::{begin, front_count};
use nm_base::NoMemory;
use nm_config::RowMap;
use nm_path::node_of;
use nm_schema_tree::Schema;
use nm_types::Path;
use nm_validate::least_other_case;
use nm_validate_leafref::least_unreached;
use nm_validate_places::areas::group_rows;
use nm_validate_unique::least_repeated_entry;
use std::alloc::Global;

// Whether one of some rows concerns leafrefs.
fn any_leafrefs(
    alloc: Global,
    schema: &Schema,
    cases: &[Vec<usize>],
    differing: &[Path],
) -> Result<bool, NoMemory>
    requires { AreOfCases schema.now cases.now }
    ensures { IfOk result (λ is. is ≡ list_any (concerns schema.now rule.Leafref) differing.now) }
{
    for row in differing {
        if concerns_leafrefs(alloc, schema, cases, row)? {
            return Ok(true);
        }
    }
    Ok(false)
}

// Whether one of some rows concerns unique statements.
fn any_uniques(alloc: Global, schema: &Schema, differing: &[Path]) -> Result<bool, NoMemory>
    ensures { IfOk result (λ is. is ≡ list_any (concerns schema.now rule.Unique) differing.now) }
{
    for row in differing {
        if concerns_uniques(alloc, schema, row)? {
            return Ok(true);
        }
    }
    Ok(false)
}

/// The least path of a row whose leafref isn't reached, where a row that differs concerns leafrefs.
pub fn least_leafref<M: RowMap>(
    alloc: Global,
    schema: &Schema,
    next: &M,
    cases: &[Vec<usize>],
    differing: &[Path],
) -> Result<Option<Path>, NoMemory>
    requires { AreOfCases schema.now cases.now }
    ensures { IfOk result
        (λ found. found ≡ spec.least_if (list_any (concerns schema.now rule.Leafref) differing.now) schema.now (M.rows next.now) rule.Leafref) }
{
    if !any_leafrefs(alloc, schema, cases, differing)? {
        return Ok(None);
    }
    let grouped = group_rows(alloc, schema, next)?;
    least_unreached(alloc, schema, next, &grouped)
}

/// The least path of an entry that repeats what a unique statement names, where a row that differs concerns unique statements.
pub fn least_unique<M: RowMap>(
    alloc: Global,
    schema: &Schema,
    next: &M,
    differing: &[Path],
) -> Result<Option<Path>, NoMemory>
    ensures { IfOk result (λ found. found ≡ spec.least_if (list_any (concerns schema.now rule.Unique) differing.now) schema.now (M.rows next.now) rule.Unique) }
{
    if !any_uniques(alloc, schema, differing)? {
        return Ok(None);
    }
    let grouped = group_rows(alloc, schema, next)?;
    least_repeated_entry(alloc, schema, next, &grouped)
}

// Whether the node that a path leads to stands in a case, if there is one.
fn is_cased(schema: &Schema, path: &Path) -> bool
    ensures { result ≡ spec.is_cased schema.now (path_spec.node_of schema.now path.now) }
{
    match node_of(schema, path) {
        None => false,
        Some(at) => schema.case_in(at).is_some(),
    }
}

// Whether a row is at or below a node that stands in a case.
fn passes_case(alloc: Global, schema: &Schema, row: &Path) -> Result<bool, NoMemory>
    ensures { IfOk result (λ is. is ≡ spec.passes_case schema.now row.now) }
{
    for count in 0..front_count(row) {
        let front = begin(alloc, row, count)?;
        if is_cased(schema, &front) {
            return Ok(true);
        }
    }
    Ok(false)
}

// Whether one of some rows is at or below a node that stands in a case.
fn any_cases(alloc: Global, schema: &Schema, differing: &[Path]) -> Result<bool, NoMemory>
    ensures { IfOk result (λ is. is ≡ list_any (spec.passes_case schema.now) differing.now) }
{
    for row in differing {
        if passes_case(alloc, schema, row)? {
            return Ok(true);
        }
    }
    Ok(false)
}

/// The least path of a child of another case than the first of its choice, where a row that differs is at or below a node that
/// stands in a case.
pub fn least_case<M: RowMap>(
    alloc: Global,
    schema: &Schema,
    next: &M,
    differing: &[Path],
) -> Result<Option<Path>, NoMemory>
    ensures { IfOk result (λ found. found ≡ spec.least_if (list_any (spec.passes_case schema.now) differing.now) schema.now (M.rows next.now) rule.OneCase) }
{
    if !any_cases(alloc, schema, differing)? {
        return Ok(None);
    }
    let grouped = group_rows(alloc, schema, next)?;
    least_other_case(alloc, schema, next, &grouped)
}
