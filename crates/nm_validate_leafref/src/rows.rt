//! The rule of leafrefs: what each refers to is there (RFC 7950 section 9.9).

ghost use Rattle.std.specs.Prelude.{◌≡◌, IfOk};
ghost use Rattle.nm_schema_tree.specs.Nodes.{reference_at};
ghost use Rattle.nm_validate_rules.specs.declared.rule.Rule.TheVariants as rule;
ghost use Rattle.nm_validate_rules.specs.Values.{claim_of, is_reached, key_claims};
ghost use Rattle.nm_validate_rules.specs.Violation.{least_at};
ghost use Rattle.nm_validate_places.specs.Groups as group;
ghost use Rattle.nm_validate_leafref.specs.Known.{Knows, claim_to};
ghost use Rattle.nm_validate_leafref.specs.Lost as spec;

use crate::at_hand::{is_at_hand, steps_left};
use crate::kept::begin;
use crate::known::is_reached;
use nm_base::NoMemory;
use nm_config::{Config, RowMap};
use nm_schema_tree::{Reference, Schema};
use nm_types::{Chosen, Path, Value};
use nm_validate_places::areas::{Grouped, NodeRow};
use nm_validate_places::cases::bare;
use nm_validate_places::keys::values_in;
use std::alloc::Global;

// Whether a place is in an entry of a list.
fn is_in_entry(place: &Path) -> bool {
    for step in &place.steps {
        if let Chosen::Keys(_) = step.chosen {
            return true;
        }
    }
    false
}

// Whether what is claimed of a target below a place is reached. Where few rows claim, or the place is in an entry, as each row
// may have its own, one look-up is tried before all values of the target are kept.
fn is_claim_reached<M: RowMap>(
    alloc: Global,
    schema: &Schema,
    config: &M,
    grouped: &Grouped<'_>,
    target: usize,
    context: &Path,
    value: &Value,
    few: bool,
    kept: &mut Config,
) -> Result<bool, NoMemory>
    requires grouped { group.IsGrouped schema.now (M.rows config.now) grouped.now }
    requires knows { Knows schema.now (M.rows config.now) kept.old }
    ensures told { IfOk result (λ is. is ≡ is_reached schema.now (M.rows config.now) (claim_to target context.now value.now)) }
    ensures knows { IfOk result (λ _. Knows schema.now (M.rows config.now) kept.new) }
{
    if few || is_in_entry(context) {
        if is_at_hand(alloc, schema, config, grouped, target, context, value)? {
            return Ok(true);
        }
    }
    is_reached(alloc, schema, config, grouped, target, context, value, kept)
}

// Whether what a leafref at a path claims isn't reached.
fn is_lost<M: RowMap>(
    alloc: Global,
    schema: &Schema,
    config: &M,
    grouped: &Grouped<'_>,
    path: &Path,
    value: &Value,
    reference: Option<Reference>,
    few: bool,
    kept: &mut Config,
) -> Result<bool, NoMemory>
    requires grouped { group.IsGrouped schema.now (M.rows config.now) grouped.now }
    requires knows { Knows schema.now (M.rows config.now) kept.old }
    ensures told { IfOk result (λ lost. lost ≡ spec.any_lost schema.now (M.rows config.now) (claim_of path.now value.now reference)) }
    ensures knows { IfOk result (λ _. Knows schema.now (M.rows config.now) kept.new) }
{
    let Some(reference) = reference else {
        return Ok(false);
    };
    let context = begin(alloc, path, steps_left(path, reference.up))?;
    let reached = is_claim_reached(
        alloc,
        schema,
        config,
        grouped,
        reference.target,
        &context,
        value,
        few,
        kept,
    )?;
    Ok(!reached)
}

// Whether what a key leaf of an entry claims isn't reached.
fn is_key_lost<M: RowMap>(
    alloc: Global,
    schema: &Schema,
    config: &M,
    grouped: &Grouped<'_>,
    entry: &Path,
    at: usize,
    value: &Value,
    kept: &mut Config,
) -> Result<bool, NoMemory>
    requires grouped { group.IsGrouped schema.now (M.rows config.now) grouped.now }
    requires knows { Knows schema.now (M.rows config.now) kept.old }
    ensures told { IfOk result (λ lost. lost ≡ spec.any_lost schema.now (M.rows config.now) (spec.key_claim schema.now entry.now at value.now)) }
    ensures knows { IfOk result (λ _. Knows schema.now (M.rows config.now) kept.new) }
{
    let Some(reference) = schema.reference(at) else {
        return Ok(false);
    };
    let step = bare(alloc, schema, at)?;
    let path = entry.with_step(alloc, step)?;
    is_lost(
        alloc,
        schema,
        config,
        grouped,
        &path,
        value,
        Some(reference),
        false,
        kept,
    )
}

// Whether what one of the key leafs of an entry claims isn't reached.
#[tactic(auto, using(crate::proofs::Losing::lost_append))]
fn is_any_key_lost<M: RowMap>(
    alloc: Global,
    schema: &Schema,
    config: &M,
    grouped: &Grouped<'_>,
    entry: &Path,
    leafs: &[usize],
    values: &[Value],
    kept: &mut Config,
) -> Result<bool, NoMemory>
    requires grouped { group.IsGrouped schema.now (M.rows config.now) grouped.now }
    requires knows { Knows schema.now (M.rows config.now) kept.old }
    ensures told { IfOk result (λ lost. lost ≡ spec.any_lost schema.now (M.rows config.now) (key_claims schema.now entry.now leafs.now values.now)) }
    ensures knows { IfOk result (λ _. Knows schema.now (M.rows config.now) kept.new) }
{
    let mut leafs_left = leafs;
    let mut values_left = values;
    'leafs: while let [leaf, more_leafs @ ..] = leafs_left {
        let [value, more_values @ ..] = values_left else {
            return Ok(false);
        };
        if is_key_lost(alloc, schema, config, grouped, entry, *leaf, value, kept)? {
            return Ok(true);
        }
        leafs_left = more_leafs;
        values_left = more_values;
    }
    Ok(false)
}

// How many rows are few: what each of them claims is looked up by itself.
const FEW: usize = 16;

// Whether a node has few rows.
fn has_few(grouped: &Grouped<'_>, at: usize) -> bool {
    match grouped.groups.as_slice().get(at) {
        None => true,
        Some(paths) => paths.len() <= FEW,
    }
}

// Whether what the leafref of a row claims isn't reached, if there is one.
#[tactic(auto, using(crate::proofs::Losing::lost_append))]
fn is_leaf_lost<M: RowMap>(
    alloc: Global,
    schema: &Schema,
    config: &M,
    grouped: &Grouped<'_>,
    path: &Path,
    value: &Value,
    at: usize,
    kept: &mut Config,
) -> Result<bool, NoMemory>
    requires grouped { group.IsGrouped schema.now (M.rows config.now) grouped.now }
    requires knows { Knows schema.now (M.rows config.now) kept.old }
    ensures told { IfOk result (λ lost. lost ≡ spec.any_lost schema.now (M.rows config.now) (claim_of path.now value.now (reference_at schema.now.nodes at))) }
    ensures knows { IfOk result (λ _. Knows schema.now (M.rows config.now) kept.new) }
{
    is_lost(
        alloc,
        schema,
        config,
        grouped,
        path,
        value,
        schema.reference(at),
        has_few(grouped, at),
        kept,
    )
}

/// Whether a row has a claim that isn't reached, which is told by what is kept of the targets of others, and keeps those of its own.
#[tactic(auto, using(crate::proofs::Losing::lost_append))]
pub fn is_lost_row<M: RowMap>(
    alloc: Global,
    schema: &Schema,
    config: &M,
    grouped: &Grouped<'_>,
    row: &NodeRow<'_>,
    kept: &mut Config,
) -> Result<bool, NoMemory>
    requires grouped { group.IsGrouped schema.now (M.rows config.now) grouped.now }
    requires knows { Knows schema.now (M.rows config.now) kept.old }
    ensures told { IfOk result (λ lost. lost ≡ spec.is_lost_at schema.now (M.rows config.now) row.now.node row.now.path.now row.now.value.now) }
    ensures knows { IfOk result (λ _. Knows schema.now (M.rows config.now) kept.new) }
{
    let Some(at) = row.node else {
        return Ok(false);
    };
    if is_leaf_lost(
        alloc, schema, config, grouped, row.path, row.value, at, kept,
    )? {
        return Ok(true);
    }
    is_any_key_lost(
        alloc,
        schema,
        config,
        grouped,
        row.path,
        schema.keys(at),
        values_in(row.path),
        kept,
    )
}

// The path of the first row that has a claim that isn't reached.
fn first_lost<M: RowMap>(
    alloc: Global,
    schema: &Schema,
    config: &M,
    grouped: &Grouped<'_>,
    rows: &[NodeRow<'_>],
) -> Result<Option<Path>, NoMemory>
    requires { group.IsGrouped schema.now (M.rows config.now) grouped.now }
    ensures { IfOk result (λ found. found ≡ spec.first_lost schema.now (M.rows config.now) rows.now) }
{
    let mut kept = Config::new(alloc);
    for row in rows {
        if is_lost_row(alloc, schema, config, grouped, row, &mut kept)? {
            return Ok(Some(row.path.copy(alloc)?));
        }
    }
    Ok(None)
}

/// The least path of a row with a leafref, its own or that of a key, that doesn't reach what it refers to (RFC 7950 section 9.9).
#[tactic(auto, using(crate::proofs::Losing::lost_rows))]
pub fn least_unreached<M: RowMap>(
    alloc: Global,
    schema: &Schema,
    config: &M,
    grouped: &Grouped<'_>,
) -> Result<Option<Path>, NoMemory>
    requires { group.IsGrouped schema.now (M.rows config.now) grouped.now }
    ensures { IfOk result (λ found. found ≡ least_at schema.now (M.rows config.now) rule.Leafref) }
{
    first_lost(alloc, schema, config, grouped, &grouped.rows)
}
