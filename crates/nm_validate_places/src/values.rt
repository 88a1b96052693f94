//! The values of leafs: those of rows, those of keys, and defaults in use.

ghost use Rattle.std.specs.Prelude.{◌≡◌, ◌++◌, true, false, IfOk, drop, length, map as each, option_copied};
ghost use Rattle.nm_types.specs.Chosen.{choice_of};
ghost use Rattle.std.specs.FinMap.{contains_key};
ghost use Rattle.nm_path.specs.Spelling as path_spec;
ghost use Rattle.nm_config.specs.Rows.{Rows};
ghost use Rattle.nm_config.specs.Under as under_spec;
ghost use Rattle.nm_validate_rules.specs.Cases as case_spec;
ghost use Rattle.nm_validate_rules.specs.Standing as standing;
ghost use Rattle.nm_validate_rules.specs.Guards as guard;
ghost use Rattle.nm_validate_rules.specs.Places as place_spec;
ghost use Rattle.nm_validate_rules.specs.Values as spec;
ghost use Rattle.nm_validate_rules.specs.Violated.{last_chosen};
ghost use Rattle.nm_validate_places.specs.Groups.{IsGrouped};
ghost use Rattle.nm_validate_places.specs.Listed.{AreRows};
ghost use Rattle.nm_validate_places.specs.Leafs.{is_open, row_or_default};
ghost use Rattle.nm_validate_places.specs.Tables.{AreOfCases};

use crate::areas::{Grouped, NodeRow};
use crate::cases::{bare, is_allowed_in};
use crate::keys::values_in;
use crate::too_few::front;
use nm_base::NoMemory;
use nm_config::RowMap;
use nm_path::node_of;
use nm_schema_tree::Schema;
use nm_types::{Chosen, Path, Value};
use std::alloc::Global;

// ---- keys

// The value that goes with a key among those that an entry is chosen by, in the order of the keys.
fn key_value<'v>(keys: &[usize], at: usize, values: &'v [Value]) -> Option<&'v Value>
    ensures { option_copied result ≡ spec.key_value keys.now at values.now }
{
    let mut keys_left = keys;
    let mut values_left = values;
    'keys: while let [key, more_keys @ ..] = keys_left {
        let [value, more_values @ ..] = values_left else {
            return None;
        };
        if *key == at {
            return Some(value);
        }
        keys_left = more_keys;
        values_left = more_values;
    }
    None
}

/// The value of a key leaf in an entry, which its path has.
pub fn key_in_entry(schema: &Schema, at: usize, entry: &Path) -> Result<Option<Value>, NoMemory>
    ensures { IfOk result (λ value. value ≡ spec.key_in_entry schema.now at entry.now) }
{
    let Some(list) = schema.parent(at) else {
        return Ok(None);
    };
    match key_value(schema.keys(list), at, values_in(entry)) {
        None => Ok(None),
        Some(value) => Ok(Some(value.copy()?)),
    }
}

// ---- guards

/// Whether the last step of a path chooses no entry.
pub fn is_whole(path: &Path) -> bool
    ensures { result ≡ under_spec.is_whole (last_chosen path.now) }
{
    match path.steps.last() {
        None => true,
        Some(step) => is_none_chosen(&step.chosen),
    }
}

// Whether no entry is chosen.
fn is_none_chosen(chosen: &Chosen) -> bool
    ensures { result ≡ under_spec.is_whole (choice_of chosen.now) }
{
    match chosen {
        Chosen::Whole => true,
        Chosen::Keys(_) => false,
        Chosen::Entry(_) => false,
    }
}

// Whether the case that a node stands in, if there is one, holds at a place.
fn is_allowed_at<M: RowMap>(
    alloc: Global,
    schema: &Schema,
    config: &M,
    cases: &[Vec<usize>],
    above: &Path,
    node: Option<usize>,
) -> Result<bool, NoMemory>
    requires { AreOfCases schema.now cases.now }
    ensures { IfOk result (λ allowed. allowed ≡ guard.is_allowed_at schema.now (M.rows config.now) above.now node) }
{
    let Some(at) = node else {
        return Ok(false);
    };
    is_allowed_in(alloc, schema, config, cases, above, schema.case_in(at))
}

// Whether the last step of a path has no predicates, and leads to a node whose case holds.
fn is_open<M: RowMap>(
    alloc: Global,
    schema: &Schema,
    config: &M,
    cases: &[Vec<usize>],
    above: &Path,
    path: &Path,
) -> Result<bool, NoMemory>
    requires { AreOfCases schema.now cases.now }
    ensures { IfOk result (λ opens. opens ≡ is_open schema.now (M.rows config.now) above.now path.now) }
{
    if !is_whole(path) {
        return Ok(false);
    }
    is_allowed_at(alloc, schema, config, cases, above, node_of(schema, path))
}

// Whether a path leads to a list or a container with presence.
fn is_own(schema: &Schema, path: &Path) -> bool
    ensures { result ≡ standing.is_own_at schema.now.nodes (path_spec.node_of schema.now path.now) }
{
    match node_of(schema, path) {
        None => false,
        Some(at) => schema.is_guard(at),
    }
}

// Whether the first of some rows is at a path.
fn is_first(near: &[NodeRow<'_>], path: &Path) -> bool
    ensures { (m : Rows) → AreRows m near.now → result ≡ true → contains_key m path.now ≡ true }
{
    let [row, ..] = near else {
        return false;
    };
    let own = row.path;
    *own == *path
}

// Whether there is a row at a path, which may be the first of these.
fn has_row<M: RowMap>(config: &M, near: &[NodeRow<'_>], path: &Path) -> bool
    requires { AreRows (M.rows config.now) near.now }
    ensures { result ≡ contains_key (M.rows config.now) path.now }
{
    if is_first(near, path) {
        return true;
    }
    config.value(path).is_some()
}

// Whether a path is the top.
fn is_top(path: &Path) -> bool
    ensures { result ≡ under_spec.is_end path.now }
{
    path.steps.is_empty()
}

/// How many steps a path has.
pub fn step_count(path: &Path) -> usize
    ensures { result ≡ length path.now }
{
    path.steps.len()
}

/// Whether what guards the nodes at a place of so many steps that stand in no case holds.
pub fn holds_at<M: RowMap>(
    alloc: Global,
    schema: &Schema,
    config: &M,
    cases: &[Vec<usize>],
    near: &[NodeRow<'_>],
    path: &Path,
    count: usize,
) -> Result<bool, NoMemory>
    requires cases { AreOfCases schema.now cases.now }
    requires rows { AreRows (M.rows config.now) near.now }
    requires counted { count ≡ length path.now }
    ensures { IfOk result (λ holds. holds ≡ guard.holds_at schema.now (M.rows config.now) path.now) }
{
    if is_top(path) {
        return Ok(true);
    }
    if is_own(schema, path) {
        return Ok(has_row(config, near, path));
    }
    let above = front(alloc, path)?;
    let opens = is_open(alloc, schema, config, cases, &above, path)?;
    if !opens {
        return Ok(false);
    }
    let holds = holds_at(alloc, schema, config, cases, near, &above, count - 1)?;
    Ok(holds)
}

/// Whether a leaf, or a list or leaf-list as a whole, may stand at a path: its guard holds.
pub fn stands<M: RowMap>(
    alloc: Global,
    schema: &Schema,
    config: &M,
    cases: &[Vec<usize>],
    near: &[NodeRow<'_>],
    path: &Path,
) -> Result<bool, NoMemory>
    requires cases { AreOfCases schema.now cases.now }
    requires rows { AreRows (M.rows config.now) near.now }
    ensures { IfOk result (λ there. there ≡ guard.stands schema.now (M.rows config.now) path.now) }
{
    if is_top(path) {
        return Ok(false);
    }
    let above = front(alloc, path)?;
    let opens = is_open(alloc, schema, config, cases, &above, path)?;
    if !opens {
        return Ok(false);
    }
    let holds = holds_at(
        alloc,
        schema,
        config,
        cases,
        near,
        &above,
        step_count(&above),
    )?;
    Ok(holds)
}

// ---- leafs

// The default of a leaf at a path without a row, where its guard holds. The row of that may be the first of these.
fn default_at<M: RowMap>(
    alloc: Global,
    schema: &Schema,
    config: &M,
    grouped: &Grouped<'_>,
    near: &[NodeRow<'_>],
    path: &Path,
    at: usize,
) -> Result<Option<Value>, NoMemory>
    requires grouped { IsGrouped schema.now (M.rows config.now) grouped.now }
    requires rows { AreRows (M.rows config.now) near.now }
    requires bare { contains_key (M.rows config.now) path.now ≡ false }
    ensures { IfOk result (λ value. value ≡ spec.default_in_use schema.now (M.rows config.now) path.now at) }
{
    let Some(value) = schema.default(at) else {
        return Ok(None);
    };
    if !stands(alloc, schema, config, &grouped.cases, near, path)? {
        return Ok(None);
    }
    Ok(Some(value.copy()?))
}

/// The default of a leaf where no row of it is and its guard holds (RFC 7950 section 7.6.1).
pub fn default_in_use<M: RowMap>(
    alloc: Global,
    schema: &Schema,
    config: &M,
    grouped: &Grouped<'_>,
    path: &Path,
    at: usize,
) -> Result<Option<Value>, NoMemory>
    requires { IsGrouped schema.now (M.rows config.now) grouped.now }
    ensures { IfOk result (λ value. value ≡ spec.default_in_use schema.now (M.rows config.now) path.now at) }
{
    let Some(_default) = schema.default(at) else {
        return Ok(None);
    };
    if config.value(path).is_some() {
        return Ok(None);
    }
    default_at(alloc, schema, config, grouped, &[], path, at)
}

/// The value of a leaf that is no key at a path: that of its row, or its default in use, whose guard's row may be the first of these.
pub fn row_or_default<M: RowMap>(
    alloc: Global,
    schema: &Schema,
    config: &M,
    grouped: &Grouped<'_>,
    near: &[NodeRow<'_>],
    path: &Path,
    at: usize,
) -> Result<Option<Value>, NoMemory>
    requires grouped { IsGrouped schema.now (M.rows config.now) grouped.now }
    requires rows { AreRows (M.rows config.now) near.now }
    ensures { IfOk result (λ value. value ≡ row_or_default schema.now (M.rows config.now) path.now at) }
{
    match config.value(path) {
        Some(value) => Ok(Some(value.copy()?)),
        None => default_at(alloc, schema, config, grouped, near, path, at),
    }
}

// ---- the way down to a leaf

/// The nodes from the top down to a node.
pub fn chain(alloc: Global, schema: &Schema, at: Option<usize>) -> Result<Vec<usize>, NoMemory>
    ensures { IfOk result (λ nodes. nodes.items ≡ place_spec.chain schema.now.nodes at) }
{
    let Some(node) = at else {
        return Ok(Vec::new(alloc));
    };
    schema.laws();
    let mut nodes = chain(alloc, schema, schema.parent(node))?;
    nodes.push(node)?;
    Ok(nodes)
}

/// The numbers behind so many.
pub fn behind(numbers: &[usize], count: usize) -> &[usize]
    ensures { result.now ≡ drop count numbers.now }
{
    if numbers.len() <= count {
        return &[];
    }
    &numbers[count..]
}

// The path that goes on from another by steps to these nodes without predicates.
fn with_bare(alloc: Global, schema: &Schema, path: Path, nodes: &[usize]) -> Result<Path, NoMemory>
    ensures { IfOk result (λ longer. longer ≡ path ++ each (case_spec.bare schema.now.nodes) nodes.now) }
{
    let mut steps = path.steps;
    for at in nodes {
        steps.push(bare(alloc, schema, *at)?)?;
    }
    Ok(Path { steps })
}

/// The path of a leaf in an entry above it.
pub fn path_in(alloc: Global, schema: &Schema, entry: &Path, at: usize) -> Result<Path, NoMemory>
    ensures { IfOk result (λ path. path ≡ spec.path_in schema.now entry.now at) }
{
    let nodes = chain(alloc, schema, Some(at))?;
    with_bare(
        alloc,
        schema,
        entry.copy(alloc)?,
        behind(&nodes, entry.steps.len()),
    )
}
