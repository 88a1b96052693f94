//! The rule of unique statements: no two entries of a list have the same values in the leafs that one names.

ghost use Rattle.std.specs.Prelude.{◌≡◌, ◌++◌, [], true, IfOk, OnOk, MatchOption, None, Some, map as each, slice_get};
ghost use Rattle.std.specs.List.{flat_map};
ghost use Rattle.std.specs.FinMap.{empty, keys};
ghost use Rattle.nm_validate_rules.specs.declared.rule.Rule.TheVariants as rule;
ghost use Rattle.nm_validate_rules.specs.Values as value_spec;
ghost use Rattle.nm_validate_rules.specs.Violation.{least_at};
ghost use Rattle.nm_validate_places.specs.Groups as group;
ghost use Rattle.nm_config.specs.Rows.{Rows};
ghost use Rattle.nm_validate_places.specs.Listed.{AreRows};
ghost use Rattle.nm_validate_places.specs.Least.{least_with};
ghost use Rattle.nm_validate_unique.specs.Marks as mark;
ghost use Rattle.nm_validate_unique.specs.Repeated as spec;
ghost use Rattle.nm_validate_unique.specs.Ways.{AreWays};
ghost use Rattle.nm_validate_rules.specs.Places.{chain};

use crate::marks::{count_different, mark_of};
use crate::near::near_value;
use crate::ways::{Way, ways_to};
use nm_base::{Label, NoMemory, Numbers};
use nm_config::{Config, RowMap};
use nm_schema_tree::Schema;
use nm_types::{Chosen, Path, Step, Value};
use nm_validate_places::areas::{Grouped, NodeRow};
use nm_validate_places::values::{key_in_entry, path_in, row_or_default};
use nm_validate_places::{front, with_path};
use std::alloc::Global;

// The value of a leaf in an entry. The rows of both may be among the first of these.
fn value_in<M: RowMap>(
    alloc: Global,
    schema: &Schema,
    config: &M,
    grouped: &Grouped<'_>,
    near: &[NodeRow<'_>],
    entry: &Path,
    way: &Way,
) -> Result<Option<Value>, NoMemory>
    requires grouped { group.IsGrouped schema.now (M.rows config.now) grouped.now }
    requires rows { AreRows (M.rows config.now) near.now }
    requires down { way.now.nodes.items ≡ chain schema.now.nodes (Some way.now.leaf) }
    ensures { IfOk result (λ value. value ≡ spec.value_in schema.now (M.rows config.now) entry.now way.now.leaf) }
{
    let at = way.leaf;
    if schema.is_key(at) {
        let path = path_in(alloc, schema, entry, at)?;
        let list = front(alloc, &path)?;
        return key_in_entry(schema, at, &list);
    }
    if let Some(value) = near_value(schema, near, entry, way)? {
        return Ok(Some(value));
    }
    let path = path_in(alloc, schema, entry, at)?;
    row_or_default(alloc, schema, config, grouped, near, &path, at)
}

// The values of the leafs that these ways lead down to, in an entry, where all have one.
fn values_along<M: RowMap>(
    alloc: Global,
    schema: &Schema,
    config: &M,
    grouped: &Grouped<'_>,
    near: &[NodeRow<'_>],
    entry: &Path,
    ways: &[Way],
) -> Result<Option<Vec<Value>>, NoMemory>
    requires grouped { group.IsGrouped schema.now (M.rows config.now) grouped.now }
    requires rows { AreRows (M.rows config.now) near.now }
    requires down { AreWays schema.now ways.now }
    ensures { IfOk result (λ found. spec.items_in found ≡ value_spec.unique_values schema.now (M.rows config.now) entry.now (each (λ way. way.leaf) ways.now)) }
{
    let mut values = Vec::with_capacity(alloc, ways.len())?;
    for way in ways {
        let Some(value) = value_in(alloc, schema, config, grouped, near, entry, way)? else {
            return Ok(None);
        };
        values.push(value)?;
    }
    Ok(Some(values))
}

/// The values of some leafs in an entry, where all have one.
pub fn unique_values<M: RowMap>(
    alloc: Global,
    schema: &Schema,
    config: &M,
    grouped: &Grouped<'_>,
    near: &[NodeRow<'_>],
    entry: &Path,
    leafs: &[usize],
) -> Result<Option<Vec<Value>>, NoMemory>
    requires grouped { group.IsGrouped schema.now (M.rows config.now) grouped.now }
    requires rows { AreRows (M.rows config.now) near.now }
    ensures { IfOk result (λ found. spec.items_in found ≡ value_spec.unique_values schema.now (M.rows config.now) entry.now leafs.now) }
{
    let ways = ways_to(alloc, schema, leafs)?;
    let values = values_along(alloc, schema, config, grouped, near, entry, &ways)?;
    Ok(values)
}

// A path for the values of some leafs in an entry, where all have one: entries of one list have the same path exactly where
// they have the same values.
fn key_of<M: RowMap>(
    alloc: Global,
    schema: &Schema,
    config: &M,
    grouped: &Grouped<'_>,
    near: &[NodeRow<'_>],
    leafs: &[usize],
    entry: &Path,
) -> Result<Option<Path>, NoMemory>
    requires grouped { group.IsGrouped schema.now (M.rows config.now) grouped.now }
    requires rows { AreRows (M.rows config.now) near.now }
    ensures { IfOk result (λ key. key ≡ spec.key_of schema.now (M.rows config.now) leafs.now entry.now) }
{
    let Some(values) = unique_values(alloc, schema, config, grouped, near, entry, leafs)? else {
        return Ok(None);
    };
    let mut path = front(alloc, entry)?;
    let step = Step {
        module: Label::new(alloc, "")?,
        name: Label::new(alloc, "")?,
        chosen: Chosen::Keys(values),
    };
    path.steps.insert(0, step)?;
    Ok(Some(path))
}

// Whether an entry that was seen has the values that this one has, which is seen from now on.
fn see<M: RowMap>(
    alloc: Global,
    schema: &Schema,
    config: &M,
    grouped: &Grouped<'_>,
    near: &[NodeRow<'_>],
    leafs: &[usize],
    entry: &Path,
    seen: &mut Config,
) -> Result<bool, NoMemory>
    requires grouped { group.IsGrouped schema.now (M.rows config.now) grouped.now }
    requires rows { AreRows (M.rows config.now) near.now }
    ensures told { IfOk result (λ is. is ≡ spec.is_seen seen.old (spec.key_of schema.now (M.rows config.now) leafs.now entry.now)) }
    ensures seen { IfOk result (λ _. seen.new ≡ spec.with_seen seen.old (spec.key_of schema.now (M.rows config.now) leafs.now entry.now)) }
{
    let Some(path) = key_of(alloc, schema, config, grouped, near, leafs, entry)? else {
        return Ok(false);
    };
    let before = seen.put(path, Value::Present)?;
    Ok(before.is_some())
}

// The lesser of what was found so far and an entry, if it repeats the values of one before.
fn with_entry(
    alloc: Global,
    found: Option<Path>,
    entry: &Path,
    repeats: bool,
) -> Result<Option<Path>, NoMemory>
    ensures { IfOk result (λ least. least ≡ least_with found (group.one_if repeats entry.now)) }
{
    if !repeats {
        return Ok(found);
    }
    Ok(with_path(found, entry.copy(alloc)?))
}

// These rows from the first that is of a node.
fn from_first<'s, 'r>(rows: &'s [NodeRow<'r>], node: usize) -> &'s [NodeRow<'r>]
    ensures { (m : Rows) → AreRows m rows.now → AreRows m result.now }
{
    let mut rest = rows;
    'rows: while let [row, more @ ..] = rest {
        if row.node == Some(node) {
            return rest;
        }
        rest = more;
    }
    rest
}

// These rows behind the first.
fn behind_first<'s, 'r>(rows: &'s [NodeRow<'r>]) -> &'s [NodeRow<'r>]
    ensures { (m : Rows) → AreRows m rows.now → AreRows m result.now }
{
    let [_, rest @ ..] = rows else {
        return rows;
    };
    rest
}

// Puts the mark for the values of the leafs that these ways lead down to, in an entry, behind others, where all have one.
fn put_mark<M: RowMap>(
    alloc: Global,
    schema: &Schema,
    config: &M,
    grouped: &Grouped<'_>,
    near: &[NodeRow<'_>],
    ways: &[Way],
    entry: &Path,
    marks: &mut Vec<(u128, ())>,
) -> Result<(), NoMemory>
    requires grouped { group.IsGrouped schema.now (M.rows config.now) grouped.now }
    requires rows { AreRows (M.rows config.now) near.now }
    requires down { AreWays schema.now ways.now }
    ensures { OnOk result
        (marks.new.items ≡ marks.old.items ++ mark.mark_by (spec.key_of schema.now (M.rows config.now) (each (λ way. way.leaf) ways.now) entry.now)) }
{
    let Some(values) = values_along(alloc, schema, config, grouped, near, entry, ways)? else {
        return Ok(());
    };
    marks.push((mark_of(entry, &values), ()))?;
    Ok(())
}

// The marks for the values of the leafs that these ways lead down to, in the entries of a list.
#[tactic(auto, using(nm_validate_places::proofs::Rows::lent_rows))]
fn marks_along<M: RowMap>(
    alloc: Global,
    schema: &Schema,
    config: &M,
    grouped: &Grouped<'_>,
    list: usize,
    ways: &[Way],
    entries: &[&Path],
) -> Result<Vec<(u128, ())>, NoMemory>
    requires grouped { group.IsGrouped schema.now (M.rows config.now) grouped.now }
    requires down { AreWays schema.now ways.now }
    ensures { IfOk result (λ marks. marks.items
        ≡ mark.marks_in schema.now (M.rows config.now) (each (λ way. way.leaf) ways.now) (each (λ entry. entry.now) entries.now)) }
{
    let mut marks = Vec::with_capacity(alloc, entries.len())?;
    let mut rest = grouped.rows.as_slice();
    for entry in entries {
        let near = from_first(rest, list);
        put_mark(
            alloc, schema, config, grouped, near, ways, entry, &mut marks,
        )?;
        rest = behind_first(near);
    }
    Ok(marks)
}

// The marks for the values of some leafs in the entries of a list.
fn marks_of<M: RowMap>(
    alloc: Global,
    schema: &Schema,
    config: &M,
    grouped: &Grouped<'_>,
    list: usize,
    leafs: &[usize],
    entries: &[&Path],
) -> Result<Vec<(u128, ())>, NoMemory>
    requires { group.IsGrouped schema.now (M.rows config.now) grouped.now }
    ensures { IfOk result (λ marks. marks.items ≡ mark.marks_in schema.now (M.rows config.now) leafs.now (each (λ entry. entry.now) entries.now)) }
{
    let ways = ways_to(alloc, schema, leafs)?;
    let marks = marks_along(alloc, schema, config, grouped, list, &ways, entries)?;
    Ok(marks)
}

// Whether all entries of a list have different marks: then no two have the same values in some leafs.
fn are_apart<M: RowMap>(
    alloc: Global,
    schema: &Schema,
    config: &M,
    grouped: &Grouped<'_>,
    list: usize,
    leafs: &[usize],
    entries: &[&Path],
) -> Result<bool, NoMemory>
    requires { group.IsGrouped schema.now (M.rows config.now) grouped.now }
    ensures { IfOk result (λ apart. apart ≡ true → spec.repeated schema.now (M.rows config.now) leafs.now empty (each (λ entry. entry.now) entries.now) ≡ []) }
{
    let marks = marks_of(alloc, schema, config, grouped, list, leafs, entries)?;
    let all = marks.len();
    let different = count_different(alloc, marks)?;
    Ok(different == all)
}

// The least of what was found so far and of the entries of a list that have the same values in some leafs as one before.
#[tactic(auto, using(nm_validate_places::proofs::Rows::lent_rows))]
fn least_repeated<M: RowMap>(
    alloc: Global,
    schema: &Schema,
    config: &M,
    grouped: &Grouped<'_>,
    list: usize,
    leafs: &[usize],
    entries: &[&Path],
    found: Option<Path>,
) -> Result<Option<Path>, NoMemory>
    requires { group.IsGrouped schema.now (M.rows config.now) grouped.now }
    ensures { IfOk result
        (λ least. least ≡ least_with found (spec.repeated schema.now (M.rows config.now) leafs.now empty (each (λ entry. entry.now) entries.now))) }
{
    let apart = are_apart(alloc, schema, config, grouped, list, leafs, entries)?;
    if apart {
        return Ok(found);
    }
    let mut seen = Config::new(alloc);
    let mut least = found;
    let mut rest = grouped.rows.as_slice();
    for entry in entries {
        let near = from_first(rest, list);
        let repeats = see(
            alloc, schema, config, grouped, near, leafs, entry, &mut seen,
        )?;
        rest = behind_first(near);
        least = with_entry(alloc, least, entry, repeats)?;
    }
    Ok(least)
}

// The paths of the rows of a node, and None past the last node.
fn entries_of<'g, 'r>(groups: &'g [Vec<&'r Path>], at: usize) -> Option<&'g Vec<&'r Path>>
    ensures { MatchOption result (slice_get groups.now at ≡ None) (λ entries. slice_get groups.now at ≡ Some entries.now) }
{
    groups.get(at)
}

// The least of what was found so far and of the entries of a list that have the same values as one before, in the leafs of one of these statements.
fn least_in_all<M: RowMap>(
    alloc: Global,
    schema: &Schema,
    config: &M,
    grouped: &Grouped<'_>,
    list: usize,
    uniques: &[Numbers],
    entries: &[&Path],
    found: Option<Path>,
) -> Result<Option<Path>, NoMemory>
    requires { group.IsGrouped schema.now (M.rows config.now) grouped.now }
    ensures { IfOk result (λ least. least ≡ least_with found
        (flat_map (λ leafs. spec.repeated schema.now (M.rows config.now) leafs empty (each (λ entry. entry.now) entries.now)) uniques.now)) }
{
    let mut least = found;
    for leafs in uniques {
        let leafs = leafs.as_slice();
        least = least_repeated(alloc, schema, config, grouped, list, leafs, entries, least)?;
    }
    Ok(least)
}

// The least of what was found so far and of the entries of a list that repeat what one of its unique statements names.
fn least_at_node<M: RowMap>(
    alloc: Global,
    schema: &Schema,
    config: &M,
    grouped: &Grouped<'_>,
    at: usize,
    found: Option<Path>,
) -> Result<Option<Path>, NoMemory>
    requires { group.IsGrouped schema.now (M.rows config.now) grouped.now }
    ensures { IfOk result
        (λ least. least ≡ least_with found (spec.repeated_at schema.now (M.rows config.now) (group.in_group grouped.now.groups.items at) at)) }
{
    let Some(entries) = entries_of(&grouped.groups, at) else {
        return Ok(found);
    };
    let uniques = schema.uniques(at);
    let least = least_in_all(alloc, schema, config, grouped, at, uniques, entries, found)?;
    Ok(least)
}

/// The least path of an entry that has the same values as an entry before it, in all leafs that a unique statement names (RFC 7950 section 7.8.3).
pub fn least_repeated_entry<M: RowMap>(
    alloc: Global,
    schema: &Schema,
    config: &M,
    grouped: &Grouped<'_>,
) -> Result<Option<Path>, NoMemory>
    requires { group.IsGrouped schema.now (M.rows config.now) grouped.now }
    ensures { IfOk result (λ found. found ≡ least_at schema.now (M.rows config.now) rule.Unique) }
{
    let mut least = None;
    for at in 0..schema.len() {
        least = least_at_node(alloc, schema, config, grouped, at, least)?;
    }
    Ok(least)
}
