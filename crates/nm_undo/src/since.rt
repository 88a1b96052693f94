//! What has been changed since an edit was done, of all that taking it back looks at.

ghost use Rattle.std.specs.Prelude.{◌≡◌, ◌↔◌, ◌++◌, List, IsTrue, IfOk, OnOk, None, Some, fold, map as each, option_copied};
ghost use Rattle.std.specs.List.{flat_map};
ghost use Rattle.nm_types.specs.Path.{PathStep};
ghost use Rattle.nm_overlay.specs.Differences.{differs as is_difference};
ghost use Rattle.nm_edit.specs.Edited.{moves_by};
ghost use Rattle.nm_edit.specs.Said.{gone_below};
ghost use Rattle.nm_edit.specs.Laws.{goes as goes_under};
ghost use Rattle.nm_undo.specs.Since as spec;

use crate::front::is_own;
use crate::inverse::Inverse;
use nm_base::NoMemory;
use nm_config::RowMap;
use nm_edit::act::acts_of;
use nm_edit::moves::{Moves, moves_of};
use nm_overlay::gone_under;
use nm_proto::DefaultOperation;
use nm_schema_tree::Schema;
use nm_types::{Path, Value};
use std::alloc::Global;

// Whether there is a value, and it is this one.
fn is_value(there: Option<&Value>, value: &Value) -> bool
    ensures { IsTrue result ↔ (option_copied there.entry ≡ Some value.now) }
{
    match there {
        Some(other) => other.same(value),
        None => false,
    }
}

// Whether there is no value, or another one.
fn is_not(there: Option<&Value>, value: &Value) -> bool
    ensures { result ≡ is_difference (option_copied there.entry) (Some value.now) }
{
    !is_value(there, value)
}

// Whether what stands at a path isn't what stood there.
fn is_other(before: Option<&Value>, after: Option<&Value>) -> bool
    ensures { result ≡ is_difference (option_copied before.entry) (option_copied after.entry) }
{
    match after {
        Some(value) => is_not(before, value),
        None => before.is_some(),
    }
}

// Whether two configurations differ at a path.
fn differs_at<M: RowMap>(made: &M, later: &M, path: &Path) -> bool
    ensures { result ≡ spec.differs_at (M.rows made.now) (M.rows later.now) path.now }
{
    is_other(made.value(path), later.value(path))
}

// The lesser of two paths in their order, if there was one before.
fn lesser_of(least: Option<Path>, path: Path) -> Path
    ensures { result ≡ spec.lesser_of least path }
{
    let Some(least) = least else {
        return path;
    };
    if path < least {
        return path;
    }
    least
}

// The least path so far at which two configurations differ, and one more path.
fn noted<M: RowMap>(
    made: &M,
    later: &M,
    least: Option<Path>,
    pair: (Path, Option<Value>),
) -> Option<Path>
    ensures { result ≡ spec.noted (spec.differs_at (M.rows made.now) (M.rows later.now)) least pair }
{
    let (path, _) = pair;
    if !differs_at(made, later, &path) {
        return least;
    }
    Some(lesser_of(least, path))
}

// The least of some paths at which two configurations differ.
fn least_other<M: RowMap>(made: &M, later: &M, paths: Vec<(Path, Option<Value>)>) -> Option<Path>
    ensures { result ≡ fold (spec.noted (spec.differs_at (M.rows made.now) (M.rows later.now))) None paths.items }
{
    let mut least = None;
    for pair in paths {
        least = noted(made, later, least, pair);
    }
    least
}

// The nodes, each once: where many rows come in a case of a choice, a node of another case is named for each of them.
fn distinct(nodes: Vec<Path>) -> Result<Vec<Path>, NoMemory>
    ensures { IfOk result (λ once. (path : List PathStep) → goes_under once.items path ≡ goes_under nodes.items path) }
{
    let mut once = nodes;
    once.sort()?;
    once.dedup();
    Ok(once)
}

// Puts the paths of rows behind the others.
fn put_paths(
    alloc: Global,
    rows: &[(Path, Option<Value>)],
    paths: &mut Vec<(Path, Option<Value>)>,
) -> Result<(), NoMemory>
    ensures { OnOk result (paths.new.items ≡ paths.old.items ++ each spec.path_alone rows.now) }
{
    for (path, _) in rows {
        paths.push((path.copy(alloc)?, None))?;
    }
    Ok(())
}

// Puts the path of a row behind the others, where it is that of a list entry or of a container with presence.
fn put_own(
    alloc: Global,
    schema: &Schema,
    row: &(Path, Value),
    paths: &mut Vec<(Path, Option<Value>)>,
) -> Result<(), NoMemory>
    ensures { OnOk result (paths.new.items ≡ paths.old.items ++ spec.own_alone schema.now row.now) }
{
    if !is_own(schema, &row.0) {
        return Ok(());
    }
    paths.push((row.0.copy(alloc)?, None))?;
    Ok(())
}

// Puts the paths of those rows behind the others that are those of list entries and containers with presence.
fn put_all_own(
    alloc: Global,
    schema: &Schema,
    rows: &[(Path, Value)],
    paths: &mut Vec<(Path, Option<Value>)>,
) -> Result<(), NoMemory>
    ensures { OnOk result (paths.new.items ≡ paths.old.items ++ flat_map (spec.own_alone schema.now) rows.now) }
{
    for row in rows {
        put_own(alloc, schema, row, paths)?;
    }
    Ok(())
}

// Puts the paths of the rows at or below some nodes behind the others.
fn put_below<M: RowMap>(
    alloc: Global,
    rows: &M,
    nodes: &[Path],
    paths: &mut Vec<(Path, Option<Value>)>,
) -> Result<(), NoMemory>
    ensures { OnOk result (paths.new.items ≡ paths.old.items ++ flat_map (gone_below (M.rows rows.now)) nodes.now) }
{
    for node in nodes {
        let mut below = gone_under(alloc, rows, node)?;
        paths.append(&mut below)?;
    }
    Ok(())
}

// What taking an edit back does.
fn moves_back<M: RowMap>(
    alloc: Global,
    schema: &Schema,
    inverse: &Inverse,
    made: &M,
) -> Result<Moves, NoMemory>
    ensures { IfOk result (λ moves. moves ≡ moves_by schema.now (M.rows made.now) (spec.acts_of inverse.now)) }
{
    let acts = acts_of(alloc, &inverse.edit, DefaultOperation::Merge)?;
    moves_of(alloc, schema, made, acts)
}

// Puts the paths of the rows that the edit changed behind the others.
fn put_changed(
    alloc: Global,
    inverse: &Inverse,
    paths: &mut Vec<(Path, Option<Value>)>,
) -> Result<(), NoMemory>
    ensures { OnOk result (paths.new.items ≡ paths.old.items ++ each spec.path_alone inverse.now.rows) }
{
    put_paths(alloc, &inverse.rows, paths)
}

// The paths of the rows that the edit changed, those of list entries and containers with presence among rows that come, and those of
// rows at or below nodes.
fn all_paths<M: RowMap>(
    alloc: Global,
    schema: &Schema,
    inverse: &Inverse,
    comes: &[(Path, Value)],
    made: &M,
    later: &M,
    nodes: &[Path],
) -> Result<Vec<(Path, Option<Value>)>, NoMemory>
    ensures { IfOk result (λ paths. paths.items ≡ spec.paths_by schema.now inverse.now.rows comes.now (M.rows made.now) (M.rows later.now) nodes.now) }
{
    let mut paths = Vec::new(alloc);
    put_changed(alloc, inverse, &mut paths)?;
    put_all_own(alloc, schema, comes, &mut paths)?;
    put_below(alloc, made, nodes, &mut paths)?;
    put_below(alloc, later, nodes, &mut paths)?;
    Ok(paths)
}

// The same for the nodes that go and the rows that come.
fn paths_by<M: RowMap>(
    alloc: Global,
    schema: &Schema,
    inverse: &Inverse,
    goes: Vec<Path>,
    comes: Vec<(Path, Value)>,
    made: &M,
    later: &M,
) -> Result<Vec<(Path, Option<Value>)>, NoMemory>
    ensures { IfOk result (λ paths. spec.HasPaths schema.now inverse.now.rows goes.items comes.items (M.rows made.now) (M.rows later.now) paths.items) }
{
    let nodes = distinct(goes)?;
    let paths = all_paths(alloc, schema, inverse, &comes, made, later, &nodes)?;
    Ok(paths)
}

// The paths that taking an edit back looks at and at which a row stood or stands.
fn paths_of<M: RowMap>(
    alloc: Global,
    schema: &Schema,
    inverse: &Inverse,
    made: &M,
    later: &M,
) -> Result<Vec<(Path, Option<Value>)>, NoMemory>
    ensures { IfOk result (λ paths. spec.ArePaths schema.now inverse.now (M.rows made.now) (M.rows later.now) paths.items) }
{
    let moves = moves_back(alloc, schema, inverse, made)?;
    let Moves {
        goes,
        held: _,
        comes,
    } = moves;
    let paths = paths_by(alloc, schema, inverse, goes, comes, made, later)?;
    Ok(paths)
}

/// The least path at which something was changed since an edit was done, of those that its inverse looks at, and None where
/// nothing was.
///
/// `made` is what stood there once the edit was done, `later` what stands there now. The inverse looks at the rows that the
/// edit changed, at the list entries and containers with presence that it merges, at all at or below the nodes that it removes,
/// and at all at or below nodes of another case of a choice in one of whose cases it merges a row (RFC 7950 section 7.9).
pub fn changed_since<M: RowMap>(
    alloc: Global,
    schema: &Schema,
    inverse: &Inverse,
    made: &M,
    later: &M,
) -> Result<Option<Path>, NoMemory>
    ensures { IfOk result (λ first. spec.IsFirstOf (spec.is_changed schema.now inverse.now (M.rows made.now) (M.rows later.now)) first) }
{
    let paths = paths_of(alloc, schema, inverse, made, later)?;
    Ok(least_other(made, later, paths))
}
