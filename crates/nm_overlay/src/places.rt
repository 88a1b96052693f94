//! Places in a list of pairs that ascends by path.

ghost use Rattle.std.specs.Prelude.{◌≡◌, ◌≤◌, ◌++◌, ◌∷◌, [], IfOk, OnOk, OnErr, Some, not, filter, option_copied, slice_get};
ghost use Rattle.std.specs.Ordering.{eq_by_cmp};
ghost use Rattle.std.specs.List as list;
ghost use Rattle.std.specs.FinMap as map;
ghost use Rattle.std.specs.FinMap.Entries.{where_key};
ghost use Rattle.nm_types.specs.Path.{path_cmp};
ghost use Rattle.nm_overlay.specs.Places.{Ascends, front, is_before, is_before_or_under, is_after, is_up_to, is_pair_of, said_of, with_under};

use nm_base::NoMemory;
use nm_config::is_under;
use nm_types::{Path, Value};
use std::alloc::Global;

/// How many pairs stand before a path: a search by halves.
pub fn place_of(pairs: &[(Path, Option<Value>)], path: &Path) -> usize
    requires { Ascends pairs.now }
    ensures { result ≡ front (is_before path.now) pairs.now }
{
    pairs.partition_point(|pair| pair.0 < *path)
}

/// How many pairs stand before a node or at or below it: a search by halves.
pub fn place_past(pairs: &[(Path, Option<Value>)], node: &Path) -> usize
    requires { Ascends pairs.now }
    ensures { result ≡ front (is_before_or_under node.now) pairs.now }
{
    pairs.partition_point(|pair| pair.0 < *node || is_under(node, &pair.0))
}

/// Whether the pair at a place is that of a path. Past the last pair there is none.
pub fn stands_at(pairs: &[(Path, Option<Value>)], place: usize, path: &Path) -> bool
    ensures { result ≡ is_pair_of path.now (slice_get pairs.now place) }
{
    match pairs.get(place) {
        Some((other, _)) => path == other,
        None => false,
    }
}

/// Puts others in the place of the pairs from a place on and before another.
pub fn splice(
    pairs: &mut Vec<(Path, Option<Value>)>,
    from: usize,
    to: usize,
    others: Vec<(Path, Option<Value>)>,
) -> Result<(), NoMemory>
    requires order { from ≤ to }
    requires within { to ≤ pairs.old.len }
    ensures ok { OnOk result (pairs.new.items ≡ list.splice pairs.old.items from to others.items) }
    ensures err { OnErr result (pairs.new.items ≡ pairs.old.items) }
{
    let _ = pairs.splice(from..to, others)?;
    Ok(())
}

/// What stands at a path, where there is a pair for it: a search by halves.
pub fn found<'a>(pairs: &'a [(Path, Option<Value>)], path: &Path) -> Option<&'a Option<Value>>
    requires { Ascends pairs.now }
    ensures { option_copied result ≡ map.find path_cmp path.now pairs.now }
{
    let place = place_of(pairs, path);
    said_at(pairs, place, path)
}

fn said_at<'a>(
    pairs: &'a [(Path, Option<Value>)],
    place: usize,
    path: &Path,
) -> Option<&'a Option<Value>>
    ensures { option_copied result ≡ said_of path.now (slice_get pairs.now place) }
{
    match pairs.get(place) {
        Some((other, change)) => {
            if path == other {
                return Some(change);
            }
            None
        }
        None => None,
    }
}

/// Says what is to stand at a path, whatever was said of it before.
pub fn put(
    pairs: &mut Vec<(Path, Option<Value>)>,
    path: Path,
    change: Option<Value>,
) -> Result<(), NoMemory>
    requires { Ascends pairs.old.items }
    ensures ok { OnOk result (pairs.new.items ≡ map.put path_cmp path change pairs.old.items) }
    ensures err { OnErr result (pairs.new.items ≡ pairs.old.items) }
{
    let place = place_of(pairs, &path);
    if stands_at(pairs, place, &path) {
        pairs[place] = (path, change);
        return Ok(());
    }
    insert_at(pairs, place, (path, change))
}

// Puts a pair at a place, before those that stand there and behind it.
fn insert_at(
    pairs: &mut Vec<(Path, Option<Value>)>,
    place: usize,
    pair: (Path, Option<Value>),
) -> Result<(), NoMemory>
    requires { place ≤ pairs.old.len }
    ensures ok { OnOk result (pairs.new.items ≡ list.insert pairs.old.items place pair) }
    ensures err { OnErr result (pairs.new.items ≡ pairs.old.items) }
{
    pairs.insert(place, pair)?;
    Ok(())
}

/// Takes away what is said of a path, if anything is. It takes no memory.
pub fn remove(pairs: &mut Vec<(Path, Option<Value>)>, path: &Path)
    requires { Ascends pairs.old.items }
    ensures { pairs.new.items ≡ where_key path_cmp (λ other. not (eq_by_cmp path_cmp path.now other)) pairs.old.items }
{
    let place = place_of(pairs, path);
    if stands_at(pairs, place, path) {
        let _ = pairs.remove(place);
    }
}

/// Puts others in the place of the pairs at or below a node, which stand beside each other.
pub fn replace_under(
    pairs: &mut Vec<(Path, Option<Value>)>,
    node: &Path,
    others: Vec<(Path, Option<Value>)>,
) -> Result<(), NoMemory>
    requires { Ascends pairs.old.items }
    ensures ok { OnOk result (pairs.new.items ≡ with_under node.now pairs.old.items others.items) }
    ensures err { OnErr result (pairs.new.items ≡ pairs.old.items) }
{
    let from = place_of(pairs, node);
    let to = place_past(pairs, node);
    splice(pairs, from, to, others)
}

/// The pairs after a path, and all where there is none to stand after.
pub fn after<'a>(
    pairs: &'a [(Path, Option<Value>)],
    path: Option<&Path>,
) -> &'a [(Path, Option<Value>)]
    requires { Ascends pairs.now }
    ensures { result.now ≡ filter (λ pair. is_after (option_copied path.entry) pair.0) pairs.now }
{
    match path {
        Some(path) => after_path(pairs, path),
        None => pairs,
    }
}

fn after_path<'a>(pairs: &'a [(Path, Option<Value>)], path: &Path) -> &'a [(Path, Option<Value>)]
    requires { Ascends pairs.now }
    ensures { result.now ≡ filter (λ pair. is_after (Some path.now) pair.0) pairs.now }
{
    let place = place_past_path(pairs, path);
    pairs.split_at(place).1
}

/// Copies of pairs. It copies no bytes of names and texts.
pub fn copy_pairs(
    alloc: Global,
    pairs: &[(Path, Option<Value>)],
) -> Result<Vec<(Path, Option<Value>)>, NoMemory>
    ensures { IfOk result (λ copies. copies.items ≡ pairs.now) }
{
    let mut copies = Vec::with_capacity(alloc, pairs.len())?;
    for pair in pairs {
        put_copy(alloc, pair, &mut copies)?;
    }
    Ok(copies)
}

// Puts a copy of a pair behind the others.
fn put_copy(
    alloc: Global,
    pair: &(Path, Option<Value>),
    copies: &mut Vec<(Path, Option<Value>)>,
) -> Result<(), NoMemory>
    ensures { OnOk result (copies.new.items ≡ copies.old.items ++ pair.now ∷ []) }
{
    copies.push(copy_pair(alloc, pair)?)?;
    Ok(())
}

fn copy_pair(alloc: Global, pair: &(Path, Option<Value>)) -> Result<(Path, Option<Value>), NoMemory>
    ensures { IfOk result (λ copied. copied ≡ pair.now) }
{
    let path = pair.0.copy(alloc)?;
    Ok((path, copy_change(&pair.1)?))
}

fn place_past_path(pairs: &[(Path, Option<Value>)], path: &Path) -> usize
    requires { Ascends pairs.now }
    ensures { result ≡ front (is_up_to (Some path.now)) pairs.now }
{
    pairs.partition_point(|pair| pair.0 <= *path)
}

fn copy_change(change: &Option<Value>) -> Result<Option<Value>, NoMemory>
    ensures { IfOk result (λ copied. copied ≡ change.now) }
{
    match change {
        Some(value) => Ok(Some(value.copy()?)),
        None => Ok(None),
    }
}
