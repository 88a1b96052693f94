//! The rule of max-elements: a list or a leaf-list has no more entries than it may.

ghost use Rattle.std.specs.Prelude.{◌≡◌, ◌<◌, ◌∷◌, [], IfOk, filter, length, nat_lt};
ghost use Rattle.nm_path.specs.Sound.{IsSound};
ghost use Rattle.nm_validate_rules.specs.declared.rule.Rule.TheVariants as rule;
ghost use Rattle.nm_validate_rules.specs.Places as place_spec;
ghost use Rattle.nm_validate_rules.specs.Values.{count_at};
ghost use Rattle.nm_validate_rules.specs.Violated.{violated};
ghost use Rattle.nm_validate_rules.specs.Violation.{least_at};
ghost use Rattle.nm_validate_places.specs.Groups as group;
ghost use Rattle.nm_validate_places.specs.Least.{least_with};

use crate::areas::{Grouped, places};
use crate::counts::has_more;
use crate::least::with_path;
use nm_base::NoMemory;
use nm_config::RowMap;
use nm_schema_tree::Schema;
use nm_types::Path;
use std::alloc::Global;

// The lesser of what was found so far and one path more, where that has more entries than these.
fn with_too_many<M: RowMap>(config: &M, path: Path, max: u64, found: Option<Path>) -> Option<Path>
    ensures { result ≡ least_with found (filter (λ p. nat_lt max (count_at (M.rows config.now) p)) (path ∷ [])) }
{
    if !has_more(config, &path, max) {
        return found;
    }
    with_path(found, path)
}

// The least of what was found so far and of the paths that have more entries than these.
fn least_above<M: RowMap>(
    config: &M,
    paths: Vec<Path>,
    max: u64,
    found: Option<Path>,
) -> Option<Path>
    ensures { result ≡ least_with found (filter (λ p. nat_lt max (count_at (M.rows config.now) p)) paths.items) }
{
    let mut least = found;
    for path in paths {
        least = with_too_many(config, path, max, least);
    }
    least
}

// Whether a group has more paths than so many.
fn has_more_in(group: &[&Path], most: u64) -> bool
    ensures { result ≡ nat_lt most (length group.now) }
{
    most < group.len() as u64
}

// The least of what was found so far and of the places at which a node has too many entries. Where it has no more in all, there are none.
fn least_at_node<M: RowMap>(
    alloc: Global,
    schema: &Schema,
    config: &M,
    grouped: &Grouped<'_>,
    at: usize,
    found: Option<Path>,
) -> Result<Option<Path>, NoMemory>
    requires sound { IsSound schema.now.nodes }
    requires grouped { group.IsGrouped schema.now (M.rows config.now) grouped.now }
    requires within { at < length schema.now.nodes }
    ensures { IfOk result (λ least. least ≡ least_with found
        (filter (violated schema.now (M.rows config.now) rule.MaxElements) (place_spec.places schema.now (M.rows config.now) at))) }
{
    let Some(max) = schema.elements(at).max else {
        return Ok(found);
    };
    let Some(group) = grouped.groups.as_slice().get(at) else {
        return Ok(found);
    };
    if !has_more_in(group, max) {
        return Ok(found);
    }
    let paths = places(alloc, schema, config, grouped, at)?;
    let least = least_above(config, paths, max, found);
    Ok(least)
}

/// The least path of a list or leaf-list that has too many entries, where its guard holds (RFC 7950 section 7.7.6).
pub fn least_too_many<M: RowMap>(
    alloc: Global,
    schema: &Schema,
    config: &M,
    grouped: &Grouped<'_>,
) -> Result<Option<Path>, NoMemory>
    requires sound { IsSound schema.now.nodes }
    requires grouped { group.IsGrouped schema.now (M.rows config.now) grouped.now }
    ensures { IfOk result (λ found. found ≡ least_at schema.now (M.rows config.now) rule.MaxElements) }
{
    let mut least = None;
    for at in 0..schema.len() {
        least = least_at_node(alloc, schema, config, grouped, at, least)?;
    }
    Ok(least)
}
