//! The rule of mandatory leafs: they are there, where their guards hold.

ghost use Rattle.std.specs.Prelude.{◌≡◌, ◌<◌, ◌∷◌, [], IfOk, filter, length, not};
ghost use Rattle.std.specs.FinMap.{contains_key};
ghost use Rattle.nm_path.specs.Sound.{IsSound};
ghost use Rattle.nm_validate_rules.specs.declared.rule.Rule.TheVariants as rule;
ghost use Rattle.nm_validate_rules.specs.Places as place_spec;
ghost use Rattle.nm_validate_rules.specs.Violated.{violated};
ghost use Rattle.nm_validate_rules.specs.Violation.{least_at};
ghost use Rattle.nm_validate_places.specs.Groups as group;
ghost use Rattle.nm_validate_places.specs.Least.{least_with};

use crate::areas::{Grouped, places};
use crate::least::with_path;
use nm_base::NoMemory;
use nm_config::RowMap;
use nm_schema_tree::Schema;
use nm_types::Path;
use std::alloc::Global;

// The lesser of what was found so far and one path more, where no row is at that.
fn with_missing<M: RowMap>(config: &M, path: Path, found: Option<Path>) -> Option<Path>
    ensures { result ≡ least_with found (filter (λ p. not (contains_key (M.rows config.now) p)) (path ∷ [])) }
{
    if config.value(&path).is_some() {
        return found;
    }
    with_path(found, path)
}

// The least of what was found so far and of the paths at which no row is.
fn least_missing<M: RowMap>(config: &M, paths: Vec<Path>, found: Option<Path>) -> Option<Path>
    ensures { result ≡ least_with found (filter (λ p. not (contains_key (M.rows config.now) p)) paths.items) }
{
    let mut least = found;
    for path in paths {
        least = with_missing(config, path, least);
    }
    least
}

// The least of what was found so far and of the places at which a node that has to be there isn't.
fn least_at_node<M: RowMap>(
    alloc: Global,
    schema: &Schema,
    config: &M,
    grouped: &Grouped<'_>,
    at: usize,
    found: Option<Path>,
) -> Result<Option<Path>, NoMemory>
    requires sound { IsSound schema.now.nodes }
    requires grouped { group.IsGrouped schema.now (M.rows config.now) grouped.now }
    requires within { at < length schema.now.nodes }
    ensures { IfOk result (λ least. least
        ≡ least_with found (filter (violated schema.now (M.rows config.now) rule.Mandatory) (place_spec.places schema.now (M.rows config.now) at))) }
{
    if !schema.is_mandatory(at) {
        return Ok(found);
    }
    let paths = places(alloc, schema, config, grouped, at)?;
    let least = least_missing(config, paths, found);
    Ok(least)
}

/// The least path of a mandatory leaf that isn't there, where its guard holds (RFC 7950 section 7.6.5).
pub fn least_missing_leaf<M: RowMap>(
    alloc: Global,
    schema: &Schema,
    config: &M,
    grouped: &Grouped<'_>,
) -> Result<Option<Path>, NoMemory>
    requires sound { IsSound schema.now.nodes }
    requires grouped { group.IsGrouped schema.now (M.rows config.now) grouped.now }
    ensures { IfOk result (λ found. found ≡ least_at schema.now (M.rows config.now) rule.Mandatory) }
{
    let mut least = None;
    for at in 0..schema.len() {
        least = least_at_node(alloc, schema, config, grouped, at, least)?;
    }
    Ok(least)
}
