//! The rule of min-elements: a list or a leaf-list has as many entries as it has to, where they are wanted.

ghost use Rattle.std.specs.Prelude.{◌≡◌, ◌<◌, ◌∷◌, [], IfOk, filter, length};
ghost use Rattle.nm_path.specs.Sound.{IsSound};
ghost use Rattle.nm_validate_rules.specs.declared.rule.Rule.TheVariants as rule;
ghost use Rattle.nm_validate_rules.specs.Guards as guard;
ghost use Rattle.nm_validate_rules.specs.Places as place_spec;
ghost use Rattle.nm_validate_rules.specs.Violated.{violated};
ghost use Rattle.nm_validate_rules.specs.Violation.{least_at};
ghost use Rattle.nm_validate_places.specs.Groups as group;
ghost use Rattle.nm_validate_places.specs.Least.{least_with};
ghost use Rattle.nm_validate_places.specs.Members.{is_allowed_by};
ghost use Rattle.nm_validate_places.specs.Wanted.{has_at_least, is_short};

use crate::areas::{Grouped, places};
use crate::cases::{any_at, others_of};
use crate::counts::has_more;
use crate::least::with_path;
use nm_base::NoMemory;
use nm_config::RowMap;
use nm_schema_tree::Schema;
use nm_types::Path;
use std::alloc::Global;

/// Whether a list or a leaf-list has at least so many entries at its path.
pub fn has_at_least<M: RowMap>(config: &M, path: &Path, min: u64) -> bool
    ensures { result ≡ has_at_least (M.rows config.now) min path.now }
{
    if min == 0 {
        return true;
    }
    has_more(config, path, min - 1)
}

/// The path without its last step.
pub fn front(alloc: Global, path: &Path) -> Result<Path, NoMemory>
    ensures { IfOk result (λ above. above ≡ guard.front path.now) }
{
    let mut above = path.copy(alloc)?;
    above.steps.pop();
    Ok(above)
}

/// Whether one of some nodes exists at a place, or nothing is asked.
pub fn is_allowed_by<M: RowMap>(
    alloc: Global,
    schema: &Schema,
    config: &M,
    above: &Path,
    others: &Option<Vec<usize>>,
) -> Result<bool, NoMemory>
    ensures { IfOk result (λ allowed. allowed ≡ is_allowed_by schema.now (M.rows config.now) above.now others.now) }
{
    match others {
        None => Ok(true),
        Some(nodes) => any_at(alloc, schema, config, above, nodes),
    }
}

// The lesser of what was found so far and one path more, where that has fewer entries than these, and one of these nodes stands beside it.
fn with_too_few<M: RowMap>(
    alloc: Global,
    schema: &Schema,
    config: &M,
    path: Path,
    min: u64,
    others: &Option<Vec<usize>>,
    found: Option<Path>,
) -> Result<Option<Path>, NoMemory>
    ensures { IfOk result (λ least. least ≡ least_with found (filter (is_short schema.now (M.rows config.now) min others.now) (path ∷ []))) }
{
    if has_at_least(config, &path, min) {
        return Ok(found);
    }
    let above = front(alloc, &path)?;
    if !is_allowed_by(alloc, schema, config, &above, others)? {
        return Ok(found);
    }
    Ok(with_path(found, path))
}

// The least of what was found so far and of the paths that have fewer entries than these, and beside which one of these nodes stands.
fn least_below<M: RowMap>(
    alloc: Global,
    schema: &Schema,
    config: &M,
    paths: Vec<Path>,
    min: u64,
    others: &Option<Vec<usize>>,
    found: Option<Path>,
) -> Result<Option<Path>, NoMemory>
    ensures { IfOk result (λ least. least ≡ least_with found (filter (is_short schema.now (M.rows config.now) min others.now) paths.items)) }
{
    let mut least = found;
    for path in paths {
        least = with_too_few(alloc, schema, config, path, min, others, least)?;
    }
    Ok(least)
}

// The least of what was found so far and of the places at which a node has too few entries.
fn least_at_node<M: RowMap>(
    alloc: Global,
    schema: &Schema,
    config: &M,
    grouped: &Grouped<'_>,
    at: usize,
    found: Option<Path>,
) -> Result<Option<Path>, NoMemory>
    requires sound { IsSound schema.now.nodes }
    requires grouped { group.IsGrouped schema.now (M.rows config.now) grouped.now }
    requires within { at < length schema.now.nodes }
    ensures { IfOk result (λ least. least ≡ least_with found
        (filter (violated schema.now (M.rows config.now) rule.MinElements) (place_spec.places schema.now (M.rows config.now) at))) }
{
    let Some(min) = schema.elements(at).min else {
        return Ok(found);
    };
    let others = others_of(alloc, schema, &grouped.cases, at)?;
    let paths = places(alloc, schema, config, grouped, at)?;
    let least = least_below(alloc, schema, config, paths, min, &others, found)?;
    Ok(least)
}

/// The least path of a list or leaf-list that has too few entries, where its guard holds, and, in a case, where another node
/// of the case is there (RFC 7950 section 7.7.5).
pub fn least_too_few<M: RowMap>(
    alloc: Global,
    schema: &Schema,
    config: &M,
    grouped: &Grouped<'_>,
) -> Result<Option<Path>, NoMemory>
    requires sound { IsSound schema.now.nodes }
    requires grouped { group.IsGrouped schema.now (M.rows config.now) grouped.now }
    ensures { IfOk result (λ found. found ≡ least_at schema.now (M.rows config.now) rule.MinElements) }
{
    let mut least = None;
    for at in 0..schema.len() {
        least = least_at_node(alloc, schema, config, grouped, at, least)?;
    }
    Ok(least)
}
