//! Nodes above nodes, and what paths begin with.

ghost use Rattle.std.specs.Prelude.{◌≡◌, ◌∷◌, ◌++◌, [], IfOk, length, suc, take};
ghost use Rattle.nm_base.specs.Numbers.{is_among};
ghost use Rattle.nm_validate_rules.specs.Cases.{bare};
ghost use Rattle.nm_validate_rules.specs.Guards.{leads_to};
ghost use Rattle.nm_validate_rules.specs.Places as place;
ghost use Rattle.nm_validate_rules.specs.Candidates as spec;

use nm_base::NoMemory;
use nm_path::node_of;
use nm_schema_tree::Schema;
use nm_types::Path;
use nm_validate_places::cases::bare;
use std::alloc::Global;

/// The first steps of a path, so many or all that there are.
pub fn begin(alloc: Global, path: &Path, count: usize) -> Result<Path, NoMemory>
    ensures { IfOk result (λ first. first ≡ take count path.now) }
{
    let mut first = path.copy(alloc)?;
    first.steps.truncate(count);
    Ok(first)
}

/// How many paths a path begins with, from the top to the path itself.
pub fn front_count(path: &Path) -> usize
    ensures { result ≡ suc (length path.now) }
{
    path.steps.len() + 1
}

/// The path of a node directly below a place, by a step that chooses no entry.
pub fn path_of(alloc: Global, schema: &Schema, above: &Path, at: usize) -> Result<Path, NoMemory>
    ensures { IfOk result (λ path. path ≡ above.now ++ bare schema.now.nodes at ∷ []) }
{
    let step = bare(alloc, schema, at)?;
    above.with_step(alloc, step)
}

/// Whether a path leads to a node.
pub fn leads_to(schema: &Schema, at: usize, path: &Path) -> bool
    ensures { result ≡ leads_to schema.now at path.now }
{
    match node_of(schema, path) {
        None => false,
        Some(other) => other == at,
    }
}

/// Whether a node is another one or stands above it.
pub fn is_on_chain(schema: &Schema, at: Option<usize>, above: usize) -> bool
    ensures { result ≡ is_among above (place.chain schema.now.nodes at) }
{
    let Some(node) = at else {
        return false;
    };
    schema.laws();
    if node == above {
        return true;
    }
    is_on_chain(schema, schema.parent(node), above)
}

/// Whether a path is that of the top, or leads to a node or to one above it.
pub fn is_above(schema: &Schema, at: usize, path: &Path) -> bool
    ensures { result ≡ spec.is_above schema.now at path.now }
{
    if path.steps.is_empty() {
        return true;
    }
    match node_of(schema, path) {
        None => false,
        Some(above) => is_on_chain(schema, Some(at), above),
    }
}
