//! How large the tree of modules may be.

ghost use Rattle.std.specs.Prelude.{◌≡◌, ◌+◌, ◌<◌, IfSome, length, min};
ghost use Rattle.nm_schema_nodes.specs.Expansion as spec;

use nm_schema_uses::Shape;

/// The most nodes that the tree of all modules may have: enough for large real models, and small enough that a tree is made
/// within a moment.
pub(crate) const MOST_NODES: usize = 20_000;

/// The most nodes that may stand one in another: one that stands at the top and 64 below it.
pub(crate) const MOST_DEEP: usize = 65;

// The nodes of configuration at and below a row, up to one more than there may be.
#[tactic(auto, unfolding(crate::specs::Expansion::count_at))]
fn count_at(shape: &Shape<'_>, at: usize) -> usize
    requires { at < length shape.now.rows }
    ensures { result ≡ min 20001 (spec.count_at shape.now.rows shape.now.groupings at) }
{
    match shape.count(at) {
        None => 0,
        Some(count) => count,
    }
}

// The most of them that stand one in another, up to one more than there may be.
#[tactic(auto, unfolding(crate::specs::Expansion::height_at))]
fn height_at(shape: &Shape<'_>, at: usize) -> usize
    requires { at < length shape.now.rows }
    ensures { result ≡ min 66 (spec.height_at shape.now.rows shape.now.groupings at) }
{
    match shape.height(at) {
        None => 0,
        Some(height) => height,
    }
}

/// The first module, by its number from 0, with which there are more than 20,000 nodes, or in which a node stands that has more
/// than 64 above it (this project's own).
pub fn first_large(shape: &Shape<'_>) -> Option<usize>
    ensures { result ≡ spec.first_large shape.now.rows shape.now.groupings }
{
    let rows = shape.rows();
    rows.laws();
    let roots = rows.roots();
    let mut total = 0;
    for owner in 0..roots.len() {
        let root = roots[owner];
        total += count_at(shape, root);
        if total > MOST_NODES {
            return Some(owner);
        }
        if height_at(shape, root) > MOST_DEEP {
            return Some(owner);
        }
    }
    None
}

fn comes_before(owner: usize, large: Option<usize>) -> bool
    ensures { result ≡ spec.comes_before owner large }
{
    match large {
        None => true,
        Some(large) => owner < large,
    }
}

/// The row of the module of a number from 0.
#[tactic(auto, unfolding(crate::specs::Expansion::module_row))]
pub(crate) fn module_row(shape: &Shape<'_>, owner: usize) -> Option<usize>
    ensures row { result ≡ spec.module_row shape.now.rows owner }
    ensures within { IfSome result (λ row. row < length shape.now.rows) }
{
    let rows = shape.rows();
    rows.laws();
    rows.roots().get(owner).copied()
}

fn has_count(shape: &Shape<'_>, root: Option<usize>) -> bool
    requires { IfSome root (λ row. row < length shape.now.rows) }
    ensures { result ≡ spec.has_count shape.now.rows shape.now.groupings root }
{
    match root {
        None => false,
        Some(root) => shape.count(root).is_some(),
    }
}

/// Whether a module is expanded, given the first that is too large.
#[tactic(auto, unfolding(crate::specs::Expansion::is_grown))]
pub(crate) fn is_grown(shape: &Shape<'_>, large: Option<usize>, owner: usize) -> bool
    requires { large ≡ spec.first_large shape.now.rows shape.now.groupings }
    ensures { result ≡ spec.is_grown shape.now.rows shape.now.groupings owner }
{
    comes_before(owner, large) && has_count(shape, module_row(shape, owner))
}
