//! The ways down to the leafs of a unique statement: they are the same for all entries of its list.

ghost use Rattle.std.specs.Prelude.{◌≡◌, IfOk, map as each};
ghost use Rattle.nm_validate_unique.specs.Ways as spec;

use nm_base::NoMemory;
use nm_schema_tree::Schema;
use nm_validate_places::values::chain;
use std::alloc::Global;

/// A leaf, and the nodes from the top down to it.
#[derive(Drop)]
pub struct Way {
    pub leaf: usize,
    pub nodes: Vec<usize>,
}

/// The ways down to some leafs.
pub fn ways_to(alloc: Global, schema: &Schema, leafs: &[usize]) -> Result<Vec<Way>, NoMemory>
    ensures leafs { IfOk result (λ ways. each (λ way. way.leaf) ways.items ≡ leafs.now) }
    ensures down { IfOk result (λ ways. spec.AreWays schema.now ways.items) }
{
    let mut ways = Vec::with_capacity(alloc, leafs.len())?;
    for leaf in leafs {
        let nodes = chain(alloc, schema, Some(*leaf))?;
        ways.push(Way { leaf: *leaf, nodes })?;
    }
    Ok(ways)
}
