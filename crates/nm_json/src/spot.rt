//! Where a node is looked for.

ghost use Rattle.std.specs.Prelude.{◌≡◌, IfOk};
ghost use Rattle.nm_types.specs.Chosen.{choice_of};
ghost use Rattle.nm_json.specs.Findings as spec;

use nm_base::{Label, NoMemory};
use nm_schema_tree::Node;
use nm_types::{Chosen, Path, Step};
use std::alloc::Global;

/// A node with its number, and the path that it is looked for below.
#[derive(Drop)]
pub struct Spot<'a> {
    pub above: &'a Path,
    pub number: usize,
    pub node: &'a Node,
}

// The names of a node: its module's and its own.
fn names_of(node: &Node) -> Result<(Label, Label), NoMemory>
    ensures { IfOk result (λ names. (names.0 ≡ node.now.«module») × (names.1 ≡ node.now.name)) }
{
    Ok((node.module.copy()?, node.name.copy()?))
}

/// A path with one step more, which leads to a node.
pub fn step_below(
    alloc: Global,
    above: &Path,
    node: &Node,
    chosen: Chosen,
) -> Result<Path, NoMemory>
    ensures { IfOk result (λ path. path ≡ spec.step_below above.now node.now (choice_of chosen)) }
{
    match names_of(node) {
        Ok((module, name)) => above.with_step(
            alloc,
            Step {
                module,
                name,
                chosen,
            },
        ),
        Err(error) => {
            drop(chosen);
            Err(error)
        }
    }
}
