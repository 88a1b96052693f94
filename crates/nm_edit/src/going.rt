//! The nodes that go of the rows that are there.

ghost use Rattle.std.specs.Prelude.{◌≡◌, List, IfOk};
ghost use Rattle.std.specs.FinMap.{empty};
ghost use Rattle.nm_types.specs.Path.{PathStep};
ghost use Rattle.nm_config.specs.Rows.{Rows};
ghost use Rattle.nm_edit.specs.Edited.{all_without, base_of};

use nm_base::NoMemory;
use nm_proto::DefaultOperation;
use nm_types::Path;
use std::alloc::Global;

// The nodes, each once: where many rows come in a case of a choice, a node of another case is named for each of them.
fn distinct(nodes: Vec<Path>) -> Result<Vec<Path>, NoMemory>
    ensures { IfOk result (λ once. (rows : Rows) → all_without rows once.items ≡ all_without rows nodes.items) }
{
    let mut once = nodes;
    once.sort()?;
    once.dedup();
    Ok(once)
}

// The top alone, below which everything is.
fn top(alloc: Global) -> Result<Vec<Path>, NoMemory>
    ensures { IfOk result (λ nodes. (rows : Rows) (others : List (List PathStep)) → all_without rows nodes.items ≡ all_without empty others) }
{
    let mut nodes = Vec::new(alloc);
    nodes.push(Path {
        steps: Vec::new(alloc),
    })?;
    Ok(nodes)
}

/// The nodes that go of the rows that are there: all where the default operation is replace.
pub fn going_of(
    alloc: Global,
    default_operation: DefaultOperation,
    nodes: Vec<Path>,
) -> Result<Vec<Path>, NoMemory>
    ensures { IfOk result (λ going. (rows : Rows) → all_without rows going.items ≡ all_without (base_of default_operation rows) nodes.items) }
{
    match default_operation {
        DefaultOperation::Merge => distinct(nodes),
        DefaultOperation::Replace => top(alloc),
        DefaultOperation::Nothing => distinct(nodes),
    }
}
