//! The schema tree of the modules in a scenario, and what it wants at a path.

ghost use Rattle.std.specs.Prelude.{◌≡◌, ◌++◌, IfOk, OnOk};
ghost use Rattle.std.specs.Result.{result_ok};
ghost use Rattle.serde_json.specs.View.{view};
ghost use Rattle.nm_schema.specs.Built.{built_of};
ghost use Rattle.nm_scenario.specs.Head.{statements_of};
ghost use Rattle.nm_explain.specs.Tree as spec;

use crate::put_wanted;
use nm_base::NoMemory;
use nm_proto::Listed;
use nm_scenario::ReadError;
use nm_scenario::head::{Head, ModuleParts, ReadModule, parts_of, read_head};
use nm_schema::{SchemaFault, build};
use nm_schema_tree::Schema;
use serde_json::Value;
use std::alloc::Global;

// The tree that modules give, if they give one.
fn built(alloc: Global, modules: Listed<ReadModule>) -> Result<Option<Schema>, NoMemory>
    ensures { IfOk result (λ tree. tree ≡ result_ok (built_of (statements_of modules))) }
{
    let ModuleParts { statements, .. } = parts_of(alloc, modules)?;
    match build(alloc, statements.as_slice()) {
        Ok(schema) => Ok(Some(schema)),
        Err(SchemaFault::Flawed { .. }) => Ok(None),
        Err(SchemaFault::TooLarge { .. }) => Ok(None),
        Err(SchemaFault::NoMemory) => Err(NoMemory),
    }
}

fn tree_of(alloc: Global, head: Head) -> Result<Option<Schema>, NoMemory>
    ensures { IfOk result (λ tree. tree ≡ spec.tree_of head) }
{
    match head {
        Head::Flat => Ok(None),
        Head::Yang { modules } => built(alloc, modules),
    }
}

// The tree of the modules in a scenario.
fn tree_in(alloc: Global, whole: &Value) -> Result<Option<Schema>, NoMemory>
    ensures { IfOk result (λ tree. tree ≡ spec.tree_in (view whole.now)) }
{
    match read_head(alloc, whole) {
        Ok(head) => tree_of(alloc, head),
        Err(ReadError::Bad(_)) => Ok(None),
        Err(ReadError::NoMemory) => Err(NoMemory),
    }
}

/// Appends a line with what the modules of a scenario want at a path, where they give a tree and the path leads to a node of it.
pub(crate) fn put_wanted_in(
    alloc: Global,
    out: &mut Vec<u8>,
    with_form: bool,
    whole: &Value,
    path: &str,
) -> Result<(), NoMemory>
    ensures { OnOk result (out.new.items ≡ out.old.items ++ spec.wanted_by with_form path.now (spec.tree_in (view whole.now))) }
{
    match tree_in(alloc, whole)? {
        Some(schema) => put_wanted(alloc, out, with_form, &schema, path),
        None => Ok(()),
    }
}
