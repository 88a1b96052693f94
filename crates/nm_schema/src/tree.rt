//! The tree of modules in which no fault is found.

ghost use Rattle.std.specs.Prelude.{◌≡◌, ◌+◌, [], ◌≤◌, IfOk, OnOk, true, is_some, length};
ghost use Rattle.nm_schema_statements.specs.Rows.{FromModules};
ghost use Rattle.nm_schema_nodes.specs.Expansion.{IsExpansion};
ghost use Rattle.nm_schema_faults.specs.Facts.{definitions};
ghost use Rattle.nm_schema.specs.Choices as choices;
ghost use Rattle.nm_schema.specs.Node as nodes;
ghost use Rattle.nm_schema.specs.Built as spec;

use crate::choice::put_choices;
use crate::fault::SchemaFault;
use crate::marker::put_marker;
use crate::node::{module_names, node_of};
use nm_base::{Label, NoMemory};
use nm_schema_faults::{Fault, Grounds};
use nm_schema_tree::Schema;
use std::alloc::Global;

// That modules give no tree, for a fault.
fn failed(fault: Fault) -> SchemaFault
    ensures { result ≡ spec.failed fault }
{
    match fault {
        Fault::Flawed {
            flaw,
            module,
            place,
        } => SchemaFault::Flawed {
            flaw,
            module,
            place,
        },
        Fault::TooLarge { module, place } => SchemaFault::TooLarge { module, place },
    }
}

// Puts the node of a number at the end of a schema that has those before it.
fn put_node(
    alloc: Global,
    grounds: &Grounds<'_, '_>,
    names: &[Label],
    cases: &[Option<usize>],
    schema: &mut Schema,
    number: usize,
) -> Result<(), NoMemory>
    requires names { names.now ≡ choices.module_names grounds.now.rows }
    requires cases { choices.AreCases grounds.now.rows grounds.now.facts cases.now }
    requires expansion { IsExpansion grounds.now.rows (definitions grounds.now.rows) grounds.now.facts.nodes }
    requires known { is_some (nodes.node_of grounds.now.rows grounds.now.facts number) ≡ true }
    requires before { nodes.AreNodes grounds.now.rows grounds.now.facts number schema.old.nodes }
    ensures put { OnOk result (nodes.AreNodes grounds.now.rows grounds.now.facts (number + 1) schema.new.nodes) }
    ensures few { length schema.new.nodes ≤ length schema.old.nodes + 1 }
    ensures modules { schema.new.modules ≡ schema.old.modules }
    ensures choices { schema.new.choices ≡ schema.old.choices }
    ensures cases { schema.new.cases ≡ schema.old.cases }
{
    let node = node_of(alloc, grounds, names, cases, number)?.unwrap();
    schema.push(node)?;
    Ok(())
}

// Puts the nodes of the given modules into a schema that has none.
fn put_nodes(
    alloc: Global,
    grounds: &Grounds<'_, '_>,
    cases: &[Option<usize>],
    schema: &mut Schema,
) -> Result<(), NoMemory>
    requires none { schema.old.nodes ≡ [] }
    requires cases { choices.AreCases grounds.now.rows grounds.now.facts cases.now }
    requires known { nodes.AreKnown grounds.now.rows grounds.now.facts }
    ensures nodes { OnOk result (schema.new.nodes ≡ nodes.known_nodes grounds.now.rows grounds.now.facts) }
    ensures few { length schema.new.nodes ≤ 20001 }
    ensures modules { schema.new.modules ≡ schema.old.modules }
    ensures choices { schema.new.choices ≡ schema.old.choices }
    ensures cases { schema.new.cases ≡ schema.old.cases }
{
    let expansion = grounds.expansion();
    expansion.laws();
    let names = module_names(alloc, grounds.rows())?;
    let count = expansion.nodes().len();
    for number in 0..count {
        match put_node(alloc, grounds, &names, cases, schema, number) {
            Ok(()) => {}
            Err(error) => return Err(error),
        }
    }
    Ok(())
}

// The tree of modules in which no row has a fault: each node is known then.
fn tree_of(alloc: Global, grounds: &Grounds<'_, '_>) -> Result<Schema, NoMemory>
    requires { nodes.AreKnown grounds.now.rows grounds.now.facts }
    ensures { IfOk result (λ schema. schema ≡ spec.tree_of grounds.now.rows grounds.now.facts) }
{
    let names = module_names(alloc, grounds.rows())?;
    let mut schema = Schema::new(alloc, module_names(alloc, grounds.rows())?);
    let cases = put_choices(alloc, grounds, &names, &mut schema)?;
    put_nodes(alloc, grounds, &cases, &mut schema)?;
    put_marker(alloc, &mut schema)?;
    Ok(schema)
}

/// The schema tree of modules, or their first fault.
#[tactic(auto, using(crate::proofs::Known::none_known), unfolding(crate::specs::Built::built))]
pub(crate) fn schema_of(alloc: Global, grounds: &Grounds<'_, '_>) -> Result<Schema, SchemaFault>
    requires from { FromModules grounds.now.rows }
    ensures { spec.Gives result (spec.built grounds.now.rows grounds.now.facts) }
{
    grounds.laws();
    match grounds.first_fault(alloc)? {
        None => Ok(tree_of(alloc, grounds)?),
        Some(fault) => Err(failed(fault)),
    }
}
