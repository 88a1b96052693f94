//! The nodes of the given modules.

ghost use Rattle.std.specs.Prelude.{◌≡◌, IfOk, [], None, get_or, slice_get, slice_index_or, map};
ghost use Rattle.nm_schema_uses.specs.Arguments.{argument_at};
ghost use Rattle.nm_schema.specs.Kind as kinds;
ghost use Rattle.nm_schema.specs.Choices as choices;
ghost use Rattle.nm_schema.specs.Node as spec;

use crate::kind::{container_of, leaf_list_of, leaf_of};
use crate::list::list_of;
use nm_base::{Label, NoMemory};
use nm_schema_faults::Grounds;
use nm_schema_nodes::Instance;
use nm_schema_statements::{Rows, Word};
use nm_schema_tree::{Node, NodeKind};
use std::alloc::Global;

/// The argument of a row, and an empty text without one.
#[tactic(auto, unfolding(nm_schema_uses::specs::Arguments::argument_at))]
pub(crate) fn argument_at(alloc: Global, rows: &Rows, at: usize) -> Result<Label, NoMemory>
    ensures { IfOk result (λ text. text ≡ argument_at rows.now at) }
{
    let Some(row) = rows.row(at) else {
        return Label::new(alloc, "");
    };
    match &row.argument {
        None => Label::new(alloc, ""),
        Some(text) => text.copy(),
    }
}

/// The names of the modules.
#[tactic(auto, unfolding(crate::specs::Choices::module_names))]
pub(crate) fn module_names(alloc: Global, rows: &Rows) -> Result<Vec<Label>, NoMemory>
    ensures { IfOk result (λ names. names.items ≡ choices.module_names rows.now) }
{
    let mut names = Vec::with_capacity(alloc, rows.roots().len())?;
    for root in rows.roots() {
        names.push(argument_at(alloc, rows, *root)?)?;
    }
    Ok(names)
}

pub(crate) fn name_of(alloc: Global, names: &[Label], owner: usize) -> Result<Label, NoMemory>
    ensures { IfOk result (λ name. name ≡ get_or names.now owner []) }
{
    match names.get(owner) {
        None => Label::new(alloc, ""),
        Some(name) => name.copy(),
    }
}

fn case_at(cases: &[Option<usize>], number: usize) -> Option<usize>
    ensures { result ≡ slice_index_or cases.now number None }
{
    match cases.get(number) {
        None => None,
        Some(case) => *case,
    }
}

// What a node is, by the word of its row. None where something that it rests on isn't known.
fn kind_of(
    alloc: Global,
    grounds: &Grounds<'_, '_>,
    number: usize,
    node: Instance,
    word: Word,
) -> Result<Option<NodeKind>, NoMemory>
    ensures { IfOk result (λ kind. kind ≡ kinds.kind_of grounds.now.rows grounds.now.facts number node word) }
{
    match word {
        Word::Container => container_of(alloc, grounds, node.row),
        Word::Leaf => leaf_of(alloc, grounds, number, node),
        Word::LeafList => leaf_list_of(grounds, number, node),
        Word::List => list_of(alloc, grounds, number, node),
        _ => Ok(None),
    }
}

/// The node of a number. None where something that it rests on isn't known.
#[tactic(auto, unfolding(crate::specs::Node::node_of))]
pub(crate) fn node_of(
    alloc: Global,
    grounds: &Grounds<'_, '_>,
    names: &[Label],
    cases: &[Option<usize>],
    number: usize,
) -> Result<Option<Node>, NoMemory>
    requires names { names.now ≡ choices.module_names grounds.now.rows }
    requires cases { choices.AreCases grounds.now.rows grounds.now.facts cases.now }
    ensures { IfOk result (λ node. node ≡ spec.node_of grounds.now.rows grounds.now.facts number) }
{
    let Some(node) = grounds.expansion().nodes().get(number) else {
        return Ok(None);
    };
    let Some(row) = grounds.rows().row(node.row) else {
        return Ok(None);
    };
    match kind_of(alloc, grounds, number, *node, row.word)? {
        None => Ok(None),
        Some(kind) => Ok(Some(Node {
            parent: node.parent,
            case_in: case_at(cases, number),
            module: name_of(alloc, names, node.owner)?,
            name: argument_at(alloc, grounds.rows(), node.row)?,
            kind,
        })),
    }
}
