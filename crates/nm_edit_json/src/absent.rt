//! Annotations as members: of children without a member of their own, and where nothing carries one.

ghost use Rattle.std.specs.Prelude.{◌≡◌, OnOk, Some, None};
ghost use Rattle.nm_types.specs.Path.{whole};
ghost use Rattle.nm_json.specs.Findings.{step_below as path_below};
ghost use Rattle.nm_edit.specs.EditOf.{is_removal};
ghost use Rattle.nm_edit_json.specs.Noted.{gathered as all_noted};
ghost use Rattle.nm_edit_json.specs.Around.{around_of};
ghost use Rattle.nm_edit_json.specs.Findings as spec;

use crate::around::{Around, is_there, notes_of, said_of};
use crate::fault::FaultKind;
use crate::gathered::Gathered;
use crate::note::{note_at, note_below, note_misplaced, note_node_below, told};
use crate::value::read_noted;
use nm_base::NoMemory;
use nm_edit::Operation;
use nm_json::names::node_named;
use nm_json::spot::Spot;
use nm_schema_tree::{Node, NodeKind, Schema};
use nm_types::LeafType;
use std::alloc::Global;

// Whether an operation takes a node away.
fn is_removal(operation: Option<Operation>) -> bool
    ensures { result ≡ is_removal operation }
{
    match operation {
        None => false,
        Some(operation) => takes_away(operation),
    }
}

fn takes_away(operation: Operation) -> bool
    ensures { result ≡ is_removal (Some operation) }
{
    match operation {
        Operation::Delete | Operation::Remove => true,
        Operation::Merge | Operation::Replace | Operation::Create => false,
    }
}

// A leaf without a member, which may be taken away.
fn note_removed(
    alloc: Global,
    gathered: &mut Gathered,
    around: &Around,
    node: &Node,
) -> Result<(), NoMemory>
    ensures { OnOk result (gathered.new ≡ all_noted gathered.old
        (spec.removed_found (path_below around.now.above.now node.now whole) around.now.held (spec.said_of (around_of around.now) node.now))) }
{
    let said = said_of(alloc, around, node)?;
    if !is_removal(told(said)) {
        return note_misplaced(alloc, gathered, around.above, node, true);
    }
    note_node_below(alloc, gathered, around.above, node, around.held, said, None)
}

// A leaf-list without a member, which has no entries.
fn note_empty(
    alloc: Global,
    gathered: &mut Gathered,
    around: &Around,
    node: &Node,
    leaf_type: &LeafType,
) -> Result<(), NoMemory>
    ensures { OnOk result (gathered.new ≡ all_noted gathered.old (spec.empty_found (around_of around.now) node.now leaf_type.now)) }
{
    let notes = notes_of(alloc, &[], around, node)?;
    let spot = Spot {
        above: around.above,
        number: 0,
        node,
    };
    read_noted(alloc, gathered, &spot, leaf_type, around.held, notes, &[])
}

// The annotation of a child without a member, by what the child is.
fn note_absent(
    alloc: Global,
    gathered: &mut Gathered,
    around: &Around,
    node: &Node,
) -> Result<(), NoMemory>
    ensures { OnOk result (gathered.new ≡ all_noted gathered.old (spec.absent_found (around_of around.now) node.now node.now.kind)) }
{
    match &node.kind {
        NodeKind::Leaf { .. } => note_removed(alloc, gathered, around, node),
        NodeKind::LeafList { leaf_type, .. } => {
            note_empty(alloc, gathered, around, node, leaf_type.get())
        }
        _ => note_misplaced(alloc, gathered, around.above, node, true),
    }
}

// Whether a child of this kind is read with its annotation.
fn is_carrier(kind: &NodeKind) -> bool
    ensures { result ≡ spec.is_carrier kind.now }
{
    match kind {
        NodeKind::Leaf { .. } | NodeKind::LeafList { .. } => true,
        NodeKind::Container { .. } | NodeKind::List { .. } => false,
    }
}

// The annotation of a child that is no key.
#[tactic(auto, unfolding(crate::specs::Noted::gathered))]
fn note_carried(
    alloc: Global,
    gathered: &mut Gathered,
    around: &Around,
    node: &Node,
) -> Result<(), NoMemory>
    ensures { OnOk result (gathered.new ≡ all_noted gathered.old (spec.carried_found (around_of around.now) node.now)) }
{
    if !is_carrier(&node.kind) {
        return note_absent(alloc, gathered, around, node);
    }
    if is_there(alloc, around, node)? {
        return Ok(());
    }
    note_absent(alloc, gathered, around, node)
}

// The annotation of a child.
fn note_child_of(
    alloc: Global,
    gathered: &mut Gathered,
    around: &Around,
    key: bool,
    node: &Node,
) -> Result<(), NoMemory>
    ensures { OnOk result (gathered.new ≡ all_noted gathered.old (spec.child_found (around_of around.now) key (Some node.now))) }
{
    if key {
        return note_misplaced(alloc, gathered, around.above, node, true);
    }
    note_carried(alloc, gathered, around, node)
}

// The annotation of a name, which may lead nowhere.
#[tactic(auto, unfolding(crate::specs::Noted::gathered))]
fn note_named(
    alloc: Global,
    schema: &Schema,
    gathered: &mut Gathered,
    around: &Around,
    name: &str,
    at: Option<usize>,
) -> Result<(), NoMemory>
    ensures { OnOk result (gathered.new ≡ all_noted gathered.old (spec.name_noted schema.now (around_of around.now) name.now at)) }
{
    let Some(at) = at else {
        return note_below(alloc, gathered, around.above, name, FaultKind::Annotation);
    };
    match schema.node(at) {
        None => Ok(()),
        Some(node) => note_child_of(alloc, gathered, around, schema.is_key(at), node),
    }
}

// The annotation of the object itself, which there is none of at the top.
#[tactic(auto, unfolding(crate::specs::Noted::gathered))]
fn note_own(alloc: Global, gathered: &mut Gathered, around: &Around) -> Result<(), NoMemory>
    ensures { OnOk result (gathered.new ≡ all_noted gathered.old (spec.own_found (around_of around.now) around.now.within)) }
{
    if around.within.is_some() {
        return Ok(());
    }
    let path = around.above.copy(alloc)?;
    note_at(alloc, gathered, path, FaultKind::Annotation)
}

/// A member whose name begins with an at sign, by what follows.
pub fn note_annotation(
    alloc: Global,
    schema: &Schema,
    gathered: &mut Gathered,
    around: &Around,
    name: &str,
) -> Result<(), NoMemory>
    ensures { OnOk result (gathered.new ≡ all_noted gathered.old (spec.annotation_found schema.now (around_of around.now) name.now)) }
{
    if name.is_empty() {
        return note_own(alloc, gathered, around);
    }
    let at = node_named(schema, around.within, name);
    note_named(alloc, schema, gathered, around, name, at)
}
