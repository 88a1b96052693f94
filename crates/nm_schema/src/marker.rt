//! The nodes of the module that is added to those that are given.

ghost use Rattle.std.specs.Prelude.{◌≡◌, ◌++◌, ◌∷◌, [], ◌<◌, ◌^◌, length, IfOk, OnOk};
ghost use Rattle.nm_base.specs.Words as words;
ghost use Rattle.nm_schema.specs.Marker as spec;

use nm_base::{Groups, Label, MARKER, NoMemory, Numbers};
use nm_schema_tree::{Elements, Node, NodeKind, Schema, SharedType};
use nm_types::{LeafType, TypeKind};
use std::alloc::Global;

/// The name of the module.
#[tactic(auto, unfolding(nm_base::specs::Words::marker_name))]
pub(crate) fn marker_name(alloc: Global) -> Result<Label, NoMemory>
    ensures { IfOk result (λ name. name ≡ words.marker_name) }
{
    Label::new(alloc, MARKER)
}

// Container `changes`.
#[tactic(auto, unfolding(crate::specs::Marker::changes_node))]
fn changes_node(alloc: Global) -> Result<Node, NoMemory>
    ensures { IfOk result (λ node. node ≡ spec.changes_node) }
{
    Ok(Node {
        parent: None,
        case_in: None,
        module: marker_name(alloc)?,
        name: Label::new(alloc, "changes")?,
        kind: NodeKind::Container { presence: false },
    })
}

fn only(alloc: Global, number: usize) -> Result<Numbers, NoMemory>
    ensures { IfOk result (λ numbers. numbers ≡ number ∷ []) }
{
    let mut numbers = Numbers::new(alloc);
    numbers.push(number)?;
    Ok(numbers)
}

// List `applied`, in the container of a number.
#[tactic(auto, unfolding(crate::specs::Marker::applied_node))]
fn applied_node(alloc: Global, changes: usize) -> Result<Node, NoMemory>
    requires { changes < 2 ^ 63 }
    ensures { IfOk result (λ node. node ≡ spec.applied_node changes) }
{
    let keys = only(alloc, changes + 2)?;
    Ok(Node {
        parent: Some(changes),
        case_in: None,
        module: marker_name(alloc)?,
        name: Label::new(alloc, "applied")?,
        kind: NodeKind::List {
            keys,
            uniques: Groups::new(alloc),
            elements: Elements {
                min: None,
                max: None,
            },
        },
    })
}

// The type of the numbers of changes: `uint32`.
fn change_type(alloc: Global) -> Result<SharedType, NoMemory>
    ensures { IfOk result (λ found. found ≡ spec.change_type) }
{
    SharedType::new(
        alloc,
        LeafType {
            kind: TypeKind::Integer {
                low: 0,
                high: 4_294_967_295,
            },
            limits: None,
        },
    )
}

// Leaf `change`, in the list after the container of a number.
#[tactic(auto, unfolding(crate::specs::Marker::change_node))]
fn change_node(alloc: Global, changes: usize) -> Result<Node, NoMemory>
    requires { changes < 2 ^ 63 }
    ensures { IfOk result (λ node. node ≡ spec.change_node changes) }
{
    Ok(Node {
        parent: Some(changes + 1),
        case_in: None,
        module: marker_name(alloc)?,
        name: Label::new(alloc, "change")?,
        kind: NodeKind::Leaf {
            leaf_type: change_type(alloc)?,
            default: None,
            mandatory: false,
            reference: None,
        },
    })
}

/// Puts the nodes of the module at the end of a schema.
pub(crate) fn put_marker(alloc: Global, schema: &mut Schema) -> Result<(), NoMemory>
    requires { length schema.old.nodes < 2 ^ 63 }
    ensures nodes { OnOk result (schema.new.nodes ≡ schema.old.nodes ++ spec.marker_nodes (length schema.old.nodes)) }
    ensures modules { OnOk result (schema.new.modules ≡ schema.old.modules) }
    ensures choices { OnOk result (schema.new.choices ≡ schema.old.choices) }
    ensures cases { OnOk result (schema.new.cases ≡ schema.old.cases) }
{
    let changes = schema.push(changes_node(alloc)?)?;
    schema.push(applied_node(alloc, changes)?)?;
    schema.push(change_node(alloc, changes)?)?;
    Ok(())
}
