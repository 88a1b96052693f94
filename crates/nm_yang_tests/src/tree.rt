//! A schema tree with nodes that no module can give it.

use nm_base::{Groups, Label, Numbers};
use nm_schema_tree::{Elements, Node, NodeKind, Schema, SharedType};
use nm_types::{LeafType, TypeKind};
use std::alloc::Global;
use std::process::Abort;

// What a node is; a list has the numbers of its keys.
enum Kind {
    Container,
    Leaf,
    List(&'static [usize]),
}

// The node that a node stands in, the names of its module and its own, and what it is.
type Row = (Option<usize>, &'static str, &'static str, Kind);

// Interfaces by a name and routes by two keys, doubles of two nodes, and a node of another module and one in no node, which
// aren't taken.
static NODES: [Row; 10] = [
    (None, "ex", "sys", Kind::Container),
    (Some(0), "ex", "iface", Kind::List(&[2])),
    (Some(1), "ex", "name", Kind::Leaf),
    (Some(0), "ex", "route", Kind::List(&[4, 5])),
    (Some(3), "ex", "dest", Kind::Leaf),
    (Some(3), "ex", "id", Kind::Leaf),
    (Some(0), "ex", "iface", Kind::Container),
    (None, "ex", "sys", Kind::Container),
    (Some(0), "m", "other", Kind::Container),
    (Some(9), "ex", "other", Kind::Container),
];

/// Ends the test where something isn't so.
pub fn holds(rt: &impl Abort, it: bool, what: &str) {
    assert!(rt; it, "{what}");
}

/// The label of a text.
pub fn label(rt: &impl Abort, alloc: Global, text: &str) -> Label {
    Label::new(alloc, text).expect(rt, "memory")
}

fn numbers(rt: &impl Abort, alloc: Global, some: &[usize]) -> Numbers {
    let mut all = Numbers::new(alloc);
    for number in some {
        all.push(*number).expect(rt, "memory");
    }
    all
}

// A list by some of the nodes that come behind it.
fn list(rt: &impl Abort, alloc: Global, keys: &[usize]) -> NodeKind {
    NodeKind::List {
        keys: numbers(rt, alloc, keys),
        uniques: Groups::new(alloc),
        elements: Elements {
            min: None,
            max: None,
        },
    }
}

// A leaf of any text.
fn leaf(rt: &impl Abort, alloc: Global) -> NodeKind {
    let text = LeafType {
        kind: TypeKind::Text,
        limits: None,
    };
    NodeKind::Leaf {
        leaf_type: SharedType::new(alloc, text).expect(rt, "memory"),
        default: None,
        mandatory: false,
        reference: None,
    }
}

fn kind_of(rt: &impl Abort, alloc: Global, kind: &Kind) -> NodeKind {
    match kind {
        Kind::Container => NodeKind::Container { presence: false },
        Kind::Leaf => leaf(rt, alloc),
        Kind::List(keys) => list(rt, alloc, keys),
    }
}

fn node_of(rt: &impl Abort, alloc: Global, row: &Row) -> Node {
    Node {
        parent: row.0,
        case_in: None,
        module: label(rt, alloc, row.1),
        name: label(rt, alloc, row.2),
        kind: kind_of(rt, alloc, &row.3),
    }
}

// Puts a node at the end, if it may stand there.
fn put(rt: &impl Abort, alloc: Global, schema: &mut Schema, row: &Row) {
    let node = node_of(rt, alloc, row);
    if schema.takes(&node) {
        schema.push(node).expect(rt, "memory");
    } else {
        drop(node);
    }
}

/// The tree of the nodes above.
pub fn sample(rt: &impl Abort, alloc: Global) -> Schema {
    let mut schema = Schema::new(alloc, Vec::new(alloc));
    for row in &NODES {
        put(rt, alloc, &mut schema, row);
    }
    schema
}

// Whether the nodes that are taken are eight, and names lead to the first of two (RFC 7950 section 5.5).
fn are_found(schema: &Schema) -> bool {
    schema.len() == 8
        && schema.top("ex", "sys") == Some(0)
        && schema.child(0, "iface") == Some(1)
        && schema.below(0).len() == 3
        && schema.is_key(5)
}

// Whether nothing is said of what stands around and in a node that isn't there.
fn is_nowhere(schema: &Schema, node: usize) -> bool {
    schema.child(node, "other").is_none()
        && schema.below(node).is_empty()
        && schema.parent(node).is_none()
        && schema.keys(node).is_empty()
        && schema.uniques(node).is_empty()
}

// Whether nothing is said of what it holds.
fn is_of_no_type(schema: &Schema, node: usize) -> bool {
    schema.leaf_type(node).is_none()
        && schema.default(node).is_none()
        && schema.reference(node).is_none()
        && schema.elements(node).min.is_none()
        && !schema.is_mandatory(node)
}

// Whether it is no key and in no case, and nothing is said of such a case.
fn is_in_no_case(schema: &Schema, node: usize) -> bool {
    !schema.is_key(node)
        && !schema.is_guard(node)
        && schema.case_in(node).is_none()
        && schema.choice_of(node).is_none()
        && schema.outer_case(node).is_none()
}

fn is_nothing_said(schema: &Schema, node: usize) -> bool {
    is_nowhere(schema, node) && is_of_no_type(schema, node) && is_in_no_case(schema, node)
}

#[test]
fn nodes_are_found(rt: HostRuntime) {
    let schema = sample(&rt, rt.alloc());
    let is_so = are_found(&schema) && is_nothing_said(&schema, 9);
    drop(schema);
    assert!(rt; is_so);
}
