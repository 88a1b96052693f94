//! Paths: their texts and nodes, and the order of their steps.

use crate::tree::{holds, label, sample};
use nm_path::{PathFault, node_of, read_path, write_path};
use nm_schema_tree::Schema;
use nm_types::{Chosen, LeafType, Path, Step, TypeKind, Value, ValueFault, read_value};
use std::alloc::Global;
use std::process::Abort;

/// What the numbers choose: the entry of keys.
pub fn keyed(rt: &impl Abort, alloc: Global, numbers: &[i128]) -> Chosen {
    let mut keys = Vec::new(alloc);
    for number in numbers {
        keys.push(Value::Int(*number)).expect(rt, "memory");
    }
    Chosen::Keys(keys)
}

fn put_step(rt: &impl Abort, alloc: Global, path: &mut Path, names: (&str, &str), chosen: Chosen) {
    let step = Step {
        module: label(rt, alloc, names.0),
        name: label(rt, alloc, names.1),
        chosen,
    };
    path.steps.push(step).expect(rt, "memory");
}

/// The path of the container at the top, and of what is chosen in it.
pub fn path_in(rt: &impl Abort, alloc: Global, names: (&str, &str), chosen: Chosen) -> Path {
    let mut path = Path {
        steps: Vec::new(alloc),
    };
    put_step(rt, alloc, &mut path, ("ex", "sys"), Chosen::Whole);
    put_step(rt, alloc, &mut path, names, chosen);
    path
}

// What a step chooses: the entry of keys of a list, or one of a leaf-list.
enum Choice {
    Keys(&'static [i128]),
    Entry(i128),
}

// A module, a name, and what is chosen; the text that is written of their path, and the number of its node.
type Row = (
    &'static str,
    &'static str,
    Choice,
    &'static str,
    Option<usize>,
);

// Of what no node names nothing is written, and keys past the values are left out (this project's own).
static WRITTEN: [Row; 7] = [
    (
        "ex",
        "iface",
        Choice::Keys(&[1, 2]),
        "/ex:sys/iface[name='1']",
        Some(1),
    ),
    ("ex", "iface", Choice::Keys(&[]), "/ex:sys/iface", Some(1)),
    (
        "ex",
        "route",
        Choice::Keys(&[1]),
        "/ex:sys/route[dest='1']",
        Some(3),
    ),
    ("ex", "nope", Choice::Keys(&[1]), "/ex:sys/nope", None),
    ("m", "iface", Choice::Keys(&[1]), "/ex:sys/iface", None),
    (
        "ex",
        "iface",
        Choice::Entry(-1),
        "/ex:sys/iface[.='-1']",
        Some(1),
    ),
    ("m", "iface", Choice::Entry(1), "/ex:sys/iface[.='1']", None),
];

fn chosen(rt: &impl Abort, alloc: Global, choice: &Choice) -> Chosen {
    match choice {
        Choice::Keys(numbers) => keyed(rt, alloc, numbers),
        Choice::Entry(number) => Chosen::Entry(Value::Int(*number)),
    }
}

// Whether a path is written as a text and leads to a node. The path is used up.
fn is_written(
    rt: &impl Abort,
    alloc: Global,
    schema: &Schema,
    path: Path,
    text: &str,
    node: Option<usize>,
) -> bool {
    let written = write_path(alloc, schema, &path).expect(rt, "memory");
    let is_so = written.as_str() == text && node_of(schema, &path) == node;
    drop(written);
    drop(path);
    is_so
}

fn try_row(rt: &impl Abort, alloc: Global, schema: &Schema, row: &Row) {
    let path = path_in(rt, alloc, (row.0, row.1), chosen(rt, alloc, &row.2));
    holds(rt, is_written(rt, alloc, schema, path, row.3, row.4), row.3);
}

fn try_written(rt: &impl Abort, alloc: Global, schema: &Schema) {
    for row in &WRITTEN {
        try_row(rt, alloc, schema, row);
    }
    let top = Path {
        steps: Vec::new(alloc),
    };
    holds(rt, is_written(rt, alloc, schema, top, "", None), "the top");
}

fn is_lost(alloc: Global, schema: &Schema, text: &str) -> bool {
    matches!(
        read_path(alloc, schema, text).err(),
        Some(PathFault::Unknown)
    )
}

static PATHS: [(&str, bool); 3] = [
    ("/ex:sys/iface/nope", true),
    ("/ex:nope/", false),
    ("/ex:sys/iface", false),
];

// The commands tell the causes of a fault alike.
fn try_lost(rt: &impl Abort, alloc: Global, schema: &Schema) {
    for (text, is_so) in &PATHS {
        holds(rt, is_lost(alloc, schema, text) == *is_so, text);
    }
}

#[test]
fn paths_are_written_and_read(rt: HostRuntime) {
    let alloc = rt.alloc();
    let schema = sample(&rt, alloc);
    try_written(&rt, alloc, &schema);
    try_lost(&rt, alloc, &schema);
    drop(schema);
}

// A type, by its fraction digits, or of a byte for none.
fn kind_of(digits: u8) -> TypeKind {
    if digits == 0 {
        return TypeKind::Integer { low: 0, high: 255 };
    }
    TypeKind::Decimal { digits }
}

// Whether a text spells no value since it is out of range, and not by its form.
fn is_out_of_range(alloc: Global, digits: u8, text: &str) -> bool {
    let leaf_type = LeafType {
        kind: kind_of(digits),
        limits: None,
    };
    let fault = read_value(alloc, &leaf_type, text).err();
    drop(leaf_type);
    matches!(fault, Some(ValueFault::OutOfRange))
}

// RFC 7950 sections 9.2 and 9.3: what the number of digits allows, and what the range of 64 bits.
static VALUES: [(u8, &str, bool); 4] = [
    (0, "256", true),
    (0, "0x10", false),
    (18, "10", true),
    (2, "3.141", false),
];

// These causes are told alike too.
#[test]
fn values_are_out_of_range(rt: HostRuntime) {
    let alloc = rt.alloc();
    for (digits, text, is_so) in &VALUES {
        holds(&rt, is_out_of_range(alloc, *digits, text) == *is_so, text);
    }
}
